//! Blocks that a program holds by handles.

ghost use Rattle.std.specs.Prelude.{◌≡◌, ◌≢◌, ℕ, ◌+◌, ◌≤◌, IfOk, IfErr, OnOk, OnErr, IsSome, IsTrue, ◌↔◌, None, option_copied, length};
ghost use Rattle.std.specs.FinMap as map;
ghost use Rattle.std.specs.FinSet as set;
ghost use Rattle.gpu_alloc_types.specs.Properties.{IsUsable, properties_of};
ghost use Rattle.gpu_alloc_block.specs.Contents.{HasSameDeviceBytes, Stores};
ghost use Rattle.gpu_alloc_block.specs.State.{Block};
ghost use Rattle.gpu_alloc.specs.Allocation.{IsGranted, IsInPages};
ghost use Rattle.gpu_alloc.specs.Kept.{AreKept};
ghost use Rattle.gpu_alloc.specs.Request.{IsAskable, IsGranularity};
ghost use Rattle.gpu_clients.specs.Resources.{block_at, FindsBlock, WasGiven, HasEnded, StayEnded, OthersStay};
ghost use Rattle.gpu_clients.specs.Resources.{IsManagerAsBefore, KeepsPagesApart, beside, IsSameBeside, KeepsBytes};
ghost use Rattle.gpu_clients.specs.Staging.{KeepsBuffers};

use crate::closing::close;
use gpu_alloc::laws::{agrees_at_first, bytes_stay, pages_are_not_shared};
use gpu_alloc::{
    AllocationError, Config, DeviceProperties, GpuAllocator, MapError, MemoryBlock, Request,
};
use gpu_alloc_types::{MemoryDevice, MemoryObject, ObjectDevice};
use gpu_slots::SlotMap;
use std::alloc::{Allocator, Global};
use std::marker::Model;

/// A handle of a block: a slot of its manager, and how often the slot was used. Contracts see its number.
///
/// It is valid only for the manager that gave it.
#[derive(Clone, Copy, Debug, PartialEq, Eq, Hash)]
pub struct Handle {
    pub(crate) key: u64,
}

impl Model for Handle {
    ghost use Rattle.std.specs.Prelude.{ℕ};

    ghost Value = { ℕ };

    ghost view = { λ h. h.key };

    ghost inverse = { λ n. record { key = n } };
}

/// Blocks of a device's memory under handles that are never reused. It cannot be dropped: [`end`](ResourceManager::end)
/// ends it.
///
/// A handle is a slot with the slot's generation. So a look-up is one step, and a handle whose block was freed never
/// finds anything again, whatever the slot holds by then. A slot whose 2^32 generations are used up is never used
/// again.
///
/// Its granularity is how many bytes a page has. None of the bytes that were requested for an optimal image
/// ([`create_optimal`]) shares a page with a byte of another block. The granularity never changes.
///
/// [`create_optimal`]: ResourceManager::create_optimal
pub struct ResourceManager<M: MemoryObject, D: ObjectDevice<M>, A: Allocator + Copy = Global> {
    allocator: GpuAllocator<M, A>,
    device: D,
    blocks: SlotMap<MemoryBlock<M>, A>,
    granularity: u64,
}

impl<M: MemoryObject, D: ObjectDevice<M>, A: Allocator + Copy> Model for ResourceManager<M, D, A> {
    ghost use Rattle.gpu_clients.specs.Resources.{ManagerState, manager_code, IsManaged};

    ghost Value = { ManagerState D };

    ghost coded = { manager_code D.code };

    ghost view = { λ m. record {
      allocator = m.allocator;
      device = m.device;
      blocks = m.blocks.live;
      generations = m.blocks.generations;
      granularity = m.granularity;
    } };

    ghost invariant = { λ m.
        IsManaged m.allocator (D.properties m.device) (D.objects m.device) m.blocks.live m.granularity };
}

impl<M: MemoryObject, D: ObjectDevice<M>, A: Allocator + Copy> ResourceManager<M, D, A> {
    /// A manager without blocks, over a device with these properties. Its tables take host memory from `alloc`.
    ///
    /// The properties must be usable (`DeviceProperties::is_usable`) and the device's own. The granularity is 1, with
    /// which an optimal image may lie next to any block. The only error is want of host memory: the device comes back
    /// unchanged.
    pub fn new(alloc: A, config: Config, props: DeviceProperties<'_>, device: D) -> Result<Self, D>
        requires usable { IsUsable (properties_of props) }
        requires same { D.properties device ≡ properties_of props }
        ensures over { IfOk result (λ manager. manager.device ≡ device) }
        ensures empty { IfOk result (λ manager. manager.blocks ≡ map.empty) }
        ensures none { IfOk result (λ manager. (handle : ℕ) → block_at manager handle ≡ None) }
        ensures unused { IfOk result (λ manager. (handle : ℕ) → WasGiven manager handle → ⊥) }
        ensures properties { IfOk result (λ manager. (manager.allocator).properties ≡ properties_of props.entry) }
        ensures granularity { IfOk result (λ manager. manager.granularity ≡ 1) }
        ensures beside { IfOk result (λ manager. (name : ℕ) → beside D.objects manager name ≡ D.objects device name) }
        ensures given_back { IfErr result (λ other. other ≡ device) }
    {
        Self::with_granularity(alloc, config, props, device, 1)
    }

    /// As [`new`](ResourceManager::new), with pages of `granularity` bytes (Vulkan's `bufferImageGranularity`), which
    /// must be a power of two of at most 2^32.
    pub fn with_granularity(
        alloc: A,
        config: Config,
        props: DeviceProperties<'_>,
        device: D,
        granularity: u64,
    ) -> Result<Self, D>
        requires usable { IsUsable (properties_of props) }
        requires same { D.properties device ≡ properties_of props }
        requires granularity { IsGranularity granularity }
        ensures over { IfOk result (λ manager. manager.device ≡ device) }
        ensures empty { IfOk result (λ manager. manager.blocks ≡ map.empty) }
        ensures none { IfOk result (λ manager. (handle : ℕ) → block_at manager handle ≡ None) }
        ensures unused { IfOk result (λ manager. (handle : ℕ) → WasGiven manager handle → ⊥) }
        ensures properties { IfOk result (λ manager. (manager.allocator).properties ≡ properties_of props.entry) }
        ensures granularity { IfOk result (λ manager. manager.granularity ≡ granularity) }
        ensures beside { IfOk result (λ manager. (name : ℕ) → beside D.objects manager name ≡ D.objects device name) }
        ensures given_back { IfErr result (λ other. other ≡ device) }
    {
        match GpuAllocator::new(alloc, config, props) {
            Ok(allocator) => {
                agrees_at_first(&allocator, &device);
                Ok(ResourceManager {
                    allocator,
                    device,
                    blocks: SlotMap::new(alloc),
                    granularity,
                })
            }
            Err(_) => Err(device),
        }
    }

    /// Allocates a block for the request, under a handle that was never given before.
    ///
    /// The request must be askable (`Request::is_askable`, with the device's `buffer_device_address`). The errors are
    /// those of [`GpuAllocator::alloc`], and `OutOfHostMemory` where there is no memory for a handle, or each of the
    /// 2^32 - 1 slots is taken or used up. Nothing has changed then.
    #[tactic(auto, using(crate::proofs::Managed::granted))]
    pub fn create(&mut self, request: Request) -> Result<Handle, AllocationError>
        requires askable { IsAskable ((self.old.allocator).properties).buffer_device_address request }
        ensures fresh { IfOk result (λ handle. WasGiven self.old handle → ⊥) }
        ensures was_free { IfOk result (λ handle. block_at self.old handle ≡ None) }
        ensures granted { IfOk result (λ handle.
            FindsBlock self.new handle (IsGranted self.old.allocator request self.new.allocator)) }
        ensures others { IfOk result (OthersStay self.old self.new) }
        ensures count { IfOk result (λ handle. map.len self.new.blocks ≡ map.len self.old.blocks + 1) }
        ensures refused { OnErr result (IsManagerAsBefore self.old self.new) }
        ensures bytes { KeepsBytes D.objects self.old self.new }
        ensures ended { StayEnded self.old self.new }
        ensures properties { (self.new.allocator).properties ≡ (self.old.allocator).properties }
        ensures granularity { self.new.granularity ≡ self.old.granularity }
        ensures beside { IsSameBeside D.objects self.old self.new }
        ensures offers { D.properties self.new.device ≡ D.properties self.old.device }
    {
        bytes_stay();
        if self.blocks.reserve().is_err() {
            return Err(AllocationError::OutOfHostMemory);
        }
        let block = self.allocator.alloc(&mut self.device, request)?;
        Ok(Handle {
            key: self.blocks.insert_reserved(block),
        })
    }

    /// Allocates a block as [`create`](ResourceManager::create) does, for an image that is not linear. In a shared
    /// object it begins at a page and has whole pages for the request's size. So no page with one of its first `size`
    /// bytes has a byte of another block ([`keeps_pages`](ResourceManager::keeps_pages)).
    ///
    /// The request must be askable, as for `create`. The errors are those of [`GpuAllocator::alloc_optimal`], and
    /// `OutOfHostMemory` as for `create`. Nothing has changed then.
    #[tactic(auto, using(crate::proofs::Managed::granted))]
    pub fn create_optimal(&mut self, request: Request) -> Result<Handle, AllocationError>
        requires askable { IsAskable ((self.old.allocator).properties).buffer_device_address request }
        ensures fresh { IfOk result (λ handle. WasGiven self.old handle → ⊥) }
        ensures was_free { IfOk result (λ handle. block_at self.old handle ≡ None) }
        ensures granted { IfOk result (λ handle.
            FindsBlock self.new handle (IsGranted self.old.allocator request self.new.allocator)) }
        ensures pages { IfOk result (λ handle.
            FindsBlock self.new handle (IsInPages self.new.granularity request.size)) }
        ensures others { IfOk result (OthersStay self.old self.new) }
        ensures count { IfOk result (λ handle. map.len self.new.blocks ≡ map.len self.old.blocks + 1) }
        ensures refused { OnErr result (IsManagerAsBefore self.old self.new) }
        ensures bytes { KeepsBytes D.objects self.old self.new }
        ensures ended { StayEnded self.old self.new }
        ensures properties { (self.new.allocator).properties ≡ (self.old.allocator).properties }
        ensures granularity { self.new.granularity ≡ self.old.granularity }
        ensures beside { IsSameBeside D.objects self.old self.new }
        ensures offers { D.properties self.new.device ≡ D.properties self.old.device }
    {
        bytes_stay();
        if self.blocks.reserve().is_err() {
            return Err(AllocationError::OutOfHostMemory);
        }
        let pages = self.granularity;
        let block = self
            .allocator
            .alloc_optimal(&mut self.device, request, None, pages)?;
        Ok(Handle {
            key: self.blocks.insert_reserved(block),
        })
    }

    /// Frees the block of a handle, mapped or not, and returns whether the handle had one. It allocates nothing and
    /// cannot fail. The handle never finds anything again.
    #[tactic(auto, using(crate::proofs::Managed::gone))]
    pub fn destroy(&mut self, handle: Handle) -> bool
        ensures found { IsTrue result ↔ IsSome (block_at self.old handle) }
        ensures gone { IsTrue result → HasEnded self.new handle }
        ensures others { OthersStay self.old self.new handle }
        ensures count { IsTrue result → map.len self.new.blocks + 1 ≡ map.len self.old.blocks }
        ensures unchanged { (IsTrue result → ⊥) → self.new ≡ self.old }
        ensures bytes { KeepsBytes D.objects self.old self.new }
        ensures ended { StayEnded self.old self.new }
        ensures properties { (self.new.allocator).properties ≡ (self.old.allocator).properties }
        ensures granularity { self.new.granularity ≡ self.old.granularity }
        ensures beside { IsSameBeside D.objects self.old self.new }
        ensures offers { D.properties self.new.device ≡ D.properties self.old.device }
    {
        bytes_stay();
        match self.blocks.remove(handle.key) {
            Some(block) => {
                self.allocator.dealloc(&mut self.device, block);
                self.keeps_blocks();
                true
            }
            None => false,
        }
    }

    /// The block of a handle, or `None` where it has none.
    pub fn block(&self, handle: Handle) -> Option<&MemoryBlock<M>>
        ensures { option_copied result ≡ block_at self.now handle }
    {
        self.blocks.get(handle.key)
    }

    /// How many blocks there are.
    pub fn len(&self) -> usize
        ensures { result ≡ map.len self.now.blocks }
    {
        self.blocks.len()
    }

    /// The device.
    pub fn device(&self) -> &D
        ensures { result.now ≡ self.now.device }
    {
        &self.device
    }

    /// A lemma about every manager, whatever calls were made: does nothing at run time. Each handle's block is live and
    /// agrees with the device, the blocks of two handles share no byte, and nothing else is live.
    pub fn keeps_blocks(&self)
        ensures kept { AreKept self.now.allocator (D.properties self.now.device) (D.objects self.now.device)
            (map.get self.now.blocks) }
        ensures live { set.len self.now.allocator.live ≡ map.len self.now.blocks }
    {
        let _ = &self.device;
    }

    /// A lemma about every manager, whatever calls were made: does nothing at run time. No page of the granularity of
    /// one object holds one of the first `size` bytes, as requested, of a block from
    /// [`create_optimal`](ResourceManager::create_optimal) and a byte of another block. This stays so because the block
    /// under a handle stays as it was granted (`others` of each call), and so does the granularity.
    pub fn keeps_pages(&self)
        ensures granularity { IsGranularity self.now.granularity }
        ensures apart { KeepsPagesApart self.now }
    {
        pages_are_not_shared();
        let _ = &self.device;
    }

    /// Frees every block, and then returns the device, which no longer holds anything of the manager's. It allocates
    /// nothing and cannot fail.
    pub fn end(self) -> D
        ensures beside { (name : ℕ) → D.objects result name ≡ beside D.objects self name }
        ensures properties { D.properties result ≡ D.properties self.device }
    {
        let ResourceManager {
            mut allocator,
            mut device,
            blocks,
            granularity: _,
        } = self;
        let mut blocks = blocks.into_values();
        while let Some(block) = blocks.next() {
            allocator.dealloc(&mut device, block);
        }
        blocks.destroy_empty();
        close(allocator, device)
    }
}

impl<M: MemoryObject, D: MemoryDevice<M>, A: Allocator + Copy> ResourceManager<M, D, A> {
    /// Writes bytes to the start of a handle's block.
    #[tactic(auto, using(crate::proofs::Managed::moved, crate::proofs::Managed::put_again))]
    pub(crate) fn write(&mut self, handle: Handle, bytes: &[u8]) -> Result<(), MapError>
        requires { FindsBlock self.old handle (λ b. length bytes.now ≤ b.size) }
        ensures stored { OnOk result (FindsBlock self.old handle (λ b. Stores b 0 bytes.now (D.objects self.new.device))) }
        ensures blocks { self.new.blocks ≡ self.old.blocks }
        ensures keeps { KeepsBuffers D.properties D.objects self.old self.new (λ other. other ≢ handle) }
    {
        match self.blocks.get_mut(handle.key) {
            Some(block) => block.write_bytes(&mut self.device, 0, bytes),
            None => unreachable!(),
        }
    }

    /// Reads bytes of a handle's block.
    #[tactic(auto, using(crate::proofs::Managed::moved, crate::proofs::Managed::put_again))]
    pub(crate) fn read(
        &mut self,
        handle: Handle,
        offset: u64,
        bytes: &mut [u8],
    ) -> Result<(), MapError>
        requires { FindsBlock self.old handle (λ b. offset + length bytes.old ≤ b.size) }
        ensures told { OnOk result (FindsBlock self.old handle (λ b. Stores b offset bytes.new (D.objects self.old.device))) }
        ensures refused { OnErr result (bytes.new ≡ bytes.old) }
        ensures blocks { self.new.blocks ≡ self.old.blocks }
        ensures unmoved { (c : Block) → HasSameDeviceBytes c (D.objects self.old.device) (D.objects self.new.device) }
        ensures keeps { KeepsBuffers D.properties D.objects self.old self.new (λ other. other ≢ handle) }
    {
        match self.blocks.get_mut(handle.key) {
            Some(block) => block.read_bytes(&mut self.device, offset, bytes),
            None => unreachable!(),
        }
    }
}
