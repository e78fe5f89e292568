//! Blocks in hand with their allocator and its device, the oldest first.

ghost use Rattle.std.specs.Prelude.{◌≡◌, ℕ, ◌+◌, ◌<◌, ◌++◌, [], ◌∷◌, All, length, IfOk, IfErr, OnOk, OnErr, take, drop, slice_get, option_copied};
ghost use Rattle.std.specs.FinSet as set;
ghost use Rattle.gpu_alloc_types.specs.Properties.{IsUsable, properties_of};
ghost use Rattle.gpu_alloc.specs.Kept.{AreReady};
ghost use Rattle.gpu_alloc.specs.Owned.{AreOwned};
ghost use Rattle.gpu_alloc.specs.Request.{IsAskable};
ghost use Rattle.gpu_alloc.specs.Served.{Serves, ServesFirst};
ghost use Rattle.gpu_alloc.specs.State.{Block};
ghost use Rattle.gpu_clients.specs.Frames.{beside, LeavesQueued};

use crate::closing::close;
use gpu_alloc::laws::{agrees_at_first, bytes_stay};
use gpu_alloc::{AllocationError, Config, DeviceProperties, GpuAllocator, MemoryBlock, Request};
use gpu_alloc_types::{MemoryObject, ObjectDevice};
use std::alloc::{Allocator, Global};
use std::collections::VecDeque;
use std::marker::Model;

/// Blocks in hand with their allocator and its device, the oldest first. No other block is live.
pub(super) struct Queue<M: MemoryObject, D: ObjectDevice<M>, A: Allocator + Copy = Global> {
    allocator: GpuAllocator<M, A>,
    device: D,
    blocks: VecDeque<MemoryBlock<M>, A>,
}

impl<M: MemoryObject, D: ObjectDevice<M>, A: Allocator + Copy> Model for Queue<M, D, A> {
    ghost use Rattle.std.specs.Prelude.{◌≡◌, length};
    ghost use Rattle.std.specs.FinSet as set;
    ghost use Rattle.gpu_alloc.specs.Agreement.{Agrees};
    ghost use Rattle.gpu_alloc.specs.Kept.{AreReady};
    ghost use Rattle.gpu_alloc.specs.Owned.{AreOwned};
    ghost use Rattle.gpu_clients.specs.Frames.{QueueState, queue_code};

    ghost Value = { QueueState D };

    ghost coded = { queue_code D.code };

    ghost view = { λ q. record { allocator = q.allocator; device = q.device; blocks = q.blocks.items } };

    ghost invariant = { λ q. record {
      agrees : Agrees q.allocator (D.properties q.device) (D.objects q.device);
      owned : AreOwned q.allocator q.blocks.items;
      ready : AreReady (D.properties q.device) (D.objects q.device) q.blocks.items;
      count : set.len q.allocator.live ≡ length q.blocks.items;
    } };
}

impl<M: MemoryObject, D: ObjectDevice<M>, A: Allocator + Copy> Queue<M, D, A> {
    /// A queue without blocks, over a device with these properties. Where host memory is missing, the device comes
    /// back.
    pub(super) fn new(
        alloc: A,
        config: Config,
        props: DeviceProperties<'_>,
        device: D,
    ) -> Result<Self, D>
        requires usable { IsUsable (properties_of props) }
        requires same { D.properties device ≡ properties_of props }
        ensures empty { IfOk result (λ queue. queue.blocks ≡ []) }
        ensures properties { IfOk result (λ queue. queue.allocator.properties ≡ properties_of props.entry) }
        ensures beside { IfOk result (λ queue. (name : ℕ) → beside D.objects queue name ≡ D.objects device name) }
        ensures given_back { IfErr result (λ other. other ≡ device) }
    {
        match GpuAllocator::new(alloc, config, props) {
            Ok(allocator) => {
                agrees_at_first(&allocator, &device);
                Ok(Queue {
                    allocator,
                    device,
                    blocks: VecDeque::new(alloc),
                })
            }
            Err(_) => Err(device),
        }
    }

    /// How many blocks there are.
    pub(super) fn len(&self) -> usize
        ensures { result ≡ length self.now.blocks }
    {
        self.blocks.len()
    }

    /// The block at a place.
    pub(super) fn block(&self, place: usize) -> Option<&MemoryBlock<M>>
        ensures { option_copied result ≡ slice_get self.now.blocks place }
    {
        if place < self.blocks.len() {
            Some(&self.blocks[place])
        } else {
            None
        }
    }

    /// A lemma about blocks in hand: does nothing at run time. It also says that doing nothing leaves all unchanged.
    pub(super) fn keeps_blocks(&self)
        ensures owned { AreOwned self.now.allocator self.now.blocks }
        ensures ready { AreReady (D.properties self.now.device) (D.objects self.now.device) self.now.blocks }
        ensures live { set.len self.now.allocator.live ≡ length self.now.blocks }
        ensures leaves { LeavesQueued D.objects self.now self.now self.now.blocks }
    {
        bytes_stay();
        let _ = &self.device;
    }

    /// Allocates a block for the request, as the last one.
    #[tactic(auto, using(gpu_alloc_block::proofs::Lists::leaves_owned))]
    fn take(&mut self, request: Request) -> Result<(), AllocationError>
        requires askable { IsAskable (self.old.allocator.properties).buffer_device_address request }
        ensures taken { OnOk result ((block : Block) × (self.new.blocks ≡ self.old.blocks ++ block ∷ [])
            × Serves request block) }
        ensures refused { OnErr result (self.new.blocks ≡ self.old.blocks) }
        ensures leaves { LeavesQueued D.objects self.old self.new self.old.blocks }
    {
        self.keeps_blocks();
        if self.blocks.reserve(1).is_err() {
            return Err(AllocationError::OutOfHostMemory);
        }
        match self.allocator.alloc(&mut self.device, request) {
            Ok(block) => {
                self.blocks.push_back_reserved(block);
                Ok(())
            }
            Err(refusal) => Err(refusal),
        }
    }

    /// Allocates a block for each request, in their order, or none.
    #[tactic(auto, using(gpu_alloc::proofs::Served::serves_none))]
    pub(super) fn take_all(&mut self, requests: &[Request]) -> Result<(), AllocationError>
        requires askable { All (IsAskable (self.old.allocator.properties).buffer_device_address) requests.now }
        ensures granted { OnOk result (ServesFirst requests.now (length requests.now) self.old.blocks self.new.blocks) }
        ensures grown { OnOk result (length self.new.blocks ≡ length self.old.blocks + length requests.now) }
        ensures refused { OnErr result (self.new.blocks ≡ self.old.blocks) }
        ensures leaves { LeavesQueued D.objects self.old self.new self.old.blocks }
    {
        self.keeps_blocks();
        let count = self.len();
        for request in requests {
            if let Err(refusal) = self.take(*request) {
                self.dealloc_after(count);
                return Err(refusal);
            }
        }
        Ok(())
    }

    /// Keeps the first `count` blocks and returns the rest.
    fn dealloc_after(&mut self, count: usize)
        ensures blocks { self.new.blocks ≡ take count self.old.blocks }
        ensures leaves { LeavesQueued D.objects self.old self.new self.new.blocks }
    {
        self.keeps_blocks();
        while self.len() > count {
            self.dealloc_last();
        }
    }

    /// Returns the last block.
    #[tactic(auto, using(gpu_alloc_block::proofs::Lists::last_owned))]
    fn dealloc_last(&mut self)
        requires { 0 < length self.old.blocks }
        ensures blocks { (last : Block) × (self.old.blocks ≡ self.new.blocks ++ last ∷ []) }
        ensures leaves { LeavesQueued D.objects self.old self.new self.new.blocks }
    {
        match self.blocks.pop_back() {
            Some(block) => {
                self.allocator.dealloc(&mut self.device, block);
                self.keeps_blocks();
            }
            None => {}
        }
    }

    /// Returns the first `count` blocks.
    pub(super) fn dealloc_first(&mut self, count: usize)
        ensures blocks { self.new.blocks ≡ drop count self.old.blocks }
        ensures leaves { LeavesQueued D.objects self.old self.new self.new.blocks }
    {
        self.keeps_blocks();
        for _ in 0..count {
            self.dealloc_one();
        }
    }

    /// Returns the first block, if there is one.
    fn dealloc_one(&mut self)
        ensures blocks { self.new.blocks ≡ drop 1 self.old.blocks }
        ensures leaves { LeavesQueued D.objects self.old self.new self.new.blocks }
    {
        match self.blocks.pop_front() {
            Some(block) => {
                self.allocator.dealloc(&mut self.device, block);
                self.keeps_blocks();
            }
            None => {}
        }
    }

    /// Returns every block, and then the device.
    pub(super) fn end(mut self) -> D
        ensures { (name : ℕ) → D.objects result name ≡ beside D.objects self name }
    {
        self.dealloc_after(0);
        let Queue {
            allocator,
            device,
            blocks,
        } = self;
        blocks.destroy_empty();
        close(allocator, device)
    }
}
