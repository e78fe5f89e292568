//! An allocator over the simulated device, with the blocks that it gave out, and objects that the device made for it.

ghost use Rattle.std.specs.Prelude.{◌≡◌, ◌+◌, ◌≤◌, ◌<◌, ◌^◌, length, vec_len, IfSome, IfOk, IfErr, OnErr, None, IsTrue};
ghost use Rattle.std.specs.FinMap as map;
ghost use Rattle.gpu_alloc_types.specs.Flags.{property_bits};
ghost use Rattle.gpu_alloc_types.specs.Properties.{IsUsable, properties_of};
ghost use Rattle.gpu_alloc.specs.Agreement.{Agrees, BlockAgrees};
ghost use Rattle.gpu_alloc.specs.Importing.{MayBeImported};
ghost use Rattle.gpu_alloc.specs.Owned.{Leaves};
ghost use Rattle.gpu_alloc.specs.Request.{IsGranularity};
ghost use Rattle.gpu_alloc.specs.State.{IsOwned};
ghost use Rattle.gpu_alloc_tests.specs.Bench.{HasTwoTypes};

use super::offers::{again, are_usable, offer};
use super::same::{below, holds, same};
use gpu_alloc::laws::{
    agrees_at_first, imports_agree, made_objects_may_be_imported, which_objects_may_be_imported,
};
use gpu_alloc::{
    AllocationError, AllocationFlags, Config, Dedicated, DeviceProperties, FreeRange, GpuAllocator,
    MemoryBlock, MemoryPropertyFlags, MemoryType, Request,
};
use gpu_alloc_types::{MemoryDevice, MemoryObject};
use gpu_sim::{ScarceMemory, Sim, SimMemory};
use std::alloc::{AllocError, Allocator, Global};
use std::marker::Model;
use std::process::Abort;
use std::test::Fail;

/// What is held: how many objects of the device, how many of the allocator, how many more may be, and how many bytes of
/// the heap.
#[derive(Clone, Copy, Debug, PartialEq, Eq)]
pub(super) struct Held {
    pub(super) objects: usize,
    pub(super) held: u32,
    pub(super) remaining: u32,
    pub(super) used: u128,
}

/// An allocator over a simulated device with two memory types that are alike, and the blocks that it gave out, all of
/// the first type. Contracts see nothing of it.
pub(super) struct Bench<A: Allocator + Copy = Global> {
    pub(super) allocator: GpuAllocator<SimMemory<A>, A>,
    pub(super) device: Sim<A>,
    pub(super) props: MemoryPropertyFlags,
    pub(super) blocks: Vec<MemoryBlock<SimMemory<A>>, A>,
}

impl<A: Allocator + Copy> Model for Bench<A> {
    ghost use Rattle.std.specs.Prelude.{ℕ};
    ghost use Rattle.gpu_alloc.specs.Agreement.{Agrees};
    ghost use Rattle.gpu_alloc_tests.specs.Bench.{HasTwoTypes};
    ghost use Rattle.gpu_alloc_types.specs.Flags.{property_bits};
    ghost use Rattle.gpu_sim.specs.Sim.{objects_of};

    ghost Value = { ℕ };

    ghost view = { λ _. 0 };

    ghost invariant = { λ b. Agrees b.allocator (b.device).properties (objects_of b.device) ×
        HasTwoTypes (b.allocator).properties (property_bits b.props) };
}

impl<A: Allocator + Copy> Bench<A> {
    /// A bench without blocks, with the potato's sizes, over a device with this memory type and this atom. It has room
    /// for eight blocks.
    pub(super) fn new(
        rt: &impl Abort,
        alloc: A,
        memory_type: MemoryType,
        atom: u64,
    ) -> Result<Self, Fail> {
        let types = [memory_type, memory_type];
        let offered = offer(&types, atom);
        are_usable(rt, &offered);
        below(rt, 0, offered.memory_heaps.len(), "no heap");
        below(rt, 1, offered.memory_types.len(), "no second memory type");
        let blocks = Vec::with_capacity(alloc, 8)?;
        match device_of(alloc, &offered) {
            Ok(device) => Bench::over(alloc, offered, device, blocks),
            Err(e) => {
                blocks.destroy_empty();
                Err(Fail::from(e))
            }
        }
    }

    /// A bench over a fresh device that offers these, with room for blocks.
    fn over(
        alloc: A,
        offered: DeviceProperties<'_>,
        device: Sim<A>,
        blocks: Vec<MemoryBlock<SimMemory<A>>, A>,
    ) -> Result<Self, Fail>
        requires usable { IsUsable (properties_of offered) }
        requires heap { 0 < length offered.memory_heaps.now }
        requires second { 1 < length offered.memory_types.now }
        requires same { device.properties ≡ properties_of offered }
        requires empty { vec_len blocks ≡ 0 }
    {
        let props = offered.memory_types[0].props;
        match GpuAllocator::new(alloc, Config::i_am_potato(), offered) {
            Ok(allocator) => {
                agrees_at_first(&allocator, &device);
                Ok(Bench {
                    allocator,
                    device,
                    props,
                    blocks,
                })
            }
            Err(_) => {
                blocks.destroy_empty();
                drop(device);
                Err(Fail::from("no memory for an allocator"))
            }
        }
    }

    /// What is held.
    pub(super) fn held(&self) -> Held {
        let (held, remaining, used) = counts(&self.allocator);
        Held {
            objects: self.device.objects(),
            held,
            remaining,
            used,
        }
    }

    /// How many bytes the heap has left.
    pub(super) fn budget(&self) -> u64 {
        self.allocator.heap_budget(0)
    }

    /// Allocates a block, perhaps with a hint, and keeps it. Keeping it takes no memory.
    pub(super) fn take(
        &mut self,
        rt: &impl Abort,
        request: Request,
        hint: Option<Dedicated>,
    ) -> Result<(), AllocationError> {
        let block = ask(rt, &mut self.allocator, &mut self.device, request, hint)?;
        keep(rt, &mut self.blocks, block);
        Ok(())
    }

    /// Allocates a block from what is held, perhaps with a hint and a granularity, and keeps it. Returns the block's
    /// memory type and where it starts, if there was a place.
    pub(super) fn take_held(
        &mut self,
        rt: &impl Abort,
        request: Request,
        hint: Option<Dedicated>,
        granularity: Option<u64>,
    ) -> Result<Option<(u32, u64)>, AllocationError> {
        let device = &mut self.device;
        match ask_held(rt, &mut self.allocator, device, request, hint, granularity)? {
            Some(block) => {
                let came = (block.memory_type(), block.offset());
                keep(rt, &mut self.blocks, block);
                Ok(Some(came))
            }
            None => Ok(None),
        }
    }

    /// Whether the allocator holds an object of this name, and owns the latest block.
    pub(super) fn holds_and_owns(&self, rt: &impl Abort, object: u64) -> (bool, bool) {
        let block = self.blocks.last().expect(rt, "no block");
        (self.allocator.holds(object), self.allocator.owns(block))
    }

    /// Whether the allocator owns each block of another bench.
    pub(super) fn owns_all_of(&self, other: &Bench<A>) -> bool {
        other.blocks.iter().all(|block| self.allocator.owns(block))
    }

    /// Exchanges the blocks with those of another bench.
    pub(super) fn swap_blocks(&mut self, other: &mut Bench<A>) {
        std::mem::swap(&mut self.blocks, &mut other.blocks);
    }

    /// Sets how many more objects may be held.
    pub(super) fn allow(&mut self, rt: &impl Abort, remaining: u32) {
        allow(rt, &mut self.allocator, &self.device, remaining);
    }

    /// Has the device make an object of 64 bytes, and imports it. Where either lacks memory, what is held is as before,
    /// and it is served with ample memory. Returns what was refused, if anything was: an object or an import.
    pub(super) fn import_or_again(
        &mut self,
        rt: &impl Abort,
        memory: &ScarceMemory,
    ) -> Option<&'static str> {
        let before = self.held();
        if let Some(object) = make(&self.allocator, &mut self.device, whole(64)) {
            let device = &self.device;
            let allocator = &mut self.allocator;
            let (refused, block) = import_or_again(
                rt, memory, allocator, device, object, self.props,
            );
            keep(rt, &mut self.blocks, block);
            return refused;
        }
        same(rt, "what is held", &self.held(), &before);
        memory.lift();
        self.import(rt, whole(64));
        Some("an object")
    }

    /// An object of the device's own, of which this part may be imported.
    pub(super) fn import(&mut self, rt: &impl Abort, part: Part) {
        let device = &mut self.device;
        let block = make_and_import(rt, &mut self.allocator, device, self.props, part);
        keep(rt, &mut self.blocks, block);
    }

    /// Allocates a block, and calls it where no memory is left.
    pub(super) fn take_and_call(
        &mut self,
        rt: &impl Abort,
        memory: &ScarceMemory,
        request: Request,
        hint: Dedicated,
    ) {
        let answer = ask(
            rt,
            &mut self.allocator,
            &mut self.device,
            request,
            Some(hint),
        );
        let mut block = answer.expect(rt, "refused with ample memory");
        call_without_memory(rt, memory, &self.allocator, &mut self.device, &mut block);
        keep(rt, &mut self.blocks, block);
    }

    /// Imports an object of 64 bytes, and calls its block where no memory is left.
    pub(super) fn import_and_call(&mut self, rt: &impl Abort, memory: &ScarceMemory) {
        let device = &mut self.device;
        let mut block = make_and_import(rt, &mut self.allocator, device, self.props, whole(64));
        call_without_memory(rt, memory, &self.allocator, &mut self.device, &mut block);
        keep(rt, &mut self.blocks, block);
    }

    /// The free ranges of a memory type.
    pub(super) fn free_ranges(
        &self,
        rt: &impl Abort,
        memory_type: u32,
    ) -> Result<Vec<FreeRange, A>, AllocationError> {
        holds(rt, memory_type < 2, "no such memory type");
        self.allocator.free_ranges(memory_type)
    }

    /// Returns the block at this place of those that are kept. The latest takes its place.
    pub(super) fn dealloc_at(&mut self, rt: &impl Abort, at: usize) {
        below(rt, at, self.blocks.len(), "no such block");
        let block = self.blocks.swap_remove(at);
        dealloc(rt, &mut self.allocator, &mut self.device, block);
    }

    /// Returns all blocks.
    pub(super) fn give_all_back(&mut self, rt: &impl Abort) {
        for _ in 0..self.blocks.len() {
            self.dealloc_at(rt, 0);
        }
    }

    /// Cleans up, and ends the allocator. Nothing is held then.
    pub(super) fn end(mut self, rt: &impl Abort, remaining: u32) {
        self.clean();
        let nothing = Held {
            objects: 0,
            held: 0,
            remaining,
            used: 0,
        };
        same(rt, "what is held at the end", &self.held(), &nothing);
        self.close(rt);
    }

    /// Releases what free lists keep.
    fn clean(&mut self) {
        clean(&mut self.allocator, &mut self.device);
    }

    /// Ends the allocator, which holds nothing.
    fn close(self, rt: &impl Abort) {
        let Bench {
            allocator,
            device,
            props: _,
            blocks,
        } = self;
        drop(device);
        assert!(rt; blocks.is_empty());
        blocks.destroy_empty();
        close(rt, allocator);
    }
}

/// A fresh device that offers these.
fn device_of<A: Allocator + Copy>(
    alloc: A,
    offered: &DeviceProperties<'_>,
) -> Result<Sim<A>, AllocError>
    ensures { IfOk result (λ device. device.properties ≡ properties_of offered.now) }
{
    Sim::new(alloc, again(offered))
}

/// Ends an allocator, which holds nothing.
pub(super) fn close<M: MemoryObject, A: Allocator>(rt: &impl Abort, allocator: GpuAllocator<M, A>) {
    assert!(rt; allocator.held_objects() == 0);
    allocator.close();
}

/// Keeps a block where there is a place for it.
fn keep<M: MemoryObject, A: Allocator>(
    rt: &impl Abort,
    blocks: &mut Vec<MemoryBlock<M>, A>,
    block: MemoryBlock<M>,
) {
    below(rt, blocks.len(), blocks.capacity(), "no place for a block");
    blocks.push_reserved(block);
}

/// Asks for a block, perhaps with a hint.
fn ask<M: MemoryObject, D: MemoryDevice<M>, A: Allocator>(
    rt: &impl Abort,
    allocator: &mut GpuAllocator<M, A>,
    device: &mut D,
    request: Request,
    hint: Option<Dedicated>,
) -> Result<MemoryBlock<M>, AllocationError>
    requires agrees { Agrees allocator.old (D.properties device.old) (D.objects device.old) }
    ensures agrees { Agrees allocator.new (D.properties device.new) (D.objects device.new) }
    ensures ready { IfOk result (λ block. BlockAgrees block (D.properties device.new) (D.objects device.new)) }
    ensures owned { IfOk result (IsOwned allocator.new) }
    ensures leaves { Leaves allocator.old allocator.new }
{
    holds(
        rt,
        request.is_askable(false),
        "a request that may not be asked",
    );
    match hint {
        None => allocator.alloc(device, request),
        Some(hint) => allocator.alloc_with_dedicated(device, request, hint),
    }
}

/// Asks for a block of what is held, perhaps with a hint and a granularity.
fn ask_held<M: MemoryObject, D: MemoryDevice<M>, A: Allocator>(
    rt: &impl Abort,
    allocator: &mut GpuAllocator<M, A>,
    device: &mut D,
    request: Request,
    hint: Option<Dedicated>,
    granularity: Option<u64>,
) -> Result<Option<MemoryBlock<M>>, AllocationError>
    requires agrees { Agrees allocator.old (D.properties device.old) (D.objects device.old) }
    ensures agrees { Agrees allocator.new (D.properties device.new) (D.objects device.new) }
    ensures leaves { Leaves allocator.old allocator.new }
{
    holds(
        rt,
        request.is_askable(false),
        "a request that may not be asked",
    );
    has_granularity(rt, granularity);
    allocator.alloc_held(device, request, hint, granularity)
}

/// A granularity, if there is one, must be a power of two of at most 2^32.
fn has_granularity(rt: &impl Abort, granularity: Option<u64>)
    ensures { IfSome granularity IsGranularity }
{
    if let Some(page) = granularity {
        holds(rt, page.is_power_of_two(), "a granularity of no pages");
        holds(rt, page <= 1 << 32, "a granularity that is too large");
    }
}

/// Sets how many more objects may be held.
fn allow<M: MemoryObject, D: MemoryDevice<M>, A: Allocator>(
    rt: &impl Abort,
    allocator: &mut GpuAllocator<M, A>,
    device: &D,
    remaining: u32,
)
    requires agrees { Agrees allocator.old (D.properties device.now) (D.objects device.now) }
    ensures agrees { Agrees allocator.new (D.properties device.now) (D.objects device.now) }
    ensures properties { allocator.new.properties ≡ allocator.old.properties }
{
    let _ = device;
    let held = u64::from(allocator.held_objects());
    holds(
        rt,
        u64::from(remaining) + held < 1 << 32,
        "too many objects",
    );
    allocator.set_remaining_allocations(remaining);
}

/// Returns a block, which the allocator must own.
pub(super) fn dealloc<M: MemoryObject, D: MemoryDevice<M>, A: Allocator>(
    rt: &impl Abort,
    allocator: &mut GpuAllocator<M, A>,
    device: &mut D,
    block: MemoryBlock<M>,
)
    requires agrees { Agrees allocator.old (D.properties device.old) (D.objects device.old) }
    ensures agrees { Agrees allocator.new (D.properties device.new) (D.objects device.new) }
    ensures properties { allocator.new.properties ≡ allocator.old.properties }
{
    holds(rt, allocator.owns(&block), "a block that is not owned");
    allocator.dealloc(device, block);
}

/// Releases what free lists keep.
pub(super) fn clean<M: MemoryObject, D: MemoryDevice<M>, A: Allocator>(
    allocator: &mut GpuAllocator<M, A>,
    device: &mut D,
)
    requires agrees { Agrees allocator.old (D.properties device.old) (D.objects device.old) }
    ensures agrees { Agrees allocator.new (D.properties device.new) (D.objects device.new) }
    ensures properties { allocator.new.properties ≡ allocator.old.properties }
{
    allocator.cleanup(device);
}

/// From now on no memory is left.
pub(super) fn leave_nothing(rt: &impl Abort, memory: &ScarceMemory) {
    holds(rt, memory.leave(0).is_ok(), "the host lacks memory");
}

/// Maps the first bytes of a block, and unmaps it.
fn map_and_unmap<M: MemoryObject, D: MemoryDevice<M>, A: Allocator>(
    rt: &impl Abort,
    allocator: &GpuAllocator<M, A>,
    device: &mut D,
    block: &mut MemoryBlock<M>,
)
    requires agrees { Agrees allocator.now (D.properties device.old) (D.objects device.old) }
    requires owned { IsOwned allocator.now block.old }
    requires ready { BlockAgrees block.old (D.properties device.old) (D.objects device.old) }
    requires fit { 4 ≤ block.old.size }
    ensures agrees { Agrees allocator.now (D.properties device.new) (D.objects device.new) }
    ensures owned { IsOwned allocator.now block.new }
    ensures ready { BlockAgrees block.new (D.properties device.new) (D.objects device.new) }
    ensures size { block.new.size ≡ block.old.size }
{
    let _ = allocator;
    let mapping = block.map(device, 0, 4).ok();
    let mapped = (mapping.is_some(), block.is_mapped(), block.mapping());
    let unmapped = (block.unmap(device), block.is_mapped());
    same(rt, "mapped", &mapped, &(true, true, mapping));
    same(rt, "unmapped", &unmapped, &(true, false));
}

/// Calls a block of four bytes or more where no memory is left. Then memory is ample.
fn call_without_memory<M: MemoryObject, D: MemoryDevice<M>, A: Allocator>(
    rt: &impl Abort,
    memory: &ScarceMemory,
    allocator: &GpuAllocator<M, A>,
    device: &mut D,
    block: &mut MemoryBlock<M>,
)
    requires agrees { Agrees allocator.now (D.properties device.old) (D.objects device.old) }
    requires owned { IsOwned allocator.now block.old }
    requires ready { BlockAgrees block.old (D.properties device.old) (D.objects device.old) }
    ensures agrees { Agrees allocator.now (D.properties device.new) (D.objects device.new) }
{
    holds(
        rt,
        block.size() >= 4,
        "a block of fewer bytes than are written",
    );
    leave_nothing(rt, memory);
    map_and_unmap(rt, allocator, device, block);
    write_and_read(rt, allocator, device, block);
    memory.lift();
}

/// Writes the first bytes of a block, and reads them.
fn write_and_read<M: MemoryObject, D: MemoryDevice<M>, A: Allocator>(
    rt: &impl Abort,
    allocator: &GpuAllocator<M, A>,
    device: &mut D,
    block: &mut MemoryBlock<M>,
)
    requires agrees { Agrees allocator.now (D.properties device.old) (D.objects device.old) }
    requires owned { IsOwned allocator.now block.old }
    requires ready { BlockAgrees block.old (D.properties device.old) (D.objects device.old) }
    requires fit { 4 ≤ block.old.size }
    ensures agrees { Agrees allocator.now (D.properties device.new) (D.objects device.new) }
{
    let _ = allocator;
    let mut bytes = [0; 4];
    let written = block.write_bytes(device, 0, &[1, 2, 3, 4]).is_ok();
    let read = block.read_bytes(device, 0, &mut bytes).is_ok();
    same(rt, "written and read", &(written, read), &(true, true));
    same(rt, "the bytes", &bytes, &[1, 2, 3, 4]);
}

/// Imports an object of 64 bytes, and once more with ample memory where memory is missing: then the object came back,
/// and what is held is as before. Returns what was refused, if anything was.
fn import_or_again<M: MemoryObject, D: MemoryDevice<M>, A: Allocator>(
    rt: &impl Abort,
    memory: &ScarceMemory,
    allocator: &mut GpuAllocator<M, A>,
    device: &D,
    object: M,
    props: MemoryPropertyFlags,
) -> (Option<&'static str>, MemoryBlock<M>)
    requires offered { HasTwoTypes allocator.old.properties (property_bits props) }
    requires unheld { map.get allocator.old.held (M.object object) ≡ None }
    requires agrees { Agrees allocator.old (D.properties device.now) (D.objects device.now) }
    requires may { MayBeImported (D.properties device.now) (D.objects device.now) (M.object object) 0 0 64 }
    ensures agrees { Agrees allocator.new (D.properties device.now) (D.objects device.now) }
    ensures properties { allocator.new.properties ≡ allocator.old.properties }
{
    let before = (object.object(), false, counts(allocator));
    match import(rt, allocator, device, object, props, whole(64)) {
        Ok(block) => (None, block),
        Err(handed) => {
            let name = handed.object();
            let came = (name, allocator.holds(name), counts(allocator));
            same(rt, "an object that came back", &came, &before);
            memory.lift();
            let block = import_again(rt, allocator, device, handed, props);
            (Some("an import"), block)
        }
    }
}

/// Imports an object of 64 bytes that came back.
fn import_again<M: MemoryObject, D: MemoryDevice<M>, A: Allocator>(
    rt: &impl Abort,
    allocator: &mut GpuAllocator<M, A>,
    device: &D,
    object: M,
    props: MemoryPropertyFlags,
) -> MemoryBlock<M>
    requires offered { HasTwoTypes allocator.old.properties (property_bits props) }
    requires unheld { map.get allocator.old.held (M.object object) ≡ None }
    requires agrees { Agrees allocator.old (D.properties device.now) (D.objects device.now) }
    requires may { MayBeImported (D.properties device.now) (D.objects device.now) (M.object object) 0 0 64 }
    ensures agrees { Agrees allocator.new (D.properties device.now) (D.objects device.now) }
    ensures properties { allocator.new.properties ≡ allocator.old.properties }
{
    match import(rt, allocator, device, object, props, whole(64)) {
        Ok(block) => block,
        Err(_) => panic!(rt; "refused with ample memory"),
    }
}

/// An object of this many bytes that the device makes, and the part of it that is imported, which ends where the object
/// does.
#[derive(Clone, Copy)]
pub(super) struct Part {
    pub(super) object: u64,
    pub(super) offset: u64,
    pub(super) size: u64,
}

/// The whole of an object.
pub(super) fn whole(size: u64) -> Part
    ensures { result ≡ record { object = size; offset = 0; size = size } }
{
    Part {
        object: size,
        offset: 0,
        size,
    }
}

/// Whether it is a part that ends where its object does.
fn is_end(part: Part) -> bool
    ensures some { IsTrue result → 0 < part.size }
    ensures ends { IsTrue result → part.offset + part.size ≡ part.object }
    ensures fits { IsTrue result → part.offset + part.size < 2 ^ 64 }
{
    let end = u128::from(part.offset) + u128::from(part.size);
    part.size > 0 && end == u128::from(part.object)
}

/// Imports a part of an object that the device makes for it.
fn make_and_import<M: MemoryObject, D: MemoryDevice<M>, A: Allocator>(
    rt: &impl Abort,
    allocator: &mut GpuAllocator<M, A>,
    device: &mut D,
    props: MemoryPropertyFlags,
    part: Part,
) -> MemoryBlock<M>
    requires offered { HasTwoTypes allocator.old.properties (property_bits props) }
    requires agrees { Agrees allocator.old (D.properties device.old) (D.objects device.old) }
    ensures agrees { Agrees allocator.new (D.properties device.new) (D.objects device.new) }
    ensures ready { BlockAgrees result (D.properties device.new) (D.objects device.new) }
    ensures owned { IsOwned allocator.new result }
    ensures properties { allocator.new.properties ≡ allocator.old.properties }
{
    holds(rt, is_end(part), "a part that ends before its object");
    let memory = make(allocator, device, part).expect(rt, "no object");
    match import(rt, allocator, device, memory, props, part) {
        Ok(block) => block,
        Err(_) => panic!(rt; "no import"),
    }
}

/// An object that the device makes, of which a part may be imported.
fn make<M: MemoryObject, D: MemoryDevice<M>, A: Allocator>(
    allocator: &GpuAllocator<M, A>,
    device: &mut D,
    part: Part,
) -> Option<M>
    requires known { 0 < length (allocator.now.properties).memory_types }
    requires some { 0 < part.size }
    requires ends { part.offset + part.size ≡ part.object }
    requires agrees { Agrees allocator.now (D.properties device.old) (D.objects device.old) }
    ensures agrees { Agrees allocator.now (D.properties device.new) (D.objects device.new) }
    ensures unheld { IfSome result (λ memory. map.get allocator.now.held (M.object memory) ≡ None) }
    ensures may { IfSome result (λ memory. MayBeImported (D.properties device.new) (D.objects device.new)
        (M.object memory) 0 part.offset part.size) }
{
    which_objects_may_be_imported();
    let answer = device.allocate_memory(part.object, 0, AllocationFlags::empty());
    made_objects_may_be_imported(allocator, device, &answer);
    answer.ok()
}

/// Imports a part of an object of the device's.
fn import<M: MemoryObject, D: MemoryDevice<M>, A: Allocator>(
    rt: &impl Abort,
    allocator: &mut GpuAllocator<M, A>,
    device: &D,
    memory: M,
    props: MemoryPropertyFlags,
    part: Part,
) -> Result<MemoryBlock<M>, M>
    requires offered { HasTwoTypes allocator.old.properties (property_bits props) }
    requires some { 0 < part.size }
    requires ends { part.offset + part.size < 2 ^ 64 }
    requires unheld { map.get allocator.old.held (M.object memory) ≡ None }
    requires agrees { Agrees allocator.old (D.properties device.now) (D.objects device.now) }
    requires may { MayBeImported (D.properties device.now) (D.objects device.now) (M.object memory) 0 part.offset
        part.size }
    ensures agrees { IfOk result (λ _. Agrees allocator.new (D.properties device.now) (D.objects device.now)) }
    ensures ready { IfOk result (λ block. BlockAgrees block (D.properties device.now) (D.objects device.now)) }
    ensures owned { IfOk result (IsOwned allocator.new) }
    ensures properties { allocator.new.properties ≡ allocator.old.properties }
    ensures refused { OnErr result (allocator.new ≡ allocator.old) }
    ensures handed_back { IfErr result (λ handed. handed ≡ memory) }
{
    let _ = device;
    holds(
        rt,
        allocator.remaining_allocations() > 0,
        "no object remains",
    );
    let block = allocator.import_memory(memory, 0, props, part.offset, part.size)?;
    imports_agree();
    Ok(block)
}

/// How many objects are held and how many more may be, and how many bytes are held of the first heap.
fn counts<M: MemoryObject, A: Allocator>(allocator: &GpuAllocator<M, A>) -> (u32, u32, u128)
    requires { 0 < length (allocator.now.properties).memory_heaps }
{
    (
        allocator.held_objects(),
        allocator.remaining_allocations(),
        allocator.heap_used(0),
    )
}
