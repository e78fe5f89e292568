//! A memory object that the caller has the device make, imported next to a block of the allocator's own.

ghost use Rattle.std.specs.Prelude.{◌≡◌, ◌+◌, ◌≤◌, ◌<◌, length, IfSome, IfOk, IfErr, OnErr, MatchOption};
ghost use Rattle.std.specs.Prelude.{None, [], ◌∷◌};
ghost use Rattle.std.specs.FinMap as map;
ghost use Rattle.std.specs.FinSet as set;
ghost use Rattle.gpu_alloc_types.specs.Flags.{property_bits};
ghost use Rattle.gpu_alloc_types.specs.Properties.{props_at};
ghost use Rattle.gpu_alloc.specs.Agreement.{Agrees, BlockAgrees};
ghost use Rattle.gpu_alloc.specs.Importing.{MayBeImported};
ghost use Rattle.gpu_alloc.specs.Owned.{Adds, AreOwned, Leaves};
ghost use Rattle.gpu_alloc.specs.Request.{IsAskable};
ghost use Rattle.gpu_alloc.specs.State.{IsOwned};

use super::bytes::fill;
use gpu_alloc::laws::{
    imports_agree, made_objects_may_be_imported, objects_of_others_may_go,
    which_objects_may_be_imported,
};
use gpu_alloc::{
    AllocationError, AllocationFlags, GpuAllocator, MemoryBlock, MemoryPropertyFlags, MemoryType,
    Request,
};
use gpu_alloc_types::{MemoryDevice, MemoryObject};

/// An object that the device makes, if it does so, while a block is in hand.
fn make<M: MemoryObject, D: MemoryDevice<M>>(
    allocator: &GpuAllocator<M>,
    device: &mut D,
    first: &MemoryBlock<M>,
    memory_type: u32,
    size: u64,
) -> Option<M>
    requires known { memory_type < length (allocator.now.properties).memory_types }
    requires some { 0 < size }
    requires agrees { Agrees allocator.now (D.properties device.old) (D.objects device.old) }
    requires first { BlockAgrees first.now (D.properties device.old) (D.objects device.old) }
    ensures agrees { Agrees allocator.now (D.properties device.new) (D.objects device.new) }
    ensures first { BlockAgrees first.now (D.properties device.new) (D.objects device.new) }
    ensures unheld { IfSome result (λ memory. map.get allocator.now.held (M.object memory) ≡ None) }
    ensures whole { IfSome result (λ memory. MayBeImported (D.properties device.new) (D.objects device.new)
        (M.object memory) memory_type 0 size) }
{
    let _ = first;
    let answer = device.allocate_memory(size, memory_type, AllocationFlags::empty());
    made_objects_may_be_imported(allocator, device, &answer);
    answer.ok()
}

/// Imports the whole of an object of the device's.
fn import_whole<M: MemoryObject, D: MemoryDevice<M>>(
    allocator: &mut GpuAllocator<M>,
    device: &D,
    memory: M,
    memory_type: u32,
    props: MemoryPropertyFlags,
    size: u64,
) -> Result<MemoryBlock<M>, M>
    requires known { memory_type < length (allocator.old.properties).memory_types }
    requires props { property_bits props ≡ props_at allocator.old.properties memory_type }
    requires remains { 0 < allocator.old.remaining }
    requires unheld { map.get allocator.old.held (M.object memory) ≡ None }
    requires some { 0 < size }
    requires agrees { Agrees allocator.old (D.properties device.now) (D.objects device.now) }
    requires whole { MayBeImported (D.properties device.now) (D.objects device.now) (M.object memory) memory_type 0
        size }
    ensures agrees { IfOk result (λ _. Agrees allocator.new (D.properties device.now) (D.objects device.now)) }
    ensures ready { IfOk result (λ block. BlockAgrees block (D.properties device.now) (D.objects device.now)) }
    ensures added { IfOk result (Adds allocator.old allocator.new) }
    ensures properties { allocator.new.properties ≡ allocator.old.properties }
    ensures owned { IfOk result (IsOwned allocator.new) }
    ensures leaves { Leaves allocator.old allocator.new }
    ensures size { IfOk result (λ block. block.size ≡ size) }
    ensures refused { OnErr result (allocator.new ≡ allocator.old) }
    ensures handed_back { IfErr result (λ handed. handed ≡ memory) }
{
    let _ = device;
    let block = allocator.import_memory(memory, memory_type, props, 0, size)?;
    imports_agree();
    Ok(block)
}

/// Imports the whole of an object that somebody else made, with a test for each condition that has one. Where a test
/// fails, or the allocator has no room, the object comes back.
pub fn import_of_others<M: MemoryObject, D: MemoryDevice<M>>(
    allocator: &mut GpuAllocator<M>,
    device: &D,
    memory: M,
    memory_type: u32,
    types: &[MemoryType],
    size: u64,
) -> Result<MemoryBlock<M>, M>
    requires types { types.now ≡ (allocator.old.properties).memory_types }
    requires agrees { Agrees allocator.old (D.properties device.now) (D.objects device.now) }
    requires whole { MayBeImported (D.properties device.now) (D.objects device.now) (M.object memory) memory_type 0 size }
    ensures agrees { IfOk result (λ _. Agrees allocator.new (D.properties device.now) (D.objects device.now)) }
    ensures ready { IfOk result (λ block. BlockAgrees block (D.properties device.now) (D.objects device.now)) }
    ensures added { IfOk result (Adds allocator.old allocator.new) }
    ensures refused { OnErr result (allocator.new ≡ allocator.old) }
    ensures handed_back { IfErr result (λ handed. handed ≡ memory) }
{
    let index = memory_type as usize;
    if size == 0 || index >= types.len() || allocator.remaining_allocations() == 0 {
        return Err(memory);
    }
    if allocator.holds(memory.object()) {
        return Err(memory);
    }
    import_whole(
        allocator,
        device,
        memory,
        memory_type,
        types[index].props,
        size,
    )
}

/// Releases an object that an allocator does not hold.
fn release<M: MemoryObject, D: MemoryDevice<M>>(
    allocator: &GpuAllocator<M>,
    device: &mut D,
    first: &MemoryBlock<M>,
    memory: M,
    memory_type: u32,
    size: u64,
)
    requires unheld { map.get allocator.now.held (M.object memory) ≡ None }
    requires whole { MayBeImported (D.properties device.old) (D.objects device.old) (M.object memory) memory_type 0
        size }
    requires owned { AreOwned allocator.now (first.now ∷ []) }
    requires agrees { Agrees allocator.now (D.properties device.old) (D.objects device.old) }
    requires first { BlockAgrees first.now (D.properties device.old) (D.objects device.old) }
    ensures agrees { Agrees allocator.now (D.properties device.new) (D.objects device.new) }
    ensures first { BlockAgrees first.now (D.properties device.new) (D.objects device.new) }
{
    let _ = first;
    which_objects_may_be_imported();
    device.deallocate_memory(&memory);
    objects_of_others_may_go(allocator, device);
}

/// Has the device make an object, and imports the whole of it, while a block is in hand. Where the allocator has no
/// room for it, the object is released.
fn import_new<M: MemoryObject, D: MemoryDevice<M>>(
    allocator: &mut GpuAllocator<M>,
    device: &mut D,
    first: &MemoryBlock<M>,
    memory_type: u32,
    props: MemoryPropertyFlags,
    size: u64,
) -> Option<MemoryBlock<M>>
    requires known { memory_type < length (allocator.old.properties).memory_types }
    requires props { property_bits props ≡ props_at allocator.old.properties memory_type }
    requires some { 0 < size }
    requires agrees { Agrees allocator.old (D.properties device.old) (D.objects device.old) }
    requires owned { AreOwned allocator.old (first.now ∷ []) }
    requires first { BlockAgrees first.now (D.properties device.old) (D.objects device.old) }
    ensures agrees { Agrees allocator.new (D.properties device.new) (D.objects device.new) }
    ensures first { BlockAgrees first.now (D.properties device.new) (D.objects device.new) }
    ensures ready { IfSome result (λ block. BlockAgrees block (D.properties device.new) (D.objects device.new)) }
    ensures size { IfSome result (λ block. block.size ≡ size) }
    ensures added { MatchOption result (allocator.new ≡ allocator.old) (Adds allocator.old allocator.new) }
    ensures properties { allocator.new.properties ≡ allocator.old.properties }
    ensures owned { MatchOption result (AreOwned allocator.new (first.now ∷ []))
        (λ block. AreOwned allocator.new (block ∷ first.now ∷ [])) }
{
    if allocator.remaining_allocations() == 0 {
        return None;
    }
    let memory = make(allocator, device, first, memory_type, size)?;
    match import_whole(allocator, device, memory, memory_type, props, size) {
        Ok(block) => Some(block),
        Err(memory) => {
            release(allocator, device, first, memory, memory_type, size);
            None
        }
    }
}

/// Writes the same bytes to two blocks.
fn write_both<M: MemoryObject, D: MemoryDevice<M>>(
    allocator: &GpuAllocator<M>,
    device: &mut D,
    first: &mut MemoryBlock<M>,
    second: &mut MemoryBlock<M>,
    bytes: &[u8],
)
    requires agrees { Agrees allocator.now (D.properties device.old) (D.objects device.old) }
    requires owned { AreOwned allocator.now (second.old ∷ first.old ∷ []) }
    requires first { BlockAgrees first.old (D.properties device.old) (D.objects device.old) }
    requires second { BlockAgrees second.old (D.properties device.old) (D.objects device.old) }
    requires fit { length bytes.now ≤ first.old.size }
    requires fit_too { length bytes.now ≤ second.old.size }
    ensures agrees { Agrees allocator.now (D.properties device.new) (D.objects device.new) }
    ensures owned { AreOwned allocator.now (second.new ∷ first.new ∷ []) }
{
    let _ = allocator;
    fill(device, first, bytes);
    fill(device, second, bytes);
}

/// Returns the second of two blocks.
fn return_second<M: MemoryObject, D: MemoryDevice<M>>(
    allocator: &mut GpuAllocator<M>,
    device: &mut D,
    first: &MemoryBlock<M>,
    second: MemoryBlock<M>,
)
    requires agrees { Agrees allocator.old (D.properties device.old) (D.objects device.old) }
    requires owned { AreOwned allocator.old (second ∷ first.now ∷ []) }
    ensures agrees { Agrees allocator.new (D.properties device.new) (D.objects device.new) }
    ensures owned { AreOwned allocator.new (first.now ∷ []) }
    ensures count { set.len allocator.new.live + 1 ≡ set.len allocator.old.live }
{
    let _ = first;
    allocator.dealloc(device, second);
}

/// How many free ranges a memory type's shared chunks have, where there is memory for the list of them.
fn count_free<M: MemoryObject>(allocator: &GpuAllocator<M>, memory_type: u32) -> Option<usize>
    requires { memory_type < length (allocator.now.properties).memory_types }
{
    let ranges = allocator.free_ranges(memory_type).ok()?;
    Some(ranges.len())
}

/// Allocates a block for a request, imports an object of as many bytes next to it, writes bytes to both, and returns
/// both. Returns how many free ranges there were meanwhile, or `None` where no object was imported or there was no
/// memory for the list of them.
pub fn import_beside<M: MemoryObject, D: MemoryDevice<M>>(
    allocator: &mut GpuAllocator<M>,
    device: &mut D,
    request: Request,
    memory_type: u32,
    props: MemoryPropertyFlags,
    bytes: &[u8],
) -> Result<Option<usize>, AllocationError>
    requires askable { IsAskable (allocator.old.properties).buffer_device_address request }
    requires known { memory_type < length (allocator.old.properties).memory_types }
    requires props { property_bits props ≡ props_at allocator.old.properties memory_type }
    requires fit { length bytes.now ≤ request.size }
    requires agrees { Agrees allocator.old (D.properties device.old) (D.objects device.old) }
    ensures agrees { Agrees allocator.new (D.properties device.new) (D.objects device.new) }
    ensures count { set.len allocator.new.live ≡ set.len allocator.old.live }
{
    let mut first = allocator.alloc(device, request)?;
    match import_new(allocator, device, &first, memory_type, props, request.size) {
        Some(mut second) => {
            write_both(allocator, device, &mut first, &mut second, bytes);
            let free = count_free(allocator, memory_type);
            return_second(allocator, device, &first, second);
            allocator.dealloc(device, first);
            Ok(free)
        }
        None => {
            allocator.dealloc(device, first);
            Ok(None)
        }
    }
}
