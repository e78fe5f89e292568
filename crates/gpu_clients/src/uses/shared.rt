//! The allocators of shared chunks by themselves, each for one memory type of a device.

ghost use Rattle.std.specs.Prelude.{◌≡◌, ◌+◌, ◌*◌, ◌≤◌, ◌<◌, ◌^◌, IsTrue};
ghost use Rattle.std.specs.FinMap as map;
ghost use Rattle.std.specs.FinSet as set;
ghost use Rattle.std.specs.Int.{is_power_of_two};
ghost use Rattle.gpu_alloc_types.specs.Flags.{property_bits};
ghost use Rattle.gpu_alloc_base.specs.AlignMasks.{IsAlignMask};
ghost use Rattle.gpu_alloc_base.specs.Accounts.{IsCounted};
ghost use Rattle.gpu_alloc_base.specs.FreeSpace.{IsMultipleOf};
ghost use Rattle.gpu_alloc_base.specs.InHand.{Offers};
ghost use Rattle.gpu_alloc_base.specs.Sizes.{up};
ghost use Rattle.gpu_alloc_base.specs.Steps.{Begins};
ghost use Rattle.gpu_alloc_buddy.specs.Buddy.{Agrees};
ghost use Rattle.gpu_alloc_fit.specs.Fit.{Agrees as FitAgrees};
ghost use Rattle.gpu_alloc_freelist.specs.FreeListAllocator.{Agrees as ListAgrees};

use gpu_alloc_base::AllocationError;
use gpu_alloc_base::heap::Heap;
use gpu_alloc_base::steps::Steps;
use gpu_alloc_buddy::BuddyAllocator;
use gpu_alloc_buddy::laws::agrees_at_first as buddy_agrees_at_first;
use gpu_alloc_fit::FitAllocator;
use gpu_alloc_fit::laws::agrees_at_first as fit_agrees_at_first;
use gpu_alloc_freelist::FreeListAllocator;
use gpu_alloc_freelist::laws::agrees_at_first as list_agrees_at_first;
use gpu_alloc_types::{AllocationFlags, MemoryDevice, MemoryObject, MemoryPropertyFlags};
use std::alloc::Global;
use std::marker::Brand;
use std::sync::ledger::{Blank, Ledger};

/// Takes two blocks of an empty buddy allocator, returns them in the order in which they were granted, and closes it.
/// No call takes more than 63 steps of a kind.
pub fn two_in_a_buddy_chunk<M: MemoryObject, D: MemoryDevice<M>, L: Ledger, K: Ledger, R: Ledger>(
    allocator: BuddyAllocator<M>,
    device: &mut D,
    size: u64,
    align_mask: u64,
    heap: &mut Heap,
    allocations_remains: &mut u32,
    looks: &mut Steps<L>,
    splits: &mut Steps<K>,
    releases: &mut Steps<R>,
) -> Result<(), AllocationError>
    requires nonempty { 0 < size }
    requires alignment { IsAlignMask align_mask }
    requires agrees { Agrees allocator (D.properties device.old) (D.objects device.old) }
    requires counted { IsCounted allocator.chunks heap.old allocations_remains.old }
    requires live { set.len allocator.live ≡ 0 }
    requires held { map.len allocator.chunks ≡ 0 }
    ensures looked { looks.new ≤ looks.old + 2 * 63 }
    ensures split { splits.new ≤ splits.old + 2 * 62 }
    ensures released { releases.new ≤ releases.old + 2 * 63 }
{
    let mut allocator = allocator;
    let flags = AllocationFlags::empty();
    let first = match allocator.alloc(
        device,
        size,
        align_mask,
        flags,
        heap,
        allocations_remains,
        looks,
        splits,
    ) {
        Ok(block) => block,
        Err(refusal) => {
            allocator.close();
            return Err(refusal);
        }
    };
    let second = allocator.alloc(
        device,
        size,
        align_mask,
        flags,
        heap,
        allocations_remains,
        looks,
        splits,
    );
    allocator.dealloc(device, first, heap, allocations_remains, releases);
    match second {
        Ok(block) => {
            allocator.dealloc(device, block, heap, allocations_remains, releases);
            allocator.close();
            Ok(())
        }
        Err(refusal) => {
            allocator.close();
            Err(refusal)
        }
    }
}

/// Takes and returns two blocks as [`two_in_a_buddy_chunk`] does, and counts nothing.
fn two_uncounted<M: MemoryObject, D: MemoryDevice<M>, L: Ledger, K: Ledger, R: Ledger>(
    allocator: BuddyAllocator<M>,
    device: &mut D,
    size: u64,
    align_mask: u64,
    heap: &mut Heap,
    allocations_remains: &mut u32,
    looks: Blank,
    splits: Blank,
    releases: Blank,
) -> Result<(), AllocationError>
    requires nonempty { 0 < size }
    requires alignment { IsAlignMask align_mask }
    requires agrees { Agrees allocator (D.properties device.old) (D.objects device.old) }
    requires counted { IsCounted allocator.chunks heap.old allocations_remains.old }
    requires live { set.len allocator.live ≡ 0 }
    requires held { map.len allocator.chunks ≡ 0 }
    requires looks { Begins looks L.name L.parts }
    requires splits { Begins splits K.name K.parts }
    requires releases { Begins releases R.name R.parts }
{
    two_in_a_buddy_chunk(
        allocator,
        device,
        size,
        align_mask,
        heap,
        allocations_remains,
        &mut Steps::<L>::new(looks),
        &mut Steps::<K>::new(splits),
        &mut Steps::<R>::new(releases),
    )
}

/// Takes two blocks of an empty free list's allocator, returns them in the order in which they were granted, cleans up
/// and closes it.
pub fn two_in_a_free_list<M: MemoryObject, D: MemoryDevice<M>>(
    allocator: FreeListAllocator<M>,
    device: &mut D,
    size: u64,
    align_mask: u64,
    heap: &mut Heap,
    allocations_remains: &mut u32,
) -> Result<(), AllocationError>
    requires nonempty { 0 < size }
    requires fits { up size allocator.atom ≤ allocator.final_chunk }
    requires alignment { IsAlignMask align_mask }
    requires agrees { ListAgrees allocator (D.properties device.old) (D.objects device.old) }
    requires counted { IsCounted (allocator.space).chunks heap.old allocations_remains.old }
    requires live { set.len (allocator.space).live ≡ 0 }
{
    let mut allocator = allocator;
    let flags = AllocationFlags::empty();
    let early = match allocator.alloc(device, size, align_mask, flags, heap, allocations_remains) {
        Ok(block) => block,
        Err(refusal) => {
            end_a_free_list(allocator, device, heap, allocations_remains);
            return Err(refusal);
        }
    };
    match allocator.alloc(device, size, align_mask, flags, heap, allocations_remains) {
        Ok(late) => {
            allocator.dealloc(device, early, heap, allocations_remains);
            allocator.dealloc(device, late, heap, allocations_remains);
            end_a_free_list(allocator, device, heap, allocations_remains);
            Ok(())
        }
        Err(refusal) => {
            allocator.dealloc(device, early, heap, allocations_remains);
            end_a_free_list(allocator, device, heap, allocations_remains);
            Err(refusal)
        }
    }
}

/// Cleans up and closes an allocator without live blocks, without a test.
fn end_a_free_list<M: MemoryObject, D: MemoryDevice<M>>(
    allocator: FreeListAllocator<M>,
    device: &mut D,
    heap: &mut Heap,
    allocations_remains: &mut u32,
)
    requires agrees { ListAgrees allocator (D.properties device.old) (D.objects device.old) }
    requires counted { IsCounted (allocator.space).chunks heap.old allocations_remains.old }
    requires live { set.len (allocator.space).live ≡ 0 }
{
    let mut allocator = allocator;
    allocator.cleanup(device, heap, allocations_remains);
    allocator.close();
}

/// Makes a buddy allocator for a memory type that the device offers, and takes and returns two blocks.
pub fn open_a_buddy_allocator<M: MemoryObject, D: MemoryDevice<M>>(
    alloc: Global,
    device: &mut D,
    memory_type: u32,
    props: MemoryPropertyFlags,
    minimal_size: u64,
    size: u64,
    align_mask: u64,
    heap: &mut Heap,
    allocations_remains: &mut u32,
) -> Result<(), AllocationError>
    requires offers { Offers (D.properties device.old) memory_type (property_bits props) }
    requires minimal { IsTrue (is_power_of_two minimal_size) }
    requires atom { IsTrue (is_power_of_two (align_mask + 1)) }
    requires atom_bound { align_mask + 1 ≤ 2 ^ 62 }
    requires alignment { IsAlignMask align_mask }
    requires nonempty { 0 < size }
{
    let allocator: BuddyAllocator<M> = BuddyAllocator::new(
        alloc,
        minimal_size,
        minimal_size,
        memory_type,
        props,
        align_mask,
    )?;
    buddy_agrees_at_first(
        &allocator,
        device,
        memory_type,
        props,
        heap,
        *allocations_remains,
    );
    two_uncounted::<M, D, Brand, Brand, Brand>(
        allocator,
        device,
        size,
        align_mask,
        heap,
        allocations_remains,
        Blank::new(1),
        Blank::new(1),
        Blank::new(1),
    )
}

/// Makes a free list's allocator for a memory type that the device offers, and takes and returns two blocks that fit
/// the largest chunk.
pub fn open_a_free_list<M: MemoryObject, D: MemoryDevice<M>>(
    alloc: Global,
    device: &mut D,
    memory_type: u32,
    props: MemoryPropertyFlags,
    chunk_size: u64,
    size: u64,
    align_mask: u64,
    heap: &mut Heap,
    allocations_remains: &mut u32,
) -> Result<(), AllocationError>
    requires offers { Offers (D.properties device.old) memory_type (property_bits props) }
    requires atom { IsTrue (is_power_of_two (align_mask + 1)) }
    requires atom_bound { align_mask + 1 ≤ 2 ^ 62 }
    requires alignment { IsAlignMask align_mask }
    requires chunk { IsMultipleOf (align_mask + 1) chunk_size }
    requires some { 0 < chunk_size }
    requires chunk_bound { chunk_size ≤ 2 ^ 62 }
    requires nonempty { 0 < size }
    requires fits { up size (align_mask + 1) ≤ chunk_size }
{
    let allocator: FreeListAllocator<M> = FreeListAllocator::new(
        alloc,
        chunk_size,
        chunk_size,
        memory_type,
        props,
        align_mask,
    );
    list_agrees_at_first(
        &allocator,
        device,
        memory_type,
        props,
        heap,
        *allocations_remains,
    );
    two_in_a_free_list(
        allocator,
        device,
        size,
        align_mask,
        heap,
        allocations_remains,
    )
}

/// Takes two blocks of an empty allocator of exact runs, returns them in the order in which they were granted, cleans
/// up and closes it.
pub fn two_in_exact_runs<M: MemoryObject, D: MemoryDevice<M>, L: Ledger>(
    allocator: FitAllocator<M>,
    device: &mut D,
    size: u64,
    align_mask: u64,
    heap: &mut Heap,
    allocations_remains: &mut u32,
    looks: &mut Steps<L>,
) -> Result<(), AllocationError>
    requires nonempty { 0 < size }
    requires fits { up size allocator.atom ≤ allocator.final_chunk }
    requires alignment { IsAlignMask align_mask }
    requires agrees { FitAgrees allocator (D.properties device.old) (D.objects device.old) }
    requires counted { IsCounted (allocator.space).chunks heap.old allocations_remains.old }
    requires live { set.len (allocator.space).live ≡ 0 }
{
    let mut allocator = allocator;
    let flags = AllocationFlags::empty();
    let early = match allocator.alloc(
        device,
        size,
        align_mask,
        flags,
        heap,
        allocations_remains,
        looks,
    ) {
        Ok(block) => block,
        Err(refusal) => {
            end_exact_runs(allocator, device, heap, allocations_remains);
            return Err(refusal);
        }
    };
    match allocator.alloc(
        device,
        size,
        align_mask,
        flags,
        heap,
        allocations_remains,
        looks,
    ) {
        Ok(late) => {
            allocator.dealloc(device, early, heap, allocations_remains, looks);
            allocator.dealloc(device, late, heap, allocations_remains, looks);
            end_exact_runs(allocator, device, heap, allocations_remains);
            Ok(())
        }
        Err(refusal) => {
            allocator.dealloc(device, early, heap, allocations_remains, looks);
            end_exact_runs(allocator, device, heap, allocations_remains);
            Err(refusal)
        }
    }
}

/// Cleans up and closes an allocator without live blocks, without a test.
fn end_exact_runs<M: MemoryObject, D: MemoryDevice<M>>(
    allocator: FitAllocator<M>,
    device: &mut D,
    heap: &mut Heap,
    allocations_remains: &mut u32,
)
    requires agrees { FitAgrees allocator (D.properties device.old) (D.objects device.old) }
    requires counted { IsCounted (allocator.space).chunks heap.old allocations_remains.old }
    requires live { set.len (allocator.space).live ≡ 0 }
{
    let mut exact = allocator;
    exact.cleanup(device, heap, allocations_remains);
    exact.close();
}

/// Makes an allocator of exact runs for a memory type that the device offers, and takes and returns two blocks that fit
/// the largest chunk.
pub fn open_exact_runs<M: MemoryObject, D: MemoryDevice<M>, L: Ledger>(
    alloc: Global,
    device: &mut D,
    memory_type: u32,
    props: MemoryPropertyFlags,
    chunk_size: u64,
    size: u64,
    align_mask: u64,
    heap: &mut Heap,
    allocations_remains: &mut u32,
    looks: &mut Steps<L>,
) -> Result<(), AllocationError>
    requires offers { Offers (D.properties device.old) memory_type (property_bits props) }
    requires atom { IsTrue (is_power_of_two (align_mask + 1)) }
    requires atom_bound { align_mask + 1 ≤ 2 ^ 62 }
    requires alignment { IsAlignMask align_mask }
    requires chunk { IsMultipleOf (align_mask + 1) chunk_size }
    requires some { 0 < chunk_size }
    requires chunk_bound { chunk_size ≤ 2 ^ 62 }
    requires nonempty { 0 < size }
    requires fits { up size (align_mask + 1) ≤ chunk_size }
{
    let allocator: FitAllocator<M> = FitAllocator::new(
        alloc,
        chunk_size,
        chunk_size,
        memory_type,
        props,
        align_mask,
    );
    fit_agrees_at_first(
        &allocator,
        device,
        memory_type,
        props,
        heap,
        *allocations_remains,
    );
    two_in_exact_runs(
        allocator,
        device,
        size,
        align_mask,
        heap,
        allocations_remains,
        looks,
    )
}
