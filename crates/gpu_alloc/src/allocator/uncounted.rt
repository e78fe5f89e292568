//! Calls of a buddy allocator and of an allocator of fit chunks, without step counts: each makes counters and drops
//! them.

ghost use Rattle.std.specs.Prelude.{◌≡◌, ℕ, ◌≤◌, ◌<◌, IfOk, OnErr, IsTrue};
ghost use Rattle.gpu_alloc_types.specs.Flags.{allocation_bits, has_bit, with_device_address};
ghost use Rattle.gpu_alloc_types.specs.Device.{Asked};
ghost use Rattle.gpu_alloc_base.specs.Accounts.{account, IsCounted};
ghost use Rattle.gpu_alloc_base.specs.AlignMasks.{IsAlignMask};
ghost use Rattle.gpu_alloc_base.specs.Case.{RefusesFirst};
ghost use Rattle.gpu_alloc_base.specs.Sizes.{up};
ghost use Rattle.gpu_alloc_base.specs.Steps.{Begins};
ghost use Rattle.gpu_alloc_base.specs.Wanted.{requested, wanted};
ghost use Rattle.gpu_alloc_base.specs.declared.free_list_block.Slot.{Slot as LiveSlot};
ghost use Rattle.gpu_alloc_buddy.specs.Buddy.{Agrees, CallAllocates, case_of, Frees, IsGranted};
ghost use Rattle.gpu_alloc_buddy.specs.Buddy.{ObjectsAfter, ObjectsFreed};
ghost use Rattle.gpu_alloc_buddy.specs.BuddySound.{IsSoundBuddy};
ghost use Rattle.gpu_alloc_buddy.specs.BuddyState.{IsLiveBuddyLeaf};
ghost use Rattle.gpu_alloc_fit.specs.Fit as fit;
ghost use Rattle.gpu_alloc_fit.specs.FitSound as fit_sound;
ghost use Rattle.gpu_alloc_runs.specs.Space.{IsLiveFitSpan};

use gpu_alloc_base::heap::Heap;
use gpu_alloc_base::steps::Steps;
use gpu_alloc_base::{AllocationError, BuddyBlock};
use gpu_alloc_buddy::BuddyAllocator;
use gpu_alloc_fit::{FitAllocator, FitBlock};
use gpu_alloc_types::{AllocationFlags, MemoryObject, ObjectDevice};
use std::alloc::Allocator;
use std::sync::ledger::{Blank, Ledger};

/// The error that `BuddyAllocator::alloc` would give a request first, from `BuddyAllocator::refuses`.
pub(super) fn refuses<M: MemoryObject, A: Allocator, L: Ledger>(
    buddy: &BuddyAllocator<M, A>,
    size: u64,
    align_mask: u64,
    heap: &Heap,
    allocations_remains: u32,
    blank: Blank,
) -> Option<AllocationError>
    requires begins { Begins blank L.name L.parts }
    requires nonempty { 0 < size }
    requires alignment { IsAlignMask align_mask }
    ensures { (flags : ℕ)
        → RefusesFirst (case_of (account buddy.now heap.now allocations_remains) (wanted size align_mask flags))
        result }
{
    let mut looks = Steps::<L>::new(blank);
    buddy.refuses(size, align_mask, heap, allocations_remains, &mut looks)
}

/// Allocates a block, as `BuddyAllocator::alloc` does.
pub(super) fn alloc<M: MemoryObject, A: Allocator, D: ObjectDevice<M>, L: Ledger, K: Ledger>(
    buddy: &mut BuddyAllocator<M, A>,
    device: &mut D,
    size: u64,
    align_mask: u64,
    flags: AllocationFlags,
    heap: &mut Heap,
    allocations_remains: &mut u32,
    looks: Blank,
    splits: Blank,
) -> Result<BuddyBlock<M>, AllocationError>
    requires looks { Begins looks L.name L.parts }
    requires splits { Begins splits K.name K.parts }
    requires nonempty { 0 < size }
    requires alignment { IsAlignMask align_mask }
    requires address { IsTrue (has_bit (allocation_bits flags) with_device_address)
        → IsTrue (D.properties device.old).buffer_device_address }
    requires agrees { Agrees buddy.old (D.properties device.old) (D.objects device.old) }
    requires counted { IsCounted (buddy.old).chunks heap.old allocations_remains.old }
    ensures allocates { Asked D.step device.old device.new
        (CallAllocates buddy.old heap.old allocations_remains.old (requested size align_mask flags) result
        buddy.new heap.new allocations_remains.new) }
    ensures objects { ObjectsAfter buddy.old result buddy.new (D.objects device.old) (D.objects device.new) }
    ensures granted { IfOk result (IsGranted buddy.old (requested size align_mask flags) buddy.new) }
    ensures refused { OnErr result
        ((buddy.new ≡ buddy.old) × ((heap.new ≡ heap.old) × (allocations_remains.new ≡ allocations_remains.old))) }
    ensures sound { IsSoundBuddy buddy.new }
{
    buddy.alloc(
        device,
        size,
        align_mask,
        flags,
        heap,
        allocations_remains,
        &mut Steps::<L>::new(looks),
        &mut Steps::<K>::new(splits),
    )
}

/// Returns a block, as `BuddyAllocator::dealloc` does.
pub(super) fn dealloc<M: MemoryObject, A: Allocator, D: ObjectDevice<M>, L: Ledger>(
    buddy: &mut BuddyAllocator<M, A>,
    device: &mut D,
    block: BuddyBlock<M>,
    heap: &mut Heap,
    allocations_remains: &mut u32,
    blank: Blank,
)
    requires begins { Begins blank L.name L.parts }
    requires live { IsLiveBuddyLeaf buddy.old block }
    requires agrees { Agrees buddy.old (D.properties device.old) (D.objects device.old) }
    requires counted { IsCounted (buddy.old).chunks heap.old allocations_remains.old }
    ensures frees { Asked D.step device.old device.new
        (λ es. Frees (account buddy.old heap.old allocations_remains.old) block es
        (account buddy.new heap.new allocations_remains.new)) }
    ensures objects { ObjectsFreed buddy.old block (D.objects device.old) (D.objects device.new) }
    ensures properties { D.properties device.new ≡ D.properties device.old }
    ensures sound { IsSoundBuddy buddy.new }
{
    let mut releases = Steps::<L>::new(blank);
    buddy.dealloc(device, block, heap, allocations_remains, &mut releases);
}

/// The error that `FitAllocator::alloc` would give a request first, from `FitAllocator::refuses`.
pub(super) fn refuses_fit<M: MemoryObject, A: Allocator, L: Ledger>(
    fits: &FitAllocator<M, A>,
    size: u64,
    align_mask: u64,
    heap: &Heap,
    allocations_remains: u32,
    blank: Blank,
) -> Option<AllocationError>
    requires begins { Begins blank L.name L.parts }
    requires nonempty { 0 < size }
    requires fits { up size (fits.now).atom ≤ (fits.now).final_chunk }
    requires alignment { IsAlignMask align_mask }
    ensures { (flags : ℕ)
        → RefusesFirst (fit.case_of (account fits.now heap.now allocations_remains) (wanted size align_mask flags))
        result }
{
    let mut looks = Steps::<L>::new(blank);
    fits.refuses(size, align_mask, heap, allocations_remains, &mut looks)
}

/// Allocates a block of a fit chunk, as `FitAllocator::alloc` does.
pub(super) fn alloc_fit<M: MemoryObject, A: Allocator, D: ObjectDevice<M>, L: Ledger>(
    fits: &mut FitAllocator<M, A>,
    device: &mut D,
    size: u64,
    align_mask: u64,
    flags: AllocationFlags,
    heap: &mut Heap,
    allocations_remains: &mut u32,
    blank: Blank,
) -> Result<FitBlock<M>, AllocationError>
    requires begins { Begins blank L.name L.parts }
    requires nonempty { 0 < size }
    requires fits { up size (fits.old).atom ≤ (fits.old).final_chunk }
    requires alignment { IsAlignMask align_mask }
    requires address { IsTrue (has_bit (allocation_bits flags) with_device_address)
        → IsTrue (D.properties device.old).buffer_device_address }
    requires agrees { fit.Agrees fits.old (D.properties device.old) (D.objects device.old) }
    requires counted { IsCounted (fits.old).space.chunks heap.old allocations_remains.old }
    ensures allocates { Asked D.step device.old device.new
        (fit.CallAllocates fits.old heap.old allocations_remains.old (requested size align_mask flags) result
        fits.new heap.new allocations_remains.new) }
    ensures objects { fit.ObjectsAfter fits.old result fits.new (D.objects device.old) (D.objects device.new) }
    ensures granted { IfOk result (fit.IsGranted fits.old (requested size align_mask flags) fits.new) }
    ensures refused { OnErr result
        ((fits.new ≡ fits.old) × ((heap.new ≡ heap.old) × (allocations_remains.new ≡ allocations_remains.old))) }
    ensures sound { fit_sound.IsSoundFit fits.new }
{
    let mut looks = Steps::<L>::new(blank);
    fits.alloc(
        device,
        size,
        align_mask,
        flags,
        heap,
        allocations_remains,
        &mut looks,
    )
}

/// Returns the live block of this span of an object, as `FitAllocator::dealloc_span` does.
pub(super) fn dealloc_fit<M: MemoryObject, A: Allocator, D: ObjectDevice<M>, L: Ledger>(
    fits: &mut FitAllocator<M, A>,
    device: &mut D,
    memory: M,
    key: usize,
    offset: u64,
    size: u64,
    heap: &mut Heap,
    allocations_remains: &mut u32,
    blank: Blank,
)
    requires begins { Begins blank L.name L.parts }
    requires live { (slot : LiveSlot) × IsLiveFitSpan (fits.old).space (M.object memory) offset size slot }
    requires agrees { fit.Agrees fits.old (D.properties device.old) (D.objects device.old) }
    requires counted { IsCounted (fits.old).space.chunks heap.old allocations_remains.old }
    ensures frees { (slot : LiveSlot) → IsLiveFitSpan (fits.old).space (M.object memory) offset size slot
        → Asked D.step device.old device.new
        (λ es. fit.Frees (account fits.old heap.old allocations_remains.old) slot es
        (account fits.new heap.new allocations_remains.new)) }
    ensures objects { (slot : LiveSlot) → IsLiveFitSpan (fits.old).space (M.object memory) offset size slot
        → fit.ObjectsFreed fits.old slot (D.objects device.old) (D.objects device.new) }
    ensures properties { D.properties device.new ≡ D.properties device.old }
    ensures sound { fit_sound.IsSoundFit fits.new }
{
    let mut looks = Steps::<L>::new(blank);
    fits.dealloc_span(
        device,
        memory,
        key,
        offset,
        size,
        heap,
        allocations_remains,
        &mut looks,
    );
}
