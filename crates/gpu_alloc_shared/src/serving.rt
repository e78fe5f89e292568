//! How a request is served: in a place, or in a new chunk that the device is asked for.

ghost use Rattle.std.specs.Prelude.{◌≡◌, ℕ, ◌≤◌, IfOk, OnErr, IsTrue, None, max};
ghost use Rattle.gpu_alloc_types.specs.Flags.{allocation_bits, has_bit, with_device_address};
ghost use Rattle.gpu_alloc_types.specs.Device.{Asked};
ghost use Rattle.gpu_alloc_base.specs.Accounts.{account, IsCounted, chunks_and_remaining};
ghost use Rattle.gpu_alloc_base.specs.Case.{Answers, Asks, RefusesFirst, RefusesQuestion};
ghost use Rattle.gpu_alloc_base.specs.Wanted.{requested, wanted};
ghost use Rattle.gpu_alloc_shared.specs.Shared.{Adds, Agrees, Counted, CountsRefusing, Leaves, ObjectsAfter};
ghost use Rattle.gpu_alloc_shared.specs.Shared.{ask_case, case_of};

use crate::store::Store;
use gpu_alloc_base::heap::Heap;
use gpu_alloc_base::new_chunk::new_chunk_with_handle;
use gpu_alloc_base::steps::Steps;
use gpu_alloc_base::{AllocationError, booking};
use gpu_alloc_types::{AllocationFlags, MemoryObject, MemoryPropertyFlags, ObjectDevice};
use std::sync::ledger::Ledger;

/// Allocates a block of at least `size` bytes at a multiple of `align_mask + 1`, as the store's rule has it: in a held
/// chunk, and only where none has room in a new one, which the device is asked for with these flags.
///
/// A chunk is mapped whole where it is host-visible. `heap` is the ledger of the memory type's heap, to which a new
/// chunk is added. `allocations_remains` is how many more objects may be held, which a new chunk lowers by one.
///
/// The size, in bytes, and the mask must be such as the store serves. The address flag may be set only where the device
/// has the feature. The device must be the one that made this store's chunks: it has the memory type with its
/// properties, and each held chunk. `heap` must count no less than the sum of the held chunks, and how many more
/// objects may be held plus the number of held chunks must fit 32 bits. What is said of the device, of `heap` and of
/// the objects holds again after the call (`agrees`, `counted`).
///
/// Errors, after which nothing has changed, and a chunk that was made is released:
///
/// - `OutOfDeviceMemory` where a chunk would have 2^64 bytes or more, where one is needed that `heap` has no room for
///   (`Heap::fits`; the device is then not asked), and where the device gives that answer
/// - `TooManyObjects` where a chunk is needed and no more objects may be held, or no number is left for one
/// - `OutOfHostMemory` where the store or the device lacks host memory, and where a chunk cannot be mapped for another
///   reason.
///
/// Each block that a caller had in hand is still live (`leaves`), and the new one shares no byte with any (`added`).
/// `looks` and `splits` count what the rule says (`steps`).
pub fn alloc<S: Store<M>, M: MemoryObject, D: ObjectDevice<M>, L: Ledger, K: Ledger>(
    store: &mut S,
    device: &mut D,
    size: u64,
    align_mask: u64,
    flags: AllocationFlags,
    heap: &mut Heap,
    allocations_remains: &mut u32,
    looks: &mut Steps<L>,
    splits: &mut Steps<K>,
) -> Result<S::Block, AllocationError>
    requires serves { S.rule.Serves (S.state store.old) heap.old size align_mask }
    requires address { IsTrue (has_bit (allocation_bits flags) with_device_address)
        → IsTrue (D.properties device.old).buffer_device_address }
    requires agrees { Agrees S.rule (S.state store.old) (D.properties device.old) (D.objects device.old) }
    requires counted { IsCounted (S.rule.chunks (S.state store.old)) heap.old allocations_remains.old }
    ensures allocates { Asked D.step device.old device.new
        (λ es. Answers (case_of S.rule (account (S.state store.old) heap.old allocations_remains.old)
        (requested size align_mask flags)) es result
        (account (S.state store.new) heap.new allocations_remains.new)) }
    ensures objects { ObjectsAfter S.rule (S.state store.old) result (S.state store.new)
        (D.objects device.old) (D.objects device.new) }
    ensures agrees { Agrees S.rule (S.state store.new) (D.properties device.new) (D.objects device.new) }
    ensures properties { D.properties device.new ≡ D.properties device.old }
    ensures added { IfOk result (Adds S.rule (S.state store.old) (S.state store.new)) }
    ensures leaves { Leaves S.rule (S.state store.old) (S.state store.new) }
    ensures ledger { heap.new.used ≤ max heap.old.used heap.old.limit }
    ensures refused { OnErr result ((S.state store.new ≡ S.state store.old)
        × ((heap.new ≡ heap.old) × (allocations_remains.new ≡ allocations_remains.old))) }
    ensures was { S.rule.IsSound (S.state store.old) }
    ensures sound { S.rule.IsSound (S.state store.new) }
    ensures counted { IsCounted (S.rule.chunks (S.state store.new)) heap.new allocations_remains.new }
    ensures total { chunks_and_remaining (S.rule.chunks (S.state store.new)) allocations_remains.new
        ≡ chunks_and_remaining (S.rule.chunks (S.state store.old)) allocations_remains.old }
    ensures steps { Counted S.rule (S.state store.old) (S.rule.asked (S.state store.old) size align_mask)
        (S.rule.chunk_size (S.state store.old) heap.old (S.rule.asked (S.state store.old) size align_mask))
        result looks.old looks.new splits.old splits.new }
{
    store.keeps_sound();
    let Some(ask) = store.asked(size, align_mask) else {
        return Err(AllocationError::OutOfDeviceMemory);
    };
    let answer = alloc_asked(
        store,
        device,
        ask,
        flags,
        heap,
        allocations_remains,
        looks,
        splits,
    );
    store.keeps_sound();
    answer
}

/// The error that [`alloc`] gives such a request before it takes any memory or calls the device, or `None` where there
/// is no such error. It is `OutOfDeviceMemory` where a chunk for it would have 2^64 bytes or more. Where a chunk is
/// needed, it is `TooManyObjects` if no more objects may be held or no number is left, and otherwise
/// `OutOfDeviceMemory` if `heap` has no room for the chunk (`Heap::fits`). It allocates nothing and changes nothing.
///
/// The size and the mask must be such as the store serves. A place is looked for only where a chunk may not be asked
/// for, and `looks` counts those looks (`looked`).
#[inline(always)]
pub fn refuses<S: Store<M>, M: MemoryObject, L: Ledger>(
    store: &S,
    size: u64,
    align_mask: u64,
    heap: &Heap,
    allocations_remains: u32,
    looks: &mut Steps<L>,
) -> Option<AllocationError>
    requires serves { S.rule.Serves (S.state store.now) heap.now size align_mask }
    ensures refuses { (flags : ℕ) → RefusesFirst (case_of S.rule
        (account (S.state store.now) heap.now allocations_remains) (wanted size align_mask flags)) result }
    ensures looked { CountsRefusing S.rule (account (S.state store.now) heap.now allocations_remains)
        (S.rule.asked (S.state store.now) size align_mask) looks.old looks.new }
{
    // (a heap with room for the largest chunk has room for any: where a store tells one, most requests need no more)
    if may_ask_for_any(store, heap, allocations_remains) {
        return None;
    }
    refuses_asked(store, size, align_mask, heap, allocations_remains, looks)
}

/// What [`refuses`] answers, without the test of the largest chunk. (It stands apart, since most requests need no more
/// than that test where a store tells a largest chunk.)
#[cold]
#[inline(never)]
fn refuses_asked<S: Store<M>, M: MemoryObject, L: Ledger>(
    store: &S,
    size: u64,
    align_mask: u64,
    heap: &Heap,
    allocations_remains: u32,
    looks: &mut Steps<L>,
) -> Option<AllocationError>
    requires serves { S.rule.Serves (S.state store.now) heap.now size align_mask }
    ensures refuses { (flags : ℕ) → RefusesFirst (case_of S.rule
        (account (S.state store.now) heap.now allocations_remains) (wanted size align_mask flags)) result }
    ensures looked { CountsRefusing S.rule (account (S.state store.now) heap.now allocations_remains)
        (S.rule.asked (S.state store.now) size align_mask) looks.old looks.new }
{
    let Some(ask) = store.asked(size, align_mask) else {
        return Some(AllocationError::OutOfDeviceMemory);
    };
    let refusal = refuses_chunk(store, ask, heap, allocations_remains)?;
    if store.has_place(ask, looks) {
        return None;
    }
    Some(refusal)
}

/// Whether it is known that the device may be asked for a chunk for any request.
#[inline(always)]
fn may_ask_for_any<S: Store<M>, M: MemoryObject>(
    store: &S,
    heap: &Heap,
    allocations_remains: u32,
) -> bool
    ensures { IsTrue result → (size align_mask flags : ℕ) → S.rule.Serves (S.state store.now) heap.now size align_mask
        → S.rule.Fits (S.rule.asked (S.state store.now) size align_mask)
        × RefusesQuestion (case_of S.rule (account (S.state store.now) heap.now allocations_remains)
        (wanted size align_mask flags)) None }
{
    let Some(largest) = store.largest_chunk() else {
        return false;
    };
    allocations_remains > 0 && store.has_number() && heap.fits(largest)
}

/// Allocates a block for a request in the store's own terms.
fn alloc_asked<S: Store<M>, M: MemoryObject, D: ObjectDevice<M>, L: Ledger, K: Ledger>(
    store: &mut S,
    device: &mut D,
    ask: S::Ask,
    flags: AllocationFlags,
    heap: &mut Heap,
    allocations_remains: &mut u32,
    looks: &mut Steps<L>,
    splits: &mut Steps<K>,
) -> Result<S::Block, AllocationError>
    requires fits { S.rule.Fits ask }
    requires asked { S.rule.IsAsk (S.state store.old) ask }
    requires holds { S.rule.Holds (S.state store.old) heap.old ask }
    requires address { IsTrue (has_bit (allocation_bits flags) with_device_address)
        → IsTrue (D.properties device.old).buffer_device_address }
    requires agrees { Agrees S.rule (S.state store.old) (D.properties device.old) (D.objects device.old) }
    ensures answers { Asked D.step device.old device.new
        (λ es. Answers (ask_case S.rule (account (S.state store.old) heap.old allocations_remains.old) ask
        (allocation_bits flags)) es result
        (account (S.state store.new) heap.new allocations_remains.new)) }
    ensures objects { ObjectsAfter S.rule (S.state store.old) result (S.state store.new)
        (D.objects device.old) (D.objects device.new) }
    ensures properties { D.properties device.new ≡ D.properties device.old }
    ensures added { IfOk result (Adds S.rule (S.state store.old) (S.state store.new)) }
    ensures leaves { Leaves S.rule (S.state store.old) (S.state store.new) }
    ensures steps { Counted S.rule (S.state store.old) ask (S.rule.chunk_size (S.state store.old) heap.old ask)
        result looks.old looks.new splits.old splits.new }
{
    match store.take(ask, looks, splits) {
        Ok(Some(block)) => return Ok(block),
        Ok(None) => {}
        Err(_) => return Err(AllocationError::OutOfHostMemory),
    }
    match refuses_chunk(store, ask, heap, *allocations_remains) {
        Some(refusal) => Err(refusal),
        None => take_chunk(store, device, ask, flags, heap, allocations_remains, splits),
    }
}

/// Why the device may not be asked for a chunk with a block for this request, or `None` where it may.
fn refuses_chunk<S: Store<M>, M: MemoryObject>(
    store: &S,
    ask: S::Ask,
    heap: &Heap,
    allocations_remains: u32,
) -> Option<AllocationError>
    requires asked { S.rule.IsAsk (S.state store.now) ask }
    requires holds { S.rule.Holds (S.state store.now) heap.now ask }
    ensures { (flags : ℕ) → RefusesQuestion
        (ask_case S.rule (account (S.state store.now) heap.now allocations_remains) ask flags) result }
{
    if allocations_remains == 0 || !store.has_number() {
        return Some(AllocationError::TooManyObjects);
    }
    if !heap.fits(store.chunk_size(heap, ask)) {
        return Some(AllocationError::OutOfDeviceMemory);
    }
    None
}

/// Takes a block of a new chunk, where there is no place. Room is made before the device is asked.
fn take_chunk<S: Store<M>, M: MemoryObject, D: ObjectDevice<M>, K: Ledger>(
    store: &mut S,
    device: &mut D,
    ask: S::Ask,
    flags: AllocationFlags,
    heap: &mut Heap,
    allocations_remains: &mut u32,
    splits: &mut Steps<K>,
) -> Result<S::Block, AllocationError>
    requires asked { S.rule.IsAsk (S.state store.old) ask }
    requires holds { S.rule.Holds (S.state store.old) heap.old ask }
    requires asks { Asks (ask_case S.rule (account (S.state store.old) heap.old allocations_remains.old) ask
        (allocation_bits flags)) }
    requires address { IsTrue (has_bit (allocation_bits flags) with_device_address)
        → IsTrue (D.properties device.old).buffer_device_address }
    requires agrees { Agrees S.rule (S.state store.old) (D.properties device.old) (D.objects device.old) }
    ensures answers { Asked D.step device.old device.new
        (λ es. Answers (ask_case S.rule (account (S.state store.old) heap.old allocations_remains.old) ask
        (allocation_bits flags)) es result
        (account (S.state store.new) heap.new allocations_remains.new)) }
    ensures objects { ObjectsAfter S.rule (S.state store.old) result (S.state store.new)
        (D.objects device.old) (D.objects device.new) }
    ensures properties { D.properties device.new ≡ D.properties device.old }
    ensures added { IfOk result (Adds S.rule (S.state store.old) (S.state store.new)) }
    ensures leaves { Leaves S.rule (S.state store.old) (S.state store.new) }
    ensures begun { IfOk result (λ _. S.rule.Begun (S.state store.old) ask
        (S.rule.chunk_size (S.state store.old) heap.old ask) splits.old splits.new) }
    ensures unsplit { OnErr result (splits.new ≡ splits.old) }
{
    store.keeps_sound();
    if store.reserve(heap, ask).is_err() {
        return Err(AllocationError::OutOfHostMemory);
    }
    let whole = store.chunk_size(heap, ask);
    let visible = store.props().intersects(MemoryPropertyFlags::HOST_VISIBLE);
    let made = new_chunk_with_handle(device, whole, store.memory_type(), flags, visible);
    let (memory, handle) = match made {
        Ok(handles) => handles,
        Err(refusal) => return Err(refusal),
    };
    let block = store.begin(memory, handle, whole, ask, splits);
    // (the heap's limit is a u64, so a ledger that stays within it does not overflow)
    let _ = heap.limit();
    booking::hold(heap, allocations_remains, whole);
    Ok(block)
}
