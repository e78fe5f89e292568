//! The calls on what is held: released objects, counts, limits, free ranges.

ghost use Rattle.std.specs.Prelude.{◌≡◌, ◌≢◌, ◌↔◌, ◌⊎◌, ◌<◌, ◌≤◌, ◌+◌, ◌-◌, ◌^◌, [], IsNone, List, drop, length, take};
ghost use Rattle.std.specs.FinMap as map;
ghost use Rattle.gpu_desk.specs.Calls.{CleansUp, CountsOf, HeapCountsOf, LimitsHeap};
ghost use Rattle.gpu_answers.specs.Held.{KeepsNames};
ghost use Rattle.gpu_alloc_types.specs.declared.types.FreeRange.{FreeRange};
ghost use Rattle.gpu_session.specs.Does.{IsEachFreeRange};
ghost use Rattle.wallthyme.specs.Handles.{KeepsBut, KeepsSound, OnDesks, desk_of};
ghost use Rattle.wallthyme.specs.Objects.{AreRangesTold, Reads};
ghost use Rattle.wallthyme.specs.Layout.{counts_of, heap_counts_of};

use crate::handle::Handle;
use crate::layout;
use crate::status::{
    BAD_HEAP, BAD_MEMORY_TYPE, NOT_OPEN, OK, OUT_OF_HOST_MEMORY, TOO_MANY_REMAINING, denied,
};
use gpu_desk::{Desk, FreeRange};
use std::alloc::Global;

#[unsafe(no_mangle)]
pub extern "C" fn wt_cleanup(alloc: Global, handle: &mut Handle) -> u32
    ensures closed { (result ≡ NOT_OPEN) ↔ IsNone (desk_of handle.old) }
    ensures status { (result ≡ OK) ⊎ (result ≡ NOT_OPEN) }
    ensures cleaned { OnDesks CleansUp handle.old handle.new }
    ensures keeps { OnDesks KeepsSound handle.old handle.new }
{
    let Some(mut kept) = handle.take(alloc) else {
        return NOT_OPEN;
    };
    kept.desk.cleanup();
    handle.put(kept);
    OK
}

#[unsafe(no_mangle)]
#[tactic(auto, using(crate::proofs::Reading::reads_lose))]
pub extern "C" fn wt_gone(
    alloc: Global,
    handle: &mut Handle,
    names: &mut [u64],
    count: &mut usize,
) -> u32
    ensures closed { (result ≡ NOT_OPEN) ↔ IsNone (desk_of handle.old) }
    ensures status { (result ≡ OK) ⊎ (result ≡ NOT_OPEN) }
    ensures unchanged { result ≢ OK → desk_of handle.new ≡ desk_of handle.old }
    ensures fits { result ≡ OK → count.new ≤ length names.new }
    ensures read { result ≡ OK → OnDesks (λ old new. Reads old (take count.new names.new) new) handle.old handle.new }
    ensures all { result ≡ OK → count.new < length names.new
        → OnDesks (λ _ new. new.device.held.gone ≡ []) handle.old handle.new }
    ensures rest { result ≡ OK → drop count.new names.new ≡ drop count.new names.old }
    ensures kept { result ≢ OK → (names.new ≡ names.old) × (count.new ≡ count.old) }
    ensures keeps { result ≡ OK → OnDesks (KeepsBut (take count.new names.new)) handle.old handle.new }
{
    let Some(mut kept) = handle.take(alloc) else {
        return NOT_OPEN;
    };
    *count = read_gone(&mut kept.desk, names);
    handle.put(kept);
    OK
}

/// Reads names of released objects, as many as there are and as fit. Returns how many.
fn read_gone(desk: &mut Desk, names: &mut [u64]) -> usize
    ensures fits { result ≤ length names.new }
    ensures read { Reads desk.old (take result names.new) desk.new }
    ensures names { KeepsNames (desk.old.device).held (desk.new.device).held }
    ensures all { result < length names.new → desk.new.device.held.gone ≡ [] }
    ensures rest { drop result names.new ≡ drop result names.old }
{
    for (count, place) in names.iter_mut().enumerate() {
        let Some(name) = desk.next_gone() else {
            return count;
        };
        *place = name;
    }
    names.len()
}

#[unsafe(no_mangle)]
pub extern "C" fn wt_count(alloc: Global, handle: &mut Handle, counts: &mut layout::Counts) -> u32
    ensures closed { (result ≡ NOT_OPEN) ↔ IsNone (desk_of handle.old) }
    ensures status { (result ≡ OK) ⊎ (result ≡ NOT_OPEN) }
    ensures told { result ≡ OK → OnDesks (λ old _. CountsOf old (counts_of counts.new))
        handle.old handle.new }
    ensures kept { result ≢ OK → counts.new ≡ counts.old }
    ensures same { desk_of handle.new ≡ desk_of handle.old }
{
    let Some(kept) = handle.take(alloc) else {
        return NOT_OPEN;
    };
    *counts = kept.desk.counts().into();
    handle.put(kept);
    OK
}

#[unsafe(no_mangle)]
pub extern "C" fn wt_heap(
    alloc: Global,
    handle: &mut Handle,
    heap: u32,
    counts: &mut layout::HeapCounts,
) -> u32
    ensures closed { (result ≡ NOT_OPEN) ↔ IsNone (desk_of handle.old) }
    ensures status { (result ≡ OK) ⊎ ((result ≡ NOT_OPEN) ⊎ (result ≡ BAD_HEAP)) }
    ensures told { result ≡ OK → OnDesks (λ old _. HeapCountsOf old heap (heap_counts_of counts.new))
        handle.old handle.new }
    ensures bad { result ≢ OK → OnDesks (λ old _. length old.allocator.properties.memory_heaps ≤ heap)
        handle.old handle.new }
    ensures known { result ≡ OK → OnDesks (λ old _. heap < length old.allocator.properties.memory_heaps)
        handle.old handle.new }
    ensures kept { result ≢ OK → counts.new ≡ counts.old }
    ensures same { desk_of handle.new ≡ desk_of handle.old }
{
    let Some(kept) = handle.take(alloc) else {
        return NOT_OPEN;
    };
    let found = kept.desk.heap(heap);
    handle.put(kept);
    match found {
        Some(found) => {
            *counts = found.into();
            OK
        }
        None => BAD_HEAP,
    }
}

#[unsafe(no_mangle)]
pub extern "C" fn wt_set_heap_limit(
    alloc: Global,
    handle: &mut Handle,
    heap: u32,
    limit: u64,
) -> u32
    ensures closed { (result ≡ NOT_OPEN) ↔ IsNone (desk_of handle.old) }
    ensures status { (result ≡ OK) ⊎ ((result ≡ NOT_OPEN) ⊎ (result ≡ BAD_HEAP)) }
    ensures set { result ≡ OK → OnDesks (λ old new. LimitsHeap old heap limit new) handle.old handle.new }
    ensures bad { result ≢ OK → OnDesks (λ old _. length old.allocator.properties.memory_heaps ≤ heap)
        handle.old handle.new }
    ensures known { result ≡ OK → OnDesks (λ old _. heap < length old.allocator.properties.memory_heaps)
        handle.old handle.new }
    ensures unchanged { result ≢ OK → desk_of handle.new ≡ desk_of handle.old }
    ensures keeps { OnDesks (KeepsBut []) handle.old handle.new }
{
    let Some(mut kept) = handle.take(alloc) else {
        return NOT_OPEN;
    };
    let set = kept.desk.set_heap_limit(heap, limit);
    handle.put(kept);
    match set {
        Some(()) => OK,
        None => BAD_HEAP,
    }
}

#[unsafe(no_mangle)]
pub extern "C" fn wt_set_remaining(alloc: Global, handle: &mut Handle, remaining: u32) -> u32
    ensures closed { (result ≡ NOT_OPEN) ↔ IsNone (desk_of handle.old) }
    ensures status { (result ≡ OK) ⊎ ((result ≡ NOT_OPEN) ⊎ (result ≡ TOO_MANY_REMAINING)) }
    ensures set { result ≡ OK → OnDesks (λ old new.
        new ≡ record old { allocator = record (old.allocator) { remaining = remaining } }) handle.old handle.new }
    ensures too_many { result ≢ OK → OnDesks (λ old _. 2 ^ 32 ≤ remaining + map.len old.allocator.held)
        handle.old handle.new }
    ensures few { result ≡ OK → OnDesks (λ old _. remaining + map.len old.allocator.held < 2 ^ 32)
        handle.old handle.new }
    ensures unchanged { result ≢ OK → desk_of handle.new ≡ desk_of handle.old }
    ensures keeps { OnDesks (KeepsBut []) handle.old handle.new }
{
    let Some(mut kept) = handle.take(alloc) else {
        return NOT_OPEN;
    };
    let set = kept.desk.set_remaining(remaining);
    handle.put(kept);
    match set {
        Ok(()) => OK,
        Err(denial) => denied(denial),
    }
}

#[unsafe(no_mangle)]
pub extern "C" fn wt_free_ranges(
    alloc: Global,
    handle: &mut Handle,
    memory_type: u32,
    first: usize,
    ranges: &mut [layout::Range],
    count: &mut usize,
) -> u32
    ensures closed { (result ≡ NOT_OPEN) ↔ IsNone (desk_of handle.old) }
    ensures status { (result ≡ OK) ⊎ ((result ≡ NOT_OPEN) ⊎ ((result ≡ BAD_MEMORY_TYPE) ⊎ (result ≡ OUT_OF_HOST_MEMORY))) }
    ensures told { result ≡ OK → OnDesks (λ old _. (found : List FreeRange)
        × IsEachFreeRange old.allocator memory_type found × (count.new ≡ length found)
        × AreRangesTold (drop first found) ranges.new) handle.old handle.new }
    ensures bad { result ≡ BAD_MEMORY_TYPE → OnDesks (λ old _.
        length old.allocator.properties.memory_types ≤ memory_type) handle.old handle.new }
    ensures known { result ≢ BAD_MEMORY_TYPE → OnDesks (λ old _.
        memory_type < length old.allocator.properties.memory_types) handle.old handle.new }
    ensures rest { result ≡ OK → drop (count.new - first) ranges.new ≡ drop (count.new - first) ranges.old }
    ensures kept { result ≢ OK → (ranges.new ≡ ranges.old) × (count.new ≡ count.old) }
    ensures same { desk_of handle.new ≡ desk_of handle.old }
{
    let Some(kept) = handle.take(alloc) else {
        return NOT_OPEN;
    };
    let found = kept.desk.free_ranges(memory_type);
    handle.put(kept);
    match found {
        Ok(found) => {
            tell(rest_from(first, &found), ranges);
            *count = found.len();
            OK
        }
        Err(denial) => denied(denial),
    }
}

/// The free ranges from index `first` on.
fn rest_from(first: usize, found: &[FreeRange]) -> &[FreeRange]
    ensures { result.now ≡ drop first found.now }
{
    match found.get(first..) {
        Some(rest) => rest,
        None => &[],
    }
}

/// Writes free ranges to C's array, as many as fit.
fn tell(found: &[FreeRange], ranges: &mut [layout::Range])
    ensures told { AreRangesTold found.now ranges.new }
    ensures rest { drop (length found.now) ranges.new ≡ drop (length found.now) ranges.old }
{
    for (index, place) in ranges.iter_mut().enumerate() {
        let Some(range) = found.get(index) else {
            return;
        };
        *place = (*range).into();
    }
}
