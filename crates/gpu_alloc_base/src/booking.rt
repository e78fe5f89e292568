//! The books of held objects: every grant of a new object and every release of one passes here. It is public for the
//! crates above.

ghost use Rattle.std.specs.Prelude.{◌≡◌, ◌+◌, ◌-◌, ◌<◌, ◌≤◌, ◌^◌};

use crate::heap::Heap;

/// Books a new object of `size` bytes: its heap's ledger counts it, and one fewer object may still be held.
#[inline(always)]
pub fn hold(heap: &mut Heap, allocations_remains: &mut u32, size: u64)
    requires room { heap.old.used + size < 2 ^ 128 }
    requires remains { 0 < allocations_remains.old }
    ensures ledger { heap.new ≡ record heap.old { used = heap.old.used + size } }
    ensures count { allocations_remains.new ≡ allocations_remains.old - 1 }
{
    heap.alloc(size);
    *allocations_remains -= 1;
}

/// Takes a released object of `size` bytes off the books: its heap's ledger is reduced by its size, and one more object
/// may be held.
#[inline(always)]
pub fn release(heap: &mut Heap, allocations_remains: &mut u32, size: u64)
    requires counted { size ≤ heap.old.used }
    requires fits { allocations_remains.old + 1 < 2 ^ 32 }
    ensures ledger { heap.new ≡ record heap.old { used = heap.old.used - size } }
    ensures count { allocations_remains.new ≡ allocations_remains.old + 1 }
{
    heap.dealloc(size);
    *allocations_remains += 1;
}
