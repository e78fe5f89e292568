//! The order of free ranges, for the crates above.

ghost use Rattle.std.specs.Prelude.{◌≡◌, ◌↔◌, Bool, Contains, count_by};
ghost use Rattle.std.specs.List.{IsDistinct};
ghost use Rattle.gpu_alloc_base.specs.RangeOrder.{AreInOrder, same_start};
ghost use Rattle.gpu_alloc_types.specs.declared.types.FreeRange.{FreeRange as Range};

use gpu_alloc_types::FreeRange;
use std::alloc::Allocator;

/// Sorts free ranges by the name of their object, then by start. No two of them may start at the same byte of one
/// object. It allocates nothing.
pub fn put_in_order<A: Allocator>(ranges: &mut Vec<FreeRange, A>)
    requires { IsDistinct same_start ranges.old.items }
    ensures same { (r : Range) → Contains ranges.new.items r ↔ Contains ranges.old.items r }
    ensures count { (is : Range → Bool) → count_by is ranges.new.items ≡ count_by is ranges.old.items }
    ensures order { AreInOrder ranges.new.items }
{
    ranges.sort_unstable_by_key(|range| (range.object, range.start));
}
