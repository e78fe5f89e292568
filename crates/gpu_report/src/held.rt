//! The held objects by name, and the heaps.

ghost use Rattle.std.specs.Prelude.{◌≡◌, IfOk, map as mapped, nat_eq};
ghost use Rattle.std.specs.List.{IsDistinct};
ghost use Rattle.std.specs.List.Sorted.{IsNonDecreasing};
ghost use Rattle.std.specs.Map.{keys_of, lookup};
ghost use Rattle.std.specs.Option.{option_map};
ghost use Rattle.gpu_alloc.specs.Listing.{AreOfKnownTypes};
ghost use Rattle.gpu_alloc.specs.Spans.{held_entry_of, held_of};
ghost use Rattle.gpu_report.specs.Held.{AreHeld};
ghost use Rattle.gpu_report.specs.Report.{AreHeaps};

use crate::HeapReport;
use gpu_alloc::spans::HeldRow;
use gpu_alloc::{GpuAllocator, MemoryObject};
use std::alloc::{AllocError, Allocator, Global};

/// The held objects by name.
pub(crate) fn held_by_name<M: MemoryObject, A: Allocator>(
    alloc: Global,
    allocator: &GpuAllocator<M, A>,
) -> Result<Vec<(u64, HeldRow)>, AllocError>
    ensures held { IfOk result (λ rows. AreHeld allocator.now (mapped held_entry_of rows.items)) }
    ensures known { AreOfKnownTypes allocator.now }
{
    let mut rows = allocator.objects(alloc)?;
    rows.sort_unstable_by_key(|row| row.0);
    Ok(rows)
}

/// The object of a name, or `None` where it is not one of these, which are sorted by name.
pub(crate) fn find(held: &[(u64, HeldRow)], object: u64) -> Option<HeldRow>
    requires once { IsDistinct nat_eq (keys_of (mapped held_entry_of held.now)) }
    requires rising { IsNonDecreasing (keys_of (mapped held_entry_of held.now)) }
    ensures { option_map held_of result ≡ lookup (nat_eq object) (mapped held_entry_of held.now) }
{
    match held.binary_search_by(|row| row.0.cmp(&object)) {
        Ok(index) => Some(held[index].1),
        Err(_) => None,
    }
}

/// The report of each heap.
pub(crate) fn heap_reports<M: MemoryObject, A: Allocator>(
    alloc: Global,
    allocator: &GpuAllocator<M, A>,
) -> Result<Vec<HeapReport>, AllocError>
    ensures { IfOk result (λ heaps. AreHeaps allocator.now heaps.items) }
{
    let mut heaps = Vec::new(alloc);
    for heap in 0..allocator.heap_count() {
        heaps.push(HeapReport {
            size: allocator.heap_bytes(heap),
            limit: allocator.heap_limit(heap),
            used: allocator.heap_used(heap),
            budget: allocator.heap_budget(heap),
        })?;
    }
    Ok(heaps)
}
