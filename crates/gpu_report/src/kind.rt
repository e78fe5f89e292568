//! The report of a memory type and a kind.

ghost use Rattle.std.specs.Prelude.{◌≡◌, ◌++◌, ◌∷◌, [], All, List, IfOk, OnOk, map as mapped};
ghost use Rattle.std.specs.List.Sorted.{IsNonDecreasingBy};
ghost use Rattle.gpu_alloc.specs.RangeOrder.{AreInOrder};
ghost use Rattle.gpu_alloc.specs.Sound as Sound;
ghost use Rattle.gpu_alloc.specs.Spans.{held_entry_of};
ghost use Rattle.gpu_report.specs.declared.part.Part.{Part as APart};
ghost use Rattle.gpu_report.specs.Free.{AreFreeRanges};
ghost use Rattle.gpu_report.specs.Held.{AreHeld, held_as};
ghost use Rattle.gpu_report.specs.Live.{AreLive};
ghost use Rattle.gpu_report.specs.Report.{head_held, head_told, part_told, AreSums, ArePartsTold, HasPlaces};

use crate::part::Part;
use crate::places::places_of;
use crate::sums::{greatest, scattered, total};
use crate::{KindReport, LiveBlock, ObjectKind, ObjectReport};
use gpu_alloc::laws::free_ranges_are_the_free_bytes;
use gpu_alloc::spans::HeldRow;
use gpu_alloc::{FreeRange, GpuAllocator, MemoryObject};
use std::alloc::{AllocError, Allocator, Global};

/// The report of a memory type and a kind, with zeros where no object is held so.
pub(crate) fn kind_report<M: MemoryObject, A: Allocator>(
    alloc: Global,
    allocator: &GpuAllocator<M, A>,
    part: Part,
    held: &[(u64, HeldRow)],
    live: &[LiveBlock],
    free: &[FreeRange],
) -> Result<KindReport, AllocError>
    requires are_held { AreHeld allocator.now (mapped held_entry_of held.now) }
    requires are_free { AreFreeRanges allocator.now part.memory_type free.now }
    ensures sums { IfOk result (AreSums allocator.now (mapped held_entry_of held.now) live.now) }
    ensures of { IfOk result (λ k. part_told k ≡ part) }
{
    let sums = part.live_sums(held, live);
    let free_sizes = part.free_sizes(alloc, held, free)?;
    Ok(KindReport {
        memory_type: part.memory_type,
        kind: part.kind,
        objects: part.count(held),
        live_blocks: sums.blocks,
        live_bytes: sums.bytes,
        asked_bytes: sums.asked,
        free_bytes: total(&free_sizes),
        largest_free: greatest(&free_sizes),
        scattered: scattered(&free_sizes),
    })
}

/// The report of an object.
fn object_report(
    alloc: Global,
    row: &(u64, HeldRow),
    live: &[LiveBlock],
    free: &[FreeRange],
) -> Result<ObjectReport, AllocError>
    requires by_object { IsNonDecreasingBy (λ b. b.object) live.now }
    requires order { AreInOrder free.now }
    ensures of { IfOk result (λ o. head_told o ≡ head_held (held_entry_of row.now)) }
    ensures placed { IfOk result (HasPlaces live.now free.now) }
{
    let (object, held) = *row;
    Ok(ObjectReport {
        object,
        memory_type: held.memory_type,
        kind: ObjectKind::of(held.kind),
        size: held.counted,
        places: places_of(alloc, object, live, free)?,
    })
}

/// The report of each object that is held as this.
fn objects_of(
    alloc: Global,
    part: Part,
    held: &[(u64, HeldRow)],
    live: &[LiveBlock],
    free: &[FreeRange],
) -> Result<Vec<ObjectReport>, AllocError>
    requires by_object { IsNonDecreasingBy (λ b. b.object) live.now }
    requires order { AreInOrder free.now }
    ensures heads { IfOk result (λ objects.
        mapped head_told objects.items ≡ mapped head_held (held_as (mapped held_entry_of held.now) part)) }
    ensures placed { IfOk result (λ objects. All (HasPlaces live.now free.now) objects.items) }
{
    let mut objects = Vec::new(alloc);
    for row in held {
        if part.has(&row.1) {
            objects.push(object_report(alloc, row, live, free)?)?;
        }
    }
    Ok(objects)
}

/// Adds the report of a memory type and a kind, and of each object that is held so.
pub(crate) fn add_kind<M: MemoryObject, A: Allocator>(
    alloc: Global,
    allocator: &GpuAllocator<M, A>,
    part: Part,
    held: &[(u64, HeldRow)],
    live: &[LiveBlock],
    free: &[FreeRange],
    kinds: &mut Vec<KindReport>,
    objects: &mut Vec<ObjectReport>,
) -> Result<(), AllocError>
    requires sound { Sound.IsSound allocator.now }
    requires are_held { AreHeld allocator.now (mapped held_entry_of held.now) }
    requires are_live { AreLive allocator.now live.now }
    requires are_free { AreFreeRanges allocator.now part.memory_type free.now }
    ensures { OnOk result ((ps : List APart)
        → ArePartsTold allocator.now (mapped held_entry_of held.now) live.now ps kinds.old.items objects.old.items
        → ArePartsTold allocator.now (mapped held_entry_of held.now) live.now (ps ++ part ∷ [])
        kinds.new.items objects.new.items) }
{
    if part.count(held) > 0 {
        kinds.push(kind_report(alloc, allocator, part, held, live, free)?)?;
    }
    objects.append(&mut objects_of(alloc, part, held, live, free)?)?;
    free_ranges_are_the_free_bytes();
    Ok(())
}
