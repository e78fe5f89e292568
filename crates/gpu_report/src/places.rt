//! The places of an object: its live blocks and free ranges.

ghost use Rattle.std.specs.Prelude.{◌≡◌, ◌==◌, IfOk};
ghost use Rattle.std.specs.List.{filter};
ghost use Rattle.std.specs.List.Sorted.{IsNonDecreasingBy};
ghost use Rattle.gpu_alloc_base.specs.RangeOrder.{AreInOrder};
ghost use Rattle.gpu_report.specs.Places.{block_place, free_place, places_in, ArePlaces};

use crate::{LiveBlock, Place};
use gpu_alloc::FreeRange;
use std::alloc::{AllocError, Global};

impl Place {
    fn of_block(block: &LiveBlock) -> Place
        ensures { result ≡ block_place block.now }
    {
        Place {
            block: Some(block.name),
            offset: block.offset,
            size: block.size,
            asked: block.asked,
        }
    }

    fn of_free(range: &FreeRange) -> Place
        ensures { result ≡ free_place range.now }
    {
        Place {
            block: None,
            offset: range.start,
            size: range.end.saturating_sub(range.start),
            asked: 0,
        }
    }
}

/// The live blocks of an object, from blocks that are sorted by the name of their object.
fn blocks_of(live: &[LiveBlock], object: u64) -> &[LiveBlock]
    requires { IsNonDecreasingBy (λ b. b.object) live.now }
    ensures { result.now ≡ filter (λ b. b.object == object) live.now }
{
    let first = live.partition_point(|block| block.object < object);
    let rest = &live[first..];
    let count = rest.partition_point(|block| block.object <= object);
    &rest[..count]
}

/// The free ranges of an object, from sorted ranges.
fn ranges_of(free: &[FreeRange], object: u64) -> &[FreeRange]
    requires { AreInOrder free.now }
    ensures { result.now ≡ filter (λ r. r.object == object) free.now }
{
    let first = free.partition_point(|range| range.object < object);
    let rest = &free[first..];
    let count = rest.partition_point(|range| range.object <= object);
    &rest[..count]
}

/// The live blocks and free ranges of an object, in no particular order.
fn gathered(
    alloc: Global,
    object: u64,
    live: &[LiveBlock],
    free: &[FreeRange],
) -> Result<Vec<Place>, AllocError>
    requires by_object { IsNonDecreasingBy (λ b. b.object) live.now }
    requires order { AreInOrder free.now }
    ensures { IfOk result (λ places. places.items ≡ places_in live.now free.now object) }
{
    let blocks = blocks_of(live, object);
    let ranges = ranges_of(free, object);
    let mut places = Vec::new(alloc);
    for block in blocks {
        places.push(Place::of_block(block))?;
    }
    for range in ranges {
        places.push(Place::of_free(range))?;
    }
    Ok(places)
}

/// The live blocks and free ranges of an object, sorted by offset.
pub(crate) fn places_of(
    alloc: Global,
    object: u64,
    live: &[LiveBlock],
    free: &[FreeRange],
) -> Result<Vec<Place>, AllocError>
    requires by_object { IsNonDecreasingBy (λ b. b.object) live.now }
    requires order { AreInOrder free.now }
    ensures { IfOk result (λ places. ArePlaces live.now free.now object places.items) }
{
    let mut places = gathered(alloc, object, live, free)?;
    places.sort_unstable_by_key(|place| place.offset);
    Ok(places)
}
