//! Held objects by memory type and kind.

ghost use Rattle.std.specs.Prelude.{◌≡◌, IfOk, length, map as mapped, nat_eq, sum};
ghost use Rattle.std.specs.List.{IsDistinct};
ghost use Rattle.std.specs.List.Sorted.{IsNonDecreasing};
ghost use Rattle.std.specs.Map.{keys_of};
ghost use Rattle.std.specs.Option.{option_map};
ghost use Rattle.gpu_alloc.specs.Spans.{held_entry_of, held_of};
ghost use Rattle.gpu_report.specs.Free.{free_sizes};
ghost use Rattle.gpu_report.specs.Held.{held_as, is_found, is_of, kind_of, rank};
ghost use Rattle.gpu_report.specs.Live.{asked_sizes, live_sizes};
ghost use Rattle.gpu_report.specs.Report.{is_chunk};

use crate::held::find;
use crate::sums::widened;
use crate::{LiveBlock, ObjectKind};
use gpu_alloc::spans::HeldRow;
use gpu_alloc::{FreeRange, Kind};
use std::alloc::{AllocError, Global};

impl ObjectKind {
    /// What an object is reported to be held for.
    pub fn of(kind: Kind) -> ObjectKind
        ensures { result ≡ kind_of kind }
    {
        match kind {
            Kind::Dedicated => ObjectKind::Dedicated,
            Kind::Imported => ObjectKind::Imported,
            Kind::BuddyChunk => ObjectKind::BuddyChunk,
            Kind::FreeListChunk(_) => ObjectKind::FreeListChunk,
            Kind::FitChunk => ObjectKind::FitChunk,
        }
    }

    /// Whether many blocks may lie in an object of the kind.
    pub fn is_chunk(self) -> bool
        ensures { result ≡ is_chunk self }
    {
        match self {
            ObjectKind::Dedicated | ObjectKind::Imported => false,
            ObjectKind::BuddyChunk | ObjectKind::FreeListChunk | ObjectKind::FitChunk => true,
        }
    }

    /// Its place in the order of kinds.
    fn rank(self) -> u8
        ensures { result ≡ rank self }
    {
        match self {
            ObjectKind::Dedicated => 0,
            ObjectKind::Imported => 1,
            ObjectKind::BuddyChunk => 2,
            ObjectKind::FreeListChunk => 3,
            ObjectKind::FitChunk => 4,
        }
    }
}

/// A memory type, and what objects of it are held for.
#[derive(Clone, Copy)]
pub(crate) struct Part {
    pub(crate) memory_type: u32,
    pub(crate) kind: ObjectKind,
}

/// What live blocks sum up to: how many they are, their sizes, and the bytes requested for them.
#[derive(Clone, Copy)]
pub(crate) struct LiveSums {
    pub blocks: u64,
    pub bytes: u128,
    pub asked: u128,
}

impl Part {
    /// Whether an object is held as this.
    pub(crate) fn has(&self, row: &HeldRow) -> bool
        ensures { result ≡ is_of self.now (held_of row.now) }
    {
        row.memory_type == self.memory_type && ObjectKind::of(row.kind).rank() == self.kind.rank()
    }

    /// Whether a row, if it was found, is of an object that is held as this.
    fn is_of(&self, found: Option<HeldRow>) -> bool
        ensures { result ≡ is_found self.now (option_map held_of found) }
    {
        match found {
            Some(row) => self.has(&row),
            None => false,
        }
    }

    /// How many objects are held as this.
    pub(crate) fn count(&self, held: &[(u64, HeldRow)]) -> u64
        ensures { result ≡ length (held_as (mapped held_entry_of held.now) self.now) }
    {
        let mut count = 0;
        for row in held {
            if self.has(&row.1) {
                count += 1;
            }
        }
        count
    }

    /// What the live blocks in the held objects that are held as this, by name, sum up to.
    pub(crate) fn live_sums(&self, held: &[(u64, HeldRow)], live: &[LiveBlock]) -> LiveSums
        requires once { IsDistinct nat_eq (keys_of (mapped held_entry_of held.now)) }
        requires rising { IsNonDecreasing (keys_of (mapped held_entry_of held.now)) }
        ensures blocks { result.blocks ≡ length (live_sizes (mapped held_entry_of held.now) self.now live.now) }
        ensures bytes { result.bytes ≡ sum (live_sizes (mapped held_entry_of held.now) self.now live.now) }
        ensures asked { result.asked ≡ sum (asked_sizes (mapped held_entry_of held.now) self.now live.now) }
    {
        let mut blocks = 0;
        let mut bytes: u128 = 0;
        let mut asked: u128 = 0;
        for block in live {
            if self.is_of(find(held, block.object)) {
                blocks += 1;
                bytes += widened(block.size);
                asked += widened(block.asked);
            }
        }
        LiveSums {
            blocks,
            bytes,
            asked,
        }
    }

    /// The lengths of the free ranges in the held objects that are held as this, by name.
    pub(crate) fn free_sizes(
        &self,
        alloc: Global,
        held: &[(u64, HeldRow)],
        free: &[FreeRange],
    ) -> Result<Vec<u64>, AllocError>
        requires once { IsDistinct nat_eq (keys_of (mapped held_entry_of held.now)) }
        requires rising { IsNonDecreasing (keys_of (mapped held_entry_of held.now)) }
        ensures { IfOk result (λ sizes. sizes.items ≡ free_sizes (mapped held_entry_of held.now) self.now free.now) }
    {
        let mut sizes = Vec::new(alloc);
        for range in free {
            if self.is_of(find(held, range.object)) {
                sizes.push(range.end.saturating_sub(range.start))?;
            }
        }
        Ok(sizes)
    }
}
