//! The free runs of a list as one sorted vector: a run loses its tail, and a returned block is joined with its
//! neighbours in place.

ghost use Rattle.std.specs.Prelude.{◌≡◌, ◌≤◌, ◌<◌, ◌+◌, ◌-◌, ◌^◌, ◌++◌, ◌∷◌, ◌↔◌, [], length, take, drop};
ghost use Rattle.std.specs.Prelude.{slice_index_or, IfSome, IfNone, IsOk, IsTrue, OnOk, true, false};
ghost use Rattle.std.specs.Prelude.{vec_len, vec_capacity};
ghost use Rattle.std.specs.List.{All, remove};
ghost use Rattle.gpu_alloc_base.specs.AlignMasks.{IsAlignMask};
ghost use Rattle.gpu_alloc_base.specs.FreeRuns.{HasRoom, IsBefore, tail_start};
ghost use Rattle.gpu_alloc_base.specs.Slots.{region_cmp, region_of};
ghost use Rattle.gpu_alloc_base.specs.declared.region.FreeListRegion.{FreeListRegion as Region};
ghost use Rattle.gpu_alloc_freelist.specs.Runs.{AreFewComparisons, AreShorter, AreSorted, Cuts, IsApart};
ghost use Rattle.gpu_alloc_freelist.specs.Runs.{IsJoint, IsLastFit, IsPlaceOf, IsShorter, PutsBack};

use gpu_alloc_base::free_list_block::{Slot, slot_of};
use gpu_alloc_base::steps::Steps;
use gpu_alloc_base::{FreeListBlock, FreeListRegion};
use gpu_alloc_types::MemoryObject;
use std::alloc::{AllocError, Allocator, Global};
use std::cmp::Ordering;
use std::marker::Model;
use std::sync::ledger::Ledger;

/// The free runs of numbered chunks, by chunk, then by start, and room for more of them. No two of a chunk overlap or
/// touch.
#[derive(Drop)]
pub(super) struct Runs<A: Allocator = Global> {
    regions: Vec<FreeListRegion, A>,
}

impl<A: Allocator> Model for Runs<A> {
    ghost use Rattle.gpu_alloc_freelist.specs.Codes.{runs_code};
    ghost use Rattle.gpu_alloc_freelist.specs.Runs.{Runs};

    ghost Value = { Runs };

    ghost coded = { runs_code };

    ghost use Rattle.std.specs.Prelude.{◌-◌, length, vec_capacity};
    ghost use Rattle.gpu_alloc_freelist.specs.Runs.{AreSorted};

    ghost view = { λ r. record {
      regions = r.regions.items;
      room = vec_capacity r.regions - length r.regions.items;
    } };

    ghost invariant = { λ r. AreSorted r.regions.items };
}

impl<A: Allocator> Runs<A> {
    /// No runs. The vector takes its memory from `alloc`; this call takes none.
    pub(super) fn new(alloc: A) -> Self
        ensures regions { result.regions ≡ [] }
        ensures room { result.room ≡ 0 }
    {
        Runs {
            regions: Vec::new(alloc),
        }
    }

    /// Makes room for one more run for each of `live` blocks, and for two more. The only error is want of memory. The
    /// runs are unchanged, and the room never shrinks, even after an error.
    pub(super) fn reserve(&mut self, live: usize) -> Result<(), AllocError>
        ensures room { OnOk result (live + 2 ≤ self.new.room) }
        ensures stays { self.old.room ≤ self.new.room }
        ensures succeeds { live + 2 ≤ self.old.room → IsOk result }
        ensures kept { self.new.regions ≡ self.old.regions }
    {
        let spare = self.regions.capacity() - self.regions.len();
        if spare.saturating_sub(live) >= 2 {
            return Ok(());
        }
        let runs = live.checked_add(2).ok_or(AllocError)?;
        self.regions.reserve(runs)
    }

    /// The runs, by chunk number, then by start.
    pub(super) fn as_slice(&self) -> &[FreeListRegion]
        ensures { result.now ≡ self.now.regions }
    {
        self.regions.as_slice()
    }

    /// The run at this index.
    pub(super) fn get(&self, index: usize) -> FreeListRegion
        requires { index < length self.now.regions }
        ensures { result ≡ slice_index_or self.now.regions index result }
    {
        self.regions[index]
    }

    /// The allocator of the vector.
    pub(super) fn allocator(&self) -> A
    where
        A: Copy,
    {
        *self.regions.allocator()
    }

    /// Where the last run stands that has room for a block of this size at a multiple of `align_mask + 1`, in bytes.
    /// `None` where no run has room.
    pub(super) fn last_with_room(&self, size: u64, align_mask: u64) -> Option<usize>
        requires { IsAlignMask align_mask }
        ensures some { IfSome result
            (λ i. (i < length self.now.regions)
            × ((d : Region) → IsLastFit self.now.regions size (align_mask + 1) i d)) }
        ensures none { IfNone result (All (λ r. HasRoom size (align_mask + 1) r.start r.end → ⊥) self.now.regions) }
    {
        let regions = self.regions.as_slice();
        let mut end = skip_shorter(regions, regions.len(), size);
        while end > 0 {
            if has_room(regions[end - 1], size, align_mask) {
                return Some(end - 1);
            }
            end = skip_shorter(regions, end - 1, size);
        }
        None
    }

    /// Takes the bytes from `start` on out of the run at this index, in place. Where nothing is left of it, the run is
    /// removed.
    pub(super) fn cut(&mut self, index: usize, start: u64)
        requires in_range { index < length self.old.regions }
        requires within { (d : Region) → ((slice_index_or self.old.regions index d).start ≤ start)
            × (start < (slice_index_or self.old.regions index d).end) }
        ensures cuts { Cuts self.old.regions index start self.new.regions }
        ensures capacity { length self.new.regions + self.new.room ≡ length self.old.regions + self.old.room }
        ensures room { self.old.room ≤ self.new.room }
    {
        if self.regions[index].start < start {
            self.regions[index].end = start;
        } else {
            let _ = self.regions.remove(index);
        }
    }

    /// Adds a run after all others, where `reserve` made room.
    pub(super) fn push(&mut self, region: FreeListRegion)
        requires nonempty { region.start < region.end }
        requires last { All (λ r. IsBefore r region) self.old.regions }
        requires room { 0 < self.old.room }
        ensures regions { self.new.regions ≡ self.old.regions ++ region ∷ [] }
        ensures room { self.new.room + 1 ≡ self.old.room }
    {
        self.regions.push_reserved(region);
    }

    /// Takes the run at this index out.
    pub(super) fn remove(&mut self, index: usize) -> FreeListRegion
        requires { index < length self.old.regions }
        ensures value { result ≡ slice_index_or self.old.regions index result }
        ensures regions { self.new.regions ≡ remove self.old.regions index }
        ensures room { self.new.room ≡ self.old.room + 1 }
    {
        self.regions.remove(index)
    }

    /// Returns a block that has no byte in common with a run, where `reserve` made room. It is joined in place with the
    /// run before it and the run after it where it touches them. Returns the run that the block is then in. `steps`
    /// counts the comparisons of a run with the block: at most the number of binary digits of the number of runs.
    pub(super) fn put_back<M: MemoryObject, L: Ledger>(
        &mut self,
        block: &FreeListBlock<M>,
        steps: &mut Steps<L>,
    ) -> FreeListRegion
        requires nonempty { 0 < block.now.size }
        requires fits { block.now.offset + block.now.size < 2 ^ 64 }
        requires apart { All (λ r. IsApart r (region_of block.now)) self.old.regions }
        requires room { 0 < self.old.room }
        ensures joined { PutsBack self.old.regions (region_of block.now) result self.new.regions }
        ensures one_more { length self.new.regions ≤ length self.old.regions + 1 }
        ensures capacity { length self.new.regions + self.new.room ≡ length self.old.regions + self.old.room }
        ensures bounded { length self.new.regions < 2 ^ 64 }
        ensures few { AreFewComparisons (length self.old.regions) steps.old steps.new }
        ensures some { 0 < length self.old.regions → steps.old < steps.new }
        ensures counted { steps.old ≤ steps.new }
    {
        let place = place_of(self.regions.as_slice(), block, steps);
        let joint = join(self.regions.as_slice(), place, slot_of(block));
        splice(&mut self.regions, joint);
        joint.region
    }
}

/// The block that is the tail of a run with room for it, or of a new chunk.
pub(super) fn tail_of(region: FreeListRegion, object: u64, size: u64, align_mask: u64) -> Slot
    requires alignment { IsAlignMask align_mask }
    requires enough { size ≤ region.end }
    ensures { result ≡ record {
      object = object;
      chunk = region.chunk;
      offset = tail_start size (align_mask + 1) region.end;
      size = region.end - tail_start size (align_mask + 1) region.end;
    } }
{
    let offset = tail_start(region.end, size, align_mask);
    Slot {
        object,
        chunk: region.chunk,
        offset,
        size: region.end - offset,
    }
}

/// How many of the first `end` runs are left after those at their end that are shorter than a block of this size are
/// passed over. They are passed four at a time, so up to three of them may be left.
fn skip_shorter(regions: &[FreeListRegion], end: usize, size: u64) -> usize
    requires sorted { AreSorted regions.now }
    requires within { end ≤ length regions.now }
    ensures within { result ≤ end }
    ensures passed { AreShorter regions.now size result end }
    ensures left { 4 ≤ result → AreShorter regions.now size (result - 4) result → ⊥ }
{
    let mut left = end;
    while left >= 4 && are_four_shorter(regions, left - 4, size) {
        left -= 4;
    }
    left
}

/// Whether four runs, from this index on, are each shorter than a block of this size.
fn are_four_shorter(regions: &[FreeListRegion], from: usize, size: u64) -> bool
    requires sorted { AreSorted regions.now }
    requires within { from + 4 ≤ length regions.now }
    ensures { IsTrue result ↔ AreShorter regions.now size from (from + 4) }
{
    is_shorter(regions[from + 3], size)
        && is_shorter(regions[from + 2], size)
        && is_shorter(regions[from + 1], size)
        && is_shorter(regions[from], size)
}

/// Whether a run is shorter than a block of this size.
fn is_shorter(region: FreeListRegion, size: u64) -> bool
    requires { region.start ≤ region.end }
    ensures { IsTrue result ↔ IsShorter size region }
{
    region.end - region.start < size
}

/// Whether a run has room for a block of this size.
fn has_room(region: FreeListRegion, size: u64, align_mask: u64) -> bool
    requires { IsAlignMask align_mask }
    ensures yes { result ≡ true → HasRoom size (align_mask + 1) region.start region.end }
    ensures no { result ≡ false → HasRoom size (align_mask + 1) region.start region.end → ⊥ }
{
    // (no division for a run that is too short)
    size <= region.end
        && region.start <= region.end - size
        && region.start <= tail_start(region.end, size, align_mask)
}

/// Where a block of this size that ends with its run starts: the last aligned byte that leaves the size.
fn tail_start(end: u64, size: u64, align_mask: u64) -> u64
    requires alignment { IsAlignMask align_mask }
    requires enough { size ≤ end }
    ensures { result ≡ tail_start size (align_mask + 1) end }
{
    let last = end - size;
    last - last % (align_mask + 1)
}

/// How many runs come before a block, by binary search: the window of undecided runs shrinks until it is empty.
fn place_of<M: MemoryObject, L: Ledger>(
    regions: &[FreeListRegion],
    block: &FreeListBlock<M>,
    steps: &mut Steps<L>,
) -> usize
    requires { AreSorted regions.now }
    ensures place { IsPlaceOf (region_of block.now) regions.now result }
    ensures few { AreFewComparisons (length regions.now) steps.old steps.new }
    ensures some { 0 < length regions.now → steps.old < steps.new }
    ensures counted { steps.old ≤ steps.new }
{
    let mut low = 0;
    let mut high = regions.len();
    while low < high {
        let middle = low + (high - low) / 2;
        if compare(&regions[middle], block, steps) == Ordering::Less {
            low = middle + 1;
        } else {
            high = middle;
        }
    }
    low
}

/// Compares a run with a block, and counts the comparison.
fn compare<M: MemoryObject, L: Ledger>(
    region: &FreeListRegion,
    block: &FreeListBlock<M>,
    steps: &mut Steps<L>,
) -> Ordering
    ensures order { result ≡ region_cmp region.now block.now }
    ensures counted { steps.new ≡ steps.old + 1 }
{
    steps.tick();
    region.cmp(block)
}

/// A run that takes the place of those from index `from` up to `to`.
#[derive(Clone, Copy)]
struct Joint {
    from: usize,
    to: usize,
    region: FreeListRegion,
}

/// What becomes of a block that is returned between two runs: it is joined with those that it touches.
fn join(regions: &[FreeListRegion], place: usize, block: Slot) -> Joint
    requires within { place ≤ length regions.now }
    requires fits { block.offset + block.size < 2 ^ 64 }
    ensures { (d : Region) → IsJoint regions.now place (region_of block) d result.from result.to result.region }
{
    let mut joint = Joint {
        from: place,
        to: place,
        region: FreeListRegion {
            chunk: block.chunk,
            start: block.offset,
            end: block.offset + block.size,
        },
    };
    if place > 0 {
        let before = regions[place - 1];
        if touches(before, joint.region) {
            joint.from = place - 1;
            joint.region.start = before.start;
        }
    }
    if place < regions.len() {
        let after = regions[place];
        if touches(joint.region, after) {
            joint.to = place + 1;
            joint.region.end = after.end;
        }
    }
    joint
}

/// Whether a run ends where another one starts.
fn touches(before: FreeListRegion, after: FreeListRegion) -> bool
    ensures { IsTrue result ↔ (before.chunk ≡ after.chunk) × (before.end ≡ after.start) }
{
    before.chunk == after.chunk && before.end == after.start
}

/// Replaces the joined runs, at most two, by their union with the block. Where there are none, inserts the block.
fn splice<A: Allocator>(regions: &mut Vec<FreeListRegion, A>, joint: Joint)
    requires within { (joint.from ≤ joint.to) × (joint.to ≤ vec_len regions.old) }
    requires two { joint.to ≤ joint.from + 2 }
    requires room { vec_len regions.old < vec_capacity regions.old }
    ensures items { regions.new.items ≡ take joint.from regions.old.items
        ++ joint.region ∷ drop joint.to regions.old.items }
    ensures capacity { vec_capacity regions.new ≡ vec_capacity regions.old }
{
    if joint.from == joint.to {
        insert(regions, joint.from, joint.region);
        return;
    }
    regions[joint.from] = joint.region;
    if joint.from + 1 < joint.to {
        let _ = regions.remove(joint.from + 1);
    }
}

/// Inserts a run at this index, where there is room. Those after it move up by one place.
fn insert<A: Allocator>(regions: &mut Vec<FreeListRegion, A>, index: usize, region: FreeListRegion)
    requires within { index ≤ vec_len regions.old }
    requires room { vec_len regions.old < vec_capacity regions.old }
    ensures items { regions.new.items ≡ take index regions.old.items ++ region ∷ drop index regions.old.items }
    ensures capacity { vec_capacity regions.new ≡ vec_capacity regions.old }
{
    regions.push_reserved(region);
    put_first(&mut regions[index..], region);
}

/// Puts a run before the others, which move up by one place. The last of them is lost.
// (It is not inlined: LLVM makes one `memmove` of the copy only where the slice is all that it knows.)
#[inline(never)]
fn put_first(regions: &mut [FreeListRegion], region: FreeListRegion)
    requires { 0 < length regions.old }
    ensures { regions.new ≡ region ∷ take (length regions.old - 1) regions.old }
{
    let last = regions.len() - 1;
    regions.copy_within(..last, 1);
    regions[0] = region;
}
