//! A free list: chunks of memory by number, their free runs, and the blocks that are live in them.

ghost use Rattle.std.specs.Prelude.{◌≡◌, ◌≤◌, ◌<◌, ◌+◌, ◌↔◌, ℕ, List, length, slice_index_or, Some};
ghost use Rattle.std.specs.Prelude.{IfSome, IfNone, IfOk, IfErr, OnOk, OnErr, IsOk, IsSome, IsTrue, false};
ghost use Rattle.std.specs.FinMap as map;
ghost use Rattle.std.specs.FinSet as set;
ghost use Rattle.std.specs.List.{Contains};
ghost use Rattle.gpu_alloc_freelist.specs.Chunks.{IsWholeChunk, ListsChunks};
ghost use Rattle.gpu_alloc_freelist.specs.Live.{ListsSlots};
ghost use Rattle.gpu_alloc_freelist.specs.FreeList.{TakesTail, IsFirstToGo, MayGo, HasNumber, HasPlace, with_slot};
ghost use Rattle.gpu_alloc_freelist.specs.FreeList.{without_slot, with_numbered_chunk, without_chunk, first_tail, no_list_space};
ghost use Rattle.gpu_alloc_freelist.specs.FreeList.{AddsBlock, LeavesBlocks, RemovesBlock};
ghost use Rattle.gpu_alloc_freelist.specs.FreeListInside.{MayBeTaken, IsFirstWhole};
ghost use Rattle.gpu_alloc_freelist.specs.FreeListSound.{IsSoundListSpace};
ghost use Rattle.gpu_alloc_freelist.specs.FreeListState.{IsLiveSlot, IsFreeIn};
ghost use Rattle.gpu_alloc_freelist.specs.Runs.{AreFewComparisons};
ghost use Rattle.gpu_alloc_freelist.specs.Wholes.{wholes};
ghost use Rattle.gpu_alloc_base.specs.FreeRuns.{IsFreeRun, AreRising};
ghost use Rattle.gpu_alloc_base.specs.AlignMasks.{IsAlignMask};
ghost use Rattle.gpu_alloc_base.specs.declared.region.FreeListRegion.{FreeListRegion as Region};

use super::chunks::{Chunks, NumberedChunk};
use super::live::Live;
use super::runs::{Runs, tail_of};
use gpu_alloc_base::free_list_block::{Slot, into_parts, key_of, slot_of};
use gpu_alloc_base::steps::Steps;
use gpu_alloc_base::{FreeListBlock, FreeListRegion};
use gpu_alloc_types::MemoryObject;
use slab::Iter;
use std::alloc::{AllocError, Allocator, Global};
use std::marker::Model;
use std::sync::ledger::Ledger;

/// Chunks of memory, the free runs in them, and the blocks that are live. It cannot be dropped:
/// [`close`](FreeList::close) ends it.
///
/// Chunks are numbered from 1 on, and no number is used twice. Between calls the regions are exactly the free runs: the
/// longest ranges of bytes that lie in a chunk and in no live block.
pub struct FreeList<M: MemoryObject, A: Allocator = Global> {
    chunks: Chunks<M, A>,
    // With room for one more run for each live block.
    runs: Runs<A>,
    live: Live<A>,
    // How many of the runs are whole chunks.
    whole: usize,
    latest: u64,
}

impl<M: MemoryObject, A: Allocator> Model for FreeList<M, A> {
    ghost use Rattle.gpu_alloc_freelist.specs.FreeListState.{ListStore};
    ghost use Rattle.gpu_alloc_freelist.specs.Codes.{list_store_code};

    ghost Value = { ListStore };

    ghost coded = { list_store_code };

    ghost use Rattle.std.specs.Prelude.{◌-◌};
    ghost use Rattle.gpu_alloc_freelist.specs.FreeListInside.{list_space_in, list_store_in, room_for, IsListed};

    ghost view = { λ l. list_store_in (list_space_in (l.chunks).held (l.live).slots l.latest)
        (room_for (l.chunks).room (l.live).room ((l.runs).room - (l.live).count)) };

    ghost invariant = { λ l. IsListed (list_space_in (l.chunks).held (l.live).slots l.latest) (l.runs).regions (l.live).count
        (l.runs).room l.whole };
}

impl<M: MemoryObject, A: Allocator + Copy> FreeList<M, A> {
    /// A list without chunks. Its stores take their memory from `alloc`; this call takes none.
    ///
    /// No block is live (`live`), and the list may be closed (`held`).
    pub fn new(alloc: A) -> Self
        ensures empty { result.space ≡ no_list_space }
        ensures live { set.len (result.space).live ≡ 0 }
        ensures held { map.len (result.space).chunks ≡ 0 }
        ensures sound { IsSoundListSpace result.space }
    {
        FreeList {
            chunks: Chunks::new(alloc),
            runs: Runs::new(alloc),
            live: Live::new(alloc),
            whole: 0,
            latest: 0,
        }
    }
}

impl<M: MemoryObject, A: Allocator> FreeList<M, A> {
    /// Makes room for one more chunk with one more block, and for their runs: the front of the chunk now, and the block
    /// when it is returned. Contracts see the room as a number.
    ///
    /// The only error is want of memory. Nothing but the room changes, and it never shrinks, even after an error.
    pub fn reserve(&mut self) -> Result<(), AllocError>
        ensures room { OnOk result (0 < self.new.room) }
        ensures stays { self.old.room ≤ self.new.room }
        ensures succeeds { 0 < self.old.room → IsOk result }
        ensures kept { self.new.space ≡ self.old.space }
    {
        self.chunks.reserve()?;
        self.live.reserve()?;
        self.runs.reserve(self.live.len())
    }

    /// A block that is the tail of a new chunk: it begins at the last multiple of `align_mask + 1` that leaves `size`
    /// bytes, and ends with the chunk. The rest of the chunk is a free run. The chunk gets the next number.
    ///
    /// `memory` is the chunk's object, of `memory_size` bytes. The size must be at least 1 and at most that, and
    /// `align_mask + 1` a power of two of at most 2^63. Room must be made ([`reserve`](FreeList::reserve)), and a
    /// number be left ([`has_number`](FreeList::has_number)). The call takes at most one chunk's room.
    ///
    /// Each block that a caller had in hand is still live (`leaves`). The new one is live too, and shares no byte with
    /// any of them (`added`).
    ///
    /// Where there is no host memory for a second handle of the object, `memory` itself is handed back and nothing has
    /// changed.
    pub fn get_block_from_new_memory(
        &mut self,
        memory: M,
        memory_size: u64,
        align_mask: u64,
        size: u64,
    ) -> Result<FreeListBlock<M>, M>
        requires room { 0 < self.old.room }
        requires nonempty { 0 < size }
        requires inside { size ≤ memory_size }
        requires alignment { IsAlignMask align_mask }
        requires number { HasNumber self.old.space }
        ensures block { IfOk result
            (λ slot. slot ≡ first_tail self.old.space (M.object memory) memory_size size (align_mask + 1)) }
        ensures chunk { IfOk result
            (λ slot. self.new.space ≡ with_slot (with_numbered_chunk self.old.space (M.object memory) memory_size) slot) }
        ensures added { IfOk result (AddsBlock self.old.space self.new.space) }
        ensures leaves { LeavesBlocks self.old.space self.new.space }
        ensures refused { IfErr result (λ back. (back ≡ memory) × (self.new ≡ self.old)) }
        ensures room { OnOk result (self.old.room ≤ self.new.room + 1) }
        ensures sound { IsSoundListSpace self.new.space }
    {
        self.keeps_sound();
        let handle = match memory.duplicate() {
            Ok(handle) => handle,
            Err(_) => return Err(memory),
        };
        Ok(self.begin(memory, handle, memory_size, align_mask, size))
    }

    /// A lemma about every list: does nothing at run time.
    fn keeps_sound(&self)
        ensures { IsSoundListSpace self.now.space }
    {
        let _ = &self.runs;
    }

    /// A block as [`get_block_from_new_memory`](FreeList::get_block_from_new_memory) gives it, with the second handle
    /// of the chunk's object. It allocates nothing and cannot fail.
    pub(crate) fn begin(
        &mut self,
        memory: M,
        handle: M,
        memory_size: u64,
        align_mask: u64,
        size: u64,
    ) -> FreeListBlock<M>
        requires same { M.object handle ≡ M.object memory }
        requires room { 0 < self.old.room }
        requires nonempty { 0 < size }
        requires inside { size ≤ memory_size }
        requires alignment { IsAlignMask align_mask }
        requires number { HasNumber self.old.space }
        ensures block { result ≡ first_tail self.old.space (M.object memory) memory_size size (align_mask + 1) }
        ensures chunk { self.new.space ≡ with_slot (with_numbered_chunk self.old.space (M.object memory) memory_size) result }
        ensures added { AddsBlock self.old.space self.new.space result }
        ensures leaves { LeavesBlocks self.old.space self.new.space }
        ensures room { self.old.room ≤ self.new.room + 1 }
        ensures sound { IsSoundListSpace self.new.space }
    {
        let number = self.latest + 1;
        self.latest = number;
        let whole = FreeListRegion {
            chunk: number,
            start: 0,
            end: memory_size,
        };
        let slot = tail_of(whole, memory.object(), size, align_mask);
        self.chunks.push(number, memory, memory_size);
        if slot.offset > 0 {
            self.runs.push(FreeListRegion {
                chunk: number,
                start: 0,
                end: slot.offset,
            });
        }
        let key = self.live.keep(slot);
        FreeListBlock::new(handle, slot, key)
    }

    /// A block that is the tail of the last free run with room for it: it begins at the last multiple of `align_mask +
    /// 1` that leaves `size` bytes, and ends with the run. `None` where no run has room. Runs are ordered by chunk
    /// number, then by start.
    ///
    /// The size must be at least 1, and `align_mask + 1` a power of two of at most 2^63. It makes the room of `reserve`
    /// itself, only once a run has room. The only error is want of host memory, for that room or for a second handle of
    /// the chunk's object, and then the list is unchanged. A block takes at most one chunk's room, and an error none.
    ///
    /// Each block that a caller had in hand is still live (`leaves`). The new one is live too, and shares no byte with
    /// any of them (`added`).
    pub fn get_block(
        &mut self,
        align_mask: u64,
        size: u64,
    ) -> Result<Option<FreeListBlock<M>>, AllocError>
        requires nonempty { 0 < size }
        requires alignment { IsAlignMask align_mask }
        ensures takes { TakesTail self.old.space size (align_mask + 1) result self.new.space }
        ensures added { IfOk result (λ block. IfSome block (AddsBlock self.old.space self.new.space)) }
        ensures leaves { LeavesBlocks self.old.space self.new.space }
        ensures none { IfOk result (λ block. IfNone block (self.new ≡ self.old)) }
        ensures room { OnOk result (self.old.room ≤ self.new.room + 1) }
        ensures stays { OnErr result (self.old.room ≤ self.new.room) }
        ensures sound { IsSoundListSpace self.new.space }
    {
        let Some(index) = self.runs.last_with_room(size, align_mask) else {
            return Ok(None);
        };
        self.reserve()?;
        let region = self.runs.get(index);
        let memory = self.chunk(region.chunk).memory.duplicate()?;
        let slot = tail_of(region, memory.object(), size, align_mask);
        self.whole -= usize::from(self.chunks.is_whole(region));
        self.runs.cut(index, slot.offset);
        let key = self.live.keep(slot);
        Ok(Some(FreeListBlock::new(memory, slot, key)))
    }

    /// Whether some free run has room for such a block: where none has, `get_block` returns `None`.
    pub(crate) fn has_place(&self, align_mask: u64, size: u64) -> bool
        requires nonempty { 0 < size }
        requires alignment { IsAlignMask align_mask }
        ensures { IsTrue result ↔ HasPlace self.now.space size (align_mask + 1) }
    {
        self.runs.last_with_room(size, align_mask).is_some()
    }

    /// Whether a number is left for one more chunk: not after 2^64 - 1 chunks. A call that takes a new chunk needs one.
    pub fn has_number(&self) -> bool
        ensures { IsTrue result ↔ HasNumber self.now.space }
    {
        self.latest < u64::MAX
    }

    /// Whether no chunk is held, so that the list may be closed.
    pub fn is_empty(&self) -> bool
        ensures { IsTrue result ↔ map.len (self.now.space).chunks ≡ 0 }
    {
        self.chunks.is_empty()
    }

    /// Returns a block, and joins it with the free runs next to it. It allocates nothing and cannot fail, and room that
    /// was made stays.
    ///
    /// The block must be live here, by its object, chunk, offset and size. Each other block that a caller has in hand
    /// is still live, and may be returned next (`removed`).
    ///
    /// `steps` counts the comparisons of a run with the block: at most the number of binary digits of the number of
    /// runs (`few`), and at least one where there is a run (`some`). It never falls (`counted`). A caller that counts
    /// nothing makes a counter in a ledger that nothing else uses:
    ///
    /// ```text
    /// put_back::<M, Brand>(&mut list, block, Blank::new(1));
    ///
    /// fn put_back<M: MemoryObject, L: Ledger>(list: &mut FreeList<M>, block: FreeListBlock<M>, blank: Blank)
    ///     requires live { IsLiveSlot (list.old).space block }
    ///     requires begins { Begins blank L.name L.parts }
    /// {
    ///     list.insert_block(block, &mut Steps::<L>::new(blank));
    /// }
    /// ```
    pub fn insert_block<L: Ledger>(&mut self, block: FreeListBlock<M>, steps: &mut Steps<L>)
        requires { IsLiveSlot self.old.space block }
        ensures back { self.new.space ≡ without_slot self.old.space block }
        ensures removed { RemovesBlock self.old.space block self.new.space }
        ensures room { self.old.room ≤ self.new.room }
        ensures sound { IsSoundListSpace self.new.space }
        ensures few { (runs : List Region)
            → ((r : Region) → Contains runs r ↔ IsFreeRun (IsFreeIn self.old.space) r.chunk r.start r.end)
            → AreRising runs → AreFewComparisons (length runs) steps.old steps.new }
        ensures some { (r : Region) → IsFreeRun (IsFreeIn self.old.space) r.chunk r.start r.end → steps.old < steps.new }
        ensures counted { steps.old ≤ steps.new }
    {
        self.live.forget(key_of(&block), slot_of(&block));
        let joint = self.runs.put_back(&block, steps);
        self.whole += usize::from(self.chunks.is_whole(joint));
        let _ = into_parts(block);
    }

    /// Takes the wholly free chunk of the least number out of the list, and returns its memory, its size in bytes and
    /// its number, or `None` where there is no such chunk. With `keep_last` the chunk with the last run is passed over.
    /// It allocates nothing, and room that was made stays.
    ///
    /// The same blocks are live (`live`). Each chunk taken out leaves one fewer (`fewer`), so a loop until `None` ends.
    /// `None` without `keep_last`, while no block is live, means that no chunk is held (`rest`): then
    /// [`close`](FreeList::close) may be called without a test.
    #[inline(always)]
    pub fn take_whole(&mut self, keep_last: bool) -> Option<(M, u64, u64)>
        ensures none { IfNone result
            (((number : ℕ) → MayGo self.old.space keep_last number → ⊥) × (self.new.space ≡ self.old.space)) }
        ensures first { IfSome result (λ taken. IsFirstToGo self.old.space keep_last taken.2) }
        ensures chunk { IfSome result
            (λ taken. map.get (self.old.space).chunks taken.2 ≡ Some
            (record { object = M.object taken.0; size = taken.1 })) }
        ensures gone { IfSome result (λ taken. self.new.space ≡ without_chunk self.old.space taken.2) }
        ensures live { (self.new.space).live ≡ (self.old.space).live }
        ensures fewer { IfSome result (λ taken. map.len (self.new.space).chunks + 1 ≡ map.len (self.old.space).chunks) }
        ensures rest { IfNone result (keep_last ≡ false → set.len (self.old.space).live ≡ 0
            → map.len (self.new.space).chunks ≡ 0) }
        ensures room { self.old.room ≤ self.new.room }
        ensures sound { IsSoundListSpace self.new.space }
    {
        if self.keeps_all(keep_last) {
            return None;
        }
        let index = first_whole(self.runs.as_slice(), &self.chunks, keep_last)?;
        let region = self.runs.remove(index);
        let NumberedChunk {
            number,
            memory,
            size,
        } = self.chunks.remove(region.chunk);
        self.whole -= 1;
        Some((memory, size, number))
    }

    /// Whether a count already shows that no chunk may be released. Where it doesn't, `take_whole` looks.
    #[inline(always)]
    pub(super) fn keeps_all(&self, keep_last: bool) -> bool
        ensures { IsTrue result → (number : ℕ) → MayGo self.now.space keep_last number → ⊥ }
    {
        none_goes(self.runs.as_slice(), &self.chunks, self.whole, keep_last)
    }

    /// The free runs, by chunk number, then by start. There are no more of them than live blocks and held chunks
    /// together (`few`).
    pub fn regions(&self) -> &[FreeListRegion]
        ensures runs { (r : Region) → Contains result.now r
            ↔ IsFreeRun (IsFreeIn self.now.space) r.chunk r.start r.end }
        ensures rising { AreRising result.now }
        ensures few { length result.now ≤ set.len (self.now.space).live + map.len (self.now.space).chunks }
    {
        self.runs.as_slice()
    }

    /// A held chunk.
    pub(super) fn chunk(&self, number: u64) -> &NumberedChunk<M>
        requires { IsSome (map.get (self.now.space).chunks number) }
        ensures { map.get (self.now.space).chunks number
            ≡ Some (record { object = M.object result.now.memory; size = result.now.size }) }
    {
        self.chunks.get(number)
    }

    /// The held chunks, each once, in no particular order.
    pub(crate) fn chunks(&self) -> Iter<'_, NumberedChunk<M>>
        ensures { ListsChunks M.object (self.now.space).chunks result }
    {
        self.chunks.iter()
    }

    /// The live blocks, each once, in no particular order.
    pub(crate) fn slots(&self) -> Iter<'_, Slot>
        ensures { ListsSlots (self.now.space).live result }
    {
        self.live.iter()
    }

    /// Whether a block is live, by the key that it carries or by a search.
    pub(crate) fn is_live(&self, key: usize, slot: Slot) -> bool
        ensures { IsTrue result ↔ IsLiveSlot self.now.space slot }
    {
        self.live.has(key, slot)
    }

    /// The allocator of its stores.
    pub(crate) fn allocator(&self) -> A
    where
        A: Copy,
    {
        self.runs.allocator()
    }

    /// Ends a list without chunks ([`is_empty`](FreeList::is_empty)).
    pub fn close(self)
        requires { map.len (self.space).chunks ≡ 0 }
    {
        let FreeList {
            chunks: _,
            runs: _,
            live: _,
            whole: _,
            latest: _,
        } = self;
    }
}

/// Whether no chunk may be released, by the count of the runs that are whole chunks.
fn none_goes<M: MemoryObject, A: Allocator>(
    regions: &[FreeListRegion],
    chunks: &Chunks<M, A>,
    whole: usize,
    keep_last: bool,
) -> bool
    requires held { (r : Region) → Contains regions.now r → IsSome (map.get (chunks.now).held r.chunk) }
    requires counted { wholes (chunks.now).held regions.now ≡ whole }
    ensures { IsTrue result
        → (i : ℕ) (d : Region) → MayBeTaken (chunks.now).held regions.now keep_last d i → ⊥ }
{
    match whole {
        0 => true,
        1 => keep_last && last_is_whole(regions, chunks),
        _ => false,
    }
}

/// Whether the last run is a whole chunk.
fn last_is_whole<M: MemoryObject, A: Allocator>(
    regions: &[FreeListRegion],
    chunks: &Chunks<M, A>,
) -> bool
    requires { (r : Region) → Contains regions.now r → IsSome (map.get (chunks.now).held r.chunk) }
    ensures { IsTrue result → (d : Region) → (last : ℕ) × ((last + 1 ≡ length regions.now)
        × IsWholeChunk (chunks.now).held (slice_index_or regions.now last d)) }
{
    match regions.last() {
        Some(&run) => chunks.is_whole(run),
        None => false,
    }
}

/// Where the first run stands that is a whole chunk. The last run is passed over if it is to be kept.
fn first_whole<M: MemoryObject, A: Allocator>(
    regions: &[FreeListRegion],
    chunks: &Chunks<M, A>,
    keep_last: bool,
) -> Option<usize>
    requires held { (r : Region) → Contains regions.now r → IsSome (map.get (chunks.now).held r.chunk) }
    ensures some { IfSome result (λ i. (d : Region) → IsFirstWhole (chunks.now).held regions.now keep_last d i) }
    ensures none { IfNone result
        ((i : ℕ) (d : Region) → MayBeTaken (chunks.now).held regions.now keep_last d i → ⊥) }
{
    let kept = usize::from(keep_last);
    for index in 0..regions.len().saturating_sub(kept) {
        if chunks.is_whole(regions[index]) {
            return Some(index);
        }
    }
    None
}
