//! The held chunks of one memory type, and the tiles that they are cut into.

ghost use Rattle.std.specs.Prelude.{◌≡◌, ℕ, ◌+◌, ◌≤◌, ◌<◌, ◌↔◌, ◌++◌, IfOk, IfSome, IfNone};
ghost use Rattle.std.specs.Prelude.{IsTrue, OnOk, Some, None, Contains, MatchOption};
ghost use Rattle.std.specs.FinMap as map;
ghost use Rattle.slab.specs.Slab.{ContainsKey, HasRoomFor, Updates, get};
ghost use Rattle.gpu_alloc_types.specs.declared.types.FreeRange.{FreeRange as Range};
ghost use Rattle.gpu_alloc_base.specs.AlignMasks.{IsAlignMask};
ghost use Rattle.gpu_alloc_base.specs.RangeOrder.{AreInOrder};
ghost use Rattle.gpu_alloc_base.specs.declared.free_list_block.Slot.{Slot as LiveSlot};
ghost use Rattle.gpu_alloc_runs.specs.Filed.{AreFreeFiled, AreFreeFiledBut, KeepsEnds};
ghost use Rattle.gpu_alloc_runs.specs.Fits.{HasTileRooms, PutsBack, TakesFit};
ghost use Rattle.gpu_alloc_runs.specs.Inside.{IsAtKey, IsBlockPlace, IsBlockTile, IsLiveTile, IsWholeTile, IsWithout};
ghost use Rattle.gpu_alloc_runs.specs.Inside.{chunk_size_in, chunks_of_rows, free_range, listed, live_row};
ghost use Rattle.gpu_alloc_runs.specs.Links.{AreNodesKept};
ghost use Rattle.gpu_alloc_runs.specs.Listed.{AddsSlots, ListsChunks};
ghost use Rattle.gpu_alloc_runs.specs.Space.{Adds, BeginsFitChunk, HasNeighbours, HasPlace, IsFitRunOf, IsLiveFitSpan};
ghost use Rattle.gpu_alloc_runs.specs.Space.{IsLiveSlot, IsNoLiveFitSpan, IsSoundFitSpace, IsUnheld};
ghost use Rattle.gpu_alloc_runs.specs.Space.{IsWhollyFree, Leaves, LooksAtFew, Removes, neighbours, no_fit_space};
ghost use Rattle.gpu_alloc_runs.specs.Space.{with_chunk, with_slot, without_chunk};
ghost use Rattle.gpu_alloc_runs.specs.Tiles.{KeepsElsewhere, KeepsLive, tile_in};
ghost use Rattle.gpu_alloc_runs.specs.declared.classes.Classes.{Classes as ClassesOf};

use crate::classes::{Classes, class_of, file, file_last, leave, refile, unfile};
use crate::cut::cut_out;
use crate::join::put_back;
use crate::search::{find_place, last_start};
use crate::tile::{NONE, Node, Place, Tile, add, bytes_of, unlisted};
use gpu_alloc_base::FreeListBlock;
use gpu_alloc_base::buddy_block::Leaf;
use gpu_alloc_base::free_list_block::{Slot, into_parts};
use gpu_alloc_base::range_order::put_in_order;
use gpu_alloc_base::steps::Steps;
use gpu_alloc_types::{FreeRange, MemoryObject};
use slab::{Iter, Slab};
use std::alloc::{AllocError, Allocator, Global};
use std::marker::Model;
use std::sync::ledger::Ledger;

/// A block, exactly as long as its store was asked for. Its `chunk` is the key of its chunk. It cannot be dropped, only
/// returned to its store.
pub type FitBlock<M> = FreeListBlock<M>;

/// A held chunk: a handle of its object, and its size in bytes.
#[derive(Drop)]
pub struct Chunk<M: MemoryObject> {
    pub(crate) memory: M,
    pub(crate) size: u64,
}

impl<M: MemoryObject> Chunk<M> {
    /// The name of its object.
    #[inline(always)]
    pub fn object(&self) -> u64
        ensures { result ≡ M.object self.now.memory }
    {
        self.memory.object()
    }

    /// Its size, in bytes.
    #[inline(always)]
    pub fn size(&self) -> u64
        ensures { result ≡ self.now.size }
    {
        self.size
    }
}

/// The held chunks of one memory type, cut into blocks exactly as long as requested and the free runs between them. It
/// knows no device: its caller hands in chunks, and gets them back when no block in them is live. It cannot be dropped:
/// [`close`](Fits::close) ends it.
///
/// Between calls the free tiles are exactly the free runs: the longest ranges of bytes that lie in a chunk and in no
/// live block. At most one chunk is wholly free.
pub struct Fits<M: MemoryObject, A: Allocator = Global> {
    chunks: Slab<Chunk<M>, A>,
    tiles: Slab<Node, A>,
    classes: Classes,
    // The tile that is a wholly free chunk, if there is one.
    spare: Option<usize>,
    // How many searches of all tiles were made, modulo 2^64.
    searches: u64,
}

impl<M: MemoryObject, A: Allocator> Model for Fits<M, A> {
    ghost use Rattle.gpu_alloc_runs.specs.Codes.{fit_store_code};
    ghost use Rattle.gpu_alloc_runs.specs.Fits.{FitStore};

    ghost Value = { FitStore };

    ghost coded = { fit_store_code };

    ghost use Rattle.std.specs.Prelude.{◌-◌};
    ghost use Rattle.slab.specs.Slab.{slab_len};
    ghost use Rattle.gpu_alloc_runs.specs.Inside.{IsStore, chunks_of_rows, fit_store_in};

    ghost view = { λ f. fit_store_in (chunks_of_rows M.object f.chunks) (f.chunks.capacity - slab_len f.chunks) f.tiles };

    ghost invariant = { λ f. IsStore M.object f.chunks f.tiles f.classes f.spare };
}

impl<M: MemoryObject, A: Allocator + Copy> Fits<M, A> {
    /// A store without chunks. Its slabs take their memory from `alloc`; this call takes none.
    pub fn new(alloc: A) -> Self
        ensures empty { result.space ≡ no_fit_space }
    {
        Fits {
            chunks: Slab::new(alloc),
            tiles: Slab::new(alloc),
            classes: Classes::new(),
            spare: None,
            searches: 0,
        }
    }

    /// The free runs as ranges of their objects, sorted by the name of their object, then by start. Each is in bytes of
    /// its object.
    ///
    /// The only error is want of host memory. Nothing changes.
    pub fn free_ranges(&self, alloc: A) -> Result<Vec<FreeRange, A>, AllocError>
        ensures runs { IfOk result (λ ranges. (r : Range) → Contains ranges.items r ↔ IsFitRunOf (self.now).space r) }
        ensures order { IfOk result (λ ranges. AreInOrder ranges.items) }
    {
        let mut ranges = Vec::new(alloc);
        for (_, node) in self.tiles.iter() {
            list_free(&self.chunks, node.tile, &mut ranges)?;
        }
        put_in_order(&mut ranges);
        Ok(ranges)
    }
}

impl<M: MemoryObject, A: Allocator> Fits<M, A> {
    /// Makes room for one more chunk with one more block.
    ///
    /// The only error is want of memory. Nothing but the room changes, even after an error.
    pub fn reserve(&mut self) -> Result<(), AllocError>
        ensures room { OnOk result (HasTileRooms self.new) }
        ensures kept { (self.new).space ≡ (self.old).space }
    {
        self.chunks.reserve(1)?;
        self.tiles.reserve(3)
    }

    /// Whether there is room in a held chunk for a block of `size` bytes at a multiple of `align_mask + 1`. The size
    /// must be at least 1, and `align_mask + 1` a power of two of at most 2^63.
    ///
    /// `looks` counts the free runs that are looked at, as for [`take`](Fits::take).
    pub fn has_place<L: Ledger>(&self, size: u64, align_mask: u64, looks: &mut Steps<L>) -> bool
        requires nonempty { 0 < size }
        requires alignment { IsAlignMask align_mask }
        ensures place { IsTrue result ↔ HasPlace (self.now).space size (align_mask + 1) }
        ensures looks { LooksAtFew (self.now).space size (align_mask + 1) looks.old looks.new }
        ensures some { HasPlace (self.now).space size (align_mask + 1) → looks.old < looks.new }
    {
        let found = find_place(
            &self.chunks,
            &self.tiles,
            &self.classes,
            size,
            align_mask,
            looks,
        );
        found.is_some()
    }

    /// Takes a block of exactly `size` bytes, at least 1, at the last multiple of `align_mask + 1` at which it fits in
    /// a free run. `None` where no free run has room. `align_mask + 1` is a power of two of at most 2^63.
    ///
    /// Which run (`IsChosenRun`): lengths are sorted into classes, one for each whole number of 256-byte units below
    /// 64, and from there on eight for each power of two. A class is *sure* where each of its runs has room, wherever
    /// it starts. The run's class is no higher than the lowest sure class that has runs. A run with room in a lower
    /// class is passed over only for one of a sure class, and only where the first four runs lack room: four whose
    /// classes lie between that of the size and its own, with none of a lower class left out. A wholly free chunk comes
    /// last in its class.
    ///
    /// `looks` counts the free runs that are looked at: at most five where a sure class has runs, and otherwise at most
    /// one more than those without room from the size's class on, below the first sure one (`looks`). It is at most one
    /// where `size` is the least of its class and each free run starts at a multiple of `align_mask + 1`, and at least
    /// one where a run has room (`some`).
    ///
    /// The only error is want of host memory, for tiles or for a second handle of the chunk's object, and then nothing
    /// but room changes. Each block that a caller had in hand is still live (`leaves`). The new one is live too, and
    /// shares no byte with any of them (`added`).
    #[inline(always)]
    pub fn take<L: Ledger>(
        &mut self,
        size: u64,
        align_mask: u64,
        looks: &mut Steps<L>,
    ) -> Result<Option<FitBlock<M>>, AllocError>
        requires nonempty { 0 < size }
        requires alignment { IsAlignMask align_mask }
        ensures takes { TakesFit (self.old).space size (align_mask + 1) result (self.new).space }
        ensures added { IfOk result (λ block. IfSome block (Adds (self.old).space (self.new).space)) }
        ensures leaves { Leaves (self.old).space (self.new).space }
        ensures looks { LooksAtFew (self.old).space size (align_mask + 1) looks.old looks.new }
        ensures some { HasPlace (self.old).space size (align_mask + 1) → looks.old < looks.new }
    {
        let place = find_place(
            &self.chunks,
            &self.tiles,
            &self.classes,
            size,
            align_mask,
            looks,
        );
        let Some((key, run)) = place else {
            return Ok(None);
        };
        make_room(&mut self.tiles)?;
        let memory = self.chunks[run.chunk].memory.duplicate()?;
        let start = last_start(run.end, size, align_mask);
        let end = start + size;
        let block = cut_out(
            &mut self.tiles,
            &mut self.classes,
            &self.chunks,
            key,
            run,
            start,
            end,
        );
        forget(&mut self.spare, key);
        let slot = Slot {
            object: memory.object(),
            chunk: run.chunk as u64,
            offset: start,
            size,
        };
        Ok(Some(FitBlock::new(memory, slot, block)))
    }

    /// Holds a new chunk of `memory_size` bytes, and makes a block of its first `size` bytes. `memory` and `handle` are
    /// handles of its object. Room for both was made. It allocates nothing and cannot fail.
    pub fn begin(&mut self, memory: M, handle: M, memory_size: u64, size: u64) -> FitBlock<M>
        requires same { M.object handle ≡ M.object memory }
        requires room { HasTileRooms self.old }
        requires nonempty { 0 < size }
        requires inside { size ≤ memory_size }
        requires new_object { IsUnheld (self.old).space (M.object memory) }
        ensures object { result.object ≡ M.object memory }
        ensures begins { BeginsFitChunk (self.old).space size result }
        ensures space { (self.new).space ≡ with_slot (with_chunk (self.old).space result memory_size) result }
        ensures added { Adds (self.old).space (self.new).space result }
        ensures leaves { Leaves (self.old).space (self.new).space }
    {
        let object = memory.object();
        let chunk = self.chunks.insert_reserved(Chunk {
            memory,
            size: memory_size,
        });
        let whole = Tile {
            chunk,
            start: 0,
            end: memory_size,
            free: true,
        };
        let key = add(&mut self.tiles, unlisted(whole, NONE, NONE));
        file(
            &mut self.tiles,
            &mut self.classes,
            key,
            class_of(memory_size),
        );
        let block = cut_out(
            &mut self.tiles,
            &mut self.classes,
            &self.chunks,
            key,
            whole,
            0,
            size,
        );
        let slot = Slot {
            object,
            chunk: chunk as u64,
            offset: 0,
            size,
        };
        FitBlock::new(handle, slot, block)
    }

    /// Returns a live block, and joins it with the free runs next to it. Where its chunk is then wholly free and
    /// another one is too, its chunk is removed, and its handle is returned with its size in bytes. It allocates
    /// nothing and cannot fail.
    ///
    /// Each other block that a caller has in hand is still live, and may be returned next (`removed`). `looks` counts
    /// the free runs and blocks that are looked at: the block's neighbours in its chunk, at most two. With the block's
    /// own key no other is looked at; with any other key it is searched for, which [`searches`](Fits::searches) counts.
    #[inline(always)]
    pub fn put_back<L: Ledger>(
        &mut self,
        block: FitBlock<M>,
        looks: &mut Steps<L>,
    ) -> Option<(M, u64)>
        requires live { IsLiveSlot (self.old).space block }
        ensures back { PutsBack M.object (self.old).space block result (self.new).space }
        ensures removed { Removes (self.old).space block (self.new).space }
        ensures looks { looks.new ≡ looks.old + neighbours (self.old).space block }
    {
        let (memory, slot, key) = into_parts(block);
        self.put_back_span(memory, key, slot.offset, slot.size, looks)
    }

    /// Returns the live block of this span of an object, as [`put_back`](Fits::put_back) does. `memory` is a handle of
    /// the object, `key` the block's, and `offset` and `size` are in bytes.
    #[inline(always)]
    pub fn put_back_span<L: Ledger>(
        &mut self,
        memory: M,
        key: usize,
        offset: u64,
        size: u64,
        looks: &mut Steps<L>,
    ) -> Option<(M, u64)>
        requires live { (slot : LiveSlot) × IsLiveFitSpan (self.old).space (M.object memory) offset size slot }
        ensures back { (slot : LiveSlot) → IsLiveFitSpan (self.old).space (M.object memory) offset size slot
            → PutsBack M.object (self.old).space slot result (self.new).space }
        ensures removed { (slot : LiveSlot) → IsLiveFitSpan (self.old).space (M.object memory) offset size slot
            → Removes (self.old).space slot (self.new).space }
        ensures looks { (slot : LiveSlot) → IsLiveFitSpan (self.old).space (M.object memory) offset size slot
            → looks.new ≡ looks.old + neighbours (self.old).space slot }
    {
        let object = memory.object();
        drop(memory);
        let Some(place) = place_of(
            &self.chunks,
            &self.tiles,
            &mut self.searches,
            key,
            object,
            offset,
            size,
        ) else {
            unreachable!();
        };
        let (tile, joint) = put_back(
            &mut self.tiles,
            &mut self.classes,
            &self.chunks,
            place,
            looks,
        );
        let class = class_of(bytes_of(tile));
        if !is_whole(tile, place.whole) {
            refile(
                &mut self.tiles,
                &mut self.classes,
                joint.key,
                joint.class,
                class,
            );
            return None;
        }
        leave(&mut self.tiles, &mut self.classes, joint.key, joint.class);
        match self.spare {
            Some(_) => Some(let_chunk_go(&mut self.chunks, &mut self.tiles, joint.key, tile.chunk)),
            None => {
                file_last(&mut self.tiles, &mut self.classes, joint.key, class);
                self.spare = Some(joint.key);
                None
            }
        }
    }

    /// Takes the wholly free chunk out, if there is one, and returns a handle of its object, its size in bytes and its
    /// key. There is at most one. It allocates nothing and cannot fail.
    pub fn take_whole(&mut self) -> Option<(M, u64, usize)>
        ensures none { IfNone result (((key : ℕ) → IsWhollyFree (self.old).space key → ⊥)
            × ((self.new).space ≡ (self.old).space)) }
        ensures some { IfSome result (λ taken. IsWhollyFree (self.old).space taken.2
            × ((map.get ((self.old).space).chunks taken.2
            ≡ Some (record { object = M.object taken.0; size = taken.1 }))
            × ((self.new).space ≡ without_chunk (self.old).space taken.2))) }
        ensures rest { (key : ℕ) → IsWhollyFree (self.new).space key → ⊥ }
        ensures live { (self.new).space.live ≡ (self.old).space.live }
    {
        let key = self.spare?;
        self.spare = None;
        let tile = self.tiles[key].tile;
        unfile(
            &mut self.tiles,
            &mut self.classes,
            key,
            class_of(bytes_of(tile)),
        );
        let (memory, size) = let_chunk_go(&mut self.chunks, &mut self.tiles, key, tile.chunk);
        Some((memory, size, tile.chunk))
    }

    /// The live block of this span of an object and the key under which it stands, or `None` where there is none.
    /// `offset` is where it starts in the object and `size` how long it is, in bytes: any two numbers.
    ///
    /// The answer is the same for any `key`. With the block's own key it takes constant time, and with any other time
    /// linear in the tiles.
    #[inline(always)]
    pub fn find(&self, key: usize, object: u64, offset: u64, size: u64) -> Option<(Slot, usize)>
        ensures found { MatchOption result (IsNoLiveFitSpan (self.now).space object offset size)
            (λ found. IsLiveFitSpan (self.now).space object offset size found.0) }
        ensures exact { (slot : LiveSlot) → IsLiveFitSpan (self.now).space object offset size slot
            → IfSome result (λ found. found.0 ≡ slot) }
    {
        // Nothing changes, so this search is not counted.
        let mut uncounted = 0;
        let place = place_of(
            &self.chunks,
            &self.tiles,
            &mut uncounted,
            key,
            object,
            offset,
            size,
        )?;
        let slot = Slot {
            object,
            chunk: place.node.tile.chunk as u64,
            offset,
            size,
        };
        Some((slot, place.key))
    }

    /// The held chunks, each once, by rising key.
    pub fn chunks(&self) -> Iter<'_, Chunk<M>>
        ensures { ListsChunks M.object ((self.now).space).chunks result }
    {
        self.chunks.iter()
    }

    /// Adds each live block to a list, once, in no particular order, in the form of a buddy allocator's: with its
    /// chunk's key, and an index of 0. It takes time linear in the number of tiles.
    ///
    /// The only error is want of memory, after which nothing is known of the list.
    pub fn list_live<B: Allocator>(&self, rows: &mut Vec<Leaf, B>) -> Result<(), AllocError>
        ensures { OnOk result (AddsSlots ((self.now).space).live rows.old.items rows.new.items) }
    {
        for (_, node) in self.tiles.iter() {
            list_live(&self.chunks, node.tile, rows)?;
        }
        Ok(())
    }

    /// How many times all tiles were searched, modulo 2^64: once for each block that was returned with another key than
    /// its own. Tests read it; no contract mentions it.
    pub fn searches(&self) -> u64 {
        self.searches
    }

    /// A lemma: does nothing at run time. Its contract is what every store keeps.
    pub fn keeps_sound(&self)
        ensures { IsSoundFitSpace (self.now).space }
    {
        let _ = &self.chunks;
    }

    /// A lemma: does nothing at run time. On each side of a live block at most one free run or live block touches it,
    /// and they are as many as `neighbours` counts.
    pub fn keeps_neighbours(&self)
        ensures { (slot : LiveSlot) → IsLiveSlot (self.now).space slot → HasNeighbours (self.now).space slot }
    {
        let _ = &self.chunks;
    }

    /// Whether it has no chunk, so that it may be closed.
    pub fn is_empty(&self) -> bool
        ensures { IsTrue result ↔ (map.len ((self.now).space.chunks) ≡ 0) }
    {
        self.chunks.is_empty()
    }

    /// Ends a store without chunks (see [`is_empty`](Fits::is_empty)).
    pub fn close(self)
        requires { map.len ((self.space).chunks) ≡ 0 }
    {
        let Fits {
            chunks: _,
            tiles: _,
            classes: _,
            spare: _,
            searches: _,
        } = self;
    }
}

/// Makes room for the two tiles that a block cut from a run may add.
///
/// The only error is want of memory. Nothing but the room changes, even after an error.
#[inline(always)]
fn make_room<A: Allocator>(tiles: &mut Slab<Node, A>) -> Result<(), AllocError>
    ensures room { OnOk result (HasRoomFor tiles.new 2) }
    ensures rest_kept { tiles.new ≡ record tiles.old { capacity = (tiles.new).capacity } }
{
    if tiles.capacity() - tiles.len() >= 2 {
        return Ok(());
    }
    take_room(tiles)
}

/// Takes memory for two more tiles.
///
/// The only error is want of memory. Nothing but the room changes, even after an error.
#[cold]
#[inline(never)]
fn take_room<A: Allocator>(tiles: &mut Slab<Node, A>) -> Result<(), AllocError>
    ensures room { OnOk result (HasRoomFor tiles.new 2) }
    ensures rest_kept { tiles.new ≡ record tiles.old { capacity = (tiles.new).capacity } }
{
    tiles.reserve(2)
}

/// Leaves out a key, if it is this one. (A branch, since the compiler makes more of a value that is chosen: this saves
/// some 2 % of a call in fit chunks.)
#[inline(always)]
fn forget(spare: &mut Option<usize>, key: usize)
    ensures { IsWithout spare.old key spare.new }
{
    if let Some(other) = *spare {
        if other == key {
            *spare = None;
        }
    }
}

/// Whether a tile is all of a chunk of `size` bytes.
#[inline(always)]
fn is_whole(tile: Tile, size: u64) -> bool
    ensures { IsTrue result ↔ (tile.start ≡ 0) × (tile.end ≡ size) }
{
    tile.start == 0 && tile.end == size
}

/// Removes the wholly free chunk that is the tile under this key, which stands in no list, and returns a handle of its
/// object and its size in bytes.
fn let_chunk_go<M: MemoryObject, A: Allocator>(
    chunks: &mut Slab<Chunk<M>, A>,
    tiles: &mut Slab<Node, A>,
    key: usize,
    chunk: usize,
) -> (M, u64)
    requires kept { AreNodesKept (chunk_size_in chunks.old) tiles.old }
    requires whole { IsWholeTile (chunk_size_in chunks.old) (tile_in tiles.old) key chunk }
    ensures kept { AreNodesKept (chunk_size_in chunks.new) tiles.new }
    ensures filed { (classes : ClassesOf) → AreFreeFiledBut tiles.old classes key None
        → AreFreeFiled tiles.new classes }
    ensures lives { KeepsLive (tile_in tiles.old) (tile_in tiles.new) }
    ensures elsewhere { KeepsElsewhere chunk (tile_in tiles.old) (tile_in tiles.new) }
    ensures ends { KeepsEnds chunk tiles.old tiles.new }
    ensures row { get chunks.old chunk ≡ Some (record { memory = result.0; size = result.1 }) }
    ensures updates { Updates chunks.old chunks.new chunk None }
{
    let Chunk { memory, size } = chunks.remove(chunk);
    let _ = tiles.remove(key);
    (memory, size)
}

/// The place of the tile that is the live block of this span: under `key` if it is there, or else where a search finds
/// it, which `searches` counts.
#[inline(always)]
fn place_of<M: MemoryObject, A: Allocator>(
    chunks: &Slab<Chunk<M>, A>,
    tiles: &Slab<Node, A>,
    searches: &mut u64,
    key: usize,
    object: u64,
    offset: u64,
    size: u64,
) -> Option<Place>
    requires kept { AreNodesKept (chunk_size_in chunks.now) tiles.now }
    ensures { MatchOption result
        ((k : ℕ) → IsAtKey (chunks_of_rows M.object chunks.now) (tile_in tiles.now) object offset size k → ⊥)
        (IsBlockPlace M.object chunks.now tiles.now object offset size) }
{
    if let Some(node) = tiles.get(key) {
        if is_of(chunks, node.tile, object, offset, size) {
            return Some(Place {
                key,
                node: *node,
                whole: chunks[node.tile.chunk].size,
            });
        }
    }
    let found = search(chunks, tiles, searches, object, offset, size)?;
    let node = tiles[found];
    Some(Place {
        key: found,
        node,
        whole: chunks[node.tile.chunk].size,
    })
}

/// The key of the tile that is the live block of this span, by a search of all tiles, which `searches` counts.
#[cold]
#[inline(never)]
fn search<M: MemoryObject, A: Allocator>(
    chunks: &Slab<Chunk<M>, A>,
    tiles: &Slab<Node, A>,
    searches: &mut u64,
    object: u64,
    offset: u64,
    size: u64,
) -> Option<usize>
    requires kept { AreNodesKept (chunk_size_in chunks.now) tiles.now }
    ensures { MatchOption result
        ((k : ℕ) → IsAtKey (chunks_of_rows M.object chunks.now) (tile_in tiles.now) object offset size k → ⊥)
        (IsAtKey (chunks_of_rows M.object chunks.now) (tile_in tiles.now) object offset size) }
{
    *searches = searches.wrapping_add(1);
    for (key, node) in tiles.iter() {
        if is_of(chunks, node.tile, object, offset, size) {
            return Some(key);
        }
    }
    None
}

/// Whether a tile is a live block of this span.
#[inline(always)]
fn is_of<M: MemoryObject, A: Allocator>(
    chunks: &Slab<Chunk<M>, A>,
    tile: Tile,
    object: u64,
    offset: u64,
    size: u64,
) -> bool
    requires nonempty { tile.start ≤ tile.end }
    requires held { ContainsKey chunks.now tile.chunk }
    ensures { IsTrue result ↔ IsBlockTile (chunks_of_rows M.object chunks.now) object offset size tile }
{
    is_live_tile(tile, offset, size) && chunks[tile.chunk].memory.object() == object
}

/// Whether a tile is live and has these bytes of its chunk.
#[inline(always)]
fn is_live_tile(tile: Tile, offset: u64, size: u64) -> bool
    requires { tile.start ≤ tile.end }
    ensures { IsTrue result ↔ IsLiveTile offset size tile }
{
    !tile.free && tile.start == offset && tile.end - tile.start == size
}

/// Adds a tile to a list of blocks if it is live. It fails only for want of memory.
#[inline(always)]
fn list_live<M: MemoryObject, A: Allocator, B: Allocator>(
    chunks: &Slab<Chunk<M>, A>,
    tile: Tile,
    rows: &mut Vec<Leaf, B>,
) -> Result<(), AllocError>
    requires nonempty { tile.start ≤ tile.end }
    requires held { ContainsKey chunks.now tile.chunk }
    ensures { OnOk result (rows.new.items ≡ rows.old.items
        ++ listed (live_row (chunks_of_rows M.object chunks.now) tile)) }
{
    if tile.free {
        return Ok(());
    }
    rows.push(Leaf {
        object: chunks[tile.chunk].memory.object(),
        chunk: tile.chunk,
        offset: tile.start,
        size: tile.end - tile.start,
        index: 0,
    })?;
    Ok(())
}

/// Adds a tile to a list of ranges if it is free. It fails only for want of memory.
#[inline(always)]
fn list_free<M: MemoryObject, A: Allocator, B: Allocator>(
    chunks: &Slab<Chunk<M>, A>,
    tile: Tile,
    ranges: &mut Vec<FreeRange, B>,
) -> Result<(), AllocError>
    requires held { ContainsKey chunks.now tile.chunk }
    ensures { OnOk result (ranges.new.items ≡ ranges.old.items
        ++ listed (free_range (chunks_of_rows M.object chunks.now) tile)) }
{
    if !tile.free {
        return Ok(());
    }
    ranges.push(FreeRange {
        object: chunks[tile.chunk].memory.object(),
        start: tile.start,
        end: tile.end,
    })?;
    Ok(())
}
