//! The held chunks of one memory type, and the pairs that divide them.

ghost use Rattle.std.specs.Prelude.{◌≡◌, ◌≢◌, ℕ, ◌+◌, ◌-◌, ◌*◌, ◌≤◌, ◌<◌, ◌↔◌, ◌^◌, ◌++◌, IfOk, IfSome, IfNone};
ghost use Rattle.std.specs.Prelude.{IsSome, IsTrue, OnOk, Some, None, Contains, MatchOption, map as map_list};
ghost use Rattle.std.specs.FinMap as map;
ghost use Rattle.std.specs.FinSet as set;
ghost use Rattle.gpu_alloc_base.specs.Chunks.{Chunk as HeldChunk};
ghost use Rattle.gpu_alloc_base.specs.FreeSpace.{IsPowerOfTwo};
ghost use Rattle.gpu_alloc_base.specs.declared.buddy_block.Leaf.{Leaf as LiveLeaf};
ghost use Rattle.gpu_alloc_pairs.specs.Blocks.{AreInChunks, BlockStandsNowhere, BlockStandsUnder, HasSpan, IsInChunk, chunks_in};
ghost use Rattle.gpu_alloc_pairs.specs.Entry.{entry_of};
ghost use Rattle.gpu_alloc_pairs.specs.Halves.{half_used, halves_of_length, leaf_of};
ghost use Rattle.gpu_alloc_pairs.specs.HeldLists.{AddsLeaves, ListsChunks};
ghost use Rattle.gpu_alloc_pairs.specs.Seen.{seen};
ghost use Rattle.gpu_alloc_pairs.specs.Space.{BeginsChunk, HasPlace, IsLiveLeaf, IsLiveSpan, IsNoLiveSpan};
ghost use Rattle.gpu_alloc_pairs.specs.Space.{IsSoundBuddySpace, IsUnusedChunk, with_chunk, with_leaf, without_leaf_and_chunk};
ghost use Rattle.gpu_alloc_pairs.specs.Space.{without_leaf};
ghost use Rattle.gpu_alloc_pairs.specs.Store.{AreFew, CountsLooks, CountsSearch, CountsTaking, HasPairRooms, IsExact, IsUnheld};
ghost use Rattle.gpu_alloc_pairs.specs.Store.{HasSide, KeepsStore, StartsHalf, TakesFront, piece_range};
ghost use Rattle.gpu_alloc_pairs.specs.declared.pair.Use.{Use as UseOf};

use crate::length::Length;
use crate::lengths::{self, Found, Front, Lengths, ORDERS};
use crate::pair::{Pair, Side, Use};
use gpu_alloc_base::buddy_block::Leaf;
use gpu_alloc_base::steps::Steps;
use gpu_alloc_base::{BuddyBlock, Piece};
use gpu_alloc_types::{FreeRange, MemoryObject};
use slab::{Iter, Slab};
use std::alloc::{AllocError, Allocator, Global};
use std::marker::Model;
use std::sync::ledger::Ledger;

/// A held chunk: a handle of its object, and its size as a power of two.
#[derive(Drop)]
pub struct Chunk<M: MemoryObject> {
    memory: M,
    order: u32,
}

impl<M: MemoryObject> Chunk<M> {
    /// The name of its object.
    #[inline(always)]
    pub fn object(&self) -> u64
        ensures { result ≡ M.object self.now.memory }
    {
        self.memory.object()
    }

    /// Its size, in bytes.
    #[inline(always)]
    pub fn size(&self) -> u64
        requires { self.now.order < 64 }
        ensures { result ≡ 2 ^ self.now.order }
    {
        bytes(self.order)
    }
}

/// The held chunks of a buddy allocator, and the pairs of halves that divide them. It knows no device: its caller hands
/// in chunks, and gets them back when no block in them is live. It cannot be dropped: [`close`](Pairs::close) ends it.
///
/// Each chunk has at most 2^63 bytes, and is a pair of halves. Each half is free, a live block, or divided by a pair of
/// half its length. At most one half of each pair is free, so the free halves are the longest free ranges with a power
/// of two as length that start at a multiple of it. The pairs of one length with a free half form a ring.
pub struct Pairs<M: MemoryObject, A: Allocator = Global> {
    chunks: Slab<Chunk<M>, A>,
    lengths: Lengths<A>,
}

impl<M: MemoryObject, A: Allocator> Model for Pairs<M, A> {
    ghost use Rattle.gpu_alloc_pairs.specs.Codes.{buddy_store_code};
    ghost use Rattle.gpu_alloc_pairs.specs.Store.{BuddyStore};

    ghost Value = { BuddyStore };

    ghost coded = { buddy_store_code };

    ghost use Rattle.std.specs.Prelude.{◌-◌, ◌^◌};
    ghost use Rattle.slab.specs.Slab.{slab_len};
    ghost use Rattle.gpu_alloc_base.specs.SlabViews.{by_key};
    ghost use Rattle.gpu_alloc_pairs.specs.Store.{buddy_store_in, IsStored};

    ghost view = { λ p. buddy_store_in (by_key (λ c. record { object = M.object c.memory; size = 2 ^ c.order }) p.chunks)
        (p.chunks.capacity - slab_len p.chunks) p.lengths.items };

    ghost invariant = { λ p. IsStored
        (by_key (λ c. record { object = M.object c.memory; size = 2 ^ c.order }) p.chunks) p.lengths.items };
}

impl<M: MemoryObject, A: Allocator + Copy> Pairs<M, A> {
    /// A store without chunks. Its lists take their memory from `alloc`; this call takes that of the list of lengths.
    pub fn new(alloc: A) -> Result<Self, AllocError>
        ensures empty { IfOk result (λ p. p.space ≡ record { chunks = map.empty; live = set.empty }) }
    {
        let mut lengths = Vec::with_capacity(alloc, ORDERS as usize)?;
        for _ in 0..ORDERS {
            lengths.push_reserved(Length::new(alloc));
        }
        Ok(Pairs {
            chunks: Slab::new(alloc),
            lengths,
        })
    }

    /// The free pieces as ranges of their objects, in no particular order.
    ///
    /// The only error is want of host memory.
    pub fn ranges(&self) -> Result<Vec<FreeRange, A>, AllocError>
        ensures { IfOk result (λ ranges. ranges.items ≡ map_list (piece_range (self.now).space) (self.now).free) }
    {
        let pieces = lengths::free_pieces(&self.lengths)?;
        let mut ranges = Vec::with_capacity(*self.lengths.allocator(), pieces.len())?;
        for &piece in pieces.as_slice() {
            ranges.push_reserved(self.range_of(piece));
        }
        Ok(ranges)
    }
}

impl<M: MemoryObject, A: Allocator> Pairs<M, A> {
    /// Makes room for one chunk of 2^chunk_order bytes, and for the pairs that divide it down to a block of 2^order
    /// bytes. Nothing but the room changes, even after an error.
    pub fn reserve(&mut self, order: u32, chunk_order: u32) -> Result<(), AllocError>
        requires { chunk_order ≤ 63 }
        ensures room { OnOk result (HasPairRooms self.new order chunk_order) }
        ensures kept { KeepsStore self.old self.new }
    {
        self.chunks.reserve(1)?;
        lengths::make_room(&mut self.lengths, order, chunk_order)
    }

    /// Whether there is a place for a block of 2^order bytes. Each length is looked at once, from that of the block up
    /// to that of a shortest free piece that is long enough, or else to the longest (`steps`).
    pub fn has_place<L: Ledger>(&self, order: u32, looks: &mut Steps<L>) -> bool
        requires { order ≤ 62 }
        ensures place { IsTrue result ↔ HasPlace (self.now).space (2 ^ order) }
        ensures looked { CountsLooks looks.old looks.new }
        ensures steps { CountsSearch (self.now).space (2 ^ order) looks.old looks.new }
    {
        lengths::find(self.lengths.as_slice(), order, looks).is_some()
    }

    /// Takes the front of a shortest free piece of at least 2^order bytes as a block, or returns `None` where there is
    /// no such piece. The only error is want of host memory, and then nothing but room changes.
    #[inline(always)]
    pub fn take<L: Ledger, K: Ledger>(
        &mut self,
        order: u32,
        looks: &mut Steps<L>,
        splits: &mut Steps<K>,
    ) -> Result<Option<BuddyBlock<M>>, AllocError>
        requires { order ≤ 62 }
        ensures takes { TakesFront (self.old).space (2 ^ order) result (self.new).space }
        ensures counted { CountsTaking (self.old).space (2 ^ order) result looks.old looks.new splits.old splits.new }
    {
        let Some(found) = lengths::find(self.lengths.as_slice(), order, looks) else {
            return Ok(None);
        };
        lengths::make_room(&mut self.lengths, order, found.order)?;
        let memory = self.chunks[found.half.chunk].memory.duplicate()?;
        let front = lengths::take_front(&mut self.lengths, found, order, splits);
        let leaf = leaf_of(front, order, memory.object());
        Ok(Some(BuddyBlock::new(memory, leaf)))
    }

    /// Holds a new chunk of 2^chunk_order bytes, and makes a block of its first 2^order bytes. Room for both was made.
    pub fn begin<K: Ledger>(
        &mut self,
        memory: M,
        chunk_order: u32,
        order: u32,
        splits: &mut Steps<K>,
    ) -> Leaf
        requires longer { order < chunk_order }
        requires short { chunk_order ≤ 63 }
        requires room { HasPairRooms self.old order chunk_order }
        requires new_object { IsUnheld (self.old).space (M.object memory) }
        ensures object { result.object ≡ M.object memory }
        ensures begins { BeginsChunk (self.old).space (2 ^ order) result }
        ensures space { (self.new).space ≡ with_leaf (with_chunk (self.old).space result (2 ^ chunk_order)) result }
        ensures counted { splits.new + order + 1 ≡ splits.old + chunk_order }
    {
        let object = memory.object();
        let chunk = self.chunks.insert_reserved(Chunk {
            memory,
            order: chunk_order,
        });
        let key = lengths::begin(&mut self.lengths, chunk, chunk_order, order, splits);
        let front = Front {
            chunk,
            offset: 0,
            key,
        };
        leaf_of(front, order, object)
    }

    /// Returns a live block. Free halves join. Where no other block of its chunk is live, the chunk is removed, and its
    /// handle is returned with its size in bytes.
    #[inline(always)]
    pub fn put_back<K: Ledger>(&mut self, leaf: Leaf, releases: &mut Steps<K>) -> Option<(M, u64)>
        requires live { IsLiveLeaf (self.old).space leaf }
        ensures stays { IfNone result ((IsUnusedChunk (without_leaf (self.old).space leaf) leaf.chunk → ⊥)
            × ((self.new).space ≡ without_leaf (self.old).space leaf)) }
        ensures goes { IfSome result (λ gone. IsUnusedChunk (without_leaf (self.old).space leaf) leaf.chunk
            × ((map.get ((self.old).space).chunks leaf.chunk
            ≡ Some (record { object = M.object gone.0; size = gone.1 }))
            × ((self.new).space ≡ without_leaf_and_chunk (self.old).space leaf))) }
        ensures some { releases.old < releases.new }
        ensures few { (chunk : HeldChunk) → map.get ((self.old).space).chunks leaf.chunk ≡ Some chunk
            → leaf.size * 2 ^ (releases.new - releases.old) ≤ chunk.size }
    {
        self.keeps_exact();
        let order = order_of(leaf.size);
        let side = side_of(leaf.offset, order);
        let gone = lengths::put_back(&mut self.lengths, order, leaf.index, side, releases)?;
        let Chunk { memory, order } = self.chunks.remove(gone);
        Some((memory, bytes(order)))
    }

    /// The live block of this span of an object, or `None` where there is none. `offset` is where it starts in the
    /// object and `size` how long it is, in bytes: any two numbers. Its `index` is the key of its pair among those of
    /// its length.
    ///
    /// The answer is the same for any `key`. With the block's index it takes constant time, and with any other time
    /// linear in the pairs of that length.
    #[inline(always)]
    pub fn find(&self, key: usize, object: u64, offset: u64, size: u64) -> Option<Leaf>
        ensures found { MatchOption result (IsNoLiveSpan (self.now).space object offset size)
            (IsLiveSpan (self.now).space object offset size) }
        ensures exact { (leaf : LiveLeaf) → IsLiveSpan (self.now).space object offset size leaf → result ≡ Some leaf }
    {
        let lengths = &self.lengths;
        let Some(order) = half_order(size) else {
            return None;
        };
        let pairs = lengths[order as usize].pairs();
        let Some(index) = key_of(&self.chunks, pairs, key, order, object, offset) else {
            return None;
        };
        Some(Leaf {
            object,
            chunk: pairs[index].chunk,
            offset,
            size,
            index,
        })
    }

    /// The held chunks, each once, by rising key.
    pub fn chunks(&self) -> Iter<'_, Chunk<M>>
        ensures { ListsChunks M.object ((self.now).space).chunks result }
    {
        self.chunks.iter()
    }

    /// Adds each live block to a list, once, in no particular order. It takes time linear in the number of pairs.
    ///
    /// The only error is want of memory, after which nothing is known of the list.
    pub fn list_live<B: Allocator>(&self, leaves: &mut Vec<Leaf, B>) -> Result<(), AllocError>
        ensures { OnOk result (AddsLeaves ((self.now).space).live leaves.old.items leaves.new.items) }
    {
        let chunks = &self.chunks;
        let lengths = &self.lengths;
        for order in 0..ORDERS {
            list_length(chunks, lengths[order as usize].pairs(), order, leaves)?;
        }
        Ok(())
    }

    /// A lemma about every store: does nothing at run time.
    pub fn keeps_exact(&self)
        ensures sound { IsSoundBuddySpace (self.now).space }
        ensures exact { IsExact self.now }
        ensures few { AreFew self.now }
    {
        let _ = &self.chunks;
    }

    /// A free piece as a range of its object.
    fn range_of(&self, piece: Piece) -> FreeRange
        requires held { IsSome (map.get ((self.now).space).chunks piece.chunk) }
        requires bounded { (piece.order ≤ 63) × (piece.start + 2 ^ piece.order ≤ 2 ^ 63) }
        ensures { result ≡ piece_range (self.now).space piece }
    {
        FreeRange {
            object: self.chunks[piece.chunk].memory.object(),
            start: piece.start,
            end: piece.start + bytes(piece.order),
        }
    }

    /// Ends a store without chunks.
    pub fn close(self)
        requires { map.len ((self.space).chunks) ≡ 0 }
    {
        let Pairs {
            chunks: _,
            lengths: _,
        } = self;
    }
}

/// A block that was taken.
fn leaf_of(front: Front, order: u32, object: u64) -> Leaf
    requires { order < 64 }
    ensures { result ≡ record
        { object = object; chunk = front.chunk; offset = front.offset; size = 2 ^ order; index = front.key } }
{
    Leaf {
        object,
        chunk: front.chunk,
        offset: front.offset,
        size: 1 << order,
        index: front.key,
    }
}

/// How many bytes a range of this order has. It is public for `gpu_alloc_buddy`.
pub fn bytes(order: u32) -> u64
    requires { order < 64 }
    ensures { result ≡ 2 ^ order }
{
    1 << order
}

/// The order of a block of this many bytes.
fn order_of(size: u64) -> u32
    requires { IsPowerOfTwo size }
    ensures is { size ≡ 2 ^ result }
    ensures short { result < 64 }
{
    size.trailing_zeros()
}

/// The order of a block of `size` bytes, if a half can have that size.
fn half_order(size: u64) -> Option<u32>
    ensures { MatchOption result ((n : ℕ) → n < 63 → size ≢ 2 ^ n) (λ n. (size ≡ 2 ^ n) × (n < 63)) }
{
    if !size.is_power_of_two() {
        return None;
    }
    let order = order_of(size);
    if order < ORDERS { Some(order) } else { None }
}

/// The key of the pair that has a block of 2^order bytes: `key` if its pair has it, or else the one that a search
/// finds.
#[inline(always)]
fn key_of<M: MemoryObject, A: Allocator>(
    chunks: &Slab<Chunk<M>, A>,
    pairs: &Slab<Pair, A>,
    key: usize,
    order: u32,
    object: u64,
    offset: u64,
) -> Option<usize>
    requires short { order ≤ 62 }
    requires placed { AreInChunks chunks.now order pairs.now }
    ensures { MatchOption result (BlockStandsNowhere (chunks_in M.object chunks.now) pairs.now order object offset)
        (BlockStandsUnder (chunks_in M.object chunks.now) pairs.now order object offset) }
{
    match pairs.get(key) {
        Some(pair) if is_of(chunks, pair, order, object, offset) => Some(key),
        _ => search(chunks, pairs, order, object, offset),
    }
}

/// The key of the pair that has a block of 2^order bytes, by a search over all pairs of that length.
#[cold]
#[inline(never)]
fn search<M: MemoryObject, A: Allocator>(
    chunks: &Slab<Chunk<M>, A>,
    pairs: &Slab<Pair, A>,
    order: u32,
    object: u64,
    offset: u64,
) -> Option<usize>
    requires short { order ≤ 62 }
    requires placed { AreInChunks chunks.now order pairs.now }
    ensures { MatchOption result (BlockStandsNowhere (chunks_in M.object chunks.now) pairs.now order object offset)
        (BlockStandsUnder (chunks_in M.object chunks.now) pairs.now order object offset) }
{
    for (key, pair) in pairs.iter() {
        if is_of(chunks, pair, order, object, offset) {
            return Some(key);
        }
    }
    None
}

/// Whether a half of a pair is a live block of 2^order bytes that starts at `start` in a chunk of this object.
#[inline(always)]
fn is_of<M: MemoryObject, A: Allocator>(
    chunks: &Slab<Chunk<M>, A>,
    pair: &Pair,
    order: u32,
    object: u64,
    offset: u64,
) -> bool
    requires short { order ≤ 62 }
    requires placed { IsInChunk chunks.now order pair.now }
    ensures { IsTrue result ↔ HasSpan (chunks_in M.object chunks.now) order object offset (entry_of pair.now) }
{
    pair.has_block(order, offset) && chunks[pair.chunk].memory.object() == object
}

/// Adds each live block of 2^order bytes to a list, by the pairs of that length. It fails only for want of memory.
fn list_length<M: MemoryObject, A: Allocator, B: Allocator>(
    chunks: &Slab<Chunk<M>, A>,
    pairs: &Slab<Pair, A>,
    order: u32,
    leaves: &mut Vec<Leaf, B>,
) -> Result<(), AllocError>
    requires short { order ≤ 62 }
    requires placed { AreInChunks chunks.now order pairs.now }
    ensures { OnOk result (leaves.new.items ≡ leaves.old.items
        ++ map_list (leaf_of (chunks_in M.object chunks.now)) (halves_of_length UseOf.Taken order (seen pairs.now))) }
{
    for (key, pair) in pairs.iter() {
        list_half(chunks, key, pair, Side::Left, order, leaves)?;
        list_half(chunks, key, pair, Side::Right, order, leaves)?;
    }
    Ok(())
}

/// Adds a half of a pair to a list if it is a live block of 2^order bytes. It fails only for want of memory.
#[inline(always)]
fn list_half<M: MemoryObject, A: Allocator, B: Allocator>(
    chunks: &Slab<Chunk<M>, A>,
    key: usize,
    pair: &Pair,
    side: Side,
    order: u32,
    leaves: &mut Vec<Leaf, B>,
) -> Result<(), AllocError>
    requires short { order ≤ 62 }
    requires placed { IsInChunk chunks.now order pair.now }
    ensures { OnOk result (leaves.new.items ≡ leaves.old.items
        ++ map_list (leaf_of (chunks_in M.object chunks.now))
        (half_used UseOf.Taken order key (entry_of pair.now) side)) }
{
    if let Use::Taken = pair.use_of(side) {
        leaves.push(Leaf {
            object: chunks[pair.chunk].memory.object(),
            chunk: pair.chunk,
            offset: pair.start_of(side, order),
            size: bytes(order),
            index: key,
        })?;
    }
    Ok(())
}

/// Which half of its pair a block of 2^order bytes at this offset is.
fn side_of(offset: u64, order: u32) -> Side
    requires short { order < 64 }
    requires half { StartsHalf offset order }
    ensures { HasSide offset order result }
{
    if (offset >> order) % 2 == 0 {
        Side::Left
    } else {
        Side::Right
    }
}
