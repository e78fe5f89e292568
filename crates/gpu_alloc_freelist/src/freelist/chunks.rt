//! The held chunks of a free list, by number.

ghost use Rattle.std.specs.Prelude.{◌≡◌, ◌↔◌, ◌+◌, ◌<◌, ◌≤◌, ℕ, length, slice_get, Some, IfSome, IsOk, IsSome, IsTrue, OnOk};
ghost use Rattle.std.specs.FinMap as map;
ghost use Rattle.gpu_alloc_freelist.specs.Chunks.{AreNumbered, IsWholeChunk, ListsChunks, chunk_of, keys_by_number};

use gpu_alloc_base::FreeListRegion;
use gpu_alloc_types::MemoryObject;
use slab::{Iter, Slab};
use std::alloc::{AllocError, Allocator, Global};
use std::marker::Model;

/// A held chunk: its number, a handle of its object, and its size in bytes.
#[derive(Drop)]
pub struct NumberedChunk<M: MemoryObject> {
    pub(super) number: u64,
    pub(super) memory: M,
    pub(super) size: u64,
}

impl<M: MemoryObject> NumberedChunk<M> {
    /// The chunk's number.
    #[inline(always)]
    pub fn number(&self) -> u64
        ensures { result ≡ self.now.number }
    {
        self.number
    }

    /// The name of its object.
    #[inline(always)]
    pub fn object(&self) -> u64
        ensures { result ≡ M.object self.now.memory }
    {
        self.memory.object()
    }

    /// Its size, in bytes.
    #[inline(always)]
    pub fn size(&self) -> u64
        ensures { result ≡ self.now.size }
    {
        self.size
    }
}

/// A number, and the key of its chunk.
#[derive(Clone, Copy)]
struct NumberedKey {
    number: u64,
    key: usize,
}

/// The held chunks of a free list: a slab of chunks, and their numbers in rising order, each with its chunk's key.
///
/// A chunk is found in time logarithmic in the held chunks. Where one is removed, the greater numbers move up in their
/// vector, and no other chunk moves.
#[derive(Drop)]
pub(super) struct Chunks<M: MemoryObject, A: Allocator = Global> {
    rows: Slab<NumberedChunk<M>, A>,
    numbers: Vec<NumberedKey, A>,
}

impl<M: MemoryObject, A: Allocator> Model for Chunks<M, A> {
    ghost use Rattle.gpu_alloc_freelist.specs.Chunks.{NumberedChunks};
    ghost use Rattle.gpu_alloc_freelist.specs.Codes.{numbered_chunks_code};

    ghost Value = { NumberedChunks };

    ghost coded = { numbered_chunks_code };

    ghost use Rattle.std.specs.Prelude.{◌-◌, length, vec_capacity};
    ghost use Rattle.gpu_alloc_freelist.specs.Chunks.{AreFiled, numbered_chunks_in};

    ghost view = { λ c. numbered_chunks_in M.object c.rows (vec_capacity c.numbers - length c.numbers.items) };

    ghost invariant = { λ c. AreFiled c.rows c.numbers.items };
}

impl<M: MemoryObject, A: Allocator + Copy> Chunks<M, A> {
    /// No chunks. The two stores take their memory from `alloc`; this call takes none.
    pub(super) fn new(alloc: A) -> Self
        ensures empty { result.held ≡ map.empty }
    {
        Chunks {
            rows: Slab::new(alloc),
            numbers: Vec::new(alloc),
        }
    }
}

impl<M: MemoryObject, A: Allocator> Chunks<M, A> {
    /// Whether no chunk is held.
    pub(super) fn is_empty(&self) -> bool
        ensures { IsTrue result ↔ map.len self.now.held ≡ 0 }
    {
        self.numbers.is_empty()
    }

    /// The held chunks, each once, in no particular order.
    pub(super) fn iter(&self) -> Iter<'_, NumberedChunk<M>>
        ensures { ListsChunks M.object self.now.held result }
    {
        self.rows.iter()
    }

    /// Makes room for one more chunk, so that one `push` cannot fail.
    ///
    /// The only error is want of memory. Nothing but the room changes, and it never shrinks, even after an error.
    pub(super) fn reserve(&mut self) -> Result<(), AllocError>
        ensures room { OnOk result (0 < self.new.room) }
        ensures stays { self.old.room ≤ self.new.room }
        ensures succeeds { 0 < self.old.room → IsOk result }
        ensures kept { self.new.held ≡ self.old.held }
    {
        self.rows.reserve(1)?;
        self.numbers.reserve(1)
    }

    /// Adds a chunk under a number greater than each that is held, into room that was made. `size` is in bytes.
    pub(super) fn push(&mut self, number: u64, memory: M, size: u64)
        requires room { 0 < self.old.room }
        requires greater { (k : ℕ) → IsSome (map.get self.old.held k) → k < number }
        ensures held { self.new.held
            ≡ map.insert self.old.held number (record { object = M.object memory; size = size }) }
        ensures room { self.old.room ≡ self.new.room + 1 }
    {
        let key = self.rows.insert_reserved(NumberedChunk {
            number,
            memory,
            size,
        });
        self.numbers.push_reserved(NumberedKey { number, key });
    }

    /// The chunk of a held number.
    pub(super) fn get(&self, number: u64) -> &NumberedChunk<M>
        requires { IsSome (map.get self.now.held number) }
        ensures { map.get self.now.held number ≡ Some (chunk_of M.object result.now) }
    {
        let place = place_of(self.numbers.as_slice(), number);
        &self.rows[self.numbers[place].key]
    }

    /// Whether a region is all of its chunk, which must be held.
    pub(super) fn is_whole(&self, region: FreeListRegion) -> bool
        requires { IsSome (map.get self.now.held region.chunk) }
        ensures { IsTrue result ↔ IsWholeChunk self.now.held region }
    {
        region.start == 0 && self.get(region.chunk).size == region.end
    }

    /// Removes the chunk of a held number. It allocates nothing and cannot fail.
    pub(super) fn remove(&mut self, number: u64) -> NumberedChunk<M>
        requires { IsSome (map.get self.old.held number) }
        ensures number { result.number ≡ number }
        ensures chunk { map.get self.old.held number ≡ Some (chunk_of M.object result) }
        ensures held { self.new.held ≡ map.remove self.old.held number }
        ensures room { self.new.room ≡ self.old.room + 1 }
    {
        let place = place_of(self.numbers.as_slice(), number);
        let NumberedKey { number: _, key } = self.numbers.remove(place);
        self.rows.remove(key)
    }
}

/// Where a number stands among those in rising order.
fn place_of(numbers: &[NumberedKey], number: u64) -> usize
    requires rising { AreNumbered (λ n. n.number) numbers.now }
    requires listed { IsSome (map.get (keys_by_number numbers.now) number) }
    ensures within { result < length numbers.now }
    ensures number { IfSome (slice_get numbers.now result) (λ n. n.number ≡ number) }
{
    match numbers.binary_search_by_key(&number, |entry| entry.number) {
        Ok(place) => place,
        Err(_) => unreachable!(),
    }
}
