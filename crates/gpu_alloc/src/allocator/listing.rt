//! What an allocator holds and has given out, and what its device offers, for reports.

ghost use Rattle.std.specs.Prelude.{◌≡◌, ◌++◌, ◌<◌, ◌^◌, ℕ, Contains, List, IfOk, OnOk, length, map as mapped, nat_eq};
ghost use Rattle.std.specs.List.{IsDistinct};
ghost use Rattle.std.specs.Map.{keys_of};
ghost use Rattle.std.specs.FinMap as map;
ghost use Rattle.std.specs.FinSet as set;
ghost use Rattle.std.specs.Option.{option_map};
ghost use Rattle.gpu_alloc.specs.Budget.{heap_bytes};
ghost use Rattle.gpu_alloc.specs.Sound as Sound;
ghost use Rattle.gpu_alloc.specs.Spans.{held_objects_in, held_of, span_in};
ghost use Rattle.gpu_alloc.specs.Listing.{AreOfKnownTypes, AreOnce, IsRowOf};
ghost use Rattle.gpu_alloc.specs.Stores.{list_part};
ghost use Rattle.gpu_alloc_freelist.specs.FreeListSound.{IsSoundFreeList};

use super::GpuAllocator;
use super::stores::Chosen;
use crate::spans::{HeldRow, LiveSpan};
use gpu_alloc_block::Kind;
use gpu_alloc_buddy::Chunk;
use gpu_alloc_fit::Chunk as FitChunk;
use gpu_alloc_freelist::{FreeListAllocator, NumberedChunk};
use gpu_alloc_types::MemoryObject;
use slab::Iter;
use std::alloc::{AllocError, Allocator};

impl<M: MemoryObject, A: Allocator> GpuAllocator<M, A> {
    /// How many memory types the device has.
    pub fn type_count(&self) -> u32
        ensures { result ≡ length (self.now.properties).memory_types }
    {
        self.limits.memory_types.len() as u32
    }

    /// How many heaps the device has.
    pub fn heap_count(&self) -> u32
        ensures { result ≡ length (self.now.properties).memory_heaps }
    {
        self.heaps.len() as u32
    }

    /// The size of a heap, in bytes. The heap must exist.
    pub fn heap_bytes(&self, heap: u32) -> u64
        requires { heap < length (self.now.properties).memory_heaps }
        ensures { result ≡ heap_bytes self.now.properties heap }
    {
        self.heaps[heap as usize].size()
    }

    /// What an object of this name is held as, or `None` where it is not held. It searches all that is held.
    pub fn held(&self, object: u64) -> Option<HeldRow>
        ensures { option_map held_of result ≡ map.get self.now.held object }
    {
        if let Some(row) = self.own.held(object) {
            return Some(row);
        }
        for memory_type in 0..self.type_count() {
            let stores = &self.types[memory_type as usize];
            let chosen = match &stores.chosen {
                Chosen::Buddy(buddy) => row_of(buddy.chunks(), memory_type, object),
                Chosen::Fit(fit) => row_of(fit.chunks(), memory_type, object),
            };
            if let Some(row) = chosen {
                return Some(row);
            }
            if let Some(row) = row_of(stores.free_list.chunks(), memory_type, object) {
                return Some(row);
            }
        }
        None
    }

    /// The held objects, each once with its name, in no particular order.
    ///
    /// The list takes its memory from `alloc`, and the only error is want of it. Nothing changes.
    pub fn objects<B: Allocator>(&self, alloc: B) -> Result<Vec<(u64, HeldRow), B>, AllocError>
        ensures exact { IfOk result (λ rows. held_objects_in rows.items ≡ self.now.held) }
        ensures once { IfOk result (λ rows. IsDistinct nat_eq (keys_of rows.items)) }
        ensures known { AreOfKnownTypes self.now }
    {
        let mut rows = Vec::new(alloc);
        self.own.list_objects(&mut rows)?;
        for memory_type in 0..self.type_count() {
            let stores = &self.types[memory_type as usize];
            match &stores.chosen {
                Chosen::Buddy(buddy) => list_chunks(buddy.chunks(), memory_type, &mut rows)?,
                Chosen::Fit(fit) => list_chunks(fit.chunks(), memory_type, &mut rows)?,
            }
            list_chunks(stores.free_list.chunks(), memory_type, &mut rows)?;
        }
        Ok(rows)
    }

    /// The live spans, each once, in no particular order.
    ///
    /// The list takes its memory from `alloc`, and the only error is want of it. Nothing changes.
    pub fn live<B: Allocator>(&self, alloc: B) -> Result<Vec<LiveSpan, B>, AllocError>
        ensures exact { IfOk result (λ rows. set.from_list (mapped span_in rows.items) ≡ self.now.live) }
        ensures once { IfOk result (λ rows. AreOnce (mapped span_in rows.items)) }
        ensures sound { Sound.IsSound self.now }
    {
        self.keeps_sound();
        let mut rows = Vec::new(alloc);
        self.own.list_spans(&mut rows)?;
        for stores in self.types.iter() {
            match &stores.chosen {
                Chosen::Buddy(buddy) => buddy.list_live(&mut rows)?,
                Chosen::Fit(fit) => fit.list_live(&mut rows)?,
            }
            list_slots(&stores.free_list, &mut rows)?;
        }
        Ok(rows)
    }
}

/// A held chunk, as it is listed.
trait ListedChunk {
    ghost use Rattle.gpu_alloc.specs.declared.spans.HeldRow.{HeldRow};

    /// What [`entry`](ListedChunk::entry) returns.
    ghost listed: { Self → ℕ → ℕ × HeldRow };

    /// Its size fits 64 bits.
    ghost IsShort: { Self → Type 0 };

    /// The name of the chunk's object, and its row, where the chunk is of this memory type.
    fn entry(&self, memory_type: u32) -> (u64, HeldRow)
        requires { IsShort self.now }
        ensures { result ≡ listed self.now memory_type };
}

impl<M: MemoryObject> ListedChunk for Chunk<M> {
    ghost use Rattle.gpu_alloc.specs.Listing.{listed_as};
    ghost use Rattle.gpu_alloc_block.specs.declared.block.Kind.TheVariants.{BuddyChunk};

    ghost listed = { λ chunk memory_type. listed_as (M.object chunk.memory) memory_type (2 ^ chunk.order) BuddyChunk };

    ghost IsShort = { λ chunk. chunk.order < 64 };

    fn entry(&self, memory_type: u32) -> (u64, HeldRow) {
        let row = HeldRow {
            memory_type,
            counted: self.size(),
            kind: Kind::BuddyChunk,
        };
        (self.object(), row)
    }
}

impl<M: MemoryObject> ListedChunk for NumberedChunk<M> {
    ghost use Rattle.gpu_alloc.specs.Listing.{listed_as};
    ghost use Rattle.gpu_alloc_block.specs.declared.block.Kind.TheVariants.{FreeListChunk};

    ghost listed = { λ chunk memory_type. listed_as (M.object chunk.memory) memory_type chunk.size (FreeListChunk chunk.number) };

    ghost IsShort = { λ chunk. Unit {0} };

    fn entry(&self, memory_type: u32) -> (u64, HeldRow) {
        let row = HeldRow {
            memory_type,
            counted: self.size(),
            kind: Kind::FreeListChunk(self.number()),
        };
        (self.object(), row)
    }
}

impl<M: MemoryObject> ListedChunk for FitChunk<M> {
    ghost use Rattle.gpu_alloc.specs.Listing.{listed_as};
    ghost use Rattle.gpu_alloc_block.specs.declared.block.Kind.TheVariants.{FitChunk};

    ghost listed = { λ chunk memory_type. listed_as (M.object chunk.memory) memory_type chunk.size FitChunk };

    ghost IsShort = { λ chunk. Unit {0} };

    fn entry(&self, memory_type: u32) -> (u64, HeldRow) {
        let row = HeldRow {
            memory_type,
            counted: self.size(),
            kind: Kind::FitChunk,
        };
        (self.object(), row)
    }
}

/// The row of an object of this name, or `None` where no chunk of a memory type's is of it. It searches all of them.
fn row_of<C: ListedChunk>(chunks: Iter<'_, C>, memory_type: u32, object: u64) -> Option<HeldRow>
    requires { (e : ℕ × C) → Contains chunks e → C.IsShort e.1 }
    ensures { IsRowOf (λ e. C.listed e.1 memory_type) chunks.entry object result }
{
    for (_, chunk) in chunks {
        let (name, row) = chunk.entry(memory_type);
        if name == object {
            return Some(row);
        }
    }
    None
}

/// Adds the row of each of a memory type's chunks to a list, with its name, in their order.
///
/// The only error is want of memory. Nothing else changes.
fn list_chunks<C: ListedChunk, B: Allocator>(
    chunks: Iter<'_, C>,
    memory_type: u32,
    rows: &mut Vec<(u64, HeldRow), B>,
) -> Result<(), AllocError>
    requires { (e : ℕ × C) → Contains chunks e → C.IsShort e.1 }
    ensures { OnOk result (rows.new.items ≡ rows.old.items ++ mapped (λ e. C.listed e.1 memory_type) chunks.entry) }
{
    for (_, chunk) in chunks {
        rows.push(chunk.entry(memory_type))?;
    }
    Ok(())
}

/// Adds the span of each live block of a free list to a list, each once, in no particular order.
///
/// The only error is want of memory. Nothing else changes.
fn list_slots<M: MemoryObject, A: Allocator, B: Allocator>(
    list: &FreeListAllocator<M, A>,
    rows: &mut Vec<LiveSpan, B>,
) -> Result<(), AllocError>
    requires sound { IsSoundFreeList list.now }
    ensures { OnOk result ((slots : List LiveSpan) × (rows.new.items ≡ rows.old.items ++ slots)
        × ((set.from_list (mapped span_in slots) ≡ (list_part list.now).live) × AreOnce (mapped span_in slots))) }
{
    for (key, slot) in list.slots() {
        rows.push(LiveSpan {
            object: slot.object,
            offset: slot.offset,
            size: slot.size,
            chunk: 0,
            index: key,
        })?;
    }
    Ok(())
}
