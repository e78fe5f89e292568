//! The contents of a report.

use serde::Serialize;

/// What an allocator holds of its device's memory, and what lies in it.
#[derive(Debug, Drop, PartialEq, Serialize)]
pub struct Report {
    /// The heaps, by index.
    pub heaps: Vec<HeapReport>,

    /// What is held by memory type, then by what it is held for, where an object is held.
    pub kinds: Vec<KindReport>,

    /// The held objects, by memory type, then by what they are held for, then by name.
    pub objects: Vec<ObjectReport>,
}

/// A heap.
#[derive(Clone, Copy, Debug, PartialEq, Eq, Serialize)]
pub struct HeapReport {
    /// Its size, in bytes.
    pub size: u64,

    /// Its limit: how many bytes of it may be held before no more are asked for. It is at most the size, and equals it
    /// where no limit was set.
    pub limit: u64,

    /// Its ledger: how many bytes the held objects of its memory types count. Imports may bring it past the size.
    pub used: u128,

    /// How many bytes may still be asked of it.
    pub budget: u64,
}

/// What an object is held for.
#[derive(Clone, Copy, Debug, PartialEq, Eq, Serialize)]
pub enum ObjectKind {
    /// One block, which is the whole object.
    Dedicated,

    /// One block, in an object that the allocator did not make.
    Imported,

    /// The blocks of a buddy allocator.
    BuddyChunk,

    /// The blocks of a free list.
    FreeListChunk,

    /// Blocks as long as requested.
    FitChunk,
}

/// The held objects of one memory type and one kind.
#[derive(Clone, Copy, Debug, PartialEq, Eq, Serialize)]
pub struct KindReport {
    /// The index of the memory type.
    pub memory_type: u32,

    /// What they are held for.
    pub kind: ObjectKind,

    /// How many objects there are.
    pub objects: u64,

    /// How many live blocks lie in them.
    pub live_blocks: u64,

    /// How many bytes these blocks have in all.
    pub live_bytes: u128,

    /// How many bytes were requested for these blocks.
    pub asked_bytes: u128,

    /// How many bytes their free ranges have in all.
    pub free_bytes: u128,

    /// The length of the longest free range, in bytes, 0 where nothing is free.
    pub largest_free: u64,

    /// The share of the free bytes that lie in free ranges shorter than half of the longest one, in thousandths,
    /// rounded down; 0 where nothing is free.
    pub scattered: u64,
}

/// A held object.
#[derive(Debug, Drop, PartialEq, Serialize)]
pub struct ObjectReport {
    /// Its name.
    pub object: u64,

    /// The index of its memory type.
    pub memory_type: u32,

    /// What it is held for.
    pub kind: ObjectKind,

    /// How many bytes it counts: its size, or for an import the block's size.
    pub size: u64,

    /// Its live blocks and free ranges, sorted by offset.
    pub places: Vec<Place>,
}

/// A live block, or a free range.
#[derive(Clone, Copy, Debug, PartialEq, Eq, Serialize)]
pub struct Place {
    /// The block's name, or `None` for a free range.
    pub block: Option<u64>,

    /// Where it starts in its object, in bytes.
    pub offset: u64,

    /// Its size, in bytes.
    pub size: u64,

    /// How many of a block's bytes were asked for, 0 for a free range.
    pub asked: u64,
}
