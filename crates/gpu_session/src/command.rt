//! The commands of a session, and its replies.

use crate::{Bytes, Ledgers, Ranges};
use gpu_alloc::{AllocationError, Dedicated, MapError, Mapping, Request};
use std::alloc::{Allocator, Global};

/// One command of a list. The bytes that a command carries are allocated with `A`.
///
/// A command's faults are listed in the order in which their conditions are tested. A command that misses a condition
/// is answered by [`Reply::Fault`] with the first one: it changes nothing and does not reach the device. Sizes, offsets
/// and lengths are in bytes.
#[derive(Drop)]
pub enum Command<A: Allocator = Global> {
    /// Allocates a block by `GpuAllocator::alloc`, and keeps it under a name.
    ///
    /// Faults: `NameInUse`, `BadSize`, `BadAlignment`, `NoDeviceAddress`, `NoMemory`. Replies: `Granted` or `Refused`.
    Alloc {
        /// The name for the block.
        name: u32,

        /// The request.
        request: Request,
    },

    /// Allocates a block by `GpuAllocator::alloc_with_dedicated`, and keeps it under a name.
    ///
    /// Faults and replies are those of `Alloc`.
    Dedicated {
        /// The name for the block.
        name: u32,

        /// The request.
        request: Request,

        /// The hint.
        dedicated: Dedicated,
    },

    /// Has the device allocate an object, with `DEVICE_ADDRESS` exactly where the device has the feature. Imports a
    /// span of it by `GpuAllocator::import_memory`, and keeps the block under a name.
    ///
    /// Faults: `NameInUse`, `BadType`, `BadSize` (of the object or of the span), `BadRange`, `BadImportEnd`,
    /// `NoRemaining`, `NoMemory`. Replies: `Granted`, or `Refused` where the device refused the object. Where the
    /// allocator finds no host memory, the object is released and the fault is `NoMemory`.
    Import {
        /// The name for the block.
        name: u32,

        /// The index of the object's memory type.
        memory_type: u32,

        /// The object's size, in bytes.
        object_size: u64,

        /// Where the span starts in the object, in bytes.
        offset: u64,

        /// The span's size, in bytes.
        size: u64,
    },

    /// Frees the block of a name. Fault: `UnknownName`. Reply: `Done`.
    Free {
        /// The block's name.
        name: u32,
    },

    /// Maps some bytes of a block by `MemoryBlock::map`. Faults: `UnknownName`, `BadSize`, `BadRange`. Replies:
    /// `Mapped` or `MapRefused`.
    Map {
        /// The block's name.
        name: u32,

        /// The first of the bytes, from the block's start.
        offset: u64,

        /// How many bytes.
        size: u64,
    },

    /// Unmaps a block by `MemoryBlock::unmap`. Fault: `UnknownName`. Reply: `Unmapped`.
    Unmap {
        /// The block's name.
        name: u32,
    },

    /// Writes bytes to a block by `MemoryBlock::write_bytes`. Faults: `UnknownName`, `BadRange`. Replies: `Done` or
    /// `MapRefused`.
    Write {
        /// The block's name.
        name: u32,

        /// Where the bytes go, from the block's start.
        offset: u64,

        /// The bytes.
        bytes: Bytes<A>,
    },

    /// Reads bytes of a block by `MemoryBlock::read_bytes`. Faults: `UnknownName`, `BadRange`, `NoMemory`. Replies:
    /// `Bytes` or `MapRefused`.
    Read {
        /// The block's name.
        name: u32,

        /// Where the bytes are, from the block's start.
        offset: u64,

        /// How many bytes.
        len: u64,
    },

    /// Puts bytes in a block's mapping, for the host alone: nothing is flushed (in coherent memory the device sees them
    /// too). Faults: `UnknownName`, `NotMapped`, `BadRange`. Reply: `Done`.
    Put {
        /// The block's name.
        name: u32,

        /// Where the bytes go, from the mapping's start.
        offset: u64,

        /// The bytes. An empty list does not reach the device.
        bytes: Bytes<A>,
    },

    /// Gets bytes from a block's mapping, as the host sees them: nothing is invalidated. Faults: `UnknownName`,
    /// `NotMapped`, `BadRange`, `NoMemory`. Reply: `Bytes`.
    Get {
        /// The block's name.
        name: u32,

        /// Where the bytes are, from the mapping's start.
        offset: u64,

        /// How many bytes. With 0 the device is not reached.
        len: u64,
    },

    /// Sets how many more objects may be held. Fault: `TooManyRemaining`. Reply: `Done`.
    SetRemaining {
        /// How many more.
        remaining: u32,
    },

    /// Releases the shared objects that are kept without a live block, by `GpuAllocator::cleanup`. Reply: `Done`.
    Cleanup,

    /// Lists the free ranges of a memory type's shared chunks. Faults: `BadType`, `NoMemory`. Reply: `Ranges`.
    FreeRanges {
        /// The index of the memory type.
        memory_type: u32,
    },

    /// Counts what is held. Fault: `NoMemory`. Reply: `Counts`.
    Counts,
}

/// Why a command was not run. It has then changed nothing. The numbers are those that scripts print.
#[derive(Clone, Copy, Debug, PartialEq, Eq)]
pub enum Fault {
    /// The name has a live block.
    NameInUse = 1,

    /// The name has no live block.
    UnknownName = 2,

    /// The size is 0.
    BadSize = 3,

    /// The alignment mask plus one is not a power of two of at most 2^63.
    BadAlignment = 4,

    /// The usage is `DEVICE_ADDRESS` and the device lacks the feature.
    NoDeviceAddress = 5,

    /// A range ends past the block, the mapping or the object.
    BadRange = 6,

    /// There is no such memory type.
    BadType = 7,

    /// An import when no more objects may be held.
    NoRemaining = 8,

    /// The number of remaining objects plus the held ones does not fit a `u32`.
    TooManyRemaining = 9,

    /// An import of non-coherent memory ends neither on the atom nor at its object's end (the Vulkan specification's
    /// rule on `VkMappedMemoryRange`).
    BadImportEnd = 10,

    /// The block is not mapped.
    NotMapped = 11,

    /// Host memory is missing for the session itself, for an import or for the list of free ranges.
    NoMemory = 12,
}

/// The answer to a command. What a reply carries is allocated with the session's allocator.
#[derive(Drop)]
pub enum Reply<A: Allocator = Global> {
    /// A block was granted.
    Granted {
        /// The index of its memory type.
        memory_type: u32,

        /// The name of its object.
        object: u64,

        /// Where it starts in the object, in bytes.
        offset: u64,

        /// Its size, in bytes.
        size: u64,
    },

    /// Why no block was granted. Nothing that is held has changed.
    Refused(AllocationError),

    /// The command was done.
    Done,

    /// The mapped range of the block's object, in bytes.
    Mapped(Mapping),

    /// Why bytes were not mapped, written or read.
    MapRefused(MapError),

    /// Whether the block was mapped.
    Unmapped(bool),

    /// The bytes that were read or got.
    Bytes(Bytes<A>),

    /// The free ranges, sorted by the name of their object, then by start.
    Ranges(Ranges<A>),

    /// What is held.
    Counts {
        /// How many more objects may be held.
        remaining: u32,

        /// How many objects are held.
        held: u32,

        /// How many bytes are held of each heap.
        used: Ledgers<A>,
    },

    /// Why the command was not run.
    Fault(Fault),
}
