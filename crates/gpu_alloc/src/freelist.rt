//! The free list and its allocator: shared chunks of one memory type, whose blocks are the tails of free runs.

pub use gpu_alloc_freelist::{
    FreeList, FreeListAllocator, FreeListBlock, FreeListRegion, NumberedChunk,
};
