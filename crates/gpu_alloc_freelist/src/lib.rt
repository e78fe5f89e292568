//! The free list and its allocator for one memory type, on the device that its calls get. Users find them in
//! `gpu_alloc::freelist`.
#![tactic(auto)]

mod freelist;
pub mod laws;

pub use freelist::{FreeList, FreeListAllocator, NumberedChunk};
pub use gpu_alloc_base::{FreeListBlock, FreeListRegion};
