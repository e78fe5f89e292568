//! The free runs of a list.

ghost use Rattle.std.specs.Prelude.{◌≡◌};
ghost use Rattle.gpu_alloc_base.specs.Slots.{region_cmp};

use crate::FreeListBlock;
use gpu_alloc_types::MemoryObject;
use std::cmp::Ordering;

/// A free run: the bytes of a chunk from `start` up to `end`, all free, with no free byte next to either end.
#[derive(Clone, Copy, Debug, PartialEq, Eq)]
pub struct FreeListRegion {
    /// The number of the chunk.
    pub chunk: u64,

    /// Where it starts in the chunk, in bytes.
    pub start: u64,

    /// Where it ends, in bytes.
    pub end: u64,
}

impl FreeListRegion {
    /// `Less` where the run comes before the block, `Greater` where it comes after: by chunk number, and then by start
    /// (the original crate's order). A run and a live block of one list share no byte, so they are never equal.
    pub fn cmp<M: MemoryObject>(&self, block: &FreeListBlock<M>) -> Ordering
        ensures { result ≡ region_cmp self.now block.now }
    {
        self.chunk
            .cmp(&block.chunk())
            .then(self.start.cmp(&block.offset()))
    }
}
