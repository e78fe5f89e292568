//! The buddy allocator: shared chunks of one memory type, whose blocks are aligned powers of two.

pub use gpu_alloc_buddy::{BuddyAllocator, BuddyBlock};
