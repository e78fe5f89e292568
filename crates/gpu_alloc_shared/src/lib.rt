//! How an allocator of shared chunks serves requests and returns, over any store of chunks and blocks.
#![tactic(auto)]

mod chunk_sizes;
pub mod returning;
pub mod serving;
pub mod store;

pub use chunk_sizes::ChunkSizes;
pub use store::{Ask, BlockSpan, Store};
