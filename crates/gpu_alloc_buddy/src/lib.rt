//! The buddy allocator of one memory type, on the device that its calls get. Users find it in `gpu_alloc::buddy`.
#![tactic(auto)]

mod buddy;
mod chunks;
pub mod laws;

pub use buddy::BuddyAllocator;
pub use gpu_alloc_base::BuddyBlock;
pub use gpu_alloc_pairs::Chunk;
