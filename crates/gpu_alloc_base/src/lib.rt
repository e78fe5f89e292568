//! What the buddy allocator and the free list are built on: sizes, ledgers and errors, the plain values of blocks and
//! of free space, and new chunks of a device. `gpu_alloc` exports what users need of it.
#![tactic(auto)]

pub mod booking;
pub mod buddy_block;
mod config;
mod error;
pub mod free_list_block;
pub mod heap;
pub mod laws;
pub mod new_chunk;
mod piece;
pub mod range_order;
mod region;
pub mod sizes;
pub mod steps;

pub use buddy_block::BuddyBlock;
pub use config::Config;
pub use error::{AllocationError, MapError};
pub use free_list_block::FreeListBlock;
pub use piece::Piece;
pub use region::FreeListRegion;
