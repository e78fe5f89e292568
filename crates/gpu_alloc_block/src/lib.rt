//! Blocks of memory, and how their bytes are mapped, written and read. `gpu_alloc` exports what users need of it.
#![tactic(auto)]

pub mod block;
mod kept_mapping;
mod kept_props;
pub mod laws;
mod sharing;

pub use block::{Kind, Mapping, MemoryBlock};
pub use sharing::Sharing;
