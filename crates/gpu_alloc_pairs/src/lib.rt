//! Shared chunks that are divided into halves: the store of a buddy allocator, which knows no device.
#![tactic(auto)]

mod length;
mod lengths;
mod pair;
mod pairs;
mod ring;

pub use pairs::{Chunk, Pairs, bytes};
