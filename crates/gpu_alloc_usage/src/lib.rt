//! Which memory types serve a usage, and in which order they are tried. `gpu_alloc` exports what users need of it.
#![tactic(auto)]

pub mod laws;
mod usage;

pub use usage::{MemoryForUsage, meaning};
