//! Programs that keep a device's memory, over any device and any allocator of host memory, and callers of every part.
#![tactic(auto)]

mod closing;
pub mod frames;
pub mod resources;
pub mod staging;
pub mod uses;
