//! Shared chunks cut into blocks exactly as long as asked: a store that knows no device.
#![tactic(auto)]

mod classes;
mod cut;
mod fits;
mod join;
mod search;
mod tile;

pub use fits::{Chunk, FitBlock, Fits};
