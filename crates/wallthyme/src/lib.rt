//! The proved GPU memory allocator for C. `c/wallthyme.h` says what each call does.
#![tactic(auto)]

mod answers;
mod blocks;
mod candidates;
mod handle;
mod kept;
pub mod laws;
mod layout;
mod layout_rows;
mod objects;
mod opening;
mod ranges;
mod report;
mod seal;
mod status;
mod walk;
