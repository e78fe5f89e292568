//! Values under keys that are never reused, for a library whose callers hold keys: a removed key is never valid again.
#![tactic(auto)]

mod slot_map;

pub use slot_map::{SlotMap, Values};
