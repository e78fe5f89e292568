//! The memory that a graphics device offers, and the device itself as a trait.
#![tactic(auto)]

mod allocation_flags;
mod device;
pub mod laws;
mod memory_property_flags;
mod types;
mod usage_flags;

pub use allocation_flags::AllocationFlags;
pub use device::{MemoryDevice, MemoryObject, ObjectDevice};
pub use memory_property_flags::MemoryPropertyFlags;
pub use types::{
    DeviceMapError, DeviceProperties, FreeRange, MappedMemoryRange, MemoryHeap, MemoryType,
    OutOfMemory,
};
pub use usage_flags::UsageFlags;
