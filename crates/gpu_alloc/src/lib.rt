//! Memory for Vulkan-like devices: blocks in few memory objects, which never overlap.
#![tactic(auto)]

mod allocator;
pub mod buddy;
pub mod freelist;
pub mod heap;
pub mod laws;
mod limits;
mod own;
mod request;
pub mod spans;
pub mod steps;

pub use allocator::GpuAllocator;
pub use gpu_alloc_base::{AllocationError, Config, MapError};
pub use gpu_alloc_block::{Kind, Mapping, MemoryBlock, Sharing};
pub use gpu_alloc_types::{
    AllocationFlags, DeviceMapError, DeviceProperties, FreeRange, MappedMemoryRange, MemoryDevice,
    MemoryHeap, MemoryObject, MemoryPropertyFlags, MemoryType, ObjectDevice, OutOfMemory,
    UsageFlags,
};
pub use gpu_alloc_usage::MemoryForUsage;
pub use request::{Dedicated, Request};
