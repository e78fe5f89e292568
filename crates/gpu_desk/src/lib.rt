//! An allocator with its live blocks by key, over a device that is asked from outside: the base of a library for
//! callers that can't be called back.
#![tactic(auto)]

mod answers;
mod denial;
mod desk;
pub mod laws;
mod wish;

pub use answers::{Counts, Grant, HeapCounts, ObjectRange};
pub use denial::{Denial, OpenError};
pub use desk::Desk;
pub use gpu_alloc::{
    AllocationError, Config, Dedicated, DeviceProperties, FreeRange, MapError, MemoryHeap,
    MemoryPropertyFlags, MemoryType, Request, Sharing, UsageFlags,
};
pub use gpu_answers::{Answer, Answered, Question};
pub use gpu_session::Fault;
pub use wish::Wish;
