//! The parts of a desk, for reports.

ghost use Rattle.std.specs.Prelude.{◌≡◌};

use super::Desk;
use gpu_alloc::{GpuAllocator, MemoryType};
use gpu_answers::ObjectName;

impl Desk {
    /// The allocator.
    pub fn allocator(&self) -> &GpuAllocator<ObjectName>
        ensures { result.now ≡ self.now.allocator }
    {
        &self.allocator
    }

    /// The memory types of the device, by index.
    pub fn memory_types(&self) -> &[MemoryType]
        ensures { result.now ≡ (self.now.allocator.properties).memory_types }
    {
        self.offer.memory_types.as_slice()
    }
}
