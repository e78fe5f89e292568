//! A block that may be another allocator's.

ghost use Rattle.gpu_alloc.specs.Agreement.{Agrees};

use gpu_alloc::{GpuAllocator, MemoryBlock};
use gpu_alloc_types::{MemoryDevice, MemoryObject};

/// Returns a block, or hands it back where another allocator must take it.
pub fn dealloc_if_owned<M: MemoryObject, D: MemoryDevice<M>>(
    allocator: &mut GpuAllocator<M>,
    device: &mut D,
    block: MemoryBlock<M>,
) -> Option<MemoryBlock<M>>
    requires { Agrees allocator.old (D.properties device.old) (D.objects device.old) }
    ensures { Agrees allocator.new (D.properties device.new) (D.objects device.new) }
{
    if !allocator.owns(&block) {
        return Some(block);
    }
    allocator.dealloc(device, block);
    None
}
