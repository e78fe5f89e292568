//! Buffers in device memory.

ghost use Rattle.std.specs.Prelude.{◌≡◌};
ghost use Rattle.gpu_alloc.specs.Agreement.{Agrees};
ghost use Rattle.gpu_alloc.specs.Request.{IsAskable};

use gpu_alloc::laws::spans_come_and_go;
use gpu_alloc::{AllocationError, GpuAllocator, Request};
use gpu_alloc_types::{MemoryDevice, MemoryObject};

/// Allocates two buffers and returns them in the order in which they were granted: the live blocks are then those of
/// before.
pub fn two_buffers<M: MemoryObject, D: MemoryDevice<M>>(
    allocator: &mut GpuAllocator<M>,
    device: &mut D,
    first: Request,
    second: Request,
) -> Result<(), AllocationError>
    requires first { IsAskable (allocator.old.properties).buffer_device_address first }
    requires second { IsAskable (allocator.old.properties).buffer_device_address second }
    requires agrees { Agrees allocator.old (D.properties device.old) (D.objects device.old) }
    ensures agrees { Agrees allocator.new (D.properties device.new) (D.objects device.new) }
    ensures live { allocator.new.live ≡ allocator.old.live }
{
    let vertices = allocator.alloc(device, first)?;
    match allocator.alloc(device, second) {
        Ok(indices) => {
            allocator.dealloc(device, vertices);
            allocator.dealloc(device, indices);
            spans_come_and_go();
            Ok(())
        }
        Err(refusal) => {
            allocator.dealloc(device, vertices);
            spans_come_and_go();
            Err(refusal)
        }
    }
}
