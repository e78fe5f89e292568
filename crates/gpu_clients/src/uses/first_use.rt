//! The README's first use; the README shows its end.

ghost use Rattle.gpu_alloc.specs.Agreement.{Agrees};

use gpu_alloc::{GpuAllocator, MemoryBlock, Request, UsageFlags};
use gpu_alloc_types::{MemoryDevice, MemoryObject};

/// Allocates a buffer with these bytes, for the device to copy from, if there is room.
pub fn upload<M: MemoryObject, D: MemoryDevice<M>>(
    allocator: &mut GpuAllocator<M>,
    device: &mut D,
    bytes: &[u8],
) -> Option<MemoryBlock<M>>
    requires { Agrees allocator.old (D.properties device.old) (D.objects device.old) }
    ensures { Agrees allocator.new (D.properties device.new) (D.objects device.new) }
{
    let request = Request {
        size: bytes.len() as u64,
        align_mask: 0,
        usage: UsageFlags::UPLOAD,
        memory_types: u32::MAX,
    };
    if !request.is_askable(false) {
        return None;
    }
    let mut block = allocator.alloc(device, request).ok()?;
    if block.write_bytes(device, 0, bytes).is_err() {
        allocator.dealloc(device, block);
        return None;
    }
    Some(block)
}
