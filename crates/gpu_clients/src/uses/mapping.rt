//! A block that stays mapped while its caller moves bytes by the device's own calls.

ghost use Rattle.std.specs.Prelude.{◌≡◌, ◌+◌, ◌≤◌, ◌<◌, length, Some};
ghost use Rattle.gpu_alloc.specs.Agreement.{Agrees, BlockAgrees};
ghost use Rattle.gpu_alloc.specs.Request.{IsAskable};
ghost use Rattle.gpu_alloc.specs.State.{IsOwned};

use gpu_alloc::laws::{byte_calls_keep_agreement, these_bytes_may_be_moved};
use gpu_alloc::{AllocationError, GpuAllocator, Mapping, MemoryBlock, Request};
use gpu_alloc_types::{MemoryDevice, MemoryObject};

/// Puts bytes at the start of a block's mapping, and gets as many from there.
fn put_and_get<M: MemoryObject, D: MemoryDevice<M>>(
    allocator: &GpuAllocator<M>,
    device: &mut D,
    block: &MemoryBlock<M>,
    mapping: Mapping,
    bytes: &[u8],
    copy: &mut [u8],
)
    requires agrees { Agrees allocator.now (D.properties device.old) (D.objects device.old) }
    requires ready { BlockAgrees block.now (D.properties device.old) (D.objects device.old) }
    requires mapped { block.now.mapping ≡ Some mapping }
    requires some { 0 < length bytes.now }
    requires fit { length bytes.now ≤ mapping.len }
    requires as_many { length copy.old ≡ length bytes.now }
    ensures agrees { Agrees allocator.now (D.properties device.new) (D.objects device.new) }
    ensures ready { BlockAgrees block.now (D.properties device.new) (D.objects device.new) }
{
    these_bytes_may_be_moved(block, device, mapping, mapping.start, bytes.len());
    device.put_bytes(block.memory(), mapping.start, bytes);
    byte_calls_keep_agreement(allocator, device);
    these_bytes_may_be_moved(block, device, mapping, mapping.start, copy.len());
    device.get_bytes(block.memory(), mapping.start, copy);
    byte_calls_keep_agreement(allocator, device);
}

/// Maps the first bytes of a block, if the device does so, moves them, and unmaps it.
fn move_bytes<M: MemoryObject, D: MemoryDevice<M>>(
    allocator: &GpuAllocator<M>,
    device: &mut D,
    block: &mut MemoryBlock<M>,
    bytes: &[u8],
    copy: &mut [u8],
)
    requires agrees { Agrees allocator.now (D.properties device.old) (D.objects device.old) }
    requires owned { IsOwned allocator.now block.old }
    requires ready { BlockAgrees block.old (D.properties device.old) (D.objects device.old) }
    requires some { 0 < length bytes.now }
    requires fit { length bytes.now ≤ block.old.size }
    requires as_many { length copy.old ≡ length bytes.now }
    ensures agrees { Agrees allocator.now (D.properties device.new) (D.objects device.new) }
    ensures owned { IsOwned allocator.now block.new }
{
    if let Ok(mapping) = block.map(device, 0, bytes.len()) {
        put_and_get(allocator, device, block, mapping, bytes, copy);
        block.unmap(device);
    }
}

/// Allocates a block, moves bytes through a mapping of it, and returns it.
pub fn through_a_mapping<M: MemoryObject, D: MemoryDevice<M>>(
    allocator: &mut GpuAllocator<M>,
    device: &mut D,
    request: Request,
    bytes: &[u8],
    copy: &mut [u8],
) -> Result<(), AllocationError>
    requires askable { IsAskable (allocator.old.properties).buffer_device_address request }
    requires agrees { Agrees allocator.old (D.properties device.old) (D.objects device.old) }
    requires some { 0 < length bytes.now }
    requires fit { length bytes.now ≤ request.size }
    requires as_many { length copy.old ≡ length bytes.now }
    ensures { Agrees allocator.new (D.properties device.new) (D.objects device.new) }
{
    let mut block = allocator.alloc(device, request)?;
    move_bytes(allocator, device, &mut block, bytes, copy);
    allocator.dealloc(device, block);
    Ok(())
}
