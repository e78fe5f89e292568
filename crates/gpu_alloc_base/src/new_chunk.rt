//! New shared chunks: an object allocated from the device, and mapped whole where it is host-visible. It is public for
//! the crates above.

ghost use Rattle.std.specs.Prelude.{◌≡◌};
ghost use Rattle.gpu_alloc_types.specs.Flags.{allocation_bits};
ghost use Rattle.gpu_alloc_types.specs.Properties.{is_host_visible};
ghost use Rattle.gpu_alloc_types.specs.Device.{Asked, IsAllocatable};
ghost use Rattle.gpu_alloc_base.specs.NewChunk.{AsksChunk, ChunkAfter, AsksChunkTwice, ChunkAfterTwice, chunk_question};
ghost use Rattle.gpu_alloc_base.specs.NewChunk.{new_chunk_refusal, told_object, told_handles};

use crate::AllocationError;
use gpu_alloc_types::{AllocationFlags, DeviceMapError, MemoryObject, ObjectDevice, OutOfMemory};

/// A refused mapping of a new chunk, as a refusal of the chunk.
fn refusal_of(cause: DeviceMapError) -> AllocationError
    ensures { result ≡ new_chunk_refusal cause }
{
    match cause {
        DeviceMapError::OutOfDeviceMemory => AllocationError::OutOfDeviceMemory,
        DeviceMapError::OutOfHostMemory | DeviceMapError::MapFailed => {
            AllocationError::OutOfHostMemory
        }
    }
}

/// A new object, mapped whole if `visible`, which says that its memory type is host-visible. An object whose mapping is
/// refused is released, so after any refusal the device holds what it held. The error is `OutOfDeviceMemory` where the
/// device gave that answer to the allocation or to the mapping, and `OutOfHostMemory` otherwise.
pub fn new_chunk<M: MemoryObject, D: ObjectDevice<M>>(
    device: &mut D,
    size: u64,
    memory_type: u32,
    flags: AllocationFlags,
    visible: bool,
) -> Result<M, AllocationError>
    requires askable { IsAllocatable (D.properties device.old) size memory_type (allocation_bits flags) }
    requires visible { is_host_visible (D.properties device.old) memory_type ≡ visible }

    ensures asks { Asked D.step device.old device.new
        (λ es. AsksChunk (chunk_question size memory_type (allocation_bits flags) visible) es
        (told_object M.object result)) }
    ensures objects { ChunkAfter (chunk_question size memory_type (allocation_bits flags) visible)
        (told_object M.object result) (D.objects device.old) (D.objects device.new) }
    ensures properties { D.properties device.new ≡ D.properties device.old }
{
    let memory = match device.allocate_memory(size, memory_type, flags) {
        Ok(memory) => memory,
        Err(refusal) => return Err(AllocationError::from(refusal)),
    };
    if !visible {
        return Ok(memory);
    }
    match device.map_memory(&memory, 0, size) {
        Ok(()) => Ok(memory),
        Err(cause) => {
            device.deallocate_memory(&memory);
            Err(refusal_of(cause))
        }
    }
}

/// A new object as [`new_chunk`] makes it, with a second handle of it. Where there is no host memory for that handle,
/// the object is released and the error is `OutOfHostMemory`.
pub fn new_chunk_with_handle<M: MemoryObject, D: ObjectDevice<M>>(
    device: &mut D,
    size: u64,
    memory_type: u32,
    flags: AllocationFlags,
    visible: bool,
) -> Result<(M, M), AllocationError>
    requires askable { IsAllocatable (D.properties device.old) size memory_type (allocation_bits flags) }
    requires visible { is_host_visible (D.properties device.old) memory_type ≡ visible }

    ensures asks { Asked D.step device.old device.new
        (λ es. AsksChunkTwice (chunk_question size memory_type (allocation_bits flags) visible) es
        (told_handles M.object result)) }
    ensures objects { ChunkAfterTwice (chunk_question size memory_type (allocation_bits flags) visible)
        (told_handles M.object result) (D.objects device.old) (D.objects device.new) }
    ensures properties { D.properties device.new ≡ D.properties device.old }
{
    let memory = new_chunk(device, size, memory_type, flags, visible)?;
    match memory.duplicate() {
        Ok(handle) => Ok((memory, handle)),
        Err(_) => {
            device.deallocate_memory(&memory);
            Err(AllocationError::OutOfHostMemory)
        }
    }
}
