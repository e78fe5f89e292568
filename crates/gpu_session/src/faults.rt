//! The conditions of commands, and the first one that a command misses.

ghost use Rattle.std.specs.Prelude.{◌≡◌, ◌+◌, nat_lt};
ghost use Rattle.gpu_session.specs.Faults.{fault_of_import, fault_of_request};
ghost use Rattle.gpu_session.specs.Offer.{IsOffer};

use crate::Fault;
use crate::offer::Offer;
use gpu_alloc::{GpuAllocator, Request};
use gpu_alloc_types::MemoryObject;
use std::alloc::Allocator;

/// Why a request is invalid: the first condition that it misses, of its size, its alignment and its usage. The usage
/// `DEVICE_ADDRESS` needs the device's feature.
pub fn request_fault(request: Request, buffer_device_address: bool) -> Option<Fault>
    ensures { result ≡ fault_of_request buffer_device_address request }
{
    if request.size == 0 {
        return Some(Fault::BadSize);
    }
    if request.align_mask >= 1 << 63 || !(request.align_mask + 1).is_power_of_two() {
        return Some(Fault::BadAlignment);
    }
    if request.usage.lacks_address(buffer_device_address) {
        return Some(Fault::NoDeviceAddress);
    }
    None
}

/// Why a range of an object of `object_size` bytes cannot be imported: the first condition that it misses. The offer
/// must be that of the device that the allocator serves.
pub fn import_fault<M: MemoryObject, A: Allocator + Copy>(
    allocator: &GpuAllocator<M, A>,
    offer: &Offer<A>,
    memory_type: u32,
    object_size: u64,
    offset: u64,
    size: u64,
) -> Option<Fault>
    requires { IsOffer (allocator.now).properties offer.now }
    ensures { result ≡ fault_of_import allocator.now memory_type object_size offset size }
{
    if !offer.has_type(memory_type) {
        return Some(Fault::BadType);
    }
    if object_size == 0 || size == 0 {
        return Some(Fault::BadSize);
    }
    if passes_end(offset, size, object_size) {
        return Some(Fault::BadRange);
    }
    if offer.is_bad_end(memory_type, object_size, offset + size) {
        return Some(Fault::BadImportEnd);
    }
    if allocator.remaining_allocations() == 0 {
        return Some(Fault::NoRemaining);
    }
    None
}

/// Whether a range ends past `size` bytes, even where its end is not a `u64`.
pub fn passes_end(offset: u64, len: u64, size: u64) -> bool
    ensures { result ≡ nat_lt size (offset + len) }
{
    len > size || offset > size - len
}
