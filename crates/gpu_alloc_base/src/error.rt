//! Why an allocation or a mapping is refused.

ghost use Rattle.std.specs.Prelude.{◌≡◌, Some};
ghost use Rattle.gpu_alloc_base.specs.Errors.{allocation_text, like_memory, map_like_device, map_like_memory, map_text};

use gpu_alloc_types::{DeviceMapError, OutOfMemory};
use std::error::Error;
use std::fmt;

/// Why an allocation is refused. The allocator then holds what it held before.
#[derive(Clone, Copy, Debug, PartialEq, Eq, Hash)]
pub enum AllocationError {
    /// The size is over the limit that `new` was given, or no heap that serves the request is large enough for it. Or a
    /// shared object for it would have 2^64 bytes or more, or the device's memory is exhausted. In the last case,
    /// freeing memory of the same heap may help.
    OutOfDeviceMemory,

    /// Host memory is exhausted, for the device or for the allocator itself, or a new shared object could not be
    /// mapped. Freeing host memory may help.
    OutOfHostMemory,

    /// None of the memory types that the request allows serves its usage.
    NoCompatibleMemoryTypes,

    /// As many memory objects are held as the device allows. Freeing blocks may help, dedicated ones first. Where the
    /// heaps are far from exhausted, a [`Config`](crate::Config) with larger shared objects helps. (A free list that
    /// has made 2^64 - 1 chunks gives this error too.)
    TooManyObjects,
}

/// One line without a full stop, fixed for each variant.
impl fmt::Display for AllocationError {
    ghost output = { λ e. Some (allocation_text e) };

    fn fmt<W: fmt::Write>(&self, f: &mut fmt::Formatter<W>) -> fmt::Result {
        match self {
            AllocationError::OutOfDeviceMemory => write!(f, "Device memory exhausted"),
            AllocationError::OutOfHostMemory => write!(f, "Host memory exhausted"),
            AllocationError::NoCompatibleMemoryTypes => write!(
                f,
                "No compatible memory types from requested types support requested usage"
            ),
            AllocationError::TooManyObjects => {
                write!(f, "Reached limit on allocated memory objects count")
            }
        }
    }
}

impl Error for AllocationError {}

/// A device's refusal becomes the allocation error of the same name.
impl From<OutOfMemory> for AllocationError {
    ghost from_gives = { λ cause e. e ≡ like_memory cause };

    fn from(cause: OutOfMemory) -> AllocationError {
        match cause {
            OutOfMemory::OutOfDeviceMemory => AllocationError::OutOfDeviceMemory,
            OutOfMemory::OutOfHostMemory => AllocationError::OutOfHostMemory,
        }
    }
}

/// Why a mapping is refused. A block that was not mapped stays unmapped, and after a device's refusal the device is not
/// called again.
#[derive(Clone, Copy, Debug, PartialEq, Eq, Hash)]
pub enum MapError {
    /// The device's memory is exhausted. Freeing memory of the same heap may help.
    OutOfDeviceMemory,

    /// Host memory is exhausted. Freeing host memory may help.
    OutOfHostMemory,

    /// The block's memory type is not host-visible; the device is not called. A request whose block is to be mapped
    /// should have `HOST_ACCESS` of [`UsageFlags`](crate::UsageFlags) in its usage.
    NonHostVisible,

    /// The device failed to map for a reason of its own, for instance because it finds no address range that is large
    /// enough (Vulkan's `VK_ERROR_MEMORY_MAP_FAILED`).
    MapFailed,

    /// The block is mapped already, and stays so; the device is not called. Unmap it first.
    AlreadyMapped,
}

/// One line without a full stop, fixed for each variant.
impl fmt::Display for MapError {
    ghost output = { λ e. Some (map_text e) };

    fn fmt<W: fmt::Write>(&self, f: &mut fmt::Formatter<W>) -> fmt::Result {
        match self {
            MapError::OutOfDeviceMemory => write!(f, "Device memory exhausted"),
            MapError::OutOfHostMemory => write!(f, "Host memory exhausted"),
            MapError::NonHostVisible => write!(f, "Impossible to map non-host-visible memory"),
            MapError::MapFailed => write!(f, "Failed to map memory object"),
            MapError::AlreadyMapped => write!(f, "Block is already mapped"),
        }
    }
}

impl Error for MapError {}

/// A device's refusal to map becomes the mapping error of the same name.
impl From<DeviceMapError> for MapError {
    ghost from_gives = { λ cause e. e ≡ map_like_device cause };

    fn from(cause: DeviceMapError) -> MapError {
        match cause {
            DeviceMapError::OutOfDeviceMemory => MapError::OutOfDeviceMemory,
            DeviceMapError::OutOfHostMemory => MapError::OutOfHostMemory,
            DeviceMapError::MapFailed => MapError::MapFailed,
        }
    }
}

/// A refusal of memory becomes the mapping error of the same name.
impl From<OutOfMemory> for MapError {
    ghost from_gives = { λ cause e. e ≡ map_like_memory cause };

    fn from(cause: OutOfMemory) -> MapError {
        match cause {
            OutOfMemory::OutOfDeviceMemory => MapError::OutOfDeviceMemory,
            OutOfMemory::OutOfHostMemory => MapError::OutOfHostMemory,
        }
    }
}
