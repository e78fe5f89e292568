//! What a device offers, and why it refuses.

ghost use Rattle.std.specs.Prelude.{◌≡◌, ◌↔◌, ℕ, IsTrue};
ghost use Rattle.std.specs.Int.{bit_at};
ghost use Rattle.gpu_alloc_types.specs.Flags.{property_bits};
ghost use Rattle.gpu_alloc_types.specs.Properties.{IsUsable, HasAllOf, properties_of};

use crate::MemoryPropertyFlags;

/// Why a device refuses memory (Vulkan's `VK_ERROR_OUT_OF_DEVICE_MEMORY` and `VK_ERROR_OUT_OF_HOST_MEMORY`).
#[derive(Clone, Copy, Debug, PartialEq, Eq, Hash)]
pub enum OutOfMemory {
    /// The device's memory is exhausted.
    OutOfDeviceMemory,

    /// The host's memory is exhausted.
    OutOfHostMemory,
}

/// Why a device refuses to map an object (Vulkan's errors of `vkMapMemory`).
#[derive(Clone, Copy, Debug, PartialEq, Eq, Hash)]
pub enum DeviceMapError {
    /// The device's memory is exhausted.
    OutOfDeviceMemory,

    /// The host's memory is exhausted.
    OutOfHostMemory,

    /// The mapping failed for a reason of the device's own (Vulkan's `VK_ERROR_MEMORY_MAP_FAILED`).
    MapFailed,
}

/// A type of memory. A type is known by its index in [`DeviceProperties::memory_types`].
#[derive(Clone, Copy, Debug, PartialEq, Eq, Hash)]
pub struct MemoryType {
    /// The index of its heap in [`DeviceProperties::memory_heaps`].
    pub heap: u32,

    /// Its properties.
    pub props: MemoryPropertyFlags,
}

/// A heap: the memory of one or more memory types comes out of it.
#[derive(Clone, Copy, Debug, PartialEq, Eq, Hash)]
pub struct MemoryHeap {
    /// Its size in bytes.
    pub size: u64,
}

/// A free range of a memory object, in bytes.
#[derive(Clone, Copy, Debug, PartialEq, Eq, Hash)]
pub struct FreeRange {
    /// The name of the object.
    pub object: u64,

    /// Where it starts in the object, in bytes.
    pub start: u64,

    /// Where it ends, in bytes.
    pub end: u64,
}

/// A range in the mapped part of a memory object, in bytes (Vulkan's `VkMappedMemoryRange`).
#[derive(Drop)]
pub struct MappedMemoryRange<'a, M> {
    /// A handle of the object.
    pub memory: &'a M,

    /// Where the range starts in the object, in bytes.
    pub offset: u64,

    /// Its size, in bytes.
    pub size: u64,
}

/// What a device offers.
#[derive(Clone, Debug, Drop)]
pub struct DeviceProperties<'a> {
    /// The memory types, by index.
    pub memory_types: &'a [MemoryType],

    /// The heaps, by index.
    pub memory_heaps: &'a [MemoryHeap],

    /// How many memory objects may be held at a time (Vulkan's `maxMemoryAllocationCount`).
    pub max_memory_allocation_count: u32,

    /// The largest object that may be allocated, in bytes (Vulkan's `maxMemoryAllocationSize`).
    pub max_memory_allocation_size: u64,

    /// The unit of flushes and invalidates of non-coherent memory, in bytes (Vulkan's `nonCoherentAtomSize`). Their
    /// ranges begin at a multiple of it, and end at one or at the object's end.
    pub non_coherent_atom_size: u64,

    /// Whether memory may be allocated with [`AllocationFlags::DEVICE_ADDRESS`](crate::AllocationFlags) (Vulkan's
    /// `bufferDeviceAddress`).
    pub buffer_device_address: bool,
}

impl DeviceProperties<'_> {
    /// Whether an allocator can be built on these properties. There are at most 32 memory types (Vulkan's
    /// `VK_MAX_MEMORY_TYPES`) and fewer than 2^32 heaps. Each type is of a heap that exists. The atom is a power of two
    /// of at most 2^62 (the original crate's bound).
    pub fn is_usable(&self) -> bool
        ensures { IsTrue result ↔ IsUsable (properties_of self.now) }
    {
        if self.memory_types.len() > 32 || self.memory_heaps.len() as u64 >= 1 << 32 {
            return false;
        }
        let known = self
            .memory_types
            .iter()
            .all(|t| (t.heap as usize) < self.memory_heaps.len());
        if !known || self.non_coherent_atom_size > 1 << 62 {
            return false;
        }
        self.non_coherent_atom_size.is_power_of_two()
    }

    /// The mask of the memory types that have all of these flags: bit 0 for the type with index 0. A request can narrow
    /// its `memory_types` to them. Every type has all flags of an empty set. A type past the 32nd has no bit (Vulkan
    /// has no such type).
    pub fn types_with(&self, flags: MemoryPropertyFlags) -> u32
        ensures { (t : ℕ) → (bit_at result t ≡ 1) ↔ HasAllOf (properties_of self.now) (property_bits flags) t }
    {
        let mut mask = 0;
        for index in 0..self.memory_types.len().min(32) {
            if self.memory_types[index].props.contains(flags) {
                mask |= 1 << index;
            }
        }
        mask
    }
}
