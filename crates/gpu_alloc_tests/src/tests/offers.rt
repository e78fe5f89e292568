//! What a device offers.

ghost use Rattle.std.specs.Prelude.{◌≡◌};
ghost use Rattle.gpu_alloc_types.specs.Properties.{IsUsable, properties_of};

use super::same::holds;
use gpu_alloc::{DeviceProperties, MemoryHeap, MemoryPropertyFlags, MemoryType};
use std::process::Abort;

/// One heap of 1 MiB.
pub(super) const HEAPS: [MemoryHeap; 1] = [MemoryHeap { size: 1 << 20 }];

/// A memory type near to the device.
pub(super) const LOCAL: MemoryType = MemoryType {
    heap: 0,
    props: MemoryPropertyFlags::DEVICE_LOCAL,
};

/// A device with these types in one heap.
pub(super) fn offer<'a>(memory_types: &'a [MemoryType], atom: u64) -> DeviceProperties<'a>
    ensures types { (properties_of result).memory_types ≡ memory_types.now }
    ensures atom { (properties_of result).non_coherent_atom_size ≡ atom }
{
    DeviceProperties {
        memory_types,
        memory_heaps: &HEAPS,
        max_memory_allocation_count: 4096,
        max_memory_allocation_size: 1 << 30,
        non_coherent_atom_size: atom,
        buffer_device_address: false,
    }
}

/// A copy of these properties.
pub(super) fn again<'a>(props: &DeviceProperties<'a>) -> DeviceProperties<'a>
    ensures { properties_of result ≡ properties_of props.now }
{
    DeviceProperties {
        memory_types: props.memory_types,
        memory_heaps: props.memory_heaps,
        max_memory_allocation_count: props.max_memory_allocation_count,
        max_memory_allocation_size: props.max_memory_allocation_size,
        non_coherent_atom_size: props.non_coherent_atom_size,
        buffer_device_address: props.buffer_device_address,
    }
}

/// An allocator can be built on these properties.
pub(super) fn are_usable(rt: &impl Abort, props: &DeviceProperties<'_>)
    ensures { IsUsable (properties_of props.now) }
{
    holds(rt, props.is_usable(), "properties of no use");
}
