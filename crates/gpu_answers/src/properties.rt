//! A copy of what a device offers.

ghost use Rattle.std.specs.Prelude.{◌≡◌, IfOk};
ghost use Rattle.gpu_alloc_types.specs.Properties.{properties_of};

use gpu_alloc_types::{DeviceProperties, MemoryHeap, MemoryType};
use std::alloc::{AllocError, Global};
use std::marker::Model;

/// What a device offers, in memory of its own. It is kept only for contracts: no call reads it.
#[derive(Drop)]
pub(crate) struct OwnedProperties {
    memory_types: Vec<MemoryType>,
    memory_heaps: Vec<MemoryHeap>,
    max_memory_allocation_count: u32,
    max_memory_allocation_size: u64,
    non_coherent_atom_size: u64,
    buffer_device_address: bool,
}

impl Model for OwnedProperties {
    ghost use Rattle.gpu_alloc_types.specs.Properties.{Properties};

    ghost Value = { Properties };

    ghost view = { λ own. record {
      memory_types = own.memory_types.items;
      memory_heaps = own.memory_heaps.items;
      max_memory_allocation_count = own.max_memory_allocation_count;
      max_memory_allocation_size = own.max_memory_allocation_size;
      non_coherent_atom_size = own.non_coherent_atom_size;
      buffer_device_address = own.buffer_device_address;
    } };
}

impl OwnedProperties {
    /// A copy of these properties.
    pub(crate) fn new(
        alloc: Global,
        props: DeviceProperties<'_>,
    ) -> Result<OwnedProperties, AllocError>
        ensures { IfOk result (λ own. own ≡ properties_of props.entry) }
    {
        Ok(OwnedProperties {
            memory_types: Vec::from_slice(alloc, props.memory_types)?,
            memory_heaps: Vec::from_slice(alloc, props.memory_heaps)?,
            max_memory_allocation_count: props.max_memory_allocation_count,
            max_memory_allocation_size: props.max_memory_allocation_size,
            non_coherent_atom_size: props.non_coherent_atom_size,
            buffer_device_address: props.buffer_device_address,
        })
    }
}
