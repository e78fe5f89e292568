//! A copy of what a device offers.

ghost use Rattle.std.specs.Prelude.{◌≡◌, IfOk};
ghost use Rattle.gpu_alloc_types.specs.Properties.{properties_of, is_host_visible, is_coherent};

use gpu_alloc_types::{DeviceProperties, MemoryHeap, MemoryPropertyFlags, MemoryType};
use std::alloc::{AllocError, Allocator, Global};
use std::marker::Model;

/// What a device offers, in memory of its own.
#[derive(Drop)]
pub(super) struct OwnedProperties<A: Allocator + Copy = Global> {
    memory_types: Vec<MemoryType, A>,
    memory_heaps: Vec<MemoryHeap, A>,
    max_memory_allocation_count: u32,
    max_memory_allocation_size: u64,
    non_coherent_atom_size: u64,
    buffer_device_address: bool,
}

impl<A: Allocator + Copy> Model for OwnedProperties<A> {
    ghost use Rattle.gpu_alloc_types.specs.Properties.{Properties};

    ghost Value = { Properties };

    ghost view = { λ own. record {
      memory_types = own.memory_types.items;
      memory_heaps = own.memory_heaps.items;
      max_memory_allocation_count = own.max_memory_allocation_count;
      max_memory_allocation_size = own.max_memory_allocation_size;
      non_coherent_atom_size = own.non_coherent_atom_size;
      buffer_device_address = own.buffer_device_address;
    } };
}

impl<A: Allocator + Copy> OwnedProperties<A> {
    /// A copy of these properties.
    pub(super) fn new(
        alloc: A,
        props: DeviceProperties<'_>,
    ) -> Result<OwnedProperties<A>, AllocError>
        ensures { IfOk result (λ own. own ≡ properties_of props.entry) }
    {
        Ok(OwnedProperties {
            memory_types: Vec::from_slice(alloc, props.memory_types)?,
            memory_heaps: Vec::from_slice(alloc, props.memory_heaps)?,
            max_memory_allocation_count: props.max_memory_allocation_count,
            max_memory_allocation_size: props.max_memory_allocation_size,
            non_coherent_atom_size: props.non_coherent_atom_size,
            buffer_device_address: props.buffer_device_address,
        })
    }

    /// Whether memory of that type is host-visible. False where there is no such type.
    pub(super) fn is_host_visible(&self, memory_type: u32) -> bool
        ensures { result ≡ is_host_visible self.now memory_type }
    {
        match self.memory_types.get(memory_type as usize) {
            Some(found) => found.props.intersects(MemoryPropertyFlags::HOST_VISIBLE),
            None => false,
        }
    }

    /// Whether memory of that type is coherent. False where there is no such type.
    pub(super) fn is_coherent(&self, memory_type: u32) -> bool
        ensures { result ≡ is_coherent self.now memory_type }
    {
        match self.memory_types.get(memory_type as usize) {
            Some(found) => found.props.intersects(MemoryPropertyFlags::HOST_COHERENT),
            None => false,
        }
    }
}
