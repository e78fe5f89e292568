//! What an allocator was given and keeps.

ghost use Rattle.std.specs.Prelude.{◌≡◌, ◌<◌, length, cond, slice_get};
ghost use Rattle.gpu_alloc_types.specs.Flags.{allocation_bits, property_bits, with_device_address};
ghost use Rattle.gpu_alloc_types.specs.Properties.{heap_of, bits_of};
ghost use Rattle.gpu_alloc_base.specs.Sizes.{atom_where};
ghost use Rattle.gpu_alloc_usage.specs.Ranking.{IsTable};

use gpu_alloc_base::Config;
use gpu_alloc_block::Sharing;
use gpu_alloc_types::{AllocationFlags, MemoryPropertyFlags, MemoryType};
use gpu_alloc_usage::MemoryForUsage;
use std::alloc::{Allocator, Global};

/// What stays as it was given to `new`.
#[derive(Drop)]
pub(crate) struct Limits<A: Allocator = Global> {
    pub(crate) config: Config,
    pub(crate) sharing: Sharing,
    pub(crate) memory_types: Vec<MemoryType, A>,
    pub(crate) memory_for_usage: MemoryForUsage,
    pub(crate) max_memory_allocation_count: u32,
    pub(crate) max_memory_allocation_size: u64,
    pub(crate) non_coherent_atom_size: u64,
    pub(crate) buffer_device_address: bool,
    ghost ranked: { IsTable memory_types.items memory_for_usage },
}

impl<A: Allocator> Limits<A> {
    /// The index of a memory type's heap.
    #[inline(always)]
    pub(crate) fn heap_index(&self, memory_type: u32) -> usize
        requires { memory_type < length self.now.memory_types.items }
        ensures { result ≡ heap_of (slice_get self.now.memory_types.items memory_type) }
    {
        self.memory_types[memory_type as usize].heap as usize
    }

    /// The properties of a memory type.
    #[inline(always)]
    pub(crate) fn props(&self, memory_type: u32) -> MemoryPropertyFlags
        requires { memory_type < length self.now.memory_types.items }
        ensures { property_bits result ≡ bits_of (slice_get self.now.memory_types.items memory_type) }
    {
        self.memory_types[memory_type as usize].props
    }

    /// The flags of every question to the device.
    #[inline(always)]
    pub(crate) fn flags(&self) -> AllocationFlags
        ensures { allocation_bits result ≡ cond self.now.buffer_device_address with_device_address 0 }
    {
        AllocationFlags::by_feature(self.buffer_device_address)
    }

    /// The atom of a memory type, in bytes.
    #[inline(always)]
    pub(crate) fn atom(&self, memory_type: u32) -> u64
        requires { memory_type < length self.now.memory_types.items }
        ensures { result ≡ atom_where self.now.non_coherent_atom_size
            (bits_of (slice_get self.now.memory_types.items memory_type)) }
    {
        atom_of(self.props(memory_type), self.non_coherent_atom_size)
    }
}

/// The atom of a memory type with these properties, in bytes: the device's where the host's writes must be flushed, and
/// one byte otherwise.
pub(crate) fn atom_of(props: MemoryPropertyFlags, non_coherent_atom_size: u64) -> u64
    ensures { result ≡ atom_where non_coherent_atom_size (property_bits props) }
{
    if props.is_non_coherent() {
        non_coherent_atom_size
    } else {
        1
    }
}

/// The smallest grain of fit chunks, in bytes. The grain is the atom where that is larger.
pub(crate) const LEAST_GRAIN: u64 = 256;
