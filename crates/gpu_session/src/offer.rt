//! What a session keeps of its device's offer, for the conditions of commands.

ghost use Rattle.std.specs.Prelude.{◌≡◌, ◌<◌, length, nat_lt, IfOk};
ghost use Rattle.gpu_alloc_types.specs.Flags.{allocation_bits, property_bits};
ghost use Rattle.gpu_alloc_types.specs.Properties.{IsUsable, Properties, properties_of, props_at};
ghost use Rattle.gpu_alloc.specs.NewChunk.{flags_of};

use gpu_alloc::{AllocationFlags, DeviceProperties, MemoryPropertyFlags, MemoryType};
use std::alloc::{AllocError, Allocator};

/// What a session keeps of its device's offer. Other owners of live blocks and an allocator may keep it too.
#[derive(Drop)]
pub struct Offer<A: Allocator> {
    /// The memory types.
    pub memory_types: Vec<MemoryType, A>,

    /// How many heaps there are.
    pub heaps: u32,

    /// The unit of a flush, in bytes.
    pub non_coherent_atom_size: u64,

    /// Whether the device has the feature `bufferDeviceAddress`.
    pub buffer_device_address: bool,

    ghost some_atom: { 0 < non_coherent_atom_size },
}

impl<A: Allocator> Offer<A> {
    ghost use Rattle.gpu_session.specs.Faults.{is_bad_end, fault_of_request};
    ghost use Rattle.gpu_session.specs.Offer.{IsOffer};

    /// What a session must know of these properties, which must be usable. The only error is want of memory.
    pub fn of(alloc: A, props: &DeviceProperties<'_>) -> Result<Self, AllocError>
        requires { IsUsable (properties_of props.now) }
        ensures { IfOk result (IsOffer (properties_of props.now)) }
    {
        Ok(Offer {
            memory_types: Vec::from_slice(alloc, props.memory_types)?,
            heaps: props.memory_heaps.len() as u32,
            non_coherent_atom_size: props.non_coherent_atom_size,
            buffer_device_address: props.buffer_device_address,
        })
    }

    /// Whether there is such a memory type.
    pub fn has_type(&self, memory_type: u32) -> bool
        ensures { (p : Properties) → IsOffer p self.now → result ≡ nat_lt memory_type (length p.memory_types) }
    {
        (memory_type as usize) < self.memory_types.len()
    }

    /// The properties of a memory type, empty where there is no such type.
    pub fn props(&self, memory_type: u32) -> MemoryPropertyFlags
        ensures { (p : Properties) → IsOffer p self.now → property_bits result ≡ props_at p memory_type }
    {
        match self.memory_types.get(memory_type as usize) {
            Some(found) => found.props,
            None => MemoryPropertyFlags::empty(),
        }
    }

    /// The flags of every question to the device.
    pub fn flags(&self) -> AllocationFlags
        ensures { (p : Properties) → IsOffer p self.now → allocation_bits result ≡ flags_of p }
    {
        AllocationFlags::by_feature(self.buffer_device_address)
    }

    /// Whether an import of this memory type may not end at `end`: where the type must be flushed, it must end on the
    /// atom or at its object's end.
    pub fn is_bad_end(&self, memory_type: u32, object_size: u64, end: u64) -> bool
        ensures { (p : Properties) → IsOffer p self.now → result ≡ is_bad_end p memory_type object_size end }
    {
        let props = self.props(memory_type);
        props.is_non_coherent() && end % self.non_coherent_atom_size != 0 && end != object_size
    }
}
