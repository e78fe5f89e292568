//! Objects of the simulated device.

ghost use Rattle.std.specs.Prelude.{◌≡◌, length, take, drop, map, All, IfOk, option_map};
ghost use Rattle.std.specs.FinMap as finite;
ghost use Rattle.gpu_alloc_types.specs.Device.{HeldWith, range_of};
ghost use Rattle.gpu_sim.specs.Objects.{ChangesAt, CopiesEach, HasBytes, HasRange, offset_and_size, new_object};
ghost use Rattle.gpu_sim.specs.Objects.{mapped_as, copied, put_by_host, put_by_device};
ghost use Rattle.gpu_sim.specs.Bytes.{size_of_part};

use crate::sim::bytes::{Direction, Part, copy_range, filled, first_byte, read_bytes, write_bytes};
use crate::sim::memory::SimMemory;
use crate::sim::numbered::Numbered;
use crate::sim::properties::OwnedProperties;
use gpu_alloc_types::{MappedMemoryRange, MemoryObject};
use std::alloc::{AllocError, Allocator, Global};
use std::marker::Model;

/// A held object, in the form in which every device shows its objects to contracts.
///
/// In host-visible memory the host and the device see a list of bytes each. In other memory both lists are empty and
/// take no memory, however long the object is.
#[derive(Drop)]
pub(super) struct SimObject<A: Allocator + Copy = Global> {
    memory_type: u32,
    size: u64,
    mapped: Option<MappedRange>,
    host: Vec<u8, A>,
    device: Vec<u8, A>,
}

/// The mapped bytes of an object.
#[derive(Clone, Copy, Debug, PartialEq, Eq)]
pub(super) struct MappedRange {
    pub(super) offset: u64,
    pub(super) size: u64,
}

impl<A: Allocator + Copy> Model for SimObject<A> {
    ghost use Rattle.std.specs.Prelude.{option_map};
    ghost use Rattle.gpu_alloc_types.specs.Device.{Object};
    ghost use Rattle.gpu_sim.specs.ObjectCode.{object_code};
    ghost use Rattle.gpu_sim.specs.Objects.{offset_and_size};

    ghost Value = { Object };

    ghost coded = { object_code };

    ghost view = { λ object. record {
      memory_type = object.memory_type;
      size = object.size;
      mapped = option_map offset_and_size object.mapped;
      host_bytes = object.host.items;
      device_bytes = object.device.items;
    } };
}

impl<A: Allocator + Copy> SimObject<A> {
    /// A new object of `size` bytes of a memory type. Fails for want of memory for its bytes.
    pub(super) fn new(
        alloc: A,
        properties: &OwnedProperties<A>,
        size: u64,
        memory_type: u32,
    ) -> Result<SimObject<A>, AllocError>
        ensures { IfOk result (λ object. object ≡ new_object properties.now size memory_type) }
    {
        if !properties.is_host_visible(memory_type) {
            return Ok(SimObject {
                memory_type,
                size,
                mapped: None,
                host: Vec::new(alloc),
                device: Vec::new(alloc),
            });
        }
        let byte = first_byte(properties.is_coherent(memory_type));
        Ok(SimObject {
            memory_type,
            size,
            mapped: None,
            host: filled(alloc, size, byte)?,
            device: filled(alloc, size, 0)?,
        })
    }

    /// Its memory type.
    pub(super) fn memory_type(&self) -> u32
        ensures { result ≡ self.now.memory_type }
    {
        self.memory_type
    }

    /// Its size, in bytes.
    pub(super) fn size(&self) -> u64
        ensures { result ≡ self.now.size }
    {
        self.size
    }

    /// Sets its mapped range, or none.
    fn set_mapped(&mut self, mapped: Option<MappedRange>)
        ensures { self.new ≡ mapped_as (option_map offset_and_size mapped) self.old }
    {
        self.mapped = mapped;
    }

    /// Copies the bytes of a range.
    fn copy(&mut self, way: Direction, offset: u64, size: u64)
        requires { HasRange offset size self.old }
        ensures { self.new ≡ copied way offset size self.old }
    {
        match way {
            Direction::ToDevice => copy_range(&mut self.device, &self.host, offset, size),
            Direction::ToHost => copy_range(&mut self.host, &self.device, offset, size),
        }
    }

    /// Writes bytes as the host does.
    fn put(&mut self, properties: &OwnedProperties<A>, offset: u64, bytes: &[u8])
        requires { HasRange offset (length bytes.now) self.old }
        ensures { self.new ≡ put_by_host properties.now offset bytes.now self.old }
    {
        write_bytes(&mut self.host, offset, bytes);
        if !properties.is_coherent(self.memory_type) {
            return;
        }
        write_bytes(&mut self.device, offset, bytes);
    }

    /// Writes bytes as the device does.
    fn write(&mut self, properties: &OwnedProperties<A>, offset: u64, data: &[u8])
        requires { HasRange offset (length «data».now) self.old }
        ensures { self.new ≡ put_by_device properties.now offset «data».now self.old }
    {
        write_bytes(&mut self.device, offset, data);
        if !properties.is_coherent(self.memory_type) {
            return;
        }
        write_bytes(&mut self.host, offset, data);
    }

    /// Reads bytes as the host sees them.
    fn read(&self, offset: u64, bytes: &mut [u8])
        requires { HasRange offset (length bytes.old) self.now }
        ensures { bytes.new ≡ take (length bytes.old) (drop offset self.now.host_bytes) }
    {
        read_bytes(bytes, &self.host, offset);
    }
}

impl<A: Allocator + Copy> Numbered<SimObject<A>, A> {
    /// Sets the mapped range of the object of that name, or none.
    pub(super) fn set_mapped(&mut self, name: u64, mapped: Option<MappedRange>)
        requires { HeldWith (finite.get self.old) name (HasBytes (option_map offset_and_size mapped)) }
        ensures { let range = option_map offset_and_size mapped in
            ChangesAt (HasBytes range) (mapped_as range) self.old name self.new }
    {
        if let Some(object) = self.get_mut(name) {
            object.set_mapped(mapped);
        }
    }

    /// Copies a part of each range in turn.
    pub(super) fn copy_each(
        &mut self,
        ranges: &[MappedMemoryRange<'_, SimMemory<A>>],
        way: Direction,
        part: Part,
    )
        requires { All (λ r. HeldWith (finite.get self.old) r.object (HasRange r.offset r.size))
            (map (range_of (λ memory. memory)) ranges.now) }
        ensures { CopiesEach way part (map (range_of (λ memory. memory)) ranges.now) self.old self.new }
    {
        for range in ranges {
            let size = part.of(range.size);
            self.copy_one(range.memory.object(), way, range.offset, size);
        }
    }

    /// Copies the bytes of a range of the object of that name.
    fn copy_one(&mut self, name: u64, way: Direction, offset: u64, size: u64)
        requires { HeldWith (finite.get self.old) name (HasRange offset size) }
        ensures { ChangesAt (HasRange offset size) (copied way offset size) self.old name self.new }
    {
        if let Some(object) = self.get_mut(name) {
            object.copy(way, offset, size);
        }
    }

    /// Writes bytes into the object of that name as the host does.
    pub(super) fn put(
        &mut self,
        properties: &OwnedProperties<A>,
        name: u64,
        offset: u64,
        bytes: &[u8],
    )
        requires { HeldWith (finite.get self.old) name (HasRange offset (length bytes.now)) }
        ensures { ChangesAt (HasRange offset (length bytes.now)) (put_by_host properties.now offset bytes.now)
            self.old name self.new }
    {
        if let Some(object) = self.get_mut(name) {
            object.put(properties, offset, bytes);
        }
    }

    /// Writes bytes into the object of that name as the device does.
    pub(super) fn write(
        &mut self,
        properties: &OwnedProperties<A>,
        name: u64,
        offset: u64,
        bytes: &[u8],
    )
        requires { HeldWith (finite.get self.old) name (HasRange offset (length bytes.now)) }
        ensures { ChangesAt (HasRange offset (length bytes.now)) (put_by_device properties.now offset bytes.now)
            self.old name self.new }
    {
        if let Some(object) = self.get_mut(name) {
            object.write(properties, offset, bytes);
        }
    }

    /// Reads bytes of the object of that name as the host sees them.
    pub(super) fn read(&self, name: u64, offset: u64, bytes: &mut [u8])
        requires { HeldWith (finite.get self.now) name (HasRange offset (length bytes.old)) }
        ensures { HeldWith (finite.get self.now) name
            (λ object. bytes.new ≡ take (length bytes.old) (drop offset object.host_bytes)) }
    {
        if let Some(object) = self.get(name) {
            object.read(offset, bytes);
        }
    }
}
