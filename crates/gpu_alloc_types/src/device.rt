//! A device that holds memory objects, and the handles of its objects.

ghost use Rattle.std.specs.Prelude.{◌≡◌, ℕ, Option, IfOk, IfSome, length, map};
ghost use Rattle.std.specs.Result.{result_map_both};
ghost use Rattle.gpu_alloc_types.specs.Flags.{allocation_bits};
ghost use Rattle.gpu_alloc_types.specs.Properties.{Properties};
ghost use Rattle.gpu_alloc_types.specs.Device.{Object, Event, Row, IsWellFormed, IsAllocatable, IsHeld, HeldWith};
ghost use Rattle.gpu_alloc_types.specs.Device.{IsMappable, IsMapped, IsInMapped, AreFlushable, range_of};
ghost use Rattle.gpu_alloc_types.specs.Device.Event.{Allocated, Deallocated, Mapped, Unmapped, Flushed, Invalidated};
ghost use Rattle.gpu_alloc_types.specs.Device.Event.{BytesPut, BytesGot};

use crate::{AllocationFlags, DeviceMapError, MappedMemoryRange, OutOfMemory};
use std::alloc::AllocError;

/// A handle of a memory object. An object may have several. Dropping a handle does not reach the device.
pub trait MemoryObject: Drop {
    /// The name of the handle's object.
    ghost object: { Self → ℕ };

    /// The name of the handle's object, by which its device holds it.
    fn object(&self) -> u64
        ensures { result ≡ object self.now };

    /// Another handle of the same object. The device is not called. It fails only where host memory runs out, and then
    /// nothing has changed.
    fn duplicate(&self) -> Result<Self, AllocError>
        ensures { IfOk result (λ other. object other ≡ object self.now) };
}

/// A device, seen through the memory objects that it holds.
///
/// Any call that can fail may be refused each time it is made. What a call does is its step, a relation that each
/// device defines for itself. On every device, a step does what `Row` says and nothing else.
pub trait MemoryDevice<M: MemoryObject> {
    /// What the device offers.
    ghost properties: { Self → Properties };

    /// The objects that it holds, by name.
    ghost objects: { Self → ℕ → Option Object };

    /// Whether a call with these arguments and this answer may lead from the first state to the second.
    ghost step: { Self → Event → Self → Type 0 };

    /// Allocates an object of `size` bytes of a memory type (Vulkan's `vkAllocateMemory`), or reports why not. After a
    /// refusal no object has changed.
    ///
    /// A new object has a name that no held object has. It is unmapped, and the values of its bytes are unspecified.
    /// The size must be at least 1 and the memory type must exist. `DEVICE_ADDRESS` may be set only where the device
    /// has the feature.
    fn allocate_memory(
        &mut self,
        size: u64,
        memory_type: u32,
        flags: AllocationFlags,
    ) -> Result<M, OutOfMemory>
        requires { IsAllocatable (properties self.old) size memory_type (allocation_bits flags) }
        ensures { step self.old
            (Allocated size memory_type (allocation_bits flags) (result_map_both M.object (λ e. e) result)) self.new };

    /// Releases an object, mapped or not (Vulkan's `vkFreeMemory`). It cannot fail. The device must hold an object of
    /// the handle's name.
    fn deallocate_memory(&mut self, memory: &M)
        requires { IsHeld (objects self.old) (M.object memory.now) }
        ensures { step self.old (Deallocated (M.object memory.now)) self.new };

    /// Maps `size` bytes of an object from `offset` on for the host (Vulkan's `vkMapMemory`), or reports why not. After
    /// a refusal no object has changed.
    ///
    /// The object's mapped range becomes that range; nothing else about it changes. The device must hold an object of
    /// the handle's name, host-visible and unmapped. The range must be at least 1 byte and lie inside the object. A
    /// refusal is for want of device memory, for want of host memory, or `MapFailed` for a reason of the device's own.
    fn map_memory(&mut self, memory: &M, offset: u64, size: u64) -> Result<(), DeviceMapError>
        requires { HeldWith (objects self.old) (M.object memory.now) (IsMappable (properties self.old) offset size) }
        ensures { step self.old (Mapped (record { object = M.object memory.now; offset = offset; size = size }) result)
            self.new };

    /// Unmaps an object (Vulkan's `vkUnmapMemory`). It cannot fail, and no byte changes. The device must hold an object
    /// of the handle's name, with a mapped range.
    fn unmap_memory(&mut self, memory: &M)
        requires { HeldWith (objects self.old) (M.object memory.now) IsMapped }
        ensures { step self.old (Unmapped (M.object memory.now)) self.new };

    /// Makes the host's writes to some ranges visible to the device (Vulkan's `vkFlushMappedMemoryRanges`): the host's
    /// bytes of each range become the device's. After a refusal, each of the device's bytes there is its old value or
    /// the host's, and nothing else has changed.
    ///
    /// Each range must be at least 1 byte and lie in its object's mapped range. It must begin at a multiple of the
    /// atom, and end at one or at the object's end (the Vulkan specification's rule on `VkMappedMemoryRange`). The atom
    /// is `non_coherent_atom_size` for host-visible memory that is not coherent, and 1 byte otherwise. The list of
    /// ranges may be empty.
    fn flush_memory_ranges(
        &mut self,
        ranges: &[MappedMemoryRange<'_, M>],
    ) -> Result<(), OutOfMemory>
        requires { AreFlushable (properties self.old) (objects self.old) (map (range_of M.object) ranges.now) }
        ensures { step self.old (Flushed (map (range_of M.object) ranges.now) result) self.new };

    /// Makes the device's writes to some ranges visible to the host (Vulkan's `vkInvalidateMappedMemoryRanges`): the
    /// device's bytes of each range become the host's. After a refusal, each of the host's bytes there is its old value
    /// or the device's, and nothing else has changed.
    ///
    /// The conditions are those of [`flush_memory_ranges`](MemoryDevice::flush_memory_ranges).
    fn invalidate_memory_ranges(
        &mut self,
        ranges: &[MappedMemoryRange<'_, M>],
    ) -> Result<(), OutOfMemory>
        requires { AreFlushable (properties self.old) (objects self.old) (map (range_of M.object) ranges.now) }
        ensures { step self.old (Invalidated (map (range_of M.object) ranges.now) result) self.new };

    /// Writes bytes to an object from `offset` on, as the host sees them. In coherent memory the device sees them too.
    /// It cannot fail. The device must hold an object of the handle's name. There must be at least 1 byte, and all must
    /// lie in the object's mapped range. (The original crate writes through a pointer.)
    fn put_bytes(&mut self, memory: &M, offset: u64, bytes: &[u8])
        requires { HeldWith (objects self.old) (M.object memory.now) (IsInMapped offset (length bytes.now)) }
        ensures { step self.old (BytesPut (M.object memory.now) offset bytes.now) self.new };

    /// Reads bytes of an object from `offset` on, as the host sees them. It cannot fail, and no object changes. The
    /// conditions are those of [`put_bytes`](MemoryDevice::put_bytes). (The original crate reads through a pointer.)
    fn get_bytes(&mut self, memory: &M, offset: u64, bytes: &mut [u8])
        requires { HeldWith (objects self.old) (M.object memory.now) (IsInMapped offset (length bytes.old)) }
        ensures { step self.old (BytesGot (M.object memory.now) offset bytes.new) self.new };

    /// A step does what its row says and nothing else.
    ghost row: { (old : Self) (e : Event) (new : Self) → step old e new → Row (properties old) (objects old) e
        (objects new) };

    /// No call changes what the device offers.
    ghost keeps_properties: { (old : Self) (e : Event) (new : Self) → step old e new
        → properties new ≡ properties old };

    /// Each object has the bytes that its type and size call for, the same to host and device where it is coherent. Its
    /// mapped range lies inside it.
    ghost well_formed: { (device : Self) (name : ℕ) → IfSome (objects device name) (IsWellFormed (properties device)) };
}

/// A [`MemoryDevice`] without its bytes: the calls but `put_bytes` and `get_bytes`, with the same contracts and laws.
///
/// Code that moves no byte needs only this. Every `MemoryDevice` is one, and a device that keeps no bytes of its
/// objects can be one too.
pub trait ObjectDevice<M: MemoryObject> {
    /// What the device offers.
    ghost properties: { Self → Properties };

    /// The objects that it holds, by name.
    ghost objects: { Self → ℕ → Option Object };

    /// Whether a call with these arguments and this answer may lead from the first state to the second.
    ghost step: { Self → Event → Self → Type 0 };

    /// Allocates an object; see [`MemoryDevice::allocate_memory`].
    fn allocate_memory(
        &mut self,
        size: u64,
        memory_type: u32,
        flags: AllocationFlags,
    ) -> Result<M, OutOfMemory>
        requires { IsAllocatable (properties self.old) size memory_type (allocation_bits flags) }
        ensures { step self.old
            (Allocated size memory_type (allocation_bits flags) (result_map_both M.object (λ e. e) result)) self.new };

    /// Releases an object; see [`MemoryDevice::deallocate_memory`].
    fn deallocate_memory(&mut self, memory: &M)
        requires { IsHeld (objects self.old) (M.object memory.now) }
        ensures { step self.old (Deallocated (M.object memory.now)) self.new };

    /// Maps a range of an object; see [`MemoryDevice::map_memory`].
    fn map_memory(&mut self, memory: &M, offset: u64, size: u64) -> Result<(), DeviceMapError>
        requires { HeldWith (objects self.old) (M.object memory.now) (IsMappable (properties self.old) offset size) }
        ensures { step self.old (Mapped (record { object = M.object memory.now; offset = offset; size = size }) result)
            self.new };

    /// Unmaps an object; see [`MemoryDevice::unmap_memory`].
    fn unmap_memory(&mut self, memory: &M)
        requires { HeldWith (objects self.old) (M.object memory.now) IsMapped }
        ensures { step self.old (Unmapped (M.object memory.now)) self.new };

    /// Makes the host's writes visible to the device; see [`MemoryDevice::flush_memory_ranges`].
    fn flush_memory_ranges(
        &mut self,
        ranges: &[MappedMemoryRange<'_, M>],
    ) -> Result<(), OutOfMemory>
        requires { AreFlushable (properties self.old) (objects self.old) (map (range_of M.object) ranges.now) }
        ensures { step self.old (Flushed (map (range_of M.object) ranges.now) result) self.new };

    /// Makes the device's writes visible to the host; see [`MemoryDevice::invalidate_memory_ranges`].
    fn invalidate_memory_ranges(
        &mut self,
        ranges: &[MappedMemoryRange<'_, M>],
    ) -> Result<(), OutOfMemory>
        requires { AreFlushable (properties self.old) (objects self.old) (map (range_of M.object) ranges.now) }
        ensures { step self.old (Invalidated (map (range_of M.object) ranges.now) result) self.new };

    /// A step does what its row says and nothing else.
    ghost row: { (old : Self) (e : Event) (new : Self) → step old e new → Row (properties old) (objects old) e
        (objects new) };

    /// No call changes what the device offers.
    ghost keeps_properties: { (old : Self) (e : Event) (new : Self) → step old e new
        → properties new ≡ properties old };

    /// Each object has the bytes that its type and size call for, the same to host and device where it is coherent. Its
    /// mapped range lies inside it.
    ghost well_formed: { (device : Self) (name : ℕ) → IfSome (objects device name) (IsWellFormed (properties device)) };
}

impl<M: MemoryObject, D: MemoryDevice<M>> ObjectDevice<M> for D {
    ghost properties = { D.properties };

    ghost objects = { D.objects };

    ghost step = { D.step };

    ghost row = { D.MemoryDevice.row };

    ghost keeps_properties = { D.keeps_properties };

    ghost well_formed = { D.well_formed };

    fn allocate_memory(
        &mut self,
        size: u64,
        memory_type: u32,
        flags: AllocationFlags,
    ) -> Result<M, OutOfMemory> {
        MemoryDevice::allocate_memory(self, size, memory_type, flags)
    }

    fn deallocate_memory(&mut self, memory: &M) {
        MemoryDevice::deallocate_memory(self, memory)
    }

    fn map_memory(&mut self, memory: &M, offset: u64, size: u64) -> Result<(), DeviceMapError> {
        MemoryDevice::map_memory(self, memory, offset, size)
    }

    fn unmap_memory(&mut self, memory: &M) {
        MemoryDevice::unmap_memory(self, memory)
    }

    fn flush_memory_ranges(
        &mut self,
        ranges: &[MappedMemoryRange<'_, M>],
    ) -> Result<(), OutOfMemory> {
        MemoryDevice::flush_memory_ranges(self, ranges)
    }

    fn invalidate_memory_ranges(
        &mut self,
        ranges: &[MappedMemoryRange<'_, M>],
    ) -> Result<(), OutOfMemory> {
        MemoryDevice::invalidate_memory_ranges(self, ranges)
    }
}
