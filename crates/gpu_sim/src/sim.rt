//! The simulated device.

ghost use Rattle.std.specs.Prelude.{◌≡◌, ◌↔◌, true, false, length, IfOk, IsTrue, OnOk, OnErr, option_map};
ghost use Rattle.std.specs.FinMap as map;
ghost use Rattle.std.specs.Prelude.{map as list_map};
ghost use Rattle.gpu_alloc_types.specs.Device.{HeldWith, range_of};
ghost use Rattle.gpu_alloc_types.specs.Properties.{properties_of};
ghost use Rattle.gpu_sim.specs.Objects.{new_object};
ghost use Rattle.gpu_sim.specs.Question.{at, with_plan, CanRefuse};
ghost use Rattle.gpu_sim.specs.Sim.{as_numbers, as_range, fresh, latest, objects_of, CommandWrites, IsMade, IsWritable};

mod bytes;
mod memory;
mod numbered;
mod object;
mod properties;
mod question;

use bytes::{Direction, Part};
use gpu_alloc_types::{
    AllocationFlags, DeviceMapError, DeviceProperties, MappedMemoryRange, MemoryDevice,
    MemoryObject, OutOfMemory,
};
pub use memory::SimMemory;
use numbered::Numbered;
use object::{MappedRange, SimObject};
use properties::OwnedProperties;
use question::ByKind;
pub use question::{Cause, Question};
use std::alloc::{AllocError, Allocator, Global};
use std::marker::Model;

/// A device in host memory, which refuses what a test plans and grants everything else for which there is memory.
///
/// Its objects are named 1, 2, 3 and so on, and no name is used again. Sizes are never compared with heaps.
#[derive(Drop)]
pub struct Sim<A: Allocator + Copy = Global> {
    alloc: A,
    properties: OwnedProperties<A>,
    plans: ByKind<Numbered<Cause, A>>,
    asked: ByKind<u64>,
    last_allocation: Option<(u64, u32, AllocationFlags)>,
    last_range: Option<(u64, u64, u64)>,
    last_name: u64,
    objects: Numbered<SimObject<A>, A>,
}

impl<A: Allocator + Copy> Model for Sim<A> {
    ghost use Rattle.std.specs.Prelude.{option_map};
    ghost use Rattle.gpu_sim.specs.Sim.{SimState, as_numbers, as_range, IsSoundSim};
    ghost use Rattle.gpu_sim.specs.SimCode.{sim_code};

    ghost Value = { SimState };

    ghost coded = { sim_code };

    ghost view = { λ sim. record {
      properties = sim.properties;
      plans = sim.plans;
      asked = sim.asked;
      last_allocation = option_map as_numbers sim.last_allocation;
      last_range = option_map as_range sim.last_range;
      last_name = sim.last_name;
      objects = sim.objects;
    } };

    ghost invariant = { λ sim. IsSoundSim sim.last_name sim.properties sim.objects };
}

impl<A: Allocator + Copy> Sim<A> {
    /// A device that offers what `props` says. It holds no object, was asked nothing and has no refusal planned.
    ///
    /// It takes memory for a copy of `props`, and fails only for want of it.
    pub fn new(alloc: A, props: DeviceProperties<'_>) -> Result<Sim<A>, AllocError>
        ensures { IfOk result (λ sim. sim ≡ fresh (properties_of props.entry)) }
    {
        Ok(Sim {
            alloc,
            properties: OwnedProperties::new(alloc, props)?,
            plans: ByKind {
                allocate: Numbered::new(alloc),
                map: Numbered::new(alloc),
                flush: Numbered::new(alloc),
                invalidate: Numbered::new(alloc),
            },
            asked: ByKind {
                allocate: 0,
                map: 0,
                flush: 0,
                invalidate: 0,
            },
            last_allocation: None,
            last_range: None,
            last_name: 0,
            objects: Numbered::new(alloc),
        })
    }

    /// Plans that the `nth` question of a kind, counted from 1 since [`new`](Sim::new), is refused with this cause. Of
    /// two plans for one question the first counts. Question 0 never comes, so a plan for it refuses none. The count
    /// stops at `u64::MAX`: all later questions have this number, and a plan for it refuses them all.
    ///
    /// `Cause::Failed` is only for `Question::Map`. The call fails only for want of memory, and then nothing changes.
    pub fn refuse(&mut self, kind: Question, nth: u64, cause: Cause) -> Result<(), AllocError>
        requires { CanRefuse cause kind }
        ensures ok { OnOk result (self.new ≡ record self.old { plans = with_plan self.old.plans kind nth cause }) }
        ensures err { OnErr result (self.new ≡ self.old) }
    {
        self.plans.plan(kind, nth, cause)
    }

    /// How many objects it holds.
    pub fn objects(&self) -> usize
        ensures { result ≡ map.len self.now.objects }
    {
        self.objects.len()
    }

    /// How often a kind of question was asked since [`new`](Sim::new), refused or not. The count stops at `u64::MAX`.
    pub fn asked(&self, kind: Question) -> u64
        ensures { result ≡ at self.now.asked kind }
    {
        *self.asked.at(kind)
    }

    /// The size in bytes, the memory type and the flags of the latest question to allocate, refused or not.
    pub fn last_allocation(&self) -> Option<(u64, u32, AllocationFlags)>
        ensures { option_map as_numbers result ≡ self.now.last_allocation }
    {
        self.last_allocation
    }

    /// The object's name, the offset and the size in bytes of the latest range of a map, a flush or an invalidate,
    /// refused or not.
    ///
    /// Of a question with several ranges it is the last. A question without ranges does not change it.
    pub fn last_range(&self) -> Option<(u64, u64, u64)>
        ensures { option_map as_range result ≡ self.now.last_range }
    {
        self.last_range
    }

    /// Writes bytes into the object of that name from `offset` on, in bytes, as a command of the graphics device does:
    /// the device sees them, and in coherent memory the host does too. It does not count as a question, and allocates
    /// nothing.
    ///
    /// Returns `false` and changes nothing where no object of that name is held, where its memory is not host-visible,
    /// or where the bytes end past it. (Bytes in memory that is not host-visible are not kept.)
    pub fn gpu_write(&mut self, object: u64, offset: u64, data: &[u8]) -> bool
        ensures answer { IsTrue result
            ↔ HeldWith (objects_of self.old) object (IsWritable self.old.properties offset (length «data».now)) }
        ensures written { result ≡ true → CommandWrites self.old object offset «data».now self.new }
        ensures refused { result ≡ false → self.new ≡ self.old }
    {
        if !self.can_write(object, offset, data.len() as u64) {
            return false;
        }
        self.objects.write(&self.properties, object, offset, data);
        true
    }

    // Whether a command may write `size` bytes of the object of that name.
    fn can_write(&self, object: u64, offset: u64, size: u64) -> bool
        ensures { IsTrue result ↔ HeldWith (objects_of self.now) object (IsWritable self.now.properties offset size) }
    {
        let Some(held) = self.objects.get(object) else {
            return false;
        };
        if !self.properties.is_host_visible(held.memory_type()) {
            return false;
        }
        let length = held.size();
        offset <= length && size <= length - offset
    }

    // Makes an object under the next name. Where names are used up or memory is missing, nothing changes.
    fn make_object(&mut self, size: u64, memory_type: u32) -> Result<SimMemory<A>, AllocError>
        ensures ok { IfOk result
            (λ name. IsMade self.old name (new_object self.old.properties size memory_type) self.new) }
        ensures err { OnErr result (self.new ≡ self.old) }
    {
        if self.last_name == u64::MAX {
            return Err(AllocError);
        }
        let name = self.last_name + 1;
        let memory = SimMemory::new(self.alloc, name)?;
        let object = SimObject::new(self.alloc, &self.properties, size, memory_type)?;
        self.objects.insert(name, object)?;
        self.last_name = name;
        Ok(memory)
    }
}

impl<A: Allocator + Copy> MemoryDevice<SimMemory<A>> for Sim<A> {
    ghost use Rattle.gpu_sim.specs.Sim.{objects_of, SimStep};
    ghost use Rattle.gpu_sim.specs.SimLaws.{step_is_row, step_keeps_properties, objects_are_well_formed};

    ghost properties = { λ sim. sim.properties };

    ghost objects = { objects_of };

    ghost step = { SimStep };

    fn allocate_memory(
        &mut self,
        size: u64,
        memory_type: u32,
        flags: AllocationFlags,
    ) -> Result<SimMemory<A>, OutOfMemory> {
        self.asked.allocate = self.asked.allocate.saturating_add(1);
        self.last_allocation = Some((size, memory_type, flags));
        if let Some(cause) = self.plans.allocate.get(self.asked.allocate) {
            return Err(cause.out_of_memory());
        }
        match self.make_object(size, memory_type) {
            Ok(memory) => Ok(memory),
            Err(_) => Err(OutOfMemory::OutOfHostMemory),
        }
    }

    fn deallocate_memory(&mut self, memory: &SimMemory<A>) {
        self.objects.remove(memory.object());
    }

    fn map_memory(
        &mut self,
        memory: &SimMemory<A>,
        offset: u64,
        size: u64,
    ) -> Result<(), DeviceMapError> {
        self.asked.map = self.asked.map.saturating_add(1);
        self.last_range = Some((memory.object(), offset, size));
        if let Some(cause) = self.plans.map.get(self.asked.map) {
            return Err(cause.map_error());
        }
        let range = MappedRange { offset, size };
        self.objects.set_mapped(memory.object(), Some(range));
        Ok(())
    }

    fn unmap_memory(&mut self, memory: &SimMemory<A>) {
        self.objects.set_mapped(memory.object(), None);
    }

    fn flush_memory_ranges(
        &mut self,
        ranges: &[MappedMemoryRange<'_, SimMemory<A>>],
    ) -> Result<(), OutOfMemory> {
        self.asked.flush = self.asked.flush.saturating_add(1);
        note_last(&mut self.last_range, ranges);
        if let Some(cause) = self.plans.flush.get(self.asked.flush) {
            let refusal = cause.out_of_memory();
            self.objects
                .copy_each(ranges, Direction::ToDevice, Part::FirstHalf);
            return Err(refusal);
        }
        self.objects
            .copy_each(ranges, Direction::ToDevice, Part::Whole);
        Ok(())
    }

    fn invalidate_memory_ranges(
        &mut self,
        ranges: &[MappedMemoryRange<'_, SimMemory<A>>],
    ) -> Result<(), OutOfMemory> {
        self.asked.invalidate = self.asked.invalidate.saturating_add(1);
        note_last(&mut self.last_range, ranges);
        if let Some(cause) = self.plans.invalidate.get(self.asked.invalidate) {
            let refusal = cause.out_of_memory();
            self.objects
                .copy_each(ranges, Direction::ToHost, Part::FirstHalf);
            return Err(refusal);
        }
        self.objects
            .copy_each(ranges, Direction::ToHost, Part::Whole);
        Ok(())
    }

    fn put_bytes(&mut self, memory: &SimMemory<A>, offset: u64, bytes: &[u8]) {
        self.objects
            .put(&self.properties, memory.object(), offset, bytes);
    }

    fn get_bytes(&mut self, memory: &SimMemory<A>, offset: u64, bytes: &mut [u8]) {
        self.objects.read(memory.object(), offset, bytes);
    }

    ghost row = { step_is_row };

    ghost keeps_properties = { step_keeps_properties };

    ghost well_formed = { objects_are_well_formed };
}

// Notes the last of some ranges. Without ranges the earlier one stays.
fn note_last<A: Allocator + Copy>(
    told: &mut Option<(u64, u64, u64)>,
    ranges: &[MappedMemoryRange<'_, SimMemory<A>>],
)
    ensures { option_map as_range told.new
        ≡ latest (option_map as_range told.old) (list_map (range_of (λ memory. memory)) ranges.now) }
{
    if let Some(range) = ranges.last() {
        *told = Some((range.memory.object(), range.offset, range.size));
    }
}
