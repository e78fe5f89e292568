//! The device that is asked from outside.

ghost use Rattle.std.specs.Prelude.{◌≡◌, ◌↔◌, [], ◌∷◌, ◌++◌, take, None, Some, IfOk, IfSome, IsTrue, OnOk, OnErr};
ghost use Rattle.gpu_alloc_types.specs.Properties.{properties_of};
ghost use Rattle.gpu_answers.specs.Asking.{begun, open_in};
ghost use Rattle.gpu_answers.specs.Device.{IsFreshDevice};
ghost use Rattle.gpu_answers.specs.Held.{AreNamed, IsSpent};
ghost use Rattle.gpu_answers.specs.declared.run.Stop.TheVariants.{Strayed};

use crate::held::HeldObjects;
use crate::properties::OwnedProperties;
use crate::question::{allocation_refused, map_refused};
use crate::run::Run;
use crate::{Answer, Answered, ObjectName, Question};
use gpu_alloc_types::{
    AllocationFlags, DeviceMapError, DeviceProperties, MappedMemoryRange, MemoryObject,
    ObjectDevice, OutOfMemory,
};
use std::alloc::{AllocError, Global};
use std::marker::Model;

/// A device that is asked from outside, for a caller that can't be called back.
///
/// Its questions are answered from a list. A call of the allocator is a run: it begins with the answers that are known
/// so far. The first question without an answer is refused, and [`open`](AnsweredDevice::open) returns it. The caller
/// asks the real device, and runs the call again with one more answer. Each answer names its question, so an answer to
/// another call is never used, and [`has_strayed`](AnsweredDevice::has_strayed) reports it.
///
/// Objects are named 1, 2, 3 and so on, and no name is used again. No bytes of an object are kept. So flushes and
/// invalidates are not questions: both are granted at once and change nothing, as in memory whose bytes are all 0. (The
/// caller flushes and invalidates the real device's memory.) Calls that cannot fail are not questions either:
/// [`gone`](AnsweredDevice::gone) reports the objects that were released.
#[derive(Drop)]
pub struct AnsweredDevice {
    properties: OwnedProperties,
    run: Run,
    held: HeldObjects,
}

impl Model for AnsweredDevice {
    ghost use Rattle.gpu_answers.specs.DeviceState.{DeviceState, device_code};

    ghost Value = { DeviceState };

    ghost coded = { device_code };

    ghost view = { λ device. record { properties = device.properties; run = device.run; held = device.held } };
}

impl AnsweredDevice {
    /// A device that offers what `props` says and holds no object, in a run without answers.
    ///
    /// It takes memory for a copy of `props`, and fails only for want of it.
    pub fn new(alloc: Global, props: DeviceProperties<'_>) -> Result<AnsweredDevice, AllocError>
        ensures { IfOk result (λ device. IsFreshDevice (properties_of props.entry) device) }
    {
        Ok(AnsweredDevice {
            properties: OwnedProperties::new(alloc, props)?,
            run: Run::new(alloc),
            held: HeldObjects::new(alloc),
        })
    }

    /// A lemma about the names of objects: does nothing at run time. Each name that was released and not taken is at
    /// most the latest, belongs to no held object, and occurs once.
    pub fn keeps_names(&self)
        ensures { AreNamed self.now.held }
    {
        self.held.keeps_names();
    }

    /// Begins a run with these answers, in the order in which their questions are asked. The answers of the run before
    /// are forgotten. The objects and the next name are unchanged, and so are the names that were released and not
    /// taken.
    ///
    /// It takes memory for a copy of the answers. It fails only for want of it, and then nothing changes.
    pub fn begin(&mut self, answers: &[Answered]) -> Result<(), AllocError>
        ensures run { OnOk result (self.new.run ≡ begun answers.now) }
        ensures offers { self.new.properties ≡ self.old.properties }
        ensures held { self.new.held ≡ self.old.held }
        ensures err { OnErr result (self.new ≡ self.old) }
    {
        self.run.begin(answers)
    }

    /// The question that has no answer yet: the first one of the run after the last answer, if there was one. It was
    /// refused with `OutOfHostMemory`, and so was each later one.
    pub fn open(&self) -> Option<Question>
        ensures { result ≡ open_in self.now.run.stop }
    {
        self.run.open()
    }

    /// Whether a question of the run isn't the one that the answer in its place belongs to. That question and each
    /// later one were refused with `OutOfHostMemory`.
    pub fn has_strayed(&self) -> bool
        ensures { IsTrue result ↔ (self.now.run.stop ≡ Some Strayed) }
    {
        self.run.has_strayed()
    }

    /// The name of the object that the run made last, held or released since.
    pub fn made(&self) -> Option<u64>
        ensures { result ≡ self.now.run.made }
    {
        self.run.made()
    }

    /// The names of the objects that were released and not taken, in that order. None is left out: the room for a name
    /// is made when its object is made.
    ///
    /// A run that ends with an open question releases what it made. The real object stays, since the next run makes it
    /// again: [`forget_gone_after`](AnsweredDevice::forget_gone_after) drops such names.
    pub fn gone(&self) -> &[u64]
        ensures { result.now ≡ self.now.held.gone }
    {
        self.held.gone()
    }

    /// Takes the name that was released last, or returns `None` where none is left. It is taken once: it never waits
    /// again, and no later object has it. Nothing else changes.
    pub fn take_gone(&mut self) -> Option<u64>
        ensures taken { IfSome result (λ name. self.old.held.gone ≡ self.new.held.gone ++ name ∷ []) }
        ensures none { result ≡ None → (self.old.held.gone ≡ []) × (self.new.held.gone ≡ []) }
        ensures spent { IfSome result (IsSpent self.new.held) }
        ensures run { self.new.run ≡ self.old.run }
        ensures offers { self.new.properties ≡ self.old.properties }
        ensures objects { self.new.held.objects ≡ self.old.held.objects }
        ensures last_name { self.new.held.last_name ≡ self.old.held.last_name }
    {
        self.held.take_gone()
    }

    /// Drops all but the first `count` names that were released: those that a run released itself must not be reported
    /// if it is run again. Nothing else changes.
    pub fn forget_gone_after(&mut self, count: usize)
        ensures gone { self.new.held.gone ≡ take count self.old.held.gone }
        ensures run { self.new.run ≡ self.old.run }
        ensures offers { self.new.properties ≡ self.old.properties }
        ensures objects { self.new.held.objects ≡ self.old.held.objects }
        ensures last_name { self.new.held.last_name ≡ self.old.held.last_name }
    {
        self.held.forget_gone_after(count);
    }
}

impl ObjectDevice<ObjectName> for AnsweredDevice {
    ghost use Rattle.gpu_answers.specs.Device.{objects_of, IsStep};
    ghost use Rattle.gpu_answers.specs.DeviceLaws.{step_is_row, step_keeps_properties, objects_are_well_formed};

    ghost properties = { λ device. device.properties };

    ghost objects = { objects_of };

    ghost step = { IsStep };

    fn allocate_memory(
        &mut self,
        size: u64,
        memory_type: u32,
        flags: AllocationFlags,
    ) -> Result<ObjectName, OutOfMemory> {
        if self.held.make_room().is_err() {
            return Err(OutOfMemory::OutOfHostMemory);
        }
        let question = Question::Allocate {
            size,
            memory_type,
            flags: flags.bits(),
        };
        match self.run.ask(question) {
            Some(Answer::Granted) => {
                let memory = self.held.hold(size, memory_type);
                self.run.note_made(memory.object());
                Ok(memory)
            }
            refused => Err(allocation_refused(refused)),
        }
    }

    fn deallocate_memory(&mut self, memory: &ObjectName) {
        self.held.release(memory);
    }

    fn map_memory(
        &mut self,
        memory: &ObjectName,
        offset: u64,
        size: u64,
    ) -> Result<(), DeviceMapError> {
        match self.run.ask_to_map(memory.object(), offset, size) {
            Some(Answer::Granted) => {
                self.held.set_mapped(memory, Some((offset, size)));
                Ok(())
            }
            refused => Err(map_refused(refused)),
        }
    }

    fn unmap_memory(&mut self, memory: &ObjectName) {
        self.held.set_mapped(memory, None);
    }

    fn flush_memory_ranges(
        &mut self,
        _ranges: &[MappedMemoryRange<'_, ObjectName>],
    ) -> Result<(), OutOfMemory> {
        // The bytes that the device sees are those that the host sees.
        Ok(())
    }

    fn invalidate_memory_ranges(
        &mut self,
        _ranges: &[MappedMemoryRange<'_, ObjectName>],
    ) -> Result<(), OutOfMemory> {
        // The bytes that the host sees are those that the device sees.
        Ok(())
    }

    ghost row = { step_is_row };

    ghost keeps_properties = { step_keeps_properties };

    ghost well_formed = { objects_are_well_formed };
}
