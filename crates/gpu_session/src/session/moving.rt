//! Commands that map blocks and move their bytes.

ghost use Rattle.std.specs.Prelude.{◌≡◌, IfOk, length};
ghost use Rattle.gpu_session.specs.Run.{Step};
ghost use Rattle.gpu_session.specs.Sound.{StepKeeps};

use super::Session;
use crate::faults::passes_end;
use crate::{Bytes, Command, Fault, Reply};
use gpu_alloc::laws::{
    byte_calls_keep_agreement, bytes_of_a_mapping_may_be_moved, rounded_ranges_lie_in_their_block,
};
use gpu_alloc_types::{MemoryDevice, MemoryObject};
use std::alloc::{AllocError, Allocator};

impl<M: MemoryObject, D: MemoryDevice<M>, A: Allocator + Copy> Session<M, D, A> {
    /// Answers `Map`.
    pub(super) fn map(&mut self, name: u32, offset: u64, size: u64) -> Reply<A>
        ensures step { Step D.step self.old (Command.Map name offset size) result self.new }
        ensures keeps { StepKeeps D.objects self.old (Command.Map name offset size) result self.new }
    {
        let Some(block) = self.blocks.get_mut(&name) else {
            return Reply::Fault(Fault::UnknownName);
        };
        if size == 0 {
            return Reply::Fault(Fault::BadSize);
        }
        if passes_end(offset, size, block.size()) {
            return Reply::Fault(Fault::BadRange);
        }
        match block.map(&mut self.device, offset, size as usize) {
            Ok(mapping) => Reply::Mapped(mapping),
            Err(e) => Reply::MapRefused(e),
        }
    }

    /// Answers `Unmap`.
    pub(super) fn unmap(&mut self, name: u32) -> Reply<A>
        ensures step { Step D.step self.old (Command.Unmap name) result self.new }
        ensures keeps { StepKeeps D.objects self.old (Command.Unmap name) result self.new }
    {
        let Some(block) = self.blocks.get_mut(&name) else {
            return Reply::Fault(Fault::UnknownName);
        };
        let was_mapped = block.unmap(&mut self.device);
        Reply::Unmapped(was_mapped)
    }

    /// Answers `Write`.
    pub(super) fn write(&mut self, name: u32, offset: u64, bytes: &Bytes<A>) -> Reply<A>
        ensures step { Step D.step self.old (Command.Write name offset bytes.now) result self.new }
        ensures keeps { StepKeeps D.objects self.old (Command.Write name offset bytes.now) result self.new }
    {
        let bytes = bytes.as_slice();
        let Some(block) = self.blocks.get_mut(&name) else {
            return Reply::Fault(Fault::UnknownName);
        };
        if passes_end(offset, bytes.len() as u64, block.size()) {
            return Reply::Fault(Fault::BadRange);
        }
        rounded_ranges_lie_in_their_block(block);
        match block.write_bytes(&mut self.device, offset, bytes) {
            Ok(()) => Reply::Done,
            Err(e) => Reply::MapRefused(e),
        }
    }

    /// Answers `Read`. Room for the bytes is made before the device is asked.
    pub(super) fn read(&mut self, name: u32, offset: u64, len: u64) -> Reply<A>
        ensures step { Step D.step self.old (Command.Read name offset len) result self.new }
        ensures keeps { StepKeeps D.objects self.old (Command.Read name offset len) result self.new }
    {
        let Some(block) = self.blocks.get_mut(&name) else {
            return Reply::Fault(Fault::UnknownName);
        };
        if passes_end(offset, len, block.size()) {
            return Reply::Fault(Fault::BadRange);
        }
        let Ok(mut bytes) = zeros(self.alloc, len) else {
            return Reply::Fault(Fault::NoMemory);
        };
        match block.read_bytes(&mut self.device, offset, bytes.as_mut_slice()) {
            Ok(()) => Reply::Bytes(Bytes::from_vec(bytes)),
            Err(e) => Reply::MapRefused(e),
        }
    }

    /// Answers `Put`.
    pub(super) fn put(&mut self, name: u32, offset: u64, bytes: &Bytes<A>) -> Reply<A>
        ensures step { Step D.step self.old (Command.Put name offset bytes.now) result self.new }
        ensures keeps { StepKeeps D.objects self.old (Command.Put name offset bytes.now) result self.new }
    {
        let bytes = bytes.as_slice();
        let Some(block) = self.blocks.get(&name) else {
            return Reply::Fault(Fault::UnknownName);
        };
        let Some(mapping) = block.mapping() else {
            return Reply::Fault(Fault::NotMapped);
        };
        let len = bytes.len() as u64;
        if passes_end(offset, len, mapping.len) {
            return Reply::Fault(Fault::BadRange);
        }
        if len > 0 {
            bytes_of_a_mapping_may_be_moved(block);
            let place = mapping.start + offset;
            self.device.put_bytes(block.memory(), place, bytes);
            byte_calls_keep_agreement(&self.allocator, &self.device);
        }
        Reply::Done
    }

    /// Answers `Get`. Room for the bytes is made before the device is asked.
    pub(super) fn get(&mut self, name: u32, offset: u64, len: u64) -> Reply<A>
        ensures step { Step D.step self.old (Command.Get name offset len) result self.new }
        ensures keeps { StepKeeps D.objects self.old (Command.Get name offset len) result self.new }
    {
        let Some(block) = self.blocks.get(&name) else {
            return Reply::Fault(Fault::UnknownName);
        };
        let Some(mapping) = block.mapping() else {
            return Reply::Fault(Fault::NotMapped);
        };
        if passes_end(offset, len, mapping.len) {
            return Reply::Fault(Fault::BadRange);
        }
        let Ok(mut bytes) = zeros(self.alloc, len) else {
            return Reply::Fault(Fault::NoMemory);
        };
        if len > 0 {
            bytes_of_a_mapping_may_be_moved(block);
            let place = mapping.start + offset;
            self.device
                .get_bytes(block.memory(), place, bytes.as_mut_slice());
            byte_calls_keep_agreement(&self.allocator, &self.device);
        }
        Reply::Bytes(Bytes::from_vec(bytes))
    }
}

/// As many bytes, all 0.
fn zeros<A: Allocator + Copy>(alloc: A, len: u64) -> Result<Vec<u8, A>, AllocError>
    ensures { IfOk result (λ bytes. length bytes.items ≡ len) }
{
    vec![in alloc; 0; len as usize]
}
