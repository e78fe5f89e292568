//! Commands that grant and free blocks.

ghost use Rattle.std.specs.Prelude.{◌≡◌, ◌<◌, nat_eq, None};
ghost use Rattle.std.specs.FinMap as map;
ghost use Rattle.std.specs.Ordering.{nat_cmp};
ghost use Rattle.indexmap.specs.IndexMap.{get, spare};
ghost use Rattle.gpu_session.specs.Run.{Step};
ghost use Rattle.gpu_session.specs.Sound.{StepKeeps};

use super::{Blocks, Session};
use crate::faults::{import_fault, request_fault};
use crate::{Command, Fault, Reply};
use gpu_alloc::laws::{made_objects_may_be_imported, objects_of_others_may_go};
use gpu_alloc::{AllocationError, Dedicated, MemoryBlock, Request};
use gpu_alloc_types::{MemoryDevice, MemoryObject};
use std::alloc::Allocator;

/// Keeps a block under a free name, and describes it in the reply. Room for its entry was made.
fn keep<M: MemoryObject, A: Allocator + Copy>(
    blocks: &mut Blocks<M, A>,
    name: u32,
    block: MemoryBlock<M>,
) -> Reply<A>
    requires free { get nat_eq blocks.old name ≡ None }
    requires room { 0 < spare blocks.old }
    ensures kept { map.from_entries {R = nat_cmp} blocks.new.entries
        ≡ map.insert (map.from_entries blocks.old.entries) name block }
    ensures told { result ≡ Reply.Granted block.memory_type block.object block.offset block.size }
{
    let reply = Reply::Granted {
        memory_type: block.memory_type(),
        object: block.memory().object(),
        offset: block.offset(),
        size: block.size(),
    };
    match blocks.insert(name, block) {
        Ok(None) => reply,
        Ok(Some(_older)) => unreachable!(),
        Err(_failed) => unreachable!(),
    }
}

impl<M: MemoryObject, D: MemoryDevice<M>, A: Allocator + Copy> Session<M, D, A> {
    /// Answers `Alloc`. Room for the block's entry is made before the device is asked.
    pub(super) fn alloc(&mut self, name: u32, request: Request) -> Reply<A>
        ensures step { Step D.step self.old (Command.Alloc name request) result self.new }
        ensures keeps { StepKeeps D.objects self.old (Command.Alloc name request) result self.new }
    {
        if self.blocks.contains_key(&name) {
            return Reply::Fault(Fault::NameInUse);
        }
        if let Some(fault) = request_fault(request, self.offer.buffer_device_address) {
            return Reply::Fault(fault);
        }
        if self.blocks.reserve(1).is_err() {
            return Reply::Fault(Fault::NoMemory);
        }
        match self.allocator.alloc(&mut self.device, request) {
            Ok(block) => keep(&mut self.blocks, name, block),
            Err(e) => Reply::Refused(e),
        }
    }

    /// Answers `Dedicated`. Room for the block's entry is made before the device is asked.
    pub(super) fn dedicated(
        &mut self,
        name: u32,
        request: Request,
        dedicated: Dedicated,
    ) -> Reply<A>
        ensures step { Step D.step self.old (Command.Dedicated name request dedicated) result self.new }
        ensures keeps { StepKeeps D.objects self.old (Command.Dedicated name request dedicated) result self.new }
    {
        if self.blocks.contains_key(&name) {
            return Reply::Fault(Fault::NameInUse);
        }
        if let Some(fault) = request_fault(request, self.offer.buffer_device_address) {
            return Reply::Fault(fault);
        }
        if self.blocks.reserve(1).is_err() {
            return Reply::Fault(Fault::NoMemory);
        }
        match self
            .allocator
            .alloc_with_dedicated(&mut self.device, request, dedicated)
        {
            Ok(block) => keep(&mut self.blocks, name, block),
            Err(e) => Reply::Refused(e),
        }
    }

    /// Answers `Import`. Room for the block's entry is made before the device is asked; where the allocator then finds
    /// no memory, the object is released.
    pub(super) fn import(
        &mut self,
        name: u32,
        memory_type: u32,
        object_size: u64,
        offset: u64,
        size: u64,
    ) -> Reply<A>
        ensures step { Step D.step self.old (Command.Import name memory_type object_size offset size) result self.new }
        ensures keeps { StepKeeps D.objects self.old (Command.Import name memory_type object_size offset size) result
            self.new }
    {
        if self.blocks.contains_key(&name) {
            return Reply::Fault(Fault::NameInUse);
        }
        let fault = import_fault(
            &self.allocator,
            &self.offer,
            memory_type,
            object_size,
            offset,
            size,
        );
        if let Some(fault) = fault {
            return Reply::Fault(fault);
        }
        if self.blocks.reserve(1).is_err() {
            return Reply::Fault(Fault::NoMemory);
        }
        let flags = self.offer.flags();
        let answer = self.device.allocate_memory(object_size, memory_type, flags);
        made_objects_may_be_imported(&self.allocator, &self.device, &answer);
        let memory = match answer {
            Ok(memory) => memory,
            Err(e) => return Reply::Refused(AllocationError::from(e)),
        };
        let props = self.offer.props(memory_type);
        match self
            .allocator
            .import_memory(memory, memory_type, props, offset, size)
        {
            Ok(block) => keep(&mut self.blocks, name, block),
            Err(memory) => {
                self.device.deallocate_memory(&memory);
                objects_of_others_may_go(&self.allocator, &self.device);
                Reply::Fault(Fault::NoMemory)
            }
        }
    }

    /// Answers `Free`.
    pub(super) fn free(&mut self, name: u32) -> Reply<A>
        ensures step { Step D.step self.old (Command.Free name) result self.new }
        ensures keeps { StepKeeps D.objects self.old (Command.Free name) result self.new }
    {
        match self.blocks.swap_remove(&name) {
            Some(block) => {
                self.allocator.dealloc(&mut self.device, block);
                Reply::Done
            }
            None => Reply::Fault(Fault::UnknownName),
        }
    }

    /// Answers `Cleanup`.
    pub(super) fn cleanup(&mut self) -> Reply<A>
        ensures step { Step D.step self.old Command.Cleanup result self.new }
        ensures keeps { StepKeeps D.objects self.old Command.Cleanup result self.new }
    {
        self.allocator.cleanup(&mut self.device);
        Reply::Done
    }
}
