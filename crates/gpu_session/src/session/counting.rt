//! Commands that read and set counts.

ghost use Rattle.std.specs.Prelude.{◌≡◌, IfOk};
ghost use Rattle.gpu_session.specs.Does.{IsEachLedger};
ghost use Rattle.gpu_session.specs.Run.{Step};
ghost use Rattle.gpu_session.specs.Sound.{StepKeeps};

use super::Session;
use crate::{Command, Fault, Ledgers, Ranges, Reply};
use gpu_alloc_types::{MemoryDevice, MemoryObject};
use std::alloc::{AllocError, Allocator};

impl<M: MemoryObject, D: MemoryDevice<M>, A: Allocator + Copy> Session<M, D, A> {
    /// Answers `SetRemaining`.
    pub(super) fn set_remaining(&mut self, remaining: u32) -> Reply<A>
        ensures step { Step D.step self.old (Command.SetRemaining remaining) result self.new }
        ensures keeps { StepKeeps D.objects self.old (Command.SetRemaining remaining) result self.new }
    {
        if remaining > u32::MAX - self.allocator.held_objects() {
            return Reply::Fault(Fault::TooManyRemaining);
        }
        self.allocator.set_remaining_allocations(remaining);
        Reply::Done
    }

    /// Answers `FreeRanges`.
    pub(super) fn free_ranges(&mut self, memory_type: u32) -> Reply<A>
        ensures step { Step D.step self.old (Command.FreeRanges memory_type) result self.new }
        ensures keeps { StepKeeps D.objects self.old (Command.FreeRanges memory_type) result self.new }
    {
        if !self.offer.has_type(memory_type) {
            return Reply::Fault(Fault::BadType);
        }
        match self.allocator.free_ranges(memory_type) {
            Ok(ranges) => Reply::Ranges(Ranges::from_vec(ranges)),
            Err(_) => Reply::Fault(Fault::NoMemory),
        }
    }

    /// Answers `Counts`. Places for the ledgers are taken first.
    pub(super) fn counts(&mut self) -> Reply<A>
        ensures step { Step D.step self.old Command.Counts result self.new }
        ensures keeps { StepKeeps D.objects self.old Command.Counts result self.new }
    {
        match self.ledgers() {
            Ok(used) => Reply::Counts {
                remaining: self.allocator.remaining_allocations(),
                held: self.allocator.held_objects(),
                used: Ledgers::from_vec(used),
            },
            Err(_) => Reply::Fault(Fault::NoMemory),
        }
    }

    /// The ledger of each heap, in heap order.
    fn ledgers(&self) -> Result<Vec<u128, A>, AllocError>
        ensures { IfOk result (λ used. IsEachLedger (self.now.books).allocator used.items) }
    {
        let mut used = Vec::with_capacity(self.alloc, self.offer.heaps as usize)?;
        for heap in 0..self.offer.heaps {
            used.push(self.allocator.heap_used(heap))?;
        }
        Ok(used)
    }
}
