//! Calls that read and set counts.

ghost use Rattle.std.specs.Prelude.{◌≡◌, ◌⊎◌, ◌↔◌, ◌<◌, ◌≤◌, ◌+◌, ◌^◌, ◌++◌, ◌∷◌, [], None, length, IfOk, IfErr, IfSome, IsTrue, false, OnOk, OnErr, OnSome};
ghost use Rattle.gpu_alloc_types.specs.Flags.{usage_bits};
ghost use Rattle.gpu_alloc_usage.specs.Ranking.{candidates};
ghost use Rattle.std.specs.FinMap as map;
ghost use Rattle.gpu_session.specs.Does.{IsEachFreeRange};
ghost use Rattle.gpu_answers.specs.Held.{KeepsNames};
ghost use Rattle.gpu_desk.specs.Calls.{CountsOf, HeapCountsOf, LimitsHeap, OnlyReads, lacks_address};
ghost use Rattle.gpu_desk.specs.Names.{IsSpentName, LosesBut, as_read};

use super::Desk;
use crate::{Counts, Denial, Fault, FreeRange, HeapCounts, UsageFlags};

impl Desk {
    /// Reads the name of a released object, the latest of those that were not read, or returns `None` where all were.
    /// The object is the caller's to free. Nothing else changes.
    ///
    /// A name is read once: it never waits again, and no later object has it.
    pub fn next_gone(&mut self) -> Option<u64>
        ensures read { IfSome result (λ name. self.old.device.held.gone ≡ self.new.device.held.gone ++ name ∷ []) }
        ensures none { result ≡ None → (self.old.device.held.gone ≡ []) × (self.new.device.held.gone ≡ []) }
        ensures spent { IfSome result (IsSpentName self.new) }
        ensures kept { OnlyReads self.old self.new }
        ensures lost { LosesBut (as_read result) self.old self.new }
        ensures names { KeepsNames (self.old.device).held (self.new.device).held }
    {
        let name = self.device.take_gone();
        name
    }

    /// How many blocks, unread names and objects there are.
    pub fn counts(&self) -> Counts
        ensures { CountsOf self.now result }
    {
        Counts {
            blocks: self.blocks.len() as u64,
            unread: self.device.gone().len() as u64,
            held: self.allocator.held_objects(),
            remaining: self.allocator.remaining_allocations(),
        }
    }

    /// How much is held of a heap, or `None` exactly where there is no such heap.
    pub fn heap(&self, heap: u32) -> Option<HeapCounts>
        ensures told { IfSome result (HeapCountsOf self.now heap) }
        ensures none { (result ≡ None) ↔ (length ((self.now.allocator).properties).memory_heaps ≤ heap) }
    {
        if heap >= self.offer.heaps {
            return None;
        }
        Some(HeapCounts {
            used: self.allocator.heap_used(heap),
            budget: self.allocator.heap_budget(heap),
            limit: self.allocator.heap_limit(heap),
        })
    }

    /// Sets a heap's limit, in bytes: from now on no more is asked of it than the limit leaves, as
    /// `GpuAllocator::set_heap_limit` says. A value at or above the heap's size removes the limit. Nothing that is held
    /// is released, and nothing else changes.
    ///
    /// `None` exactly where there is no such heap. Nothing has changed then.
    pub fn set_heap_limit(&mut self, heap: u32, limit: u64) -> Option<()>
        ensures set { OnSome result (LimitsHeap self.old heap limit self.new) }
        ensures none { (result ≡ None) ↔ (length ((self.old.allocator).properties).memory_heaps ≤ heap) }
        ensures unchanged { result ≡ None → self.new ≡ self.old }
        ensures names { KeepsNames (self.old.device).held (self.new.device).held }
        ensures lost { LosesBut [] self.old self.new }
    {
        if heap < self.offer.heaps {
            self.allocator.set_heap_limit(heap, limit);
            return Some(());
        }
        None
    }

    /// The indices of the memory types that would serve a usage, of those whose bit is set in `memory_types` (bit 0 for
    /// the type with index 0), the best first. They are those that [`alloc`](Desk::alloc) tries for such a request, in
    /// its order. The list may be empty. It is for objects that the caller makes itself.
    ///
    /// It takes memory for them. It denies the usage `DEVICE_ADDRESS` without the device's feature, with
    /// `Fault::NoDeviceAddress`, and want of memory, with `Fault::NoMemory`; nothing else.
    pub fn candidates(&self, usage: UsageFlags, memory_types: u32) -> Result<Vec<u32>, Denial>
        ensures told { IfOk result (λ types. types.items ≡ candidates ((self.now.allocator).properties).memory_types
            (usage_bits usage) memory_types) }
        ensures denied { IfErr result (λ e. (e ≡ Denial.Fault Fault.NoDeviceAddress)
            ↔ IsTrue (lacks_address self.now usage)) }
        ensures able { OnOk result (lacks_address self.now usage ≡ false) }
        ensures causes { IfErr result (λ e. (e ≡ Denial.Fault Fault.NoDeviceAddress)
            ⊎ (e ≡ Denial.Fault Fault.NoMemory)) }
    {
        if usage.lacks_address(self.offer.buffer_device_address) {
            return Err(Denial::Fault(Fault::NoDeviceAddress));
        }
        let alloc = *self.offer.memory_types.allocator();
        match self.allocator.candidates(alloc, usage, memory_types) {
            Ok(types) => Ok(types),
            Err(_) => Err(Denial::Fault(Fault::NoMemory)),
        }
    }

    /// Sets how many more objects may be held, on top of those that are.
    ///
    /// It denies a number that together with the held objects is not below 2^32, with `Fault::TooManyRemaining`.
    /// Nothing has changed then.
    pub fn set_remaining(&mut self, remaining: u32) -> Result<(), Denial>
        ensures set { OnOk result (self.new ≡ record self.old { allocator = record (self.old.allocator) { remaining = remaining } }) }
        ensures denied { IfErr result (λ e. (e ≡ Denial.Fault Fault.TooManyRemaining)
            × (2 ^ 32 ≤ remaining + map.len (self.old.allocator).held)) }
        ensures few { OnOk result (remaining + map.len (self.old.allocator).held < 2 ^ 32) }
        ensures unchanged { OnErr result (self.new ≡ self.old) }
        ensures names { KeepsNames (self.old.device).held (self.new.device).held }
        ensures lost { LosesBut [] self.old self.new }
    {
        if remaining > u32::MAX - self.allocator.held_objects() {
            return Err(Denial::Fault(Fault::TooManyRemaining));
        }
        self.allocator.set_remaining_allocations(remaining);
        Ok(())
    }

    /// The free ranges of a memory type's shared objects, sorted by object and offset.
    ///
    /// It takes memory for them. It denies a memory type that does not exist, with `Fault::BadType`, and want of
    /// memory, with `Fault::NoMemory`; nothing else.
    pub fn free_ranges(&self, memory_type: u32) -> Result<Vec<FreeRange>, Denial>
        ensures told { IfOk result (λ ranges. IsEachFreeRange self.now.allocator memory_type ranges.items) }
        ensures denied { IfErr result (λ e. (e ≡ Denial.Fault Fault.BadType)
            ↔ (length ((self.now.allocator).properties).memory_types ≤ memory_type)) }
        ensures known { OnOk result (memory_type < length ((self.now.allocator).properties).memory_types) }
        ensures causes { IfErr result (λ e. (e ≡ Denial.Fault Fault.BadType) ⊎ (e ≡ Denial.Fault Fault.NoMemory)) }
    {
        if !self.offer.has_type(memory_type) {
            return Err(Denial::Fault(Fault::BadType));
        }
        match self.allocator.free_ranges(memory_type) {
            Ok(ranges) => Ok(ranges),
            Err(_) => Err(Denial::Fault(Fault::NoMemory)),
        }
    }
}
