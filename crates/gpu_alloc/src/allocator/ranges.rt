//! What is free in a memory type's shared chunks.

ghost use Rattle.std.specs.Prelude.{◌≡◌, ◌↔◌, ◌<◌, Contains, length, IfOk, IfErr};
ghost use Rattle.gpu_alloc.specs.FreeRanges.{IsFreeRangeOf};
ghost use Rattle.gpu_alloc_base.specs.RangeOrder.{AreInOrder};
ghost use Rattle.gpu_alloc_types.specs.declared.types.FreeRange.{FreeRange as Range};

use super::GpuAllocator;
use super::stores::Chosen;
use gpu_alloc_base::AllocationError;
use gpu_alloc_base::range_order::put_in_order;
use gpu_alloc_types::{FreeRange, MemoryObject};
use std::alloc::{AllocError, Allocator};

impl<M: MemoryObject, A: Allocator + Copy> GpuAllocator<M, A> {
    /// The free ranges of a memory type's shared chunks, sorted by the name of their object, then by start. Each is in
    /// bytes of its object.
    ///
    /// In a buddy chunk these are the free pieces: the longest ranges with a power of two as length, at a multiple of
    /// it, that lie in no live block. In a chunk of a free list and in a fit chunk they are the free runs: the longest
    /// ranges that lie in no live block. An object of one block has none.
    ///
    /// The memory type must exist. The only error is `OutOfHostMemory`: the answer and the list of each part take host
    /// memory. Nothing changes.
    pub fn free_ranges(&self, memory_type: u32) -> Result<Vec<FreeRange, A>, AllocationError>
        requires { memory_type < length (self.now.properties).memory_types }
        ensures exact { IfOk result
            (λ ranges. (r : Range) → Contains ranges.items r ↔ IsFreeRangeOf self.now memory_type r) }
        ensures order { IfOk result (λ ranges. AreInOrder ranges.items) }
        ensures refused { IfErr result (λ e. e ≡ AllocationError.OutOfHostMemory) }
    {
        match self.pieces_and_runs(memory_type) {
            Ok(ranges) => Ok(ranges),
            Err(_) => Err(AllocationError::OutOfHostMemory),
        }
    }

    /// The free runs of the free list, and the free pieces or runs of the chosen store, as one list.
    fn pieces_and_runs(&self, memory_type: u32) -> Result<Vec<FreeRange, A>, AllocError>
        requires { memory_type < length (self.now.properties).memory_types }
        ensures exact { IfOk result
            (λ ranges. (r : Range) → Contains ranges.items r ↔ IsFreeRangeOf self.now memory_type r) }
        ensures order { IfOk result (λ ranges. AreInOrder ranges.items) }
    {
        let stores = &self.types[memory_type as usize];
        let mut ranges = stores.free_list.free_ranges()?;
        let chosen = match &stores.chosen {
            Chosen::Buddy(buddy) => buddy.free_ranges()?,
            Chosen::Fit(fit) => fit.free_ranges(*ranges.allocator())?,
        };
        ranges.extend_from_slice(chosen.as_slice())?;
        put_in_order(&mut ranges);
        Ok(ranges)
    }
}
