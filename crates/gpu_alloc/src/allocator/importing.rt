//! Memory objects that the allocator did not make.

ghost use Rattle.std.specs.Prelude.{◌≡◌, ◌+◌, ◌^◌, ◌<◌, None, length, IfOk, IfErr, OnErr};
ghost use Rattle.std.specs.FinMap as map;
ghost use Rattle.gpu_alloc_types.specs.Flags.{property_bits};
ghost use Rattle.gpu_alloc_types.specs.Properties.{props_at};
ghost use Rattle.gpu_alloc.specs.Importing.{Imports, ImportAgrees, ImportsInHand};
ghost use Rattle.gpu_alloc.specs.Owned.{Leaves, Adds};
ghost use Rattle.gpu_alloc.specs.Sound as Sound;
ghost use Rattle.gpu_alloc_block.specs.State.{total};

use super::GpuAllocator;
use crate::MemoryBlock;
use crate::own::OwnRow;
use gpu_alloc_base::booking;
use gpu_alloc_block::Kind;
use gpu_alloc_types::{MemoryObject, MemoryPropertyFlags};
use std::alloc::Allocator;

impl<M: MemoryObject, A: Allocator> GpuAllocator<M, A> {
    /// Imports a memory object that the allocator did not make, and returns the block of `size` bytes from `offset` on
    /// in it. The allocator holds the object from then on: one fewer may be held, and the ledger of its heap rises by
    /// `size`, however large the object is. The block is not mapped. `dealloc` returns it and releases the object to
    /// the device.
    ///
    /// The device is not called. For the allocator and the block to agree with it afterwards, it must hold the object,
    /// of this memory type and unmapped, with the range inside it. Where the memory type is host-visible and not
    /// coherent, the range must end at a multiple of `non_coherent_atom_size` or at the object's end (the Vulkan
    /// specification's rule on `VkMappedMemoryRange`, which the block's flushes keep).
    ///
    /// The memory type must exist, and `props` must be its properties. One object more may be held
    /// (`remaining_allocations`), no object of this name is held (`holds`), `size` is at least 1, and `offset + size`
    /// is a 64-bit number. The only error is want of host memory: the handle comes back, and nothing has changed.
    pub fn import_memory(
        &mut self,
        memory: M,
        memory_type: u32,
        props: MemoryPropertyFlags,
        offset: u64,
        size: u64,
    ) -> Result<MemoryBlock<M>, M>
        requires known { memory_type < length (self.old.properties).memory_types }
        requires props { property_bits props ≡ props_at self.old.properties memory_type }
        requires remains { 0 < self.old.remaining }
        requires unheld { map.get self.old.held (M.object memory) ≡ None }
        requires nonempty { 0 < size }
        requires ends { offset + size < 2 ^ 64 }

        // The answer and the new state.
        ensures imported { IfOk result (Imports self.old (M.object memory) memory_type offset size self.new) }
        ensures refused { OnErr result (self.new ≡ self.old) }
        ensures handed_back { IfErr result (λ handed. handed ≡ memory) }

        // What follows from it.
        ensures agrees { IfOk result (ImportAgrees self.old (M.object memory) memory_type offset size self.new) }
        ensures added { IfOk result (Adds self.old self.new) }
        ensures in_hand { IfOk result (ImportsInHand self.old (M.object memory) memory_type offset size self.new) }
        ensures leaves { Leaves self.old self.new }
        ensures total { total self.new ≡ total self.old }
        ensures sound { Sound.IsSound self.new }
    {
        self.keeps_sound();
        let answer = self.take_over(memory, memory_type, props, offset, size);
        self.keeps_sound();
        answer
    }

    /// Holds an object for the one block in it, or hands its handle back.
    fn take_over(
        &mut self,
        memory: M,
        memory_type: u32,
        props: MemoryPropertyFlags,
        offset: u64,
        size: u64,
    ) -> Result<MemoryBlock<M>, M>
        requires known { memory_type < length (self.old.properties).memory_types }
        requires props { property_bits props ≡ props_at self.old.properties memory_type }
        requires remains { 0 < self.old.remaining }
        requires unheld { map.get self.old.held (M.object memory) ≡ None }
        requires nonempty { 0 < size }
        requires ends { offset + size < 2 ^ 64 }
        ensures imported { IfOk result (Imports self.old (M.object memory) memory_type offset size self.new) }
        ensures refused { OnErr result (self.new ≡ self.old) }
        ensures handed_back { IfErr result (λ handed. handed ≡ memory) }
    {
        if self.own.reserve().is_err() {
            return Err(memory);
        }
        let row = OwnRow {
            object: memory.object(),
            offset,
            size,
            memory_type,
            imported: true,
        };
        let key = self.own.insert(row);
        let heap = self.limits.heap_index(memory_type);
        let atom = self.limits.atom(memory_type);
        booking::hold(
            &mut self.heaps[heap],
            &mut self.allocations_remains,
            row.size,
        );
        Ok(MemoryBlock::new(
            memory,
            offset,
            size,
            memory_type,
            props,
            atom,
            Kind::Imported,
            key,
        ))
    }
}
