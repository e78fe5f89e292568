//! Returns, by kind of object.

ghost use Rattle.std.specs.Prelude.{◌≡◌, ℕ, ◌<◌, List, length, false};
ghost use Rattle.gpu_alloc_types.specs.Device.{Event, Chain};
ghost use Rattle.gpu_alloc_block.specs.Agreement.{Agrees};
ghost use Rattle.gpu_alloc.specs.Release.{Frees, ObjectsFreed, ReleasesChunks, ReleasesFitChunks, ReleasesType};
ghost use Rattle.gpu_alloc.specs.Sound as Sound;
ghost use Rattle.gpu_alloc_block.specs.State.{IsOwned, is_shared, total};

use super::stores::Chosen;
use super::{GpuAllocator, uncounted};
use crate::MemoryBlock;
use gpu_alloc_base::free_list_block::Slot;
use gpu_alloc_base::{BuddyBlock, FreeListBlock, booking};
use gpu_alloc_block::Kind;
use gpu_alloc_block::block::into_memory;
use gpu_alloc_types::{MemoryObject, ObjectDevice};
use std::alloc::Allocator;
use std::marker::Brand;
use std::sync::ledger::Blank;

impl<M: MemoryObject, A: Allocator> GpuAllocator<M, A> {
    /// Returns a block, by the kind of its object.
    pub(super) fn put_back<D: ObjectDevice<M>>(&mut self, device: &mut D, block: MemoryBlock<M>)
        requires owned { IsOwned self.old block }
        requires agrees { Agrees self.old (D.properties device.old) (D.objects device.old) }
        ensures freed { (es : List Event) × Chain D.step device.old es device.new × Frees self.old block es self.new }
        ensures objects { ObjectsFreed self.old block (D.objects device.old) (D.objects device.new) }
        ensures agrees { Agrees self.new (D.properties device.new) (D.objects device.new) }
        ensures sound { Sound.IsSound self.new }
    {
        match block.kind() {
            Kind::Dedicated | Kind::Imported => self.put_back_object(device, block),
            Kind::BuddyChunk => self.put_back_in_buddy(device, block),
            Kind::FreeListChunk(number) => self.put_back_in_list(device, block, number),
            Kind::FitChunk => self.put_back_in_fit(device, block),
        }
    }

    /// Returns the one block of an object, and releases the object.
    fn put_back_object<D: ObjectDevice<M>>(&mut self, device: &mut D, block: MemoryBlock<M>)
        requires own { is_shared block.kind ≡ false }
        requires owned { IsOwned self.old block }
        requires agrees { Agrees self.old (D.properties device.old) (D.objects device.old) }
        ensures freed { (es : List Event) × Chain D.step device.old es device.new × Frees self.old block es self.new }
        ensures objects { ObjectsFreed self.old block (D.objects device.old) (D.objects device.new) }
        ensures agrees { Agrees self.new (D.properties device.new) (D.objects device.new) }
        ensures sound { Sound.IsSound self.new }
    {
        let key = block.key();
        let memory = into_memory(block);
        device.deallocate_memory(&memory);
        let row = self.own.remove(key, memory.object());
        let heap = self.limits.heap_index(row.memory_type);
        booking::release(
            &mut self.heaps[heap],
            &mut self.allocations_remains,
            row.size,
        );
        self.keeps_sound();
    }

    /// Returns a block of a buddy chunk.
    fn put_back_in_buddy<D: ObjectDevice<M>>(&mut self, device: &mut D, block: MemoryBlock<M>)
        requires shared { block.kind ≡ Kind.BuddyChunk }
        requires owned { IsOwned self.old block }
        requires agrees { Agrees self.old (D.properties device.old) (D.objects device.old) }
        ensures freed { (es : List Event) × Chain D.step device.old es device.new × Frees self.old block es self.new }
        ensures objects { ObjectsFreed self.old block (D.objects device.old) (D.objects device.new) }
        ensures agrees { Agrees self.new (D.properties device.new) (D.objects device.new) }
        ensures sound { Sound.IsSound self.new }
    {
        let (key, memory_type) = (block.key(), block.memory_type());
        let (offset, size) = (block.offset(), block.size());
        let memory = into_memory(block);
        let object = memory.object();
        let Chosen::Buddy(buddy) = &mut self.types[memory_type as usize].chosen else {
            unreachable!()
        };
        let Some(leaf) = buddy.find(key, object, offset, size) else {
            unreachable!()
        };
        let heap = self.limits.heap_index(memory_type);
        uncounted::dealloc::<M, A, D, Brand>(
            buddy,
            device,
            BuddyBlock::new(memory, leaf),
            &mut self.heaps[heap],
            &mut self.allocations_remains,
            Blank::new(1),
        );
    }

    /// Returns a block of a free list's chunk with this number.
    fn put_back_in_list<D: ObjectDevice<M>>(
        &mut self,
        device: &mut D,
        block: MemoryBlock<M>,
        number: u64,
    )
        requires listed { block.kind ≡ Kind.FreeListChunk number }
        requires owned { IsOwned self.old block }
        requires agrees { Agrees self.old (D.properties device.old) (D.objects device.old) }
        ensures freed { (es : List Event) × Chain D.step device.old es device.new × Frees self.old block es self.new }
        ensures objects { ObjectsFreed self.old block (D.objects device.old) (D.objects device.new) }
        ensures agrees { Agrees self.new (D.properties device.new) (D.objects device.new) }
        ensures sound { Sound.IsSound self.new }
    {
        let (key, memory_type) = (block.key(), block.memory_type());
        let (offset, size) = (block.offset(), block.size());
        let memory = into_memory(block);
        let slot = Slot {
            object: memory.object(),
            chunk: number,
            offset,
            size,
        };
        let heap = self.limits.heap_index(memory_type);
        self.types[memory_type as usize].free_list.dealloc(
            device,
            FreeListBlock::new(memory, slot, key),
            &mut self.heaps[heap],
            &mut self.allocations_remains,
        );
    }

    /// Returns a block of a fit chunk.
    fn put_back_in_fit<D: ObjectDevice<M>>(&mut self, device: &mut D, block: MemoryBlock<M>)
        requires shared { block.kind ≡ Kind.FitChunk }
        requires owned { IsOwned self.old block }
        requires agrees { Agrees self.old (D.properties device.old) (D.objects device.old) }
        ensures freed { (es : List Event) × Chain D.step device.old es device.new × Frees self.old block es self.new }
        ensures objects { ObjectsFreed self.old block (D.objects device.old) (D.objects device.new) }
        ensures agrees { Agrees self.new (D.properties device.new) (D.objects device.new) }
        ensures sound { Sound.IsSound self.new }
    {
        let (key, memory_type) = (block.key(), block.memory_type());
        let (offset, size) = (block.offset(), block.size());
        let memory = into_memory(block);
        let heap = self.limits.heap_index(memory_type);
        let Chosen::Fit(fit) = &mut self.types[memory_type as usize].chosen else {
            unreachable!()
        };
        uncounted::dealloc_fit::<M, A, D, Brand>(
            fit,
            device,
            memory,
            key,
            offset,
            size,
            &mut self.heaps[heap],
            &mut self.allocations_remains,
            Blank::new(1),
        );
    }

    /// Releases a memory type's chunks without a live block: those of its free list, the oldest first, and then its fit
    /// chunk.
    pub(super) fn clean_type<D: ObjectDevice<M>>(&mut self, device: &mut D, memory_type: u32)
        requires known { memory_type < length (self.old.properties).memory_types }
        requires agrees { Agrees self.old (D.properties device.old) (D.objects device.old) }
        ensures gives { (gone : List ℕ) × (es : List Event) × Chain D.step device.old es device.new
            × ReleasesType self.old memory_type gone es self.new (D.objects device.old) (D.objects device.new) }
        ensures agrees { Agrees self.new (D.properties device.new) (D.objects device.new) }
        ensures total { total self.new ≡ total self.old }
    {
        self.clean_list(device, memory_type);
        self.clean_fit(device, memory_type);
    }

    /// Releases a memory type's fit chunk without a live block, if there is one.
    fn clean_fit<D: ObjectDevice<M>>(&mut self, device: &mut D, memory_type: u32)
        requires known { memory_type < length (self.old.properties).memory_types }
        requires agrees { Agrees self.old (D.properties device.old) (D.objects device.old) }
        ensures gives { (gone : List ℕ) × (es : List Event) × Chain D.step device.old es device.new
            × ReleasesFitChunks self.old memory_type gone es self.new (D.objects device.old) (D.objects device.new) }
        ensures agrees { Agrees self.new (D.properties device.new) (D.objects device.new) }
        ensures total { total self.new ≡ total self.old }
    {
        let heap = self.limits.heap_index(memory_type);
        if let Chosen::Fit(fit) = &mut self.types[memory_type as usize].chosen {
            fit.cleanup(device, &mut self.heaps[heap], &mut self.allocations_remains);
        }
    }

    /// Releases a memory type's free-list chunks without a live block, the oldest first.
    fn clean_list<D: ObjectDevice<M>>(&mut self, device: &mut D, memory_type: u32)
        requires known { memory_type < length (self.old.properties).memory_types }
        requires agrees { Agrees self.old (D.properties device.old) (D.objects device.old) }
        ensures gives { (gone : List ℕ) × (es : List Event) × Chain D.step device.old es device.new
            × ReleasesChunks self.old memory_type false gone es self.new (D.objects device.old) (D.objects device.new) }
        ensures agrees { Agrees self.new (D.properties device.new) (D.objects device.new) }
        ensures total { total self.new ≡ total self.old }
    {
        let heap = self.limits.heap_index(memory_type);
        self.types[memory_type as usize].free_list.cleanup(
            device,
            &mut self.heaps[heap],
            &mut self.allocations_remains,
        );
    }
}
