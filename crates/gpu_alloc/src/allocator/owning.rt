//! Whether a block is live here.

ghost use Rattle.std.specs.Prelude.{◌≡◌, ◌↔◌, IsTrue, false};
ghost use Rattle.gpu_alloc.specs.Sound as Sound;
ghost use Rattle.gpu_alloc_block.specs.State.{IsOwned, is_shared};

use super::GpuAllocator;
use super::stores::Chosen;
use crate::MemoryBlock;
use gpu_alloc_base::free_list_block::Slot;
use gpu_alloc_block::Kind;
use gpu_alloc_types::MemoryObject;
use std::alloc::Allocator;

impl<M: MemoryObject, A: Allocator> GpuAllocator<M, A> {
    /// Whether a block is live here: its object, span, memory type and kind are. It does not ask which allocator made
    /// it.
    ///
    /// Its contract also says what holds of every allocator between calls (`sound`):
    ///
    /// - Live spans are not empty and share no byte. Each lies in its object as the object's kind says. In a buddy
    ///   chunk its size is a power of two, in bytes, and it begins at a multiple of that size.
    /// - An object of one block has no other. Only chunks of a free list and fit chunks are held without a live block,
    ///   and at most one fit chunk of a memory type is.
    /// - Chunks of a free list have numbers of their own. Shared chunks are of the kind that was chosen.
    /// - A fit chunk has one of the sizes that fit chunks can have, and its live spans start and end at grains.
    /// - Apart from imports, no more of a heap is held than it has.
    pub fn owns(&self, block: &MemoryBlock<M>) -> bool
        ensures owned { IsTrue result ↔ IsOwned self.now block.now }
        ensures sound { Sound.IsSound self.now }
    {
        self.keeps_sound();
        match block.kind() {
            Kind::Dedicated | Kind::Imported => self.has_own(block),
            Kind::BuddyChunk => self.has_in_buddy(block),
            Kind::FreeListChunk(number) => self.has_in_list(block, number),
            Kind::FitChunk => self.has_in_fit(block),
        }
    }

    /// Whether a block with an object of its own is live here.
    fn has_own(&self, block: &MemoryBlock<M>) -> bool
        requires { is_shared (block.now).kind ≡ false }
        ensures { IsTrue result ↔ IsOwned self.now block.now }
    {
        match self.own.find(block.key(), block.memory().object()) {
            Some(row) => row.is(
                block.offset(),
                block.size(),
                block.memory_type(),
                block.kind(),
            ),
            None => false,
        }
    }

    /// Whether a block of a buddy chunk is live here.
    fn has_in_buddy(&self, block: &MemoryBlock<M>) -> bool
        requires { (block.now).kind ≡ Kind.BuddyChunk }
        ensures { IsTrue result ↔ IsOwned self.now block.now }
    {
        let object = block.memory().object();
        let (offset, size) = (block.offset(), block.size());
        match self.types.get(block.memory_type() as usize) {
            Some(stores) => match &stores.chosen {
                Chosen::Buddy(buddy) => buddy.find(block.key(), object, offset, size).is_some(),
                Chosen::Fit(_) => false,
            },
            None => false,
        }
    }

    /// Whether a block of a free list's chunk with this number is live here.
    fn has_in_list(&self, block: &MemoryBlock<M>, number: u64) -> bool
        requires { (block.now).kind ≡ Kind.FreeListChunk number }
        ensures { IsTrue result ↔ IsOwned self.now block.now }
    {
        let slot = Slot {
            object: block.memory().object(),
            chunk: number,
            offset: block.offset(),
            size: block.size(),
        };
        match self.types.get(block.memory_type() as usize) {
            Some(stores) => stores.free_list.is_live(block.key(), slot),
            None => false,
        }
    }

    /// Whether a block of a fit chunk is live here.
    fn has_in_fit(&self, block: &MemoryBlock<M>) -> bool
        requires { (block.now).kind ≡ Kind.FitChunk }
        ensures { IsTrue result ↔ IsOwned self.now block.now }
    {
        let object = block.memory().object();
        let (offset, size) = (block.offset(), block.size());
        match self.types.get(block.memory_type() as usize) {
            Some(stores) => match &stores.chosen {
                Chosen::Fit(fit) => fit.find(block.key(), object, offset, size).is_some(),
                Chosen::Buddy(_) => false,
            },
            None => false,
        }
    }
}
