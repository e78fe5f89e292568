//! Heaps: what is held of them, and how much more may be asked for.

ghost use Rattle.std.specs.Prelude.{◌≡◌, ◌≢◌, ◌<◌, ℕ, List, length, min};
ghost use Rattle.gpu_alloc_block.specs.State.{Block, IsOwned, heap_limit, ledger};
ghost use Rattle.gpu_alloc.specs.Budget.{heap_budget, heap_bytes, with_heap_limit};
ghost use Rattle.gpu_alloc.specs.Owned.{AreOwned, StaysAgreed};
ghost use Rattle.gpu_alloc.specs.Sound as Sound;

use super::GpuAllocator;
use gpu_alloc_types::MemoryObject;
use std::alloc::Allocator;

impl<M: MemoryObject, A: Allocator> GpuAllocator<M, A> {
    /// A heap's ledger: how many bytes the held objects of its memory types count. Only imports bring it past the
    /// heap's size: apart from them, no more is ever held. The heap must exist.
    pub fn heap_used(&self, heap: u32) -> u128
        requires { heap < length (self.now.properties).memory_heaps }
        ensures { result ≡ ledger self.now heap }
    {
        self.heaps[heap as usize].used()
    }

    /// A heap's limit: how many bytes of it may be held before no more are asked for. It is at most the heap's size,
    /// and equals it where no limit was set. The heap must exist.
    pub fn heap_limit(&self, heap: u32) -> u64
        requires { heap < length (self.now.properties).memory_heaps }
        ensures { result ≡ heap_limit self.now heap }
    {
        self.heaps[heap as usize].limit()
    }

    /// Sets a heap's limit, in bytes. From now on the device is asked for no more of the heap than the limit leaves: a
    /// memory type that would need more is passed over. A value at or above the heap's size removes the limit. The heap
    /// must exist.
    ///
    /// Nothing that is held is released, even where it exceeds the limit. A place in a held object is used whatever the
    /// limit, and imports are never refused for it. How a request is served and how large chunks are still depends on
    /// the heap's size: no smaller chunk is tried. (By Vulkan's VK_EXT_memory_budget a driver reports how much of a
    /// heap a program should use. The original crate has no such limit.)
    pub fn set_heap_limit(&mut self, heap: u32, limit: u64)
        requires { heap < length (self.old.properties).memory_heaps }
        ensures set { self.new ≡ with_heap_limit self.old heap limit }

        // What follows from it.
        ensures told { heap_limit self.new heap ≡ min limit (heap_bytes self.old.properties heap) }
        ensures others { (other : ℕ) → other ≢ heap → heap_limit self.new other ≡ heap_limit self.old other }
        ensures owned { (block : Block) → IsOwned self.old block → IsOwned self.new block }
        ensures all { (blocks : List Block) → AreOwned self.old blocks → AreOwned self.new blocks }
        ensures agrees { StaysAgreed self.old self.new }
        ensures sound { Sound.IsSound self.new }
    {
        self.heaps[heap as usize].set_limit(limit);
        self.keeps_sound();
    }

    /// A heap's budget: how many bytes may still be asked of it. It is the limit less the ledger, or 0 where the ledger
    /// is at or above the limit. A request that needs more passes over the heap's memory types. The heap must exist.
    /// (The original crate names the budget in its README and does not keep it. What a driver reports by Vulkan's
    /// VK_EXT_memory_budget is for [`set_heap_limit`](GpuAllocator::set_heap_limit).)
    pub fn heap_budget(&self, heap: u32) -> u64
        requires { heap < length (self.now.properties).memory_heaps }
        ensures { result ≡ heap_budget self.now heap }
    {
        self.heaps[heap as usize].budget()
    }
}
