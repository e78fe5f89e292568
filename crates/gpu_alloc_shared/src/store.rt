//! What keeps shared chunks and the blocks in them, by a rule of its own.

ghost use Rattle.std.specs.Prelude.{◌≡◌, ℕ, ◌<◌, ◌≤◌, ◌↔◌, IfNone, IfOk, IfSome, IsTrue, OnOk, Some, is_some};
ghost use Rattle.std.specs.FinMap as map;
ghost use Rattle.gpu_alloc_types.specs.Flags.{property_bits};
ghost use Rattle.gpu_alloc_base.specs.declared.heap.Heap.{Heap as HeapOf};
ghost use Rattle.gpu_alloc_shared.specs.Rule.{IsLawful, IsLive, IsUnheldIn, Rule};
ghost use Rattle.gpu_alloc_shared.specs.Shared.{Adds, Leaves, Removes, Takes, object_of, tried, without_block};
ghost use Rattle.gpu_alloc_shared.specs.Shared.{without_chunk};

use gpu_alloc_base::heap::Heap;
use gpu_alloc_base::steps::Steps;
use gpu_alloc_types::{MemoryObject, MemoryPropertyFlags};
use std::alloc::AllocError;
use std::sync::ledger::Ledger;

/// A request to a store whose blocks have any size.
#[derive(Clone, Copy)]
pub struct Ask {
    /// The size of the block, in bytes.
    pub size: u64,

    /// Its alignment less one.
    pub align_mask: u64,
}

/// A live block by its bytes, to be returned.
pub struct BlockSpan<M> {
    /// A handle of its object.
    pub memory: M,

    /// The key under which its store finds it, if it is the block's own.
    pub key: usize,

    /// Where it starts in the object, in bytes.
    pub offset: u64,

    /// How long it is, in bytes.
    pub size: u64,
}

/// Shared chunks of one memory type, and the blocks that are live in them.
///
/// A store decides by its `rule` where a block lies, how large a new chunk is and which chunks are released. What it
/// does not keep is the device, the heap's ledger and the count of objects: [`serving`](crate::serving) and
/// [`returning`](crate::returning) are handed those, for any store.
pub trait Store<M: MemoryObject> {
    /// A request in the store's own terms.
    type Ask: Copy;

    /// A block, with a handle of its chunk's object.
    type Block;

    /// What a live block is returned by.
    type Returned;

    ghost State: { Type 0 };

    /// What is held and live, and what sizes depend on.
    ghost state: { Self → State };

    /// By what it decides.
    ghost rule: { Rule State Self.Ask Self.Block };

    /// There is room for one more chunk of this size with one block for this request.
    ghost HasRoom: { Self → Self.Ask → ℕ → Type 0 };

    /// This live block is returned by it.
    ghost Returns: { State → Self.Returned → Self.Block → Type 0 };

    /// The index of the memory type.
    fn memory_type(&self) -> u32
        ensures { result ≡ (rule.served (state self.now)).memory_type };

    /// The memory type's properties.
    fn props(&self) -> MemoryPropertyFlags
        ensures { property_bits result ≡ (rule.served (state self.now)).props };

    /// A request for `size` bytes at a multiple of `align_mask + 1` in the store's own terms, or `None` where a chunk
    /// for it would have 2^64 bytes or more.
    fn asked(&self, size: u64, align_mask: u64) -> Option<Self::Ask>
        requires serves { (heap : HeapOf) × rule.Serves (state self.now) heap size align_mask }
        ensures some { IfSome result (λ ask. (ask ≡ rule.asked (state self.now) size align_mask) × rule.Fits ask) }
        ensures asked { IfSome result (rule.IsAsk (state self.now)) }
        ensures holds { IfSome result (λ ask. (heap : HeapOf) → rule.Serves (state self.now) heap size align_mask
            → rule.Holds (state self.now) heap ask) }
        ensures none { IfNone result (rule.Fits (rule.asked (state self.now) size align_mask) → ⊥) };

    /// The size of a new chunk for a request, in bytes, by the ledger of its heap.
    fn chunk_size(&self, heap: &Heap, ask: Self::Ask) -> u64
        requires asked { rule.IsAsk (state self.now) ask }
        requires holds { rule.Holds (state self.now) heap.now ask }
        ensures is { result ≡ rule.chunk_size (state self.now) heap.now ask }
        ensures some { 0 < result };

    /// A size in bytes that no new chunk exceeds, whatever is asked for; then each request fits a chunk. `None` says
    /// nothing: each request's own chunk has to be looked at.
    fn largest_chunk(&self) -> Option<u64>
        ensures { IfSome result (λ largest. (heap : HeapOf) (size align_mask : ℕ)
            → rule.Serves (state self.now) heap size align_mask
            → rule.Fits (rule.asked (state self.now) size align_mask)
            × (rule.chunk_size (state self.now) heap (rule.asked (state self.now) size align_mask) ≤ largest)) };

    /// Whether one more chunk may be told apart from all before it.
    fn has_number(&self) -> bool
        ensures { IsTrue result ↔ rule.HasNumber (state self.now) };

    /// Whether there is room in a held chunk. `looks` counts the looks of the search (`looked`).
    fn has_place<L: Ledger>(&self, ask: Self::Ask, looks: &mut Steps<L>) -> bool
        requires asked { rule.IsAsk (state self.now) ask }
        ensures place { IsTrue result ↔ rule.HasPlace (state self.now) ask }
        ensures looked { rule.Looks (state self.now) ask looks.old looks.new };

    /// Takes a place in a held chunk, or returns `None` where there is none. `looks` counts the looks of the search,
    /// and `splits` what is split for the block (`counted`).
    ///
    /// The only error is want of host memory, after which nothing is taken.
    fn take<L: Ledger, K: Ledger>(
        &mut self,
        ask: Self::Ask,
        looks: &mut Steps<L>,
        splits: &mut Steps<K>,
    ) -> Result<Option<Self::Block>, AllocError>
        requires asked { rule.IsAsk (state self.old) ask }
        ensures takes { Takes rule (state self.old) ask result (state self.new) }
        ensures added { IfOk result (λ block. IfSome block (Adds rule (state self.old) (state self.new))) }
        ensures leaves { Leaves rule (state self.old) (state self.new) }
        ensures counted { rule.Tries (state self.old) ask (tried rule result) looks.old looks.new splits.old splits.new };

    /// Makes room for one more chunk with a block for this request. Nothing else changes.
    ///
    /// The only error is want of host memory.
    fn reserve(&mut self, heap: &Heap, ask: Self::Ask) -> Result<(), AllocError>
        requires asked { rule.IsAsk (state self.old) ask }
        requires holds { rule.Holds (state self.old) heap.now ask }
        ensures room { OnOk result (HasRoom self.new ask (rule.chunk_size (state self.old) heap.now ask)) }
        ensures kept { state self.new ≡ state self.old };

    /// Holds a new chunk of `whole` bytes, and makes a block in it, which gets `handle`. `splits` counts what is split
    /// for the block (`begun`). It allocates nothing and cannot fail.
    fn begin<K: Ledger>(
        &mut self,
        memory: M,
        handle: M,
        whole: u64,
        ask: Self::Ask,
        splits: &mut Steps<K>,
    ) -> Self::Block
        requires same { M.object handle ≡ M.object memory }
        requires room { HasRoom self.old ask whole }
        requires asked { rule.IsAsk (state self.old) ask }
        requires size { (heap : HeapOf) × (rule.Holds (state self.old) heap ask
            × (whole ≡ rule.chunk_size (state self.old) heap ask)) }
        requires new_object { IsUnheldIn (rule.chunks (state self.old)) (M.object memory) }
        requires number { rule.HasNumber (state self.old) }
        ensures object { object_of rule result ≡ M.object memory }
        ensures begins { rule.Begins (state self.old) ask whole result }
        ensures state { state self.new ≡ rule.in_new_chunk (state self.old) ask whole result }
        ensures added { Adds rule (state self.old) (state self.new) result }
        ensures leaves { Leaves rule (state self.old) (state self.new) }
        ensures begun { rule.Begun (state self.old) ask whole splits.old splits.new };

    /// Returns a live block. Where its chunk is released with it, the chunk is removed, and its handle is returned with
    /// its size in bytes. `steps` counts the steps of the return (`counted`). It allocates nothing and cannot fail.
    fn put_back<L: Ledger>(
        &mut self,
        returned: Self::Returned,
        steps: &mut Steps<L>,
    ) -> Option<(M, u64)>
        requires live { (block : Self.Block) × Returns (state self.old) returned block }
        ensures was { (block : Self.Block) → Returns (state self.old) returned block → IsLive rule (state self.old) block }
        ensures stays { IfNone result ((block : Self.Block) → Returns (state self.old) returned block
            → (rule.ReleasedWith (state self.old) block → ⊥)
            × (state self.new ≡ without_block rule (state self.old) block)) }
        ensures goes { IfSome result (λ gone. (block : Self.Block) → Returns (state self.old) returned block
            → rule.ReleasedWith (state self.old) block
            × ((map.get (rule.chunks (state self.old)) (rule.key block)
            ≡ Some (record { object = M.object gone.0; size = gone.1 }))
            × (state self.new ≡ without_chunk rule (without_block rule (state self.old) block) (rule.key block)))) }
        ensures removed { (block : Self.Block) → Returns (state self.old) returned block
            → Removes rule (state self.old) block (state self.new) }
        ensures counted { (block : Self.Block) → Returns (state self.old) returned block
            → rule.Joins (state self.old) block steps.old steps.new };

    /// Removes the chunk that is released next, if there is one, and returns its handle and its size in bytes.
    /// `keep_last` keeps the chunk of the last free run, where the rule knows one. It allocates nothing and cannot
    /// fail.
    fn take_whole(&mut self, keep_last: bool) -> Option<(M, u64)>
        ensures none { IfNone result (((key : ℕ) → rule.IsNext (state self.old) keep_last key → ⊥)
            × (state self.new ≡ state self.old)) }
        ensures some { IfSome result (λ gone. (key : ℕ) × (rule.IsNext (state self.old) keep_last key
            × ((map.get (rule.chunks (state self.old)) key ≡ Some (record { object = M.object gone.0; size = gone.1 }))
            × (state self.new ≡ without_chunk rule (state self.old) key)))) }
        ensures left { rule.Left (state self.new) keep_last (is_some result) };

    /// A lemma: does nothing at run time.
    fn keeps_sound(&self)
        ensures { rule.IsSound (state self.now) };

    /// What the shell rests on.
    ghost lawful: { IsLawful rule };
}
