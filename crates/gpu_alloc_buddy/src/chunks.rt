//! Pairs of halves as a store of shared chunks: the pairs, and the sizes of chunks and blocks.

ghost use Rattle.std.specs.Prelude.{◌≡◌, ◌≤◌, ◌<◌, ◌^◌};
ghost use Rattle.gpu_alloc_base.specs.AlignMasks.{IsAlignMask};
ghost use Rattle.gpu_alloc_buddy.specs.BuddyRule.{HasRooms, buddy_lawful, buddy_rule, order_for};
ghost use Rattle.gpu_alloc_buddy.specs.BuddyState.{IsLiveBuddyLeaf, chunk_size};

use gpu_alloc_base::BuddyBlock;
use gpu_alloc_base::buddy_block::into_parts;
use gpu_alloc_base::heap::Heap;
use gpu_alloc_base::sizes::next_order;
use gpu_alloc_base::steps::Steps;
use gpu_alloc_pairs::{Pairs, bytes};
use gpu_alloc_shared::Store;
use gpu_alloc_types::{MemoryObject, MemoryPropertyFlags};
use std::alloc::{AllocError, Allocator, Global};
use std::marker::Model;
use std::sync::ledger::Ledger;

/// Pairs of halves of one memory type's chunks, and the sizes of what comes next.
pub struct BuddyChunks<M: MemoryObject, A: Allocator = Global> {
    pub(crate) pairs: Pairs<M, A>,
    pub(crate) next_order: u32,
    pub(crate) minimal_size: u64,
    pub(crate) memory_type: u32,
    pub(crate) props: MemoryPropertyFlags,
    pub(crate) atom: u64,
}

impl<M: MemoryObject, A: Allocator> Model for BuddyChunks<M, A> {
    ghost use Rattle.gpu_alloc_buddy.specs.BuddyRule.{Stored};
    ghost use Rattle.gpu_alloc_buddy.specs.Codes.{stored_code};

    ghost Value = { Stored };

    ghost coded = { stored_code };

    ghost use Rattle.gpu_alloc_types.specs.Flags.{property_bits};
    ghost use Rattle.gpu_alloc_buddy.specs.BuddySound.{IsSoundBuddy};
    ghost use Rattle.gpu_alloc_buddy.specs.BuddyState.{buddy_in};

    ghost view = { λ a. record {
      state = buddy_in (a.pairs).space a.next_order a.minimal_size a.memory_type (property_bits a.props) a.atom;
      pairs = a.pairs;
    } };

    ghost invariant = { λ a. IsSoundBuddy
        (buddy_in (a.pairs).space a.next_order a.minimal_size a.memory_type (property_bits a.props) a.atom) };
}

impl<M: MemoryObject, A: Allocator> Store<M> for BuddyChunks<M, A> {
    ghost use Rattle.gpu_alloc_buddy.specs.BuddyState.{Buddy};

    type Ask = u32;

    type Block = BuddyBlock<M>;

    type Returned = BuddyBlock<M>;

    ghost State = { Buddy };

    ghost state = { λ s. s.state };

    ghost rule = { buddy_rule };

    ghost HasRoom = { λ s order whole. HasRooms s order };

    ghost Returns = { λ b returned leaf. IsLiveBuddyLeaf b leaf × (leaf ≡ returned) };

    #[inline(always)]
    fn memory_type(&self) -> u32 {
        self.memory_type
    }

    #[inline(always)]
    fn props(&self) -> MemoryPropertyFlags {
        self.props
    }

    #[inline(always)]
    fn asked(&self, size: u64, align_mask: u64) -> Option<u32> {
        let order = self.rounded_order(size, align_mask);
        if order > 62 {
            return None;
        }
        Some(order)
    }

    #[inline(always)]
    fn chunk_size(&self, heap: &Heap, order: u32) -> u64 {
        let _ = heap;
        bytes(self.chunk_order(order))
    }

    #[inline(always)]
    fn largest_chunk(&self) -> Option<u64> {
        None
    }

    #[inline(always)]
    fn has_number(&self) -> bool {
        true
    }

    #[inline(always)]
    fn has_place<L: Ledger>(&self, order: u32, looks: &mut Steps<L>) -> bool {
        self.pairs.has_place(order, looks)
    }

    #[inline(always)]
    fn take<L: Ledger, K: Ledger>(
        &mut self,
        order: u32,
        looks: &mut Steps<L>,
        splits: &mut Steps<K>,
    ) -> Result<Option<BuddyBlock<M>>, AllocError> {
        let taken = self.pairs.take(order, looks, splits);
        self.pairs.keeps_exact();
        taken
    }

    #[inline(always)]
    fn reserve(&mut self, heap: &Heap, order: u32) -> Result<(), AllocError> {
        let _ = heap;
        let chunk_order = self.chunk_order(order);
        self.pairs.reserve(order, chunk_order)
    }

    #[inline(always)]
    fn begin<K: Ledger>(
        &mut self,
        memory: M,
        handle: M,
        whole: u64,
        order: u32,
        splits: &mut Steps<K>,
    ) -> BuddyBlock<M> {
        let _ = whole;
        let chunk_order = self.chunk_order(order);
        let leaf = self.pairs.begin(memory, chunk_order, order, splits);
        self.pairs.keeps_exact();
        self.next_order = chunk_order;
        BuddyBlock::new(handle, leaf)
    }

    #[inline(always)]
    fn put_back<L: Ledger>(
        &mut self,
        block: BuddyBlock<M>,
        releases: &mut Steps<L>,
    ) -> Option<(M, u64)> {
        let (_, leaf) = into_parts(block);
        let gone = self.pairs.put_back(leaf, releases);
        self.pairs.keeps_exact();
        gone
    }

    #[inline(always)]
    fn take_whole(&mut self, keep_last: bool) -> Option<(M, u64)> {
        let _ = keep_last;
        None
    }

    #[inline(always)]
    fn keeps_sound(&self) {
        let _ = &self.pairs;
    }

    ghost lawful = { buddy_lawful };
}

impl<M: MemoryObject, A: Allocator> BuddyChunks<M, A> {
    /// The size of a block for a request, as the exponent of a power of two.
    #[inline(always)]
    fn rounded_order(&self, size: u64, align_mask: u64) -> u32
        requires { IsAlignMask align_mask }
        ensures { result ≡ order_for (self.now).state size align_mask }
    {
        let aligned = size.max(align_mask + 1);
        let least = self.atom.max(self.minimal_size);
        next_order(aligned.max(least))
    }

    /// The size of a chunk for a block of 2^order bytes, as the exponent of a power of two.
    #[inline(always)]
    fn chunk_order(&self, order: u32) -> u32
        requires { order ≤ 62 }
        ensures is { chunk_size (self.now).state (2 ^ order) ≡ 2 ^ result }
        ensures longer { order < result }
        ensures bound { result ≤ 63 }
    {
        self.next_order.max(order + 1)
    }
}
