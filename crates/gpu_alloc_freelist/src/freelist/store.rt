//! Free lists as a store of shared chunks: a list, and the sizes of chunks and blocks.

ghost use Rattle.std.specs.Prelude.{◌≡◌, ℕ, ◌≤◌, ◌<◌, IfOk, IsTrue, OnErr, max};
ghost use Rattle.gpu_alloc_types.specs.Device.{Asked};
ghost use Rattle.gpu_alloc_types.specs.Flags.{allocation_bits, has_bit, with_device_address};
ghost use Rattle.gpu_alloc_base.specs.Accounts.{account, chunks_and_remaining, IsCounted};
ghost use Rattle.gpu_alloc_base.specs.Case.{Answers, RefusesFirst};
ghost use Rattle.gpu_alloc_base.specs.Steps.{Begins};
ghost use Rattle.gpu_alloc_base.specs.Wanted.{requested, wanted};
ghost use Rattle.gpu_alloc_freelist.specs.FreeList.{MayGo};
ghost use Rattle.gpu_alloc_freelist.specs.FreeListAllocator as list;
ghost use Rattle.gpu_alloc_freelist.specs.FreeListRule.{list_lawful, list_rule};
ghost use Rattle.gpu_alloc_freelist.specs.FreeListSound.{IsSoundFreeList};
ghost use Rattle.gpu_alloc_freelist.specs.FreeListState.{IsLiveSlot};
ghost use Rattle.gpu_alloc_shared.specs.Shared.{case_of};
ghost use Rattle.gpu_alloc_shared.specs.Sized.{ServesWhole};

use super::list::FreeList;
use gpu_alloc_base::heap::Heap;
use gpu_alloc_base::steps::Steps;
use gpu_alloc_base::{AllocationError, FreeListBlock};
use gpu_alloc_shared::{Ask, ChunkSizes, Store, returning, serving};
use gpu_alloc_types::{AllocationFlags, MemoryObject, MemoryPropertyFlags, ObjectDevice};
use std::alloc::{AllocError, Allocator, Global};
use std::marker::Model;
use std::sync::ledger::{Blank, Ledger};

/// A free list of one memory type's chunks, and the sizes of what comes next.
pub struct FreeListChunks<M: MemoryObject, A: Allocator = Global> {
    pub(super) freelist: FreeList<M, A>,
    pub(super) sizes: ChunkSizes,
}

impl<M: MemoryObject, A: Allocator> Model for FreeListChunks<M, A> {
    ghost use Rattle.gpu_alloc_freelist.specs.FreeListState.{SizedList};
    ghost use Rattle.gpu_alloc_freelist.specs.Codes.{sized_list_code};

    ghost Value = { SizedList };

    ghost coded = { sized_list_code };

    ghost use Rattle.gpu_alloc_freelist.specs.FreeListSound.{IsSoundFreeList};
    ghost use Rattle.gpu_alloc_shared.specs.Sized.{sized};

    ghost view = { λ a. record {
      state = sized (a.freelist).space a.sizes;
      room = (a.freelist).room;
    } };

    ghost invariant = { λ a. IsSoundFreeList (sized (a.freelist).space a.sizes) };
}

impl<M: MemoryObject, A: Allocator> Store<M> for FreeListChunks<M, A> {
    ghost use Rattle.gpu_alloc_freelist.specs.FreeListState.{FreeListState};

    type Ask = Ask;

    type Block = FreeListBlock<M>;

    type Returned = FreeListBlock<M>;

    ghost State = { FreeListState };

    ghost state = { λ s. s.state };

    ghost rule = { list_rule };

    ghost HasRoom = { λ s ask whole. 0 < s.room };

    ghost Returns = { λ l returned slot. (slot ≡ returned) × IsLiveSlot l.space returned };

    #[inline(always)]
    fn memory_type(&self) -> u32 {
        self.sizes.memory_type
    }

    #[inline(always)]
    fn props(&self) -> MemoryPropertyFlags {
        self.sizes.props
    }

    #[inline(always)]
    fn asked(&self, size: u64, align_mask: u64) -> Option<Ask> {
        Some(self.sizes.asked(size, align_mask))
    }

    #[inline(always)]
    fn chunk_size(&self, heap: &Heap, ask: Ask) -> u64 {
        let _ = heap;
        self.sizes.chunk_size(ask.size)
    }

    #[inline(always)]
    fn largest_chunk(&self) -> Option<u64> {
        Some(self.sizes.final_chunk_size)
    }

    #[inline(always)]
    fn has_number(&self) -> bool {
        self.freelist.has_number()
    }

    #[inline(always)]
    fn has_place<L: Ledger>(&self, ask: Ask, looks: &mut Steps<L>) -> bool {
        let _ = looks;
        self.freelist.has_place(ask.align_mask, ask.size)
    }

    #[inline(always)]
    fn take<L: Ledger, K: Ledger>(
        &mut self,
        ask: Ask,
        looks: &mut Steps<L>,
        splits: &mut Steps<K>,
    ) -> Result<Option<FreeListBlock<M>>, AllocError> {
        let _ = looks;
        let _ = splits;
        self.freelist.get_block(ask.align_mask, ask.size)
    }

    #[inline(always)]
    fn reserve(&mut self, heap: &Heap, ask: Ask) -> Result<(), AllocError> {
        let _ = heap;
        let _ = ask;
        self.freelist.reserve()
    }

    #[inline(always)]
    fn begin<K: Ledger>(
        &mut self,
        memory: M,
        handle: M,
        whole: u64,
        ask: Ask,
        splits: &mut Steps<K>,
    ) -> FreeListBlock<M> {
        let _ = splits;
        let block = self
            .freelist
            .begin(memory, handle, whole, ask.align_mask, ask.size);
        self.sizes.grow(whole);
        block
    }

    #[inline(always)]
    fn put_back<L: Ledger>(
        &mut self,
        returned: FreeListBlock<M>,
        steps: &mut Steps<L>,
    ) -> Option<(M, u64)> {
        self.freelist.insert_block(returned, steps);
        None
    }

    #[inline(always)]
    fn take_whole(&mut self, keep_last: bool) -> Option<(M, u64)> {
        let (memory, size, _) = self.freelist.take_whole(keep_last)?;
        Some((memory, size))
    }

    #[inline(always)]
    fn keeps_sound(&self) {
        let _ = &self.freelist;
    }

    ghost lawful = { list_lawful };
}

// (free lists count neither looks nor splits, and nobody reads what a return counts)
impl<M: MemoryObject, A: Allocator> FreeListChunks<M, A> {
    /// Allocates a block: [`serving::alloc`] with counters that nobody reads.
    #[inline(always)]
    pub(super) fn alloc<D: ObjectDevice<M>, L: Ledger, K: Ledger>(
        &mut self,
        device: &mut D,
        size: u64,
        align_mask: u64,
        flags: AllocationFlags,
        heap: &mut Heap,
        allocations_remains: &mut u32,
        looks: Blank,
        splits: Blank,
    ) -> Result<FreeListBlock<M>, AllocationError>
        requires looks { Begins looks L.name L.parts }
        requires splits { Begins splits K.name K.parts }
        requires serves { ServesWhole (self.old).state.final_chunk (self.old).state.atom size align_mask }
        requires address { IsTrue (has_bit (allocation_bits flags) with_device_address)
            → IsTrue (D.properties device.old).buffer_device_address }
        requires agrees { list.Agrees (self.old).state (D.properties device.old) (D.objects device.old) }
        requires counted { IsCounted (self.old).state.space.chunks heap.old allocations_remains.old }
        ensures allocates { Asked D.step device.old device.new
            (λ es. Answers (case_of list_rule (account (self.old).state heap.old allocations_remains.old)
            (requested size align_mask flags)) es result
            (account (self.new).state heap.new allocations_remains.new)) }
        ensures objects { list.ObjectsAfter (self.old).state result (self.new).state
            (D.objects device.old) (D.objects device.new) }
        ensures agrees { list.Agrees (self.new).state (D.properties device.new) (D.objects device.new) }
        ensures properties { D.properties device.new ≡ D.properties device.old }
        ensures added { IfOk result (list.Adds (self.old).state (self.new).state) }
        ensures leaves { list.Leaves (self.old).state (self.new).state }
        ensures ledger { heap.new.used ≤ max heap.old.used heap.old.limit }
        ensures refused { OnErr result (((self.new).state ≡ (self.old).state)
            × ((heap.new ≡ heap.old) × (allocations_remains.new ≡ allocations_remains.old))) }
        ensures was { IsSoundFreeList (self.old).state }
        ensures sound { IsSoundFreeList (self.new).state }
        ensures counted { IsCounted (self.new).state.space.chunks heap.new allocations_remains.new }
        ensures total { chunks_and_remaining (self.new).state.space.chunks allocations_remains.new
            ≡ chunks_and_remaining (self.old).state.space.chunks allocations_remains.old }
    {
        serving::alloc(
            self,
            device,
            size,
            align_mask,
            flags,
            heap,
            allocations_remains,
            &mut Steps::<L>::new(looks),
            &mut Steps::<K>::new(splits),
        )
    }

    /// The error that `alloc` gives first: [`serving::refuses`] with a counter that nobody reads.
    #[inline(always)]
    pub(super) fn refuses<L: Ledger>(
        &self,
        size: u64,
        align_mask: u64,
        heap: &Heap,
        allocations_remains: u32,
        looks: Blank,
    ) -> Option<AllocationError>
        requires looks { Begins looks L.name L.parts }
        requires serves { ServesWhole (self.now).state.final_chunk (self.now).state.atom size align_mask }
        ensures refuses { (flags : ℕ) → RefusesFirst (case_of list_rule
            (account (self.now).state heap.now allocations_remains) (wanted size align_mask flags)) result }
        ensures sound { IsSoundFreeList (self.now).state }
    {
        self.keeps_sound();
        serving::refuses(
            self,
            size,
            align_mask,
            heap,
            allocations_remains,
            &mut Steps::<L>::new(looks),
        )
    }

    /// Returns a block: [`returning::dealloc`] with a counter that nobody reads. No chunk is released with it.
    #[inline(always)]
    pub(super) fn dealloc<D: ObjectDevice<M>, L: Ledger>(
        &mut self,
        device: &mut D,
        block: FreeListBlock<M>,
        heap: &mut Heap,
        allocations_remains: &mut u32,
        steps: Blank,
    )
        requires steps { Begins steps L.name L.parts }
        requires live { IsLiveSlot (self.old).state.space block }
        requires agrees { list.Agrees (self.old).state (D.properties device.old) (D.objects device.old) }
        requires counted { IsCounted (self.old).state.space.chunks heap.old allocations_remains.old }
        ensures device { device.new ≡ device.old }
        ensures agrees { list.Agrees (self.new).state (D.properties device.new) (D.objects device.new) }
        ensures counted { IsCounted (self.new).state.space.chunks heap.new allocations_remains.new }
        ensures back { account (self.new).state heap.new allocations_remains.new
            ≡ list.account_without (account (self.old).state heap.old allocations_remains.old) block }
        ensures removed { list.Removes (self.old).state block (self.new).state }
    {
        returning::dealloc(
            self,
            device,
            block,
            heap,
            allocations_remains,
            &mut Steps::<L>::new(steps),
        );
    }

    /// Whether a count already shows that no chunk may be released.
    #[inline(always)]
    pub(super) fn keeps_all(&self, keep_last: bool) -> bool
        ensures { IsTrue result → (number : ℕ) → MayGo (self.now).state.space keep_last number → ⊥ }
    {
        self.freelist.keeps_all(keep_last)
    }
}
