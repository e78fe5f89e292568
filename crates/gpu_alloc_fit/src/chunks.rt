//! Exact runs as a store of shared chunks: the runs, and the sizes of chunks and blocks.

ghost use Rattle.std.specs.Prelude.{◌≡◌, ◌≤◌, ◌<◌, IfOk, IsTrue, OnErr, max};
ghost use Rattle.gpu_alloc_types.specs.Device.{Asked};
ghost use Rattle.gpu_alloc_types.specs.Flags.{allocation_bits, has_bit, with_device_address};
ghost use Rattle.gpu_alloc_base.specs.Accounts.{account, chunks_and_remaining, IsCounted};
ghost use Rattle.gpu_alloc_base.specs.Case.{Answers};
ghost use Rattle.gpu_alloc_base.specs.Steps.{Begins};
ghost use Rattle.gpu_alloc_base.specs.Wanted.{requested};
ghost use Rattle.gpu_alloc_fit.specs.Fit as fit;
ghost use Rattle.gpu_alloc_fit.specs.FitRule.{HasRooms, Looks, fit_ask, fit_lawful, fit_rule};
ghost use Rattle.gpu_alloc_fit.specs.FitSound.{IsSoundFit};
ghost use Rattle.gpu_alloc_runs.specs.Space.{IsLiveFitSpan};
ghost use Rattle.gpu_alloc_shared.specs.Shared.{case_of};
ghost use Rattle.gpu_alloc_shared.specs.Sized.{ServesWhole};

use gpu_alloc_base::AllocationError;
use gpu_alloc_base::heap::Heap;
use gpu_alloc_base::steps::Steps;
use gpu_alloc_runs::{FitBlock, Fits};
use gpu_alloc_shared::{Ask, BlockSpan, ChunkSizes, Store, serving};
use gpu_alloc_types::{AllocationFlags, MemoryObject, MemoryPropertyFlags, ObjectDevice};
use std::alloc::{AllocError, Allocator, Global};
use std::marker::Model;
use std::sync::ledger::{Blank, Ledger};

/// Exact runs of one memory type's chunks, and the sizes of what comes next.
pub struct FitChunks<M: MemoryObject, A: Allocator = Global> {
    // (before the runs, which are large: with the sizes behind them a call takes a few instructions more)
    pub(crate) sizes: ChunkSizes,
    pub(crate) fits: Fits<M, A>,
}

impl<M: MemoryObject, A: Allocator> Model for FitChunks<M, A> {
    ghost use Rattle.gpu_alloc_fit.specs.FitRule.{Stored};
    ghost use Rattle.gpu_alloc_fit.specs.Codes.{stored_code};

    ghost Value = { Stored };

    ghost coded = { stored_code };

    ghost use Rattle.gpu_alloc_fit.specs.FitSound.{IsSoundFit};
    ghost use Rattle.gpu_alloc_shared.specs.Sized.{sized};

    ghost view = { λ a. record {
      state = sized (a.fits).space a.sizes;
      chunk_room = (a.fits).chunk_room;
      tile_room = (a.fits).tile_room;
    } };

    ghost invariant = { λ a. IsSoundFit (sized (a.fits).space a.sizes) };
}

impl<M: MemoryObject, A: Allocator> Store<M> for FitChunks<M, A> {
    ghost use Rattle.gpu_alloc_fit.specs.FitState.{FitState};

    type Ask = Ask;

    type Block = FitBlock<M>;

    type Returned = BlockSpan<M>;

    ghost State = { FitState };

    ghost state = { λ s. s.state };

    ghost rule = { fit_rule };

    ghost HasRoom = { λ s ask whole. HasRooms s };

    ghost Returns = { λ f returned slot. IsLiveFitSpan f.space (M.object returned.memory) returned.offset returned.size
        slot };

    #[inline(always)]
    fn memory_type(&self) -> u32 {
        self.sizes.memory_type
    }

    #[inline(always)]
    fn props(&self) -> MemoryPropertyFlags {
        self.sizes.props
    }

    #[inline(always)]
    fn asked(&self, size: u64, align_mask: u64) -> Option<Ask> {
        Some(self.sizes.asked(size, align_mask))
    }

    // (inline, it makes the compiler compute parts of the search for a run too early, at a few instructions more)
    #[inline(never)]
    fn chunk_size(&self, heap: &Heap, ask: Ask) -> u64 {
        let _ = heap;
        self.sizes.chunk_size(ask.size)
    }

    #[inline(always)]
    fn largest_chunk(&self) -> Option<u64> {
        Some(self.sizes.final_chunk_size)
    }

    #[inline(always)]
    fn has_number(&self) -> bool {
        true
    }

    #[inline(always)]
    fn has_place<L: Ledger>(&self, ask: Ask, looks: &mut Steps<L>) -> bool {
        self.fits.has_place(ask.size, ask.align_mask, looks)
    }

    #[inline(always)]
    fn take<L: Ledger, K: Ledger>(
        &mut self,
        ask: Ask,
        looks: &mut Steps<L>,
        splits: &mut Steps<K>,
    ) -> Result<Option<FitBlock<M>>, AllocError> {
        let _ = splits;
        let taken = self.fits.take(ask.size, ask.align_mask, looks);
        self.fits.keeps_sound();
        taken
    }

    #[inline(always)]
    fn reserve(&mut self, heap: &Heap, ask: Ask) -> Result<(), AllocError> {
        let _ = heap;
        let _ = ask;
        self.fits.reserve()
    }

    #[inline(always)]
    fn begin<K: Ledger>(
        &mut self,
        memory: M,
        handle: M,
        whole: u64,
        ask: Ask,
        splits: &mut Steps<K>,
    ) -> FitBlock<M> {
        let _ = splits;
        let block = self.fits.begin(memory, handle, whole, ask.size);
        self.fits.keeps_sound();
        self.sizes.grow(whole);
        block
    }

    #[inline(always)]
    fn put_back<L: Ledger>(
        &mut self,
        returned: BlockSpan<M>,
        steps: &mut Steps<L>,
    ) -> Option<(M, u64)> {
        let BlockSpan {
            memory,
            key,
            offset,
            size,
        } = returned;
        let gone = self.fits.put_back_span(memory, key, offset, size, steps);
        self.fits.keeps_sound();
        gone
    }

    #[inline(always)]
    fn take_whole(&mut self, keep_last: bool) -> Option<(M, u64)> {
        let _ = keep_last;
        let gone = self.fits.take_whole();
        self.fits.keeps_sound();
        let (memory, size, _) = gone?;
        Some((memory, size))
    }

    #[inline(always)]
    fn keeps_sound(&self) {
        let _ = &self.fits;
    }

    ghost lawful = { fit_lawful };
}

impl<M: MemoryObject, A: Allocator> FitChunks<M, A> {
    /// Allocates a block: [`serving::alloc`] with a counter of splits that nobody reads, since exact runs split none.
    #[inline(always)]
    pub(crate) fn alloc<D: ObjectDevice<M>, L: Ledger, K: Ledger>(
        &mut self,
        device: &mut D,
        size: u64,
        align_mask: u64,
        flags: AllocationFlags,
        heap: &mut Heap,
        allocations_remains: &mut u32,
        looks: &mut Steps<L>,
        splits: Blank,
    ) -> Result<FitBlock<M>, AllocationError>
        requires splits { Begins splits K.name K.parts }
        requires serves { ServesWhole (self.old).state.final_chunk (self.old).state.atom size align_mask }
        requires address { IsTrue (has_bit (allocation_bits flags) with_device_address)
            → IsTrue (D.properties device.old).buffer_device_address }
        requires agrees { fit.Agrees (self.old).state (D.properties device.old) (D.objects device.old) }
        requires counted { IsCounted (self.old).state.space.chunks heap.old allocations_remains.old }
        ensures allocates { Asked D.step device.old device.new
            (λ es. Answers (case_of fit_rule (account (self.old).state heap.old allocations_remains.old)
            (requested size align_mask flags)) es result
            (account (self.new).state heap.new allocations_remains.new)) }
        ensures objects { fit.ObjectsAfter (self.old).state result (self.new).state
            (D.objects device.old) (D.objects device.new) }
        ensures agrees { fit.Agrees (self.new).state (D.properties device.new) (D.objects device.new) }
        ensures properties { D.properties device.new ≡ D.properties device.old }
        ensures added { IfOk result (fit.Adds (self.old).state (self.new).state) }
        ensures leaves { fit.Leaves (self.old).state (self.new).state }
        ensures ledger { heap.new.used ≤ max heap.old.used heap.old.limit }
        ensures refused { OnErr result (((self.new).state ≡ (self.old).state)
            × ((heap.new ≡ heap.old) × (allocations_remains.new ≡ allocations_remains.old))) }
        ensures was { IsSoundFit (self.old).state }
        ensures sound { IsSoundFit (self.new).state }
        ensures counted { IsCounted (self.new).state.space.chunks heap.new allocations_remains.new }
        ensures total { chunks_and_remaining (self.new).state.space.chunks allocations_remains.new
            ≡ chunks_and_remaining (self.old).state.space.chunks allocations_remains.old }
        ensures looks { Looks (self.old).state (fit_ask (self.old).state size align_mask) looks.old looks.new }
    {
        serving::alloc(
            self,
            device,
            size,
            align_mask,
            flags,
            heap,
            allocations_remains,
            looks,
            &mut Steps::<K>::new(splits),
        )
    }
}
