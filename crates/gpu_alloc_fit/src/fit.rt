//! The allocator of exact runs: shared chunks of one memory type, cut into blocks as long as asked.

ghost use Rattle.std.specs.Prelude.{◌≡◌, ℕ, ◌+◌, ◌≤◌, ◌<◌, ◌^◌, ◌↔◌, Contains, IfOk, IfSome, OnErr};
ghost use Rattle.std.specs.Prelude.{IsTrue, MatchOption, OnOk, max, nat_le};
ghost use Rattle.std.specs.FinMap as map;
ghost use Rattle.std.specs.Int.{is_power_of_two};
ghost use Rattle.gpu_alloc_types.specs.Flags.{allocation_bits, property_bits, has_bit, with_device_address};
ghost use Rattle.gpu_alloc_types.specs.Device.{Asked};
ghost use Rattle.gpu_alloc_types.specs.declared.types.FreeRange.{FreeRange as Range};
ghost use Rattle.gpu_alloc_base.specs.Accounts.{account, IsCounted, chunks_and_remaining};
ghost use Rattle.gpu_alloc_base.specs.AlignMasks.{IsAlignMask};
ghost use Rattle.gpu_alloc_base.specs.Case.{RefusesFirst};
ghost use Rattle.gpu_alloc_base.specs.FreeSpace.{IsMultipleOf};
ghost use Rattle.gpu_alloc_base.specs.RangeOrder.{AreInOrder};
ghost use Rattle.gpu_alloc_base.specs.Sizes.{up};
ghost use Rattle.gpu_alloc_base.specs.Wanted.{requested, wanted};
ghost use Rattle.gpu_alloc_base.specs.declared.free_list_block.Slot.{Slot as LiveSlot};
ghost use Rattle.gpu_alloc_fit.specs.Fit.{Adds, Agrees, CallAllocates, Cleans, Frees, HoldsNothing};
ghost use Rattle.gpu_alloc_fit.specs.Fit.{IsGranted, KeepsSettings, Leaves, LeavesNoRest, ObjectsAfter};
ghost use Rattle.gpu_alloc_fit.specs.Fit.{ObjectsFreed, Removes, case_of, opened};
ghost use Rattle.gpu_alloc_fit.specs.FitSound.{IsSoundFit};
ghost use Rattle.gpu_alloc_runs.specs.Choice.{BeginsClass};
ghost use Rattle.gpu_alloc_runs.specs.Listed.{AddsSlots, ListsChunks};
ghost use Rattle.gpu_alloc_runs.specs.Space.{HasPlace, IsFitRunOf, IsLiveFitSpan, IsLiveSlot, IsNoLiveFitSpan, LooksAtFew, neighbours};

use crate::chunks::FitChunks;
use gpu_alloc_base::AllocationError;
use gpu_alloc_base::buddy_block::Leaf;
use gpu_alloc_base::free_list_block::{Slot, into_parts};
use gpu_alloc_base::heap::Heap;
use gpu_alloc_base::steps::Steps;
use gpu_alloc_runs::{Chunk, FitBlock, Fits};
use gpu_alloc_shared::{BlockSpan, ChunkSizes, Store, returning, serving};
use gpu_alloc_types::{
    AllocationFlags, FreeRange, MemoryObject, MemoryPropertyFlags, ObjectDevice,
};
use slab::Iter;
use std::alloc::{AllocError, Allocator, Global};
use std::marker::{Brand, Model};
use std::sync::ledger::{Blank, Ledger};

/// Gives out blocks of shared chunks of one memory type. It cannot be dropped: [`close`](FitAllocator::close) ends it.
///
/// Between calls each held chunk has an object of its own, of at most 2^62 bytes, and at most one of them is wholly
/// free. Each live block lies inside its chunk, and no two of them share a byte. Chunks and blocks begin and end at
/// multiples of the atom.
pub struct FitAllocator<M: MemoryObject, A: Allocator = Global> {
    store: FitChunks<M, A>,
}

impl<M: MemoryObject, A: Allocator> Model for FitAllocator<M, A> {
    ghost use Rattle.gpu_alloc_fit.specs.FitState.{FitState};
    ghost use Rattle.gpu_alloc_fit.specs.Codes.{fitting_code};

    ghost Value = { FitState };

    ghost coded = { fitting_code };

    ghost view = { λ a. (a.store).state };
}

impl<M: MemoryObject, A: Allocator + Copy> FitAllocator<M, A> {
    /// An allocator that holds nothing, for a memory type with these properties. Each size is in bytes and a multiple
    /// of `atom_mask + 1`, which is a power of two of at most 2^62. The first chunk has at least `starting_chunk_size`,
    /// which is at least one atom. None has more than `final_chunk_size`, which is no less and at most 2^62.
    ///
    /// Its lists take their memory from `alloc`; this call takes none.
    ///
    /// Nothing is held or live (`empty`). By [`agrees_at_first`](crate::laws::agrees_at_first) a caller knows that the
    /// allocator agrees with a device that offers the memory type.
    pub fn new(
        alloc: A,
        starting_chunk_size: u64,
        final_chunk_size: u64,
        memory_type: u32,
        props: MemoryPropertyFlags,
        atom_mask: u64,
    ) -> Self
        requires atom { IsTrue (is_power_of_two (atom_mask + 1)) }
        requires atom_bound { atom_mask + 1 ≤ 2 ^ 62 }
        requires starting { IsMultipleOf (atom_mask + 1) starting_chunk_size }
        requires nonempty { 0 < starting_chunk_size }
        requires largest { IsMultipleOf (atom_mask + 1) final_chunk_size }
        requires growing { starting_chunk_size ≤ final_chunk_size }
        requires bound { final_chunk_size ≤ 2 ^ 62 }
        ensures opened { result ≡ opened starting_chunk_size final_chunk_size memory_type (property_bits props)
            (atom_mask + 1) }
        ensures empty { HoldsNothing memory_type (property_bits props) result }
        ensures sound { IsSoundFit result }
    {
        let fits = Fits::new(alloc);
        fits.keeps_sound();
        FitAllocator {
            store: FitChunks {
                fits,
                sizes: ChunkSizes {
                    chunk_size: starting_chunk_size,
                    final_chunk_size,
                    memory_type,
                    props,
                    atom_mask,
                },
            },
        }
    }

    /// The free runs of the held chunks: the longest ranges of bytes that lie in a chunk and in no live block. They are
    /// sorted by the name of their object, then by start. Each is in bytes of its object. The list takes its memory
    /// from `alloc`.
    ///
    /// The only error is want of host memory. Nothing changes.
    pub fn free_ranges(&self, alloc: A) -> Result<Vec<FreeRange, A>, AllocError>
        ensures runs { IfOk result (λ ranges. (r : Range) → Contains ranges.items r ↔ IsFitRunOf (self.now).space r) }
        ensures order { IfOk result (λ ranges. AreInOrder ranges.items) }
    {
        self.store.fits.free_ranges(alloc)
    }
}

impl<M: MemoryObject, A: Allocator> FitAllocator<M, A> {
    /// Allocates a block of exactly `size` bytes, rounded up to whole atoms, at a multiple of `align_mask + 1` and of
    /// the atom. It lies in a free run with room. Only where no run has room, it is the front of a new chunk that the
    /// device is asked for with these flags.
    ///
    /// A new chunk has the allocator's next size: at first the starting one, and after each chunk twice that chunk,
    /// capped at the final size. Where that is below the rounded size, it is doubled until it suffices, again capped at
    /// the final size. (This is the original crate's rule for a free list's chunks.) A chunk is mapped whole where it
    /// is host-visible. `heap` is the ledger of the memory type's heap, to which a new chunk is added.
    /// `allocations_remains` is how many more objects may be held, which a new chunk lowers by one.
    ///
    /// The size must be at least 1, and rounded at most the final size. `align_mask + 1` must be a power of two of at
    /// most 2^63. The address flag may be set only where the device has the feature. The device must be the one that
    /// this allocator has served: it has the memory type with the properties given to `new`, and each held chunk.
    ///
    /// Errors, after which nothing has changed, and a chunk that was made is released:
    ///
    /// - `TooManyObjects` where a chunk is needed and no more objects may be held
    /// - `OutOfDeviceMemory` where a chunk is needed that `heap` has no room for (`Heap::fits`; the device is then not
    ///   asked), and where the device gives that answer
    /// - `OutOfHostMemory` where the allocator or the device lacks host memory, and where a chunk cannot be mapped for
    ///   another reason.
    ///
    /// A block in a held chunk is given whatever `heap` counts.
    ///
    /// `heap` must count no less than the sum of the held chunks, and how many more objects may be held plus the number
    /// of held chunks must fit 32 bits. Both hold again after the call. The ledger never exceeds the greater of its old
    /// value and the heap's limit (`ledger`).
    ///
    /// Each block that a caller had in hand is still live (`leaves`). The new one is live too, and shares no byte with
    /// any of them (`added`). The same requests as before are valid next (`settings`).
    ///
    /// Which run: lengths are sorted into classes, one for each whole number of 256-byte units below 64, and from there
    /// on eight for each power of two. A class is *sure* where each of its runs has room, wherever it starts. The run's
    /// class is no higher than the lowest sure class that has runs. A run with room in a lower class is passed over
    /// only for one of a sure class, and only where the first four runs lack room, from the class of the size on. A
    /// wholly free chunk comes last in its class. In the run the block has the last place.
    ///
    /// `looks` counts the free runs that are looked at: at most five where a sure class has runs, and otherwise at most
    /// one more than those without room from the size's class on, below the first sure one (`looks`). It is at most one
    /// where `align_mask + 1` is at most the atom and the rounded size is the least of its class (`one`), and at least
    /// one where a run has room (`some`).
    pub fn alloc<D: ObjectDevice<M>, L: Ledger>(
        &mut self,
        device: &mut D,
        size: u64,
        align_mask: u64,
        flags: AllocationFlags,
        heap: &mut Heap,
        allocations_remains: &mut u32,
        looks: &mut Steps<L>,
    ) -> Result<FitBlock<M>, AllocationError>
        requires nonempty { 0 < size }
        requires fits { up size (self.old).atom ≤ (self.old).final_chunk }
        requires alignment { IsAlignMask align_mask }
        requires address { IsTrue (has_bit (allocation_bits flags) with_device_address)
            → IsTrue (D.properties device.old).buffer_device_address }
        requires agrees { Agrees self.old (D.properties device.old) (D.objects device.old) }
        requires counted { IsCounted (self.old).space.chunks heap.old allocations_remains.old }

        // The calls of the device, the answer, and what changed.
        ensures allocates { Asked D.step device.old device.new
            (CallAllocates self.old heap.old allocations_remains.old (requested size align_mask flags) result
            self.new heap.new allocations_remains.new) }
        ensures objects { ObjectsAfter self.old result self.new (D.objects device.old) (D.objects device.new) }
        ensures agrees { Agrees self.new (D.properties device.new) (D.objects device.new) }
        ensures properties { D.properties device.new ≡ D.properties device.old }

        // What follows from it.
        ensures granted { IfOk result (IsGranted self.old (requested size align_mask flags) self.new) }
        ensures added { IfOk result (Adds self.old self.new) }
        ensures leaves { Leaves self.old self.new }
        ensures ledger { heap.new.used ≤ max heap.old.used heap.old.limit }
        ensures settings { KeepsSettings self.old self.new }
        ensures refused { OnErr result
            ((self.new ≡ self.old) × ((heap.new ≡ heap.old) × (allocations_remains.new ≡ allocations_remains.old))) }
        ensures sound { IsSoundFit self.new }
        ensures counted { IsCounted (self.new).space.chunks heap.new allocations_remains.new }
        ensures total { chunks_and_remaining (self.new).space.chunks allocations_remains.new ≡ chunks_and_remaining
            (self.old).space.chunks allocations_remains.old }

        // The free runs that are looked at.
        ensures looks { LooksAtFew (self.old).space (up size (self.old).atom) (max (align_mask + 1) (self.old).atom)
            looks.old looks.new }
        ensures one { align_mask + 1 ≤ (self.old).atom → BeginsClass (up size (self.old).atom)
            → looks.new ≤ looks.old + 1 }
        ensures some { HasPlace (self.old).space (up size (self.old).atom) (max (align_mask + 1) (self.old).atom)
            → looks.old < looks.new }
    {
        self.store.alloc::<D, L, Brand>(
            device,
            size,
            align_mask,
            flags,
            heap,
            allocations_remains,
            looks,
            Blank::new(1),
        )
    }

    /// The error that `alloc` gives such a request before it takes any memory or calls the device, or `None` where
    /// there is no such error. Where a chunk is needed, it is `TooManyObjects` if no more objects may be held, and
    /// otherwise `OutOfDeviceMemory` if `heap` has no room for the chunk (`Heap::fits`). It allocates nothing and
    /// changes nothing.
    ///
    /// As for `alloc`, the size must be at least 1 and rounded at most the final size, and `align_mask + 1` a power of
    /// two of at most 2^63. `looks` counts the free runs that are looked at, as few as for `alloc` (`looks`, `one`).
    pub fn refuses<L: Ledger>(
        &self,
        size: u64,
        align_mask: u64,
        heap: &Heap,
        allocations_remains: u32,
        looks: &mut Steps<L>,
    ) -> Option<AllocationError>
        requires nonempty { 0 < size }
        requires fits { up size (self.now).atom ≤ (self.now).final_chunk }
        requires alignment { IsAlignMask align_mask }
        ensures refuses { (flags : ℕ)
            → RefusesFirst (case_of (account self.now heap.now allocations_remains) (wanted size align_mask flags))
            result }
        ensures looks { LooksAtFew (self.now).space (up size (self.now).atom) (max (align_mask + 1) (self.now).atom)
            looks.old looks.new }
        ensures one { align_mask + 1 ≤ (self.now).atom → BeginsClass (up size (self.now).atom)
            → looks.new ≤ looks.old + 1 }
    {
        self.store.keeps_sound();
        serving::refuses(
            &self.store,
            size,
            align_mask,
            heap,
            allocations_remains,
            looks,
        )
    }

    /// Returns a block, and joins it with the free runs next to it. Where its chunk is then wholly free and another
    /// chunk is too, its chunk is released: `heap` is lowered by its size, and one more object may be held. It
    /// allocates nothing and cannot fail.
    ///
    /// The block must be live here, by its object, chunk, offset and size. The device must be the one that this
    /// allocator has served. `heap` must count no less than the sum of the held chunks, and how many more objects may
    /// be held plus the number of held chunks must fit 32 bits. Both hold again after the call.
    ///
    /// Each other block that a caller has in hand is still live, and may be returned next (`removed`). The settings
    /// stay (`settings`), and the ledger does not grow (`ledger`). `looks` counts the free runs and blocks that are
    /// looked at: the block's neighbours in its chunk, at most two (`looks`). With the block's own key no other is
    /// looked at; with any other key it is searched for, which [`searches`](FitAllocator::searches) counts.
    pub fn dealloc<D: ObjectDevice<M>, L: Ledger>(
        &mut self,
        device: &mut D,
        block: FitBlock<M>,
        heap: &mut Heap,
        allocations_remains: &mut u32,
        looks: &mut Steps<L>,
    )
        requires live { IsLiveSlot (self.old).space block }
        requires agrees { Agrees self.old (D.properties device.old) (D.objects device.old) }
        requires counted { IsCounted (self.old).space.chunks heap.old allocations_remains.old }

        ensures frees { Asked D.step device.old device.new
            (λ es. Frees (account self.old heap.old allocations_remains.old) block es
            (account self.new heap.new allocations_remains.new)) }
        ensures objects { ObjectsFreed self.old block (D.objects device.old) (D.objects device.new) }
        ensures agrees { Agrees self.new (D.properties device.new) (D.objects device.new) }
        ensures properties { D.properties device.new ≡ D.properties device.old }
        ensures removed { Removes self.old block self.new }
        ensures ledger { heap.new.used ≤ heap.old.used }
        ensures settings { KeepsSettings self.old self.new }
        ensures sound { IsSoundFit self.new }
        ensures counted { IsCounted (self.new).space.chunks heap.new allocations_remains.new }
        ensures total { chunks_and_remaining (self.new).space.chunks allocations_remains.new ≡ chunks_and_remaining
            (self.old).space.chunks allocations_remains.old }
        ensures looks { looks.new ≡ looks.old + neighbours (self.old).space block }
    {
        let (memory, slot, key) = into_parts(block);
        self.dealloc_span(
            device,
            memory,
            key,
            slot.offset,
            slot.size,
            heap,
            allocations_remains,
            looks,
        );
    }

    /// Returns the live block of this span of an object, as [`dealloc`](FitAllocator::dealloc) does. `memory` is a
    /// handle of the object, `offset` where the block starts in it and `size` how long it is, both in bytes. With its
    /// own `key` the block is found without a search; any other key works too.
    ///
    /// There must be such a block. The other conditions and what is counted are as for `dealloc`. It allocates nothing
    /// and cannot fail.
    #[inline(always)]
    pub fn dealloc_span<D: ObjectDevice<M>, L: Ledger>(
        &mut self,
        device: &mut D,
        memory: M,
        key: usize,
        offset: u64,
        size: u64,
        heap: &mut Heap,
        allocations_remains: &mut u32,
        looks: &mut Steps<L>,
    )
        requires live { (slot : LiveSlot) × IsLiveFitSpan (self.old).space (M.object memory) offset size slot }
        requires agrees { Agrees self.old (D.properties device.old) (D.objects device.old) }
        requires counted { IsCounted (self.old).space.chunks heap.old allocations_remains.old }

        ensures frees { (slot : LiveSlot) → IsLiveFitSpan (self.old).space (M.object memory) offset size slot
            → Asked D.step device.old device.new
            (λ es. Frees (account self.old heap.old allocations_remains.old) slot es
            (account self.new heap.new allocations_remains.new)) }
        ensures objects { (slot : LiveSlot) → IsLiveFitSpan (self.old).space (M.object memory) offset size slot
            → ObjectsFreed self.old slot (D.objects device.old) (D.objects device.new) }
        ensures agrees { Agrees self.new (D.properties device.new) (D.objects device.new) }
        ensures properties { D.properties device.new ≡ D.properties device.old }
        ensures removed { (slot : LiveSlot) → IsLiveFitSpan (self.old).space (M.object memory) offset size slot
            → Removes self.old slot self.new }
        ensures ledger { heap.new.used ≤ heap.old.used }
        ensures settings { KeepsSettings self.old self.new }
        ensures sound { IsSoundFit self.new }
        ensures counted { IsCounted (self.new).space.chunks heap.new allocations_remains.new }
        ensures total { chunks_and_remaining (self.new).space.chunks allocations_remains.new ≡ chunks_and_remaining
            (self.old).space.chunks allocations_remains.old }
        ensures looks { (slot : LiveSlot) → IsLiveFitSpan (self.old).space (M.object memory) offset size slot
            → looks.new ≡ looks.old + neighbours (self.old).space slot }
    {
        let returned = BlockSpan {
            memory,
            key,
            offset,
            size,
        };
        returning::dealloc(
            &mut self.store,
            device,
            returned,
            heap,
            allocations_remains,
            looks,
        );
    }

    /// Releases the wholly free chunk, if there is one: `heap` is lowered by its size, and one more object may be held.
    /// It allocates nothing and cannot fail.
    ///
    /// The device must be the one that this allocator has served. `heap` must count no less than the sum of the held
    /// chunks, and how many more objects may be held plus the number of held chunks must fit 32 bits. Both hold again
    /// after the call.
    ///
    /// Each block that a caller has in hand is still live (`leaves`). Where no block is live, no chunk is held
    /// afterwards (`rest`), and [`close`](FitAllocator::close) may be called without a test. The settings stay
    /// (`settings`), and the ledger does not grow (`ledger`).
    pub fn cleanup<D: ObjectDevice<M>>(
        &mut self,
        device: &mut D,
        heap: &mut Heap,
        allocations_remains: &mut u32,
    )
        requires agrees { Agrees self.old (D.properties device.old) (D.objects device.old) }
        requires counted { IsCounted (self.old).space.chunks heap.old allocations_remains.old }

        ensures cleans { Asked D.step device.old device.new
            (λ es. Cleans (account self.old heap.old allocations_remains.old) es
            (account self.new heap.new allocations_remains.new) (D.objects device.old) (D.objects device.new)) }
        ensures agrees { Agrees self.new (D.properties device.new) (D.objects device.new) }
        ensures properties { D.properties device.new ≡ D.properties device.old }
        ensures leaves { Leaves self.old self.new }
        ensures rest { LeavesNoRest self.old self.new }
        ensures ledger { heap.new.used ≤ heap.old.used }
        ensures settings { KeepsSettings self.old self.new }
        ensures sound { IsSoundFit self.new }
        ensures counted { IsCounted (self.new).space.chunks heap.new allocations_remains.new }
        ensures total { chunks_and_remaining (self.new).space.chunks allocations_remains.new ≡ chunks_and_remaining
            (self.old).space.chunks allocations_remains.old }
    {
        let _ = returning::release_next(&mut self.store, device, false, heap, allocations_remains);
    }

    /// The live block of this span of an object and the key under which it stands, or `None` where there is none.
    /// `offset` is where it starts in the object and `size` how long it is, in bytes: any two numbers.
    ///
    /// The answer is the same for any `key`. With the block's own key it takes constant time, and with any other time
    /// linear in the live blocks and free runs.
    #[inline(always)]
    pub fn find(&self, key: usize, object: u64, offset: u64, size: u64) -> Option<(Slot, usize)>
        ensures found { MatchOption result (IsNoLiveFitSpan (self.now).space object offset size)
            (λ found. IsLiveFitSpan (self.now).space object offset size found.0) }
        ensures exact { (slot : LiveSlot) → IsLiveFitSpan (self.now).space object offset size slot
            → IfSome result (λ found. found.0 ≡ slot) }
    {
        self.store.fits.find(key, object, offset, size)
    }

    /// The held chunks, each once, by rising key.
    pub fn chunks(&self) -> Iter<'_, Chunk<M>>
        ensures { ListsChunks M.object (self.now).space.chunks result }
    {
        self.store.fits.chunks()
    }

    /// Adds each live block to a list, once, in no particular order, in the form of a buddy allocator's: with its
    /// chunk's key, and an index of 0. It takes time linear in the number of live blocks and free runs.
    ///
    /// The only error is want of host memory, after which nothing is known of the list.
    pub fn list_live<B: Allocator>(&self, rows: &mut Vec<Leaf, B>) -> Result<(), AllocError>
        ensures { OnOk result (AddsSlots ((self.now).space).live rows.old.items rows.new.items) }
    {
        self.store.fits.list_live(rows)
    }

    /// How many times all live blocks and free runs were searched, modulo 2^64: once for each block that was returned
    /// with another key than its own. Tests read it; no contract mentions it.
    pub fn searches(&self) -> u64 {
        self.store.fits.searches()
    }

    /// Whether it holds no chunk, so that it may be closed.
    pub fn is_empty(&self) -> bool
        ensures { IsTrue result ↔ (map.len ((self.now).space.chunks) ≡ 0) }
    {
        self.store.fits.is_empty()
    }

    /// Ends an allocator that holds no chunk (see [`is_empty`](FitAllocator::is_empty)).
    pub fn close(self)
        requires { map.len ((self.space).chunks) ≡ 0 }
    {
        let FitAllocator { store } = self;
        let FitChunks { fits, sizes: _ } = store;
        fits.close();
    }

    /// Whether `size` bytes in whole atoms fit the largest chunk, so that `alloc` accepts a request of that size, if it
    /// is at least 1.
    #[inline(always)]
    pub fn fits_a_chunk(&self, size: u64) -> bool
        ensures { result ≡ nat_le (up size (self.now).atom) (self.now).final_chunk }
    {
        self.store.sizes.fits_a_chunk(size)
    }
}
