//! The free-list allocator: shared chunks of one memory type, whose blocks are the tails of free runs.

ghost use Rattle.std.specs.Prelude.{◌≡◌, ℕ, ◌+◌, ◌≤◌, ◌<◌, ◌^◌, ◌↔◌, Contains, IfOk, OnErr};
ghost use Rattle.std.specs.Prelude.{IsTrue, length, max, nat_le, true, false};
ghost use Rattle.std.specs.FinMap as map;
ghost use Rattle.std.specs.FinSet as set;
ghost use Rattle.std.specs.Int.{is_power_of_two};
ghost use Rattle.gpu_alloc_types.specs.Flags.{allocation_bits, property_bits, has_bit, with_device_address};
ghost use Rattle.gpu_alloc_types.specs.Device.{Asked};
ghost use Rattle.gpu_alloc_types.specs.declared.types.FreeRange.{FreeRange as Range};
ghost use Rattle.gpu_alloc_base.specs.Wanted.{requested, wanted};
ghost use Rattle.gpu_alloc_freelist.specs.FreeList.{MayGo};
ghost use Rattle.gpu_alloc_freelist.specs.FreeListAllocator.{account_without, Agrees, CallAllocates, case_of};
ghost use Rattle.gpu_alloc_freelist.specs.FreeListAllocator.{CallReleases, Cleans, Frees};
ghost use Rattle.gpu_alloc_freelist.specs.FreeListAllocator.{IsGranted, IsRunOf};
ghost use Rattle.gpu_alloc_freelist.specs.FreeListAllocator.{ObjectsAfter, ObjectsCleaned, ObjectsFreed, opened};
ghost use Rattle.gpu_alloc_freelist.specs.FreeListAllocator.{Adds, HoldsNothing, KeepsSettings, Leaves, LeavesNoRest};
ghost use Rattle.gpu_alloc_freelist.specs.FreeListAllocator.{Removes};
ghost use Rattle.gpu_alloc_base.specs.Accounts.{account, IsCounted, chunks_and_remaining};
ghost use Rattle.gpu_alloc_base.specs.Case.{RefusesFirst};
ghost use Rattle.gpu_alloc_freelist.specs.Chunks.{ListsChunks};
ghost use Rattle.gpu_alloc_freelist.specs.Live.{ListsSlots};
ghost use Rattle.gpu_alloc_freelist.specs.FreeListSound.{IsSoundFreeList};
ghost use Rattle.gpu_alloc_freelist.specs.FreeListState.{IsLiveSlot};
ghost use Rattle.gpu_alloc_base.specs.FreeSpace.{IsMultipleOf};
ghost use Rattle.gpu_alloc_base.specs.AlignMasks.{IsAlignMask};
ghost use Rattle.gpu_alloc_base.specs.RangeOrder.{AreInOrder};
ghost use Rattle.gpu_alloc_base.specs.Sizes.{up};

mod chunks;
mod list;
mod live;
mod runs;
mod store;

pub use chunks::NumberedChunk;
use gpu_alloc_base::free_list_block::Slot;
use gpu_alloc_base::heap::Heap;
use gpu_alloc_base::range_order::put_in_order;
use gpu_alloc_base::{AllocationError, FreeListBlock};
use gpu_alloc_shared::{ChunkSizes, Store, returning};
use gpu_alloc_types::{
    AllocationFlags, FreeRange, MemoryObject, MemoryPropertyFlags, ObjectDevice,
};
pub use list::FreeList;
use slab::Iter;
use std::alloc::{AllocError, Allocator, Global};
use std::marker::{Brand, Model};
use std::sync::ledger::Blank;
use store::FreeListChunks;

/// Gives out blocks of shared chunks of one memory type. It cannot be dropped: [`close`](FreeListAllocator::close) ends
/// it.
///
/// Between calls each held chunk has an object of its own, of at most 2^62 bytes. Each live block lies inside its
/// chunk, and no two of them share a byte. Chunks and blocks begin and end at multiples of the atom.
pub struct FreeListAllocator<M: MemoryObject, A: Allocator = Global> {
    store: FreeListChunks<M, A>,
}

impl<M: MemoryObject, A: Allocator> Model for FreeListAllocator<M, A> {
    ghost use Rattle.gpu_alloc_freelist.specs.FreeListState.{FreeListState};
    ghost use Rattle.gpu_alloc_freelist.specs.Codes.{listing_code};

    ghost Value = { FreeListState };

    ghost coded = { listing_code };

    ghost view = { λ a. (a.store).state };
}

impl<M: MemoryObject, A: Allocator + Copy> FreeListAllocator<M, A> {
    /// An allocator that holds nothing, for a memory type with these properties. Each size is in bytes and a multiple
    /// of `atom_mask + 1`, which is a power of two of at most 2^62. The first chunk has at least `starting_chunk_size`,
    /// which is at least one atom. None has more than `final_chunk_size`, which is no less and at most 2^62. (The
    /// original crate asserts the multiples.)
    ///
    /// Its lists take their memory from `alloc`; this call takes none.
    ///
    /// Nothing is held or live (`empty`). By [`agrees_at_first`](crate::laws::agrees_at_first) a caller knows that the
    /// allocator agrees with a device that offers the memory type.
    pub fn new(
        alloc: A,
        starting_chunk_size: u64,
        final_chunk_size: u64,
        memory_type: u32,
        props: MemoryPropertyFlags,
        atom_mask: u64,
    ) -> Self
        requires atom { IsTrue (is_power_of_two (atom_mask + 1)) }
        requires atom_bound { atom_mask + 1 ≤ 2 ^ 62 }
        requires starting { IsMultipleOf (atom_mask + 1) starting_chunk_size }
        requires nonempty { 0 < starting_chunk_size }
        requires largest { IsMultipleOf (atom_mask + 1) final_chunk_size }
        requires growing { starting_chunk_size ≤ final_chunk_size }
        requires bound { final_chunk_size ≤ 2 ^ 62 }
        ensures opened { result ≡ opened starting_chunk_size final_chunk_size memory_type (property_bits props)
            (atom_mask + 1) }
        ensures empty { HoldsNothing memory_type (property_bits props) result }
        ensures sound { IsSoundFreeList result }
    {
        FreeListAllocator {
            store: FreeListChunks {
                freelist: FreeList::new(alloc),
                sizes: ChunkSizes {
                    chunk_size: starting_chunk_size,
                    final_chunk_size,
                    memory_type,
                    props,
                    atom_mask,
                },
            },
        }
    }

    /// The free ranges of the held chunks: the longest ranges of bytes that lie in a chunk and in no live block. They
    /// are sorted by the name of their object, then by start. Each is in bytes of its object. There are no more of them
    /// than live blocks and held chunks together (`few`).
    ///
    /// The only error is want of host memory. Nothing changes.
    pub fn free_ranges(&self) -> Result<Vec<FreeRange, A>, AllocError>
        ensures runs { IfOk result (λ ranges. (r : Range) → Contains ranges.items r ↔ IsRunOf (self.now).space r) }
        ensures order { IfOk result (λ ranges. AreInOrder ranges.items) }
        ensures few { IfOk result (λ ranges. length ranges.items
            ≤ set.len ((self.now).space).live + map.len ((self.now).space).chunks) }
    {
        let freelist = &self.store.freelist;
        let regions = freelist.regions();
        let mut ranges = Vec::with_capacity(freelist.allocator(), regions.len())?;
        for region in regions {
            ranges.push_reserved(FreeRange {
                object: freelist.chunk(region.chunk).memory.object(),
                start: region.start,
                end: region.end,
            });
        }
        put_in_order(&mut ranges);
        Ok(ranges)
    }
}

impl<M: MemoryObject, A: Allocator> FreeListAllocator<M, A> {
    /// Allocates a block of at least `size` bytes at a multiple of `align_mask + 1`. It is the tail of the last free
    /// run with room for it. Where no run has room, it is the tail of a new chunk that the device is asked for with
    /// these flags.
    ///
    /// The size is rounded up to whole atoms, and the alignment is the greater of the request's and the atom. The block
    /// begins at the last aligned byte that leaves the rounded size, and ends with its run. Runs are ordered by chunk,
    /// the oldest first, then by start. A new chunk has the allocator's next size: at first the starting one, and after
    /// each chunk twice that chunk, capped at the final size. Where that is below the rounded size, it is doubled until
    /// it suffices, again capped at the final size. (All this is the original crate's rule.) A chunk is mapped whole
    /// where it is host-visible. `heap` is the ledger of the memory type's heap, to which a new chunk is added.
    /// `allocations_remains` is how many more objects may be held, which a new chunk lowers by one.
    ///
    /// The size must be at least 1, and rounded at most the final size. `align_mask + 1` must be a power of two of at
    /// most 2^63. The address flag may be set only where the device has the feature. The device must be the one that
    /// this allocator has served: it has the memory type with the properties given to `new`, and each held chunk.
    ///
    /// Errors, after which nothing has changed, and a chunk that was made is released:
    ///
    /// - `TooManyObjects` where a chunk is needed and no more objects may be held, or 2^64 - 1 chunks were made
    /// - `OutOfDeviceMemory` where a chunk is needed that `heap` has no room for (`Heap::fits`; the device is then not
    ///   asked), and where the device gives that answer
    /// - `OutOfHostMemory` where the allocator or the device lacks host memory, and where a chunk cannot be mapped for
    ///   another reason.
    ///
    /// A block in a held chunk is given whatever `heap` counts.
    ///
    /// `heap` must count no less than the sum of the held chunks, and how many more objects may be held plus the number
    /// of held chunks must fit 32 bits. Both hold again after the call. The ledger never exceeds the greater of its old
    /// value and the heap's limit (`ledger`).
    ///
    /// Each block that a caller had in hand is still live (`leaves`). The new one is live too, and shares no byte with
    /// any of them (`added`). The same requests as before are valid next (`settings`).
    pub fn alloc<D: ObjectDevice<M>>(
        &mut self,
        device: &mut D,
        size: u64,
        align_mask: u64,
        flags: AllocationFlags,
        heap: &mut Heap,
        allocations_remains: &mut u32,
    ) -> Result<FreeListBlock<M>, AllocationError>
        requires nonempty { 0 < size }
        requires fits { up size (self.old).atom ≤ (self.old).final_chunk }
        requires alignment { IsAlignMask align_mask }
        requires address { IsTrue (has_bit (allocation_bits flags) with_device_address)
            → IsTrue (D.properties device.old).buffer_device_address }
        requires agrees { Agrees self.old (D.properties device.old) (D.objects device.old) }
        requires counted { IsCounted (self.old).space.chunks heap.old allocations_remains.old }

        // The calls of the device, the answer, and what changed.
        ensures allocates { Asked D.step device.old device.new
            (CallAllocates self.old heap.old allocations_remains.old (requested size align_mask flags) result
            self.new heap.new allocations_remains.new) }
        ensures objects { ObjectsAfter self.old result self.new (D.objects device.old) (D.objects device.new) }
        ensures agrees { Agrees self.new (D.properties device.new) (D.objects device.new) }
        ensures properties { D.properties device.new ≡ D.properties device.old }

        // What follows from it.
        ensures granted { IfOk result (IsGranted self.old (requested size align_mask flags) self.new) }
        ensures added { IfOk result (Adds self.old self.new) }
        ensures leaves { Leaves self.old self.new }
        ensures ledger { heap.new.used ≤ max heap.old.used heap.old.limit }
        ensures settings { KeepsSettings self.old self.new }
        ensures refused { OnErr result
            ((self.new ≡ self.old) × ((heap.new ≡ heap.old) × (allocations_remains.new ≡ allocations_remains.old))) }
        ensures sound { IsSoundFreeList self.new }
        ensures counted { IsCounted (self.new).space.chunks heap.new allocations_remains.new }
        ensures total { chunks_and_remaining (self.new).space.chunks allocations_remains.new ≡ chunks_and_remaining
            (self.old).space.chunks allocations_remains.old }
    {
        self.store.alloc::<D, Brand, Brand>(
            device,
            size,
            align_mask,
            flags,
            heap,
            allocations_remains,
            Blank::new(1),
            Blank::new(1),
        )
    }

    /// The error that `alloc` gives such a request before it takes any memory or calls the device, or `None` where
    /// there is no such error. Where a chunk is needed, it is `TooManyObjects` if no more objects may be held or no
    /// number is left, and otherwise `OutOfDeviceMemory` if `heap` has no room for the chunk (`Heap::fits`). It
    /// allocates nothing.
    ///
    /// As for `alloc`, the size must be at least 1 and rounded at most the final size, and `align_mask + 1` a power of
    /// two of at most 2^63.
    pub fn refuses(
        &self,
        size: u64,
        align_mask: u64,
        heap: &Heap,
        allocations_remains: u32,
    ) -> Option<AllocationError>
        requires nonempty { 0 < size }
        requires fits { up size (self.now).atom ≤ (self.now).final_chunk }
        requires alignment { IsAlignMask align_mask }
        ensures { (flags : ℕ)
            → RefusesFirst (case_of (account self.now heap.now allocations_remains) (wanted size align_mask flags))
            result }
    {
        self.store
            .refuses::<Brand>(size, align_mask, heap, allocations_remains, Blank::new(1))
    }

    /// Returns a block, and joins it with the free runs next to it. Then each chunk without a live block is released,
    /// the oldest first (in the original crate in no particular order). Only the chunk with the last run is kept (the
    /// original crate's rule). For each, `heap` is lowered by its size, and one more object may be held. It allocates
    /// nothing and cannot fail.
    ///
    /// The block must be live here, by its object, chunk, offset and size. The device must be the one that this
    /// allocator has served. `heap` must count no less than the sum of the held chunks, and how many more objects may
    /// be held plus the number of held chunks must fit 32 bits. Both hold again after the call.
    ///
    /// One list of numbers says both what was asked of the device and what it no longer has (`gives`). Each other block
    /// that a caller has in hand is still live, and may be returned next (`removed`). The settings stay (`settings`),
    /// and the ledger does not grow (`ledger`).
    pub fn dealloc<D: ObjectDevice<M>>(
        &mut self,
        device: &mut D,
        block: FreeListBlock<M>,
        heap: &mut Heap,
        allocations_remains: &mut u32,
    )
        requires live { IsLiveSlot (self.old).space block }
        requires agrees { Agrees self.old (D.properties device.old) (D.objects device.old) }
        requires counted { IsCounted (self.old).space.chunks heap.old allocations_remains.old }

        ensures frees { Asked D.step device.old device.new
            (λ es. Frees (account self.old heap.old allocations_remains.old) block es
            (account self.new heap.new allocations_remains.new)) }
        ensures objects { ObjectsFreed self.old block (D.objects device.old) (D.objects device.new) }
        ensures gives { CallReleases D.step D.objects device.old device.new true
            (account_without (account self.old heap.old allocations_remains.old) block)
            (account self.new heap.new allocations_remains.new) }
        ensures agrees { Agrees self.new (D.properties device.new) (D.objects device.new) }
        ensures properties { D.properties device.new ≡ D.properties device.old }
        ensures removed { Removes self.old block self.new }
        ensures ledger { heap.new.used ≤ heap.old.used }
        ensures settings { KeepsSettings self.old self.new }
        ensures sound { IsSoundFreeList self.new }
        ensures counted { IsCounted (self.new).space.chunks heap.new allocations_remains.new }
        ensures total { chunks_and_remaining (self.new).space.chunks allocations_remains.new ≡ chunks_and_remaining
            (self.old).space.chunks allocations_remains.old }
    {
        self.store
            .dealloc::<D, Brand>(device, block, heap, allocations_remains, Blank::new(1));
        self.let_chunks_go(device, true, heap, allocations_remains);
    }

    /// Releases each chunk without a live block, the oldest first: `heap` is lowered by its size, and one more object
    /// may be held. It allocates nothing and cannot fail.
    ///
    /// The device must be the one that this allocator has served. `heap` must count no less than the sum of the held
    /// chunks, and how many more objects may be held plus the number of held chunks must fit 32 bits. Both hold again
    /// after the call.
    ///
    /// Each block that a caller has in hand is still live (`leaves`). Where no block is live, no chunk is held
    /// afterwards (`rest`), and [`close`](FreeListAllocator::close) may be called without a test. The settings stay
    /// (`settings`), and the ledger does not grow (`ledger`).
    pub fn cleanup<D: ObjectDevice<M>>(
        &mut self,
        device: &mut D,
        heap: &mut Heap,
        allocations_remains: &mut u32,
    )
        requires agrees { Agrees self.old (D.properties device.old) (D.objects device.old) }
        requires counted { IsCounted (self.old).space.chunks heap.old allocations_remains.old }

        ensures cleans { Asked D.step device.old device.new
            (λ es. Cleans (account self.old heap.old allocations_remains.old) es
            (account self.new heap.new allocations_remains.new)) }
        ensures objects { ObjectsCleaned self.old (D.objects device.old) (D.objects device.new) }
        ensures gives { CallReleases D.step D.objects device.old device.new false
            (account self.old heap.old allocations_remains.old)
            (account self.new heap.new allocations_remains.new) }
        ensures agrees { Agrees self.new (D.properties device.new) (D.objects device.new) }
        ensures properties { D.properties device.new ≡ D.properties device.old }
        ensures leaves { Leaves self.old self.new }
        ensures rest { LeavesNoRest self.old self.new }
        ensures ledger { heap.new.used ≤ heap.old.used }
        ensures settings { KeepsSettings self.old self.new }
        ensures sound { IsSoundFreeList self.new }
        ensures counted { IsCounted (self.new).space.chunks heap.new allocations_remains.new }
        ensures total { chunks_and_remaining (self.new).space.chunks allocations_remains.new ≡ chunks_and_remaining
            (self.old).space.chunks allocations_remains.old }
    {
        self.let_chunks_go(device, false, heap, allocations_remains);
    }

    /// The held chunks, each once, in no particular order. It is public for `gpu_alloc`.
    pub fn chunks(&self) -> Iter<'_, NumberedChunk<M>>
        ensures { ListsChunks M.object (self.now).space.chunks result }
    {
        self.store.freelist.chunks()
    }

    /// The live blocks, each once, in no particular order, with their keys, which no contract mentions. It is public
    /// for `gpu_alloc`.
    pub fn slots(&self) -> Iter<'_, Slot>
        ensures { ListsSlots (self.now).space.live result }
    {
        self.store.freelist.slots()
    }

    /// Whether a block is live here: by its object, chunk, offset and size. It is public for `gpu_alloc`.
    ///
    /// The answer is the same for any key. The key that the block carries makes it fast; any other costs a search of
    /// the live blocks.
    pub fn is_live(&self, key: usize, slot: Slot) -> bool
        ensures { IsTrue result ↔ IsLiveSlot (self.now).space slot }
    {
        self.store.freelist.is_live(key, slot)
    }

    /// Ends an allocator that holds no chunk.
    pub fn close(self)
        requires { map.len ((self.space).chunks) ≡ 0 }
    {
        let FreeListAllocator { store } = self;
        let FreeListChunks { freelist, sizes: _ } = store;
        freelist.close();
    }

    /// Whether `size` bytes in whole atoms fit the largest chunk, so that `alloc` accepts a request of that size, if it
    /// is at least 1. It is public for `gpu_alloc`.
    #[inline(always)]
    pub fn fits_a_chunk(&self, size: u64) -> bool
        ensures { result ≡ nat_le (up size (self.now).atom) (self.now).final_chunk }
    {
        self.store.sizes.fits_a_chunk(size)
    }

    /// Releases wholly free chunks, except that of the last run if it is to be kept. (Most returns leave no such chunk,
    /// and see that from a count.)
    #[inline(always)]
    fn let_chunks_go<D: ObjectDevice<M>>(
        &mut self,
        device: &mut D,
        keep_last: bool,
        heap: &mut Heap,
        allocations_remains: &mut u32,
    )
        requires agrees { Agrees self.old (D.properties device.old) (D.objects device.old) }
        requires counted { IsCounted (self.old).space.chunks heap.old allocations_remains.old }
        ensures gives { CallReleases D.step D.objects device.old device.new keep_last
            (account self.old heap.old allocations_remains.old)
            (account self.new heap.new allocations_remains.new) }
        ensures agrees { Agrees self.new (D.properties device.new) (D.objects device.new) }
        ensures properties { D.properties device.new ≡ D.properties device.old }
        ensures left { (number : ℕ) → MayGo (self.new).space keep_last number → ⊥ }
        ensures sound { IsSoundFreeList self.new }
        ensures counted { IsCounted (self.new).space.chunks heap.new allocations_remains.new }
        ensures total { chunks_and_remaining (self.new).space.chunks allocations_remains.new ≡ chunks_and_remaining
            (self.old).space.chunks allocations_remains.old }
    {
        self.store.keeps_sound();
        if self.store.keeps_all(keep_last) {
            return;
        }
        while returning::release_next(
            &mut self.store,
            device,
            keep_last,
            heap,
            allocations_remains,
        ) {}
    }
}
