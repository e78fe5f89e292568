//! The buddy allocator: shared chunks of one memory type, whose blocks are aligned powers of two.

ghost use Rattle.std.specs.Prelude.{◌≡◌, ℕ, ◌+◌, ◌≤◌, ◌<◌, ◌↔◌, ◌^◌, IfOk, IfErr, OnErr, Contains, IsTrue, MatchOption};
ghost use Rattle.std.specs.Prelude.{OnOk, Some, max};
ghost use Rattle.std.specs.FinMap as map;
ghost use Rattle.std.specs.Int.{is_power_of_two};
ghost use Rattle.gpu_alloc_types.specs.Flags.{allocation_bits, property_bits, has_bit, with_device_address};
ghost use Rattle.gpu_alloc_types.specs.Device.{Asked};
ghost use Rattle.gpu_alloc_types.specs.declared.types.FreeRange.{FreeRange as Range};
ghost use Rattle.gpu_alloc_base.specs.Accounts.{account, IsCounted, chunks_and_remaining};
ghost use Rattle.gpu_alloc_base.specs.AlignMasks.{IsAlignMask};
ghost use Rattle.gpu_alloc_base.specs.Case.{RefusesFirst};
ghost use Rattle.gpu_alloc_base.specs.RangeOrder.{AreInOrder};
ghost use Rattle.gpu_alloc_base.specs.Wanted.{requested, wanted};
ghost use Rattle.gpu_alloc_base.specs.declared.buddy_block.Leaf.{Leaf as LiveLeaf};
ghost use Rattle.gpu_alloc_buddy.specs.Buddy.{Adds, Agrees, CallAllocates, Frees, HoldsNothing, IsGranted, IsPieceOf};
ghost use Rattle.gpu_alloc_buddy.specs.Buddy.{Leaves, LeavesNoRest, ObjectsAfter, ObjectsFreed, Removes, case_of};
ghost use Rattle.gpu_alloc_buddy.specs.Buddy.{opened, rounded};
ghost use Rattle.gpu_alloc_buddy.specs.BuddySound.{IsSoundBuddy};
ghost use Rattle.gpu_alloc_buddy.specs.BuddyState.{IsLiveBuddyLeaf, IsLiveBuddySpan, IsNoLiveBuddySpan};
ghost use Rattle.gpu_alloc_buddy.specs.BuddySteps.{AreFewRanges, AreFewReleases, CountsBeginning, CountsRefusing};
ghost use Rattle.gpu_alloc_buddy.specs.BuddySteps.{CountsSplits, CountsSteps};
ghost use Rattle.gpu_alloc_pairs.specs.HeldLists.{AddsLeaves, ListsChunks};
ghost use Rattle.gpu_alloc_pairs.specs.Store.{CountsLooks};

use crate::chunks::BuddyChunks;
use gpu_alloc_base::buddy_block::Leaf;
use gpu_alloc_base::heap::Heap;
use gpu_alloc_base::range_order::put_in_order;
use gpu_alloc_base::sizes::next_order;
use gpu_alloc_base::steps::Steps;
use gpu_alloc_base::{AllocationError, BuddyBlock};
use gpu_alloc_pairs::{Chunk, Pairs};
use gpu_alloc_shared::{Store, returning, serving};
use gpu_alloc_types::{
    AllocationFlags, FreeRange, MemoryObject, MemoryPropertyFlags, ObjectDevice,
};
use slab::Iter;
use std::alloc::{AllocError, Allocator, Global};
use std::marker::Model;
use std::sync::ledger::Ledger;

/// Gives out blocks of shared chunks of one memory type. It cannot be dropped: [`close`](BuddyAllocator::close) ends
/// it.
///
/// Between calls each held chunk has an object of its own, whose size is a power of two of at most 2^63 bytes, and a
/// live block in it. Each live block lies inside its chunk, at a multiple of its size, and no two of them share a byte.
pub struct BuddyAllocator<M: MemoryObject, A: Allocator = Global> {
    store: BuddyChunks<M, A>,
}

impl<M: MemoryObject, A: Allocator> Model for BuddyAllocator<M, A> {
    ghost use Rattle.gpu_alloc_buddy.specs.BuddyState.{Buddy};
    ghost use Rattle.gpu_alloc_buddy.specs.Codes.{buddy_code};

    ghost Value = { Buddy };

    ghost coded = { buddy_code };

    ghost view = { λ a. (a.store).state };
}

impl<M: MemoryObject, A: Allocator + Copy> BuddyAllocator<M, A> {
    /// An allocator that holds nothing, for a memory type with these properties. Each size is in bytes and a power of
    /// two, as the original crate asserts. No block is smaller than `minimal_size`. The first chunk has at least the
    /// greater of `minimal_size` and `initial_dedicated_size`, and at least twice its first block. Block sizes are
    /// multiples of `atom_mask + 1`, a power of two of at most 2^62.
    ///
    /// Its lists take their memory from `alloc`. The only error is `OutOfHostMemory`.
    ///
    /// Nothing is held or live (`empty`). By [`agrees_at_first`](crate::laws::agrees_at_first) a caller knows that the
    /// allocator agrees with a device that offers the memory type.
    pub fn new(
        alloc: A,
        minimal_size: u64,
        initial_dedicated_size: u64,
        memory_type: u32,
        props: MemoryPropertyFlags,
        atom_mask: u64,
    ) -> Result<Self, AllocationError>
        requires minimal { IsTrue (is_power_of_two minimal_size) }
        requires initial { IsTrue (is_power_of_two initial_dedicated_size) }
        requires atom { IsTrue (is_power_of_two (atom_mask + 1)) }
        requires atom_bound { atom_mask + 1 ≤ 2 ^ 62 }
        ensures opened { IfOk result
            (λ b. b ≡ opened minimal_size initial_dedicated_size memory_type (property_bits props) (atom_mask + 1)) }
        ensures empty { IfOk result (HoldsNothing memory_type (property_bits props)) }
        ensures sound { IfOk result IsSoundBuddy }
        ensures refused { IfErr result (λ e. e ≡ AllocationError.OutOfHostMemory) }
    {
        let Ok(pairs) = Pairs::new(alloc) else {
            return Err(AllocationError::OutOfHostMemory);
        };
        pairs.keeps_exact();
        Ok(BuddyAllocator {
            store: BuddyChunks {
                pairs,
                next_order: next_order(initial_dedicated_size.max(minimal_size)),
                minimal_size,
                memory_type,
                props,
                atom: atom_mask + 1,
            },
        })
    }

    /// The free pieces of the held chunks: the longest ranges with a power of two as length, at a multiple of it, that
    /// lie in a chunk and in no live block. They are sorted by the name of their object, then by start. Each is in
    /// bytes of its object. No length has more free pieces than live blocks (`few`).
    ///
    /// The only error is want of host memory. Nothing changes.
    pub fn free_ranges(&self) -> Result<Vec<FreeRange, A>, AllocError>
        ensures pieces { IfOk result (λ ranges. (r : Range) → Contains ranges.items r ↔ IsPieceOf self.now r) }
        ensures order { IfOk result (λ ranges. AreInOrder ranges.items) }
        ensures few { IfOk result (λ ranges. AreFewRanges self.now ranges.items) }
    {
        self.store.pairs.keeps_exact();
        let mut ranges = self.store.pairs.ranges()?;
        put_in_order(&mut ranges);
        Ok(ranges)
    }
}

impl<M: MemoryObject, A: Allocator> BuddyAllocator<M, A> {
    /// Allocates a block of at least `size` bytes at a multiple of `align_mask + 1`. It is the front of a shortest free
    /// piece that is long enough. Where there is none, it is the front of a new chunk that the device is asked for with
    /// these flags.
    ///
    /// The block's size is the least power of two that is not below the size, the alignment, the atom and the smallest
    /// block. The block starts at a multiple of its size and lies inside a held chunk, whose object is its own. A new
    /// chunk has exactly the greater of twice the block and the size of the latest chunk that was made, even where that
    /// one is no longer held. A chunk is mapped whole where it is host-visible. `heap` is the ledger of the memory
    /// type's heap, to which a new chunk is added. `allocations_remains` is how many more objects may be held, which a
    /// new chunk lowers by one.
    ///
    /// The size must be at least 1, and `align_mask + 1` a power of two of at most 2^63. The address flag may be set
    /// only where the device has the feature. The device must be the one that this allocator has served: it has the
    /// memory type with the properties given to `new`, and each held chunk.
    ///
    /// Errors, after which nothing has changed, and a chunk that was made is released:
    ///
    /// - `OutOfDeviceMemory` where a chunk would have 2^64 bytes or more, where one is needed that `heap` has no room
    ///   for (`Heap::fits`; the device is then not asked), and where the device gives that answer
    /// - `TooManyObjects` where a chunk is needed and no more objects may be held
    /// - `OutOfHostMemory` where the allocator or the device lacks host memory, and where a chunk cannot be mapped for
    ///   another reason.
    ///
    /// A block in a held chunk is given whatever `heap` counts.
    ///
    /// `heap` must count no less than the sum of the held chunks, and how many more objects may be held plus the number
    /// of held chunks must fit 32 bits. Both hold again after the call. The ledger never exceeds the greater of its old
    /// value and the heap's limit (`ledger`).
    ///
    /// Each block that a caller had in hand is still live (`leaves`). The new one is live too, and shares no byte with
    /// any of them (`added`).
    ///
    /// `looks` counts the lengths at which a free piece was looked for, at most 63 (`looked`). `splits` counts how
    /// often a piece was halved, at most 62 (`split`). Whatever is live, a piece of 2^k times the block's size takes k
    /// + 1 looks and k splits (`steps`). A new chunk of 2^k times the block's size, which comes as its two halves,
    /// takes k - 1 splits, after a look at each length from the block's up to 2^62 bytes (`begun`).
    pub fn alloc<D: ObjectDevice<M>, L: Ledger, K: Ledger>(
        &mut self,
        device: &mut D,
        size: u64,
        align_mask: u64,
        flags: AllocationFlags,
        heap: &mut Heap,
        allocations_remains: &mut u32,
        looks: &mut Steps<L>,
        splits: &mut Steps<K>,
    ) -> Result<BuddyBlock<M>, AllocationError>
        requires nonempty { 0 < size }
        requires alignment { IsAlignMask align_mask }
        requires address { IsTrue (has_bit (allocation_bits flags) with_device_address)
            → IsTrue (D.properties device.old).buffer_device_address }
        requires agrees { Agrees self.old (D.properties device.old) (D.objects device.old) }
        requires counted { IsCounted self.old.chunks heap.old allocations_remains.old }

        // The calls of the device, the answer, and what changed.
        ensures allocates { Asked D.step device.old device.new
            (CallAllocates self.old heap.old allocations_remains.old (requested size align_mask flags) result
            self.new heap.new allocations_remains.new) }
        ensures objects { ObjectsAfter self.old result self.new (D.objects device.old) (D.objects device.new) }
        ensures agrees { Agrees self.new (D.properties device.new) (D.objects device.new) }
        ensures properties { D.properties device.new ≡ D.properties device.old }

        // What follows from it.
        ensures granted { IfOk result (IsGranted self.old (requested size align_mask flags) self.new) }
        ensures added { IfOk result (Adds self.old self.new) }
        ensures leaves { Leaves self.old self.new }
        ensures ledger { heap.new.used ≤ max heap.old.used heap.old.limit }
        ensures refused { OnErr result
            ((self.new ≡ self.old) × ((heap.new ≡ heap.old) × (allocations_remains.new ≡ allocations_remains.old))) }
        ensures sound { IsSoundBuddy self.new }
        ensures counted { IsCounted self.new.chunks heap.new allocations_remains.new }
        ensures total { chunks_and_remaining self.new.chunks allocations_remains.new
            ≡ chunks_and_remaining self.old.chunks allocations_remains.old }

        // How many steps it took.
        ensures looked { CountsLooks looks.old looks.new }
        ensures split { CountsSplits splits.old splits.new }
        ensures steps { IfOk result (CountsSteps self.old looks.old looks.new splits.old splits.new) }
        ensures begun { IfOk result (CountsBeginning self.old looks.old looks.new splits.old splits.new) }
    {
        serving::alloc(
            &mut self.store,
            device,
            size,
            align_mask,
            flags,
            heap,
            allocations_remains,
            looks,
            splits,
        )
    }

    /// The error that `alloc` gives such a request before it takes any memory or calls the device, or `None` where
    /// there is no such error. It is `OutOfDeviceMemory` where a chunk for it would have 2^64 bytes or more. Where a
    /// chunk is needed, it is `TooManyObjects` if no more objects may be held, and otherwise `OutOfDeviceMemory` if
    /// `heap` has no room for the chunk (`Heap::fits`). It allocates nothing.
    ///
    /// As for `alloc`, the size must be at least 1, and `align_mask + 1` a power of two of at most 2^63.
    ///
    /// `looks` counts the lengths at which a free piece was looked for, at most 63 (`looked`). It looks only where a
    /// chunk would have less than 2^64 bytes and may not be asked for. Where a shortest free piece that is long enough
    /// has 2^k times the block's size, it looks k + 1 times. Where there is none, it looks once at each length from the
    /// block's up to 2^62 bytes (`steps`).
    pub fn refuses<L: Ledger>(
        &self,
        size: u64,
        align_mask: u64,
        heap: &Heap,
        allocations_remains: u32,
        looks: &mut Steps<L>,
    ) -> Option<AllocationError>
        requires nonempty { 0 < size }
        requires alignment { IsAlignMask align_mask }
        ensures refuses { (flags : ℕ)
            → RefusesFirst (case_of (account self.now heap.now allocations_remains) (wanted size align_mask flags))
            result }
        ensures looked { CountsLooks looks.old looks.new }
        ensures steps { (flags : ℕ)
            → CountsRefusing (account self.now heap.now allocations_remains)
            (rounded self.now (wanted size align_mask flags)) looks.old looks.new }
    {
        self.store.keeps_sound();
        serving::refuses(
            &self.store,
            size,
            align_mask,
            heap,
            allocations_remains,
            looks,
        )
    }

    /// Returns a block. Free halves are joined, and a chunk in which no other block is live is released at once: then
    /// `heap` is lowered by its size, and one more object may be held. It allocates nothing and cannot fail.
    ///
    /// The block must be live here, by its object, chunk, offset, size and index. The device must be the one that this
    /// allocator has served. `heap` must count no less than the sum of the held chunks, and how many more objects may
    /// be held plus the number of held chunks must fit 32 bits. Both hold again after the call.
    ///
    /// Each other block that a caller has in hand is still live, and may be returned next (`removed`). Where no block
    /// is live, no chunk is held (`rest`), and [`close`](BuddyAllocator::close) may be called without a test. The
    /// ledger does not grow (`ledger`).
    ///
    /// `releases` counts the halves that are released: the block, and each half that two joined ones become. They are
    /// at most 63 (`at_most`), whatever is live, and in a chunk of 2^k times the block's size at most k (`few`).
    pub fn dealloc<D: ObjectDevice<M>, L: Ledger>(
        &mut self,
        device: &mut D,
        block: BuddyBlock<M>,
        heap: &mut Heap,
        allocations_remains: &mut u32,
        releases: &mut Steps<L>,
    )
        requires live { IsLiveBuddyLeaf self.old block }
        requires agrees { Agrees self.old (D.properties device.old) (D.objects device.old) }
        requires counted { IsCounted self.old.chunks heap.old allocations_remains.old }

        ensures frees { Asked D.step device.old device.new
            (λ es. Frees (account self.old heap.old allocations_remains.old) block es
            (account self.new heap.new allocations_remains.new)) }
        ensures objects { ObjectsFreed self.old block (D.objects device.old) (D.objects device.new) }
        ensures agrees { Agrees self.new (D.properties device.new) (D.objects device.new) }
        ensures properties { D.properties device.new ≡ D.properties device.old }
        ensures removed { Removes self.old block self.new }
        ensures rest { LeavesNoRest self.new }
        ensures ledger { heap.new.used ≤ heap.old.used }
        ensures sound { IsSoundBuddy self.new }
        ensures counted { IsCounted self.new.chunks heap.new allocations_remains.new }
        ensures total { chunks_and_remaining self.new.chunks allocations_remains.new
            ≡ chunks_and_remaining self.old.chunks allocations_remains.old }
        ensures released { releases.old < releases.new }
        ensures few { AreFewReleases self.old block releases.old releases.new }
        ensures at_most { releases.new ≤ releases.old + 63 }
    {
        self.store.keeps_sound();
        returning::dealloc(
            &mut self.store,
            device,
            block,
            heap,
            allocations_remains,
            releases,
        );
    }

    /// The live block of this span of an object, or `None` where there is none. `offset` is where it starts in the
    /// object and `size` how long it is, in bytes: any two numbers. It is public for `gpu_alloc`, whose blocks carry an
    /// index.
    ///
    /// The answer is the same for any `key`. With the block's own index it takes constant time, and with any other time
    /// linear in the pairs of halves of that length. A caller that knows a live block of this span knows that it is the
    /// one found (`exact`).
    #[inline(always)]
    pub fn find(&self, key: usize, object: u64, offset: u64, size: u64) -> Option<Leaf>
        ensures found { MatchOption result (IsNoLiveBuddySpan self.now object offset size)
            (IsLiveBuddySpan self.now object offset size) }
        ensures exact { (leaf : LiveLeaf) → IsLiveBuddySpan self.now object offset size leaf → result ≡ Some leaf }
    {
        self.store.pairs.find(key, object, offset, size)
    }

    /// The held chunks, each once, by rising key. It is public for `gpu_alloc`.
    pub fn chunks(&self) -> Iter<'_, Chunk<M>>
        ensures { ListsChunks M.object self.now.chunks result }
    {
        self.store.pairs.chunks()
    }

    /// Adds each live block to a list, once, in no particular order. It is public for `gpu_alloc`. It takes time linear
    /// in the number of pairs of halves.
    ///
    /// The only error is want of host memory, after which nothing is known of the list.
    pub fn list_live<B: Allocator>(&self, leaves: &mut Vec<Leaf, B>) -> Result<(), AllocError>
        ensures { OnOk result (AddsLeaves self.now.live leaves.old.items leaves.new.items) }
    {
        self.store.pairs.list_live(leaves)
    }

    /// Ends an allocator that holds no chunk.
    pub fn close(self)
        requires { map.len self.chunks ≡ 0 }
    {
        let BuddyAllocator { store } = self;
        let BuddyChunks {
            pairs,
            next_order: _,
            minimal_size: _,
            memory_type: _,
            props: _,
            atom: _,
        } = store;
        pairs.close();
    }
}
