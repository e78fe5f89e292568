//! Laws of the definitions that contracts cite, and those definitions computed on samples. The functions are lemmas:
//! they do nothing at run time.

ghost use Rattle.std.specs.Prelude.{◌≡◌, ◌≢◌, ◌⊎◌, ℕ, ◌+◌, ◌<◌, ◌≤◌, max, List, [], ◌∷◌, length, Some, None, true, false};
ghost use Rattle.std.specs.FinSet as set;
ghost use Rattle.gpu_alloc_types.specs.declared.types.FreeRange.{FreeRange};
ghost use Rattle.gpu_alloc_block.specs.Agreement.{Agrees, KeptBlocksAgree};
ghost use Rattle.gpu_alloc_block.specs.ByteCalls.{BytesMoved};
ghost use Rattle.gpu_alloc.specs.Allocation.{strategy, AloneIsTold, CandidatesServe, ExactIsTold};
ghost use Rattle.gpu_alloc.specs.Budget.{heap_budget, heap_bytes, AreLimits, HoldsNoImportOf, IsAskedWithinBudget, IsWithinHeaps};
ghost use Rattle.gpu_alloc.specs.Exactness.{AreCanonical, AreFreePieces, AreLongEnough, ArePiecesApart};
ghost use Rattle.gpu_alloc.specs.Exactness.{AreSpaced, AreFreeRuns, TellPlaces};
ghost use Rattle.gpu_alloc.specs.declared.allocator.Strategy.TheVariants.{OwnObject, InBuddyChunk, InFreeList, InFitChunk};
ghost use Rattle.gpu_alloc_buddy.specs.Buddy.{opened as empty_buddy, rounded, chunk_size};
ghost use Rattle.gpu_alloc_base.specs.Wanted.{wanted};
ghost use Rattle.gpu_alloc_buddy.specs.BuddyState.{Buddy, IsFreeInBuddy};
ghost use Rattle.gpu_alloc_base.specs.Config.{potato, prototyping};
ghost use Rattle.gpu_alloc.specs.FreeBytes.{IsFreeByte};
ghost use Rattle.gpu_alloc.specs.FreeRanges.{HasByte, IsFreeOf, IsFreeRangeOf};
ghost use Rattle.gpu_alloc.specs.FitSharing.{FitChunksAreSmall, HasFitPlace, IsFitChunk, IsSmallFit, fit_alignment, fit_question, fit_size, fits_first, grain_of, largest_fit};
ghost use Rattle.gpu_alloc.specs.FitSharing.{next_fit_chunk, with_fit_chunk};
ghost use Rattle.gpu_alloc_freelist.specs.FreeList.{HasPlace};
ghost use Rattle.gpu_alloc_freelist.specs.FreeListState.{ListSpace, IsFreeIn};
ghost use Rattle.gpu_alloc_base.specs.FreeRuns.{tail_start};
ghost use Rattle.gpu_alloc_base.specs.FreeSpace.{IsMultipleOf};
ghost use Rattle.gpu_alloc.specs.FreeListSharing.{IsFreeInChunk, HasListPlace, list_size, list_alignment};
ghost use Rattle.gpu_alloc.specs.FreeListSharing.{list_question};
ghost use Rattle.gpu_alloc_base.specs.declared.region.FreeListRegion.{FreeListRegion};
ghost use Rattle.gpu_alloc.specs.Importing.{ImportsAgree, MadeObjects};
ghost use Rattle.gpu_alloc.specs.Importing.{ObjectsOfOthers, WhichMayBeImported};
ghost use Rattle.gpu_alloc.specs.Samples.{one_type, potato_for_one_type, fits_over, bytes_for, buddy_config};
ghost use Rattle.gpu_alloc.specs.BuddySharing.{buddy_size, buddy_question, with_buddy_chunk};
ghost use Rattle.gpu_alloc_base.specs.Sizes.{minimal_size, final_size, grown_chunk, doubled_chunk};
ghost use Rattle.gpu_alloc.specs.FirstTypes.{first_types};
ghost use Rattle.gpu_alloc.specs.Owned.{AreTwo, CancelOut, HoldsNothing};
ghost use Rattle.gpu_alloc.specs.Pages.{PagesApart};
ghost use Rattle.gpu_alloc.specs.Serving.{AsksForOwnObjects, NeverServed};
ghost use Rattle.gpu_alloc.specs.Sound.{IsSound};
ghost use Rattle.gpu_alloc.specs.UnderKeys.{AllComeAndGo};
ghost use Rattle.gpu_alloc_block.specs.Contents.{BytesStay};
ghost use Rattle.gpu_alloc_block.specs.Keyed.{ComeAndGoUnderKeys};
ghost use Rattle.gpu_alloc_block.specs.Kept.{ToldByPlace};
ghost use Rattle.gpu_alloc_block.specs.State.{State, Block, Span, span_of, span_cmp, IsOwned, is_shared, heap_limit, ledger};
ghost use Rattle.gpu_alloc_block.specs.declared.block.Kind.{Kind};
ghost use Rattle.gpu_alloc_block.specs.declared.block.Kind.TheVariants.{FitChunk};
ghost use Rattle.gpu_alloc_base.specs.declared.piece.Piece.{Piece};
ghost use Rattle.gpu_alloc.specs.declared.request.Dedicated.TheVariants.{Required, Preferred};
ghost use Rattle.gpu_alloc.specs.declared.request.Request.{Request};

use crate::GpuAllocator;
pub use gpu_alloc_base::laws::{
    align_masks_of_powers, free_list_chunk_is_least, next_power_of_two_is_least,
};
use gpu_alloc_block::laws::byte_calls_keep_each_agreement;
pub use gpu_alloc_block::laws::{
    bytes_of_a_mapping_may_be_moved, rounded_ranges_lie_in_their_block, these_bytes_may_be_moved,
};
use gpu_alloc_types::{MemoryObject, ObjectDevice, OutOfMemory};
pub use gpu_alloc_usage::laws::{
    candidates_are_exact_and_sorted, ranking_is_exact_and_sorted, rankings_of_samples,
};
use std::alloc::Allocator;

/// Pieces are exactly the free pieces if they are aligned and apart, no two are halves of one range, and together they
/// are the free bytes. (Free pieces are the longest free ranges with a power of two as length that start at a multiple
/// of it.) This holds of a buddy allocator's chunks by key, and of an allocator's objects by name.
pub fn kept_pieces_are_the_free_pieces()
    ensures exact { (b : Buddy) (pieces : List Piece)
        → AreCanonical (IsFreeInBuddy b) pieces → AreFreePieces (IsFreeInBuddy b) pieces }
    ensures place { (b : Buddy) (pieces : List Piece)
        → AreCanonical (IsFreeInBuddy b) pieces → AreLongEnough (IsFreeInBuddy b) pieces }
    ensures exact_in_objects { (s : State) (t : ℕ) (kind : Kind) (pieces : List Piece)
        → AreCanonical (IsFreeByte s t kind) pieces → AreFreePieces (IsFreeByte s t kind) pieces }
    ensures place_in_objects { (s : State) (t : ℕ) (kind : Kind) (pieces : List Piece)
        → AreCanonical (IsFreeByte s t kind) pieces → AreLongEnough (IsFreeByte s t kind) pieces }
{}

/// Two free pieces that share a byte are the same piece.
pub fn free_pieces_are_apart()
    ensures in_chunks { (b : Buddy) → ArePiecesApart (IsFreeInBuddy b) }
    ensures in_objects { (s : State) (t : ℕ) (kind : Kind) → ArePiecesApart (IsFreeByte s t kind) }
{}

/// Regions are exactly the free runs if they are not empty, no two overlap or touch, and together they are the free
/// bytes. This holds of a free list's chunks, and in the whole allocator of a memory type's free-list chunks and fit
/// chunks, by the names of their objects. There is a place for a block exactly where some region has room for it.
pub fn regions_are_the_free_runs()
    ensures exact { (s : ListSpace) (regions : List FreeListRegion)
        → AreSpaced (IsFreeIn s) regions → AreFreeRuns (IsFreeIn s) regions }
    ensures place { (s : ListSpace) (regions : List FreeListRegion)
        → AreSpaced (IsFreeIn s) regions → TellPlaces (HasPlace s) regions }
    ensures exact_in_state { (s : State) (t : ℕ) (regions : List FreeListRegion)
        → AreSpaced (IsFreeInChunk s t) regions → AreFreeRuns (IsFreeInChunk s t) regions }
    ensures place_in_state { (s : State) (t : ℕ) (regions : List FreeListRegion)
        → AreSpaced (IsFreeInChunk s t) regions → TellPlaces (HasListPlace s t) regions }
    ensures exact_in_fits { (s : State) (t : ℕ) (regions : List FreeListRegion)
        → AreSpaced (IsFreeByte s t FitChunk) regions → AreFreeRuns (IsFreeByte s t FitChunk) regions }
    ensures place_in_fits { (s : State) (t : ℕ) (regions : List FreeListRegion)
        → AreSpaced (IsFreeByte s t FitChunk) regions → TellPlaces (HasFitPlace s t) regions }
{}

/// Each free byte of a memory type's shared chunks lies in exactly one free range, and each byte of a free range is
/// free. So `free_ranges` lists all that is free, once.
pub fn free_ranges_are_the_free_bytes()
    ensures covers { (s : State) (t object at : ℕ) → IsFreeOf s t object at
        → (r : FreeRange) × IsFreeRangeOf s t r × HasByte r object at }
    ensures free { (s : State) (t : ℕ) (r : FreeRange) → IsFreeRangeOf s t r
        → (object at : ℕ) → HasByte r object at → IsFreeOf s t object at }
    ensures apart { (s : State) (t : ℕ) (r q : FreeRange) → IsFreeRangeOf s t r → IsFreeRangeOf s t q
        → (object at : ℕ) → HasByte r object at → HasByte q object at → r ≡ q }
    ensures nonempty { (s : State) (t : ℕ) (r : FreeRange) → IsFreeRangeOf s t r → r.start < r.end }
{}

/// Free-list chunks and the blocks at their tails, for a first chunk of 8192 bytes. The chunks are the next one, one
/// that must be larger, and one that is capped at the largest. The blocks are a tail, and one at a multiple of 256.
#[tactic(auto, unfolding(gpu_alloc_base::specs::Sizes::doubled_up))]
pub fn free_list_chunks_of_samples()
    ensures first { grown_chunk 8192 32768 100 ≡ 8192 }
    ensures as_large { grown_chunk 8192 32768 8192 ≡ 8192 }
    ensures larger { grown_chunk 8192 32768 20000 ≡ 32768 }
    ensures twice { grown_chunk 8192 32768 16384 ≡ 16384 }
    ensures largest { grown_chunk 8192 20000 17000 ≡ 20000 }
    ensures next { doubled_chunk 32768 8192 ≡ 16384 }
    ensures last { doubled_chunk 32768 32768 ≡ 32768 }
    ensures tail { tail_start 100 1 8192 ≡ 8092 }
    ensures aligned_tail { tail_start 100 256 8092 ≡ 7936 }
    ensures atoms { list_size (potato_for_one_type 3200 2 64) (bytes_for 60 16) 0 ≡ 64 }
    ensures atom_aligned { list_alignment (potato_for_one_type 3200 2 64) (bytes_for 60 16) 0 ≡ 64 }
    ensures question { (list_question (potato_for_one_type 1048576 1 1) 0 20000).size ≡ 32768 }
    ensures seen { (list_question (potato_for_one_type 3200 2 64) 0 64).mapped ≡ true }
{}

/// Sizes of fit chunks, for every configuration, heap and grain. The first one has room for every request that shares
/// one (`sizes`). Whatever calls were made, each held one has whole grains, no fewer bytes than the first and at most
/// four times as many, and none is larger than a 32nd of its heap, or a single grain (`held`). The same holds of the
/// least size of the next one (`next`). So for a request that the first one would hold, a chunk of exactly the next
/// one's size is asked for (`asked`).
pub fn fit_chunks_are_small()
    ensures sizes { FitChunksAreSmall }
    ensures held { (s : State) → IsSound s → (t object : ℕ) (is : IsFitChunk s t object)
        → IsSmallFit s t (is.chunk).counted }
    ensures next { (s : State) → IsSound s → (t : ℕ) → t < length s.properties.memory_types
        → IsSmallFit s t (next_fit_chunk s t) }
    ensures asked { (s : State) → IsSound s → (t : ℕ) → t < length s.properties.memory_types
        → (r : Request) → fits_first s r t ≡ true
        → (fit_question s t (fit_size s r t)).size ≡ next_fit_chunk s t }
{}

/// A fit chunk is cut at grains alone: each free range of it starts and ends at a multiple of the grain, as its live
/// spans do by the soundness of the allocator.
pub fn fit_chunks_are_cut_at_grains()
    ensures { (s : State) → IsSound s → (t : ℕ) (r : FreeRange) → IsFreeRangeOf s t r → IsFitChunk s t r.object
        → IsMultipleOf (grain_of s t) r.start × IsMultipleOf (grain_of s t) r.end }
{}

/// Fit chunks and their blocks, where fit chunks are chosen: sizes and alignments up to the grain, and the questions
/// for chunks. These are for a first chunk and for later ones; a small heap cuts the largest. A request of exactly the
/// first chunk's size is served by one, and one byte more gets an object of its own. A free list serves a transient
/// one.
#[tactic(auto, unfolding(gpu_alloc_base::specs::Sizes::doubled_up, crate::specs::FitSharing::with_next_fit))]
pub fn fit_chunks_of_samples()
    ensures one_grain { fit_size (fits_over 1048576 1 1) (bytes_for 1 0) 0 ≡ 256 }
    ensures whole_grain { fit_size (fits_over 1048576 1 1) (bytes_for 256 0) 0 ≡ 256 }
    ensures next_grain { fit_size (fits_over 1048576 1 1) (bytes_for 257 0) 0 ≡ 512 }
    ensures small_atom { fit_size (fits_over 3200 2 64) (bytes_for 60 0) 0 ≡ 256 }
    ensures large_atom { fit_size (fits_over 1048576 2 1024) (bytes_for 257 0) 0 ≡ 1024 }
    ensures aligned { fit_alignment (fits_over 1048576 1 1) (bytes_for 1 0) 0 ≡ 256 }
    ensures atom_aligned { fit_alignment (fits_over 1048576 2 1024) (bytes_for 1 0) 0 ≡ 1024 }
    ensures first { (fit_question (fits_over 1048576 1 1) 0 256).size ≡ 8192 }
    ensures as_large { (fit_question (fits_over 1048576 1 1) 0 8192).size ≡ 8192 }
    ensures second { (fit_question (with_fit_chunk (fits_over 1048576 1 1) 0 1 8192) 0 256).size ≡ 16384 }
    ensures last { (fit_question (with_fit_chunk (fits_over 1048576 1 1) 0 1 32768) 0 256).size ≡ 32768 }
    ensures seen { (fit_question (fits_over 3200 2 64) 0 256).mapped ≡ true }
    ensures unseen { (fit_question (fits_over 1048576 1 1) 0 256).mapped ≡ false }
    ensures four_times { largest_fit potato 4194304 256 ≡ 32768 }
    ensures cut { largest_fit potato 524288 256 ≡ 16384 }
    ensures one_grain_at_most { largest_fit potato 3200 256 ≡ 256 }
    ensures fits { strategy (fits_over 1048576 1 1) (bytes_for 8192 0) None 0 ≡ InFitChunk }
    ensures over_the_first { strategy (fits_over 1048576 1 1) (bytes_for 8193 0) None 0 ≡ OwnObject }
    ensures preferred { strategy (fits_over 1048576 1 1) (bytes_for 1024 0) (Some Preferred) 0 ≡ OwnObject }
    ensures preferred_below { strategy (fits_over 1048576 1 1) (bytes_for 1023 0) (Some Preferred) 0 ≡ InFitChunk }
    ensures below_a_grain { strategy (fits_over 3200 2 64) (bytes_for 1 0) None 0 ≡ OwnObject }
    ensures transient { strategy (fits_over 1048576 1 1) (bytes_for 20000 16) None 0 ≡ InFreeList }
{}

/// Sizes of buddy blocks and of the chunks for them, for a smallest block of 1 and a first chunk of 8192, with an atom,
/// and with a larger smallest block.
#[tactic(auto, unfolding(gpu_alloc_base::specs::Sizes::doubled_up))]
pub fn buddy_sizes_of_samples()
    ensures small { rounded (empty_buddy 1 8192 0 1 1) (wanted 100 0 0) ≡ 128 }
    ensures small_chunk { chunk_size (empty_buddy 1 8192 0 1 1) 128 ≡ 8192 }
    ensures large { rounded (empty_buddy 1 8192 0 1 1) (wanted 20000 0 0) ≡ 32768 }
    ensures large_chunk { chunk_size (empty_buddy 1 8192 0 1 1) 32768 ≡ 65536 }
    ensures aligned { rounded (empty_buddy 1 8192 0 1 1) (wanted 1 16383 0) ≡ 16384 }
    ensures past_64_bits { rounded (empty_buddy 1 8192 0 1 1) (wanted 1 9223372036854775807 0) ≡ 9223372036854775808 }
    ensures atom { rounded (empty_buddy 1 128 0 2 64) (wanted 20 0 0) ≡ 64 }
    ensures least { rounded (empty_buddy 1024 1 0 1 1) (wanted 1 0 0) ≡ 1024 }
    ensures least_chunk { chunk_size (empty_buddy 1024 1 0 1 1) 1024 ≡ 2048 }
{}

/// Blocks of shared chunks and the questions for such chunks, as an allocator's state gives them: at first, and after a
/// larger chunk was made.
#[tactic(auto, unfolding(gpu_alloc_base::specs::Sizes::doubled_up, crate::specs::BuddySharing::with_next_chunk))]
pub fn shared_chunks_of_samples()
    ensures small { buddy_size (potato_for_one_type 1048576 1 1) (bytes_for 100 0) 0 ≡ 128 }
    ensures small_chunk { (buddy_question (potato_for_one_type 1048576 1 1) 0 128).size ≡ 8192 }
    ensures large { buddy_size (potato_for_one_type 1048576 1 1) (bytes_for 20000 0) 0 ≡ 32768 }
    ensures large_chunk { (buddy_question (potato_for_one_type 1048576 1 1) 0 32768).size ≡ 65536 }
    ensures grown { (buddy_question (with_buddy_chunk (potato_for_one_type 1048576 1 1) 0 1 65536) 0 128).size ≡ 65536 }
    ensures atom { buddy_size (potato_for_one_type 3200 2 64) (bytes_for 20 0) 0 ≡ 64 }
    ensures seen { (buddy_question (potato_for_one_type 3200 2 64) 0 64).mapped ≡ true }
    ensures unseen { (buddy_question (potato_for_one_type 1048576 1 1) 0 128).mapped ≡ false }
{}

/// First chunk sizes: of both default configurations, of a small heap with an atom, and of a minimum above the initial
/// size.
#[tactic(auto, unfolding(gpu_alloc_base::specs::Sizes::doubled_up))]
pub fn first_sizes_of_samples()
    ensures potato { first_types potato (one_type 1048576 1 1)
        ≡ record { next_chunk = 8192; list_chunk = 8192; number = 0; fit_chunk = 8192 } ∷ [] }
    ensures potato_final { final_size potato 1048576 1 ≡ 32768 }
    ensures potato_minimal { minimal_size potato 1048576 ≡ 1 }
    ensures prototyping { first_types prototyping (one_type 4294967296 1 1)
        ≡ record { next_chunk = 8388608; list_chunk = 8388608; number = 0; fit_chunk = 8388608 } ∷ [] }
    ensures prototyping_final { final_size prototyping 4294967296 1 ≡ 134217728 }
    ensures atoms { first_types potato (one_type 3200 2 64)
        ≡ record { next_chunk = 128; list_chunk = 64; number = 0; fit_chunk = 256 } ∷ [] }
    ensures one_atom { first_types potato (one_type 1024 2 64)
        ≡ record { next_chunk = 32; list_chunk = 64; number = 0; fit_chunk = 256 } ∷ [] }
    ensures one_atom_at_most { final_size potato 1024 64 ≡ 64 }
    ensures empty_heap { first_types potato (one_type 0 1 1)
        ≡ record { next_chunk = 1; list_chunk = 1; number = 0; fit_chunk = 256 } ∷ [] }
    ensures minimum_wins { first_types (buddy_config 1024 1) (one_type 1048576 1 1)
        ≡ record { next_chunk = 1024; list_chunk = 1; number = 0; fit_chunk = 256 } ∷ [] }
{}

/// The strategy at its thresholds: a request of exactly the threshold gets an object of its own.
pub fn strategy_of_samples()
    ensures required { strategy (potato_for_one_type 1048576 1 1) (bytes_for 1 16) (Some Required) 0 ≡ OwnObject }
    ensures preferred { strategy (potato_for_one_type 1048576 1 1) (bytes_for 1024 0) (Some Preferred) 0 ≡ OwnObject }
    ensures preferred_below { strategy (potato_for_one_type 1048576 1 1) (bytes_for 1023 0) (Some Preferred) 0 ≡ InBuddyChunk }
    ensures large { strategy (potato_for_one_type 1048576 1 1) (bytes_for 32768 0) None 0 ≡ OwnObject }
    ensures large_below { strategy (potato_for_one_type 1048576 1 1) (bytes_for 32767 0) None 0 ≡ InBuddyChunk }
    ensures transient { strategy (potato_for_one_type 1048576 1 1) (bytes_for 20000 16) None 0 ≡ InFreeList }
    ensures transient_large { strategy (potato_for_one_type 1048576 1 1) (bytes_for 32768 16) None 0 ≡ OwnObject }
    ensures over_the_final_chunk { strategy (potato_for_one_type 3200 2 64) (bytes_for 70 16) None 0 ≡ OwnObject }
    ensures in_the_final_chunk { strategy (potato_for_one_type 3200 2 64) (bytes_for 60 16) None 0 ≡ InFreeList }
{}

/// An allocator that holds nothing agrees with every device that has its properties. A caller that opened one with its
/// device's properties calls this to know it.
pub fn agrees_at_first<M: MemoryObject, D: ObjectDevice<M>, A: Allocator>(
    allocator: &GpuAllocator<M, A>,
    device: &D,
)
    requires { HoldsNothing (D.properties device.now) allocator.now }
    ensures { Agrees allocator.now (D.properties device.now) (D.objects device.now) }
{
    let _ = allocator;
    let _ = device;
}

/// Apart from imports, no heap is overdrawn, and no limit exceeds its heap's size. So where no import of a heap's
/// memory types is held, its ledger is at most its size. Without a limit, what is held and the budget then make up the
/// whole heap. With a limit, they make up the limit, or what is held where that is more.
pub fn heaps_are_not_overdrawn()
    ensures asked { (s : State) → IsSound s → IsWithinHeaps s }
    ensures limits { (s : State) → IsSound s → AreLimits s }
    ensures held { (s : State) (heap : ℕ) → IsSound s → heap < length s.properties.memory_heaps → HoldsNoImportOf s heap
        → ledger s heap ≤ heap_bytes s.properties heap }
    ensures whole { (s : State) (heap : ℕ) → IsSound s → heap < length s.properties.memory_heaps → HoldsNoImportOf s heap
        → heap_limit s heap ≡ heap_bytes s.properties heap
        → ledger s heap + heap_budget s heap ≡ heap_bytes s.properties heap }
    ensures limited { (s : State) (heap : ℕ) → ledger s heap + heap_budget s heap ≡ max (ledger s heap) (heap_limit s heap) }
{}

/// No memory type is passed over for its budget where the question for a new object is within it. The device is asked,
/// unless host memory runs out first, and only its own answer passes the type over.
pub fn questions_within_the_budget_are_asked()
    ensures { IsAskedWithinBudget }
{}

/// A granted block has an object of its own exactly where its memory type serves the request that way
/// (`GpuAllocator::serves_alone`). After this call a caller knows what the clause `alone` says.
pub fn own_objects_are_where_served_alone()
    ensures { AloneIsTold }
{}

/// A granted block of a fit chunk is exactly as long as requested, in whole grains, and starts at a grain and with the
/// request's alignment. After this call a caller knows what the clause `exact` says.
pub fn blocks_of_fit_chunks_are_exact()
    ensures { ExactIsTold }
{}

/// Each candidate of a request is a memory type that the request permits and that may serve its usage. A granted
/// block's memory type is a candidate.
pub fn candidates_serve_the_request()
    ensures { CandidatesServe }
{}

/// A call of the allocator keeps each block that stays owned in agreement. After this call a caller knows what the
/// clause `keeps` says of each block in hand.
pub fn kept_blocks_agree()
    ensures { KeptBlocksAgree }
{}

/// A request that may never be served (`GpuAllocator::can_ever_serve`) is refused in every state of an allocator with
/// these properties, without a call of the device. For any other request the device is asked at once for an object of
/// its own, where nothing is held and an object may be.
pub fn what_can_never_be_served()
    ensures never { NeverServed }
    ensures asks { AsksForOwnObjects }
{}

/// An import leaves allocator and block in agreement with the device. After this call a caller knows what the clause
/// `agrees` of `import_memory` says, for each device that agreed and held an object that may be imported.
pub fn imports_agree()
    ensures { ImportsAgree }
{}

/// Which objects may be imported: unmapped objects of the memory type with the range inside them. Where the memory type
/// must be flushed, the range ends on the atom or at the object's end. After this call a caller knows this of every
/// device. A range may also be imported if it ends where one that may be imported does, or before it on the atom.
pub fn which_objects_may_be_imported()
    ensures { WhichMayBeImported }
{}

/// After a device was asked for an object by its caller (`allocate_memory`), the allocator and each block still agree
/// with it, whatever it answered. The name of a new object is new to the allocator, and the whole object may be
/// imported. After this call a caller knows this of the device's latest call.
pub fn made_objects_may_be_imported<M: MemoryObject, D: ObjectDevice<M>, A: Allocator>(
    allocator: &GpuAllocator<M, A>,
    device: &D,
    answer: &Result<M, OutOfMemory>,
)
    ensures { MadeObjects allocator.now D.step D.properties D.objects device.now M.object answer.now }
{
    let _ = allocator;
    let _ = device;
    let _ = answer;
}

/// After a device released an object that an allocator does not hold (`deallocate_memory`), that allocator and its
/// blocks still agree with it. After this call a caller knows this of the device's latest call.
pub fn objects_of_others_may_go<M: MemoryObject, D: ObjectDevice<M>, A: Allocator>(
    allocator: &GpuAllocator<M, A>,
    device: &D,
)
    ensures { ObjectsOfOthers allocator.now D.step D.properties D.objects device.now }
{
    let _ = allocator;
    let _ = device;
}

/// After a device puts or gets bytes, flushes or invalidates for its caller, the allocator and each block still agree
/// with it, whatever it answered. After this call a caller knows this of the device's latest call.
pub fn byte_calls_keep_agreement<M: MemoryObject, D: ObjectDevice<M>, A: Allocator>(
    allocator: &GpuAllocator<M, A>,
    device: &D,
)
    ensures { BytesMoved allocator.now D.step D.properties D.objects device.now }
{
    let _ = allocator;
    byte_calls_keep_each_agreement(device);
}

/// Two owned blocks of different spans share no byte. They share no object where one of them has its own.
pub fn owned_blocks_are_apart()
    ensures { (s : State) (b c : Block) → IsSound s → IsOwned s b → IsOwned s c → span_of b ≢ span_of c → AreTwo b c }
{}

/// If two blocks are apart (`AreTwo`), they are so in either order. They lie in different objects, or in disjoint
/// ranges of one object. Where one of them has its own object, they lie in different objects.
pub fn two_blocks_are_apart()
    ensures back { (b c : Block) → AreTwo b c → AreTwo c b }
    ensures apart { (b c : Block) → AreTwo b c
        → (b.object ≢ c.object) ⊎ ((b.offset + b.size ≤ c.offset) ⊎ (c.offset + c.size ≤ b.offset)) }
    ensures objects { (b c : Block) → AreTwo b c → is_shared b.kind ≡ false → b.object ≢ c.object }
{}

/// No page of an object holds both a requested byte of an optimal block (`GpuAllocator::alloc_optimal`) and a byte of
/// another block in hand. The other block may be linear or optimal, granted earlier or later.
pub fn pages_are_not_shared()
    ensures { PagesApart }
{}

/// What is known of a list of blocks in hand is known of each: it is owned and agrees with the device, and blocks at
/// different places are apart (`AreTwo`). So a list is a map from places, as the clauses on keys use it.
pub fn blocks_in_hand_are_told_by_place()
    ensures { ToldByPlace }
{}

/// Blocks under the caller's own keys, as an `IndexMap` has them, stay kept (`AreKept`) in three cases. One is put
/// under a key that had none, the map lends one for a call, or one is taken out. Only what is found under each key
/// counts, in any order of the pairs. After this call the map's `Updates` with the allocator's `joins` or `in_hand`
/// gives the same for the new map. Where nothing else is live (`AreAllKept`), that stays so.
pub fn blocks_under_keys_come_and_go()
    ensures kept { ComeAndGoUnderKeys }
    ensures all { AllComeAndGo }
{}

/// Bytes that each call leaves unchanged are unchanged by all of them. What the device had of a block whose bytes are
/// unchanged, it still has.
pub fn bytes_stay()
    ensures { BytesStay }
{}

/// A span that is put in and taken out again leaves the live spans as they were, and one may be taken out before
/// another is put in. So granting and returning leaves them as they were.
pub fn spans_come_and_go()
    ensures again { (live : set.FinSet span_cmp) (span : Span) → set.contains live span ≡ false
        → set.remove (set.insert live span) span ≡ live }
    ensures between { (live : set.FinSet span_cmp) (a b : Span) → a ≢ b
        → set.remove (set.insert live b) a ≡ set.insert (set.remove live a) b }
    ensures cancel { CancelOut }
{}
