//! The allocator.

ghost use Rattle.std.specs.Prelude.{◌≡◌, ◌⊎◌, ◌↔◌, ℕ, ◌+◌, ◌^◌, ◌<◌, ◌≤◌, true, length, List, All, IsTrue, IfOk, IfSome};
ghost use Rattle.std.specs.Prelude.{OnErr, Some, None, false, is_some, not, ◌==◌};
ghost use Rattle.std.specs.FinMap as map;
ghost use Rattle.gpu_alloc_types.specs.Properties.{heap_size};
ghost use Rattle.gpu_alloc_types.specs.Flags.{usage_bits};
ghost use Rattle.gpu_alloc_types.specs.Device.{Event, Chain};
ghost use Rattle.gpu_alloc_block.specs.Agreement.{Agrees, BlockAgrees, KeepsBlocks};
ghost use Rattle.gpu_alloc_block.specs.Kept.{LeavesInHand, AddsInHand, RemovesInHand};
ghost use Rattle.gpu_alloc.specs.Allocation.{passing, fits_a_chunk, TriesCandidate, TriesBy, TriesAll};
ghost use Rattle.gpu_alloc_usage.specs.Ranking.{implied, named, ranking};
ghost use Rattle.gpu_alloc.specs.Allocation.{Allocates, AllocatesBy, ObjectsAfter, ObjectsTried, IsGranted};
ghost use Rattle.gpu_alloc.specs.Allocation.{IsAloneWhereServed, IsExactFit, asked_of, candidates_of, plan_with};
ghost use Rattle.gpu_alloc.specs.Atoms.{KeepsAtoms};
ghost use Rattle.gpu_alloc.specs.Candidates.{own_candidate};
ghost use Rattle.gpu_alloc_base.specs.Case.{IsOverBudget, IsWithinBudget};
ghost use Rattle.gpu_alloc.specs.declared.allocator.Strategy.TheVariants.{OwnObject, InBuddyChunk, InFreeList, InFitChunk};
ghost use Rattle.gpu_alloc.specs.FitSharing.{fits_first};
ghost use Rattle.gpu_alloc_block.specs.declared.sharing.Sharing.TheVariants.{Buddy as BuddyChosen, Fit as FitChosen};
ghost use Rattle.gpu_alloc.specs.Owned.{Leaves, Adds, Removes, LeavesNoRest, StaysAgreed};
ghost use Rattle.gpu_alloc.specs.Release.{Frees, ObjectsFreed, Cleans, ObjectsCleaned, IsCleanedUp, LetsObjectsGo};
ghost use Rattle.gpu_alloc.specs.Request.{IsAskable};
ghost use Rattle.gpu_alloc.specs.Sound as Sound;
ghost use Rattle.gpu_alloc_block.specs.State.{HeldObject, Span, IsLive, IsOwned, ledger, total};

mod candidates;
mod choosing;
mod heaps;
mod held_only;
mod importing;
mod listing;
mod opening;
mod optimal;
mod owning;
mod ranges;
mod returning;
mod serving;
mod stores;
mod uncounted;

use crate::limits::Limits;
use crate::own::{OwnObjects, OwnRow};
use crate::request::is_required;
use crate::{Dedicated, MemoryBlock, Request};
use gpu_alloc_base::heap::Heap;
use gpu_alloc_base::{AllocationError, booking, buddy_block, free_list_block};
use gpu_alloc_block::{Kind, Sharing};
use gpu_alloc_types::{MemoryObject, ObjectDevice, OutOfMemory, UsageFlags};
use gpu_alloc_usage::meaning;
use std::alloc::{Allocator, Global};
use std::marker::{Brand, Model};
use std::sync::ledger::Blank;
use stores::{Chosen, TypeStores, close_stores};

/// How a memory type serves a request.
#[derive(Clone, Copy)]
enum Strategy {
    /// By an object of the block's own.
    OwnObject,

    /// By a block of its buddy allocator.
    InBuddyChunk,

    /// By a block of its free list.
    InFreeList,

    /// By a block of a fit chunk.
    InFitChunk,
}

/// What a memory type is asked for: a request, perhaps with a hint.
#[derive(Clone, Copy)]
struct Ask {
    request: Request,
    hint: Option<Dedicated>,
}

/// Gives out blocks of a device's memory. It cannot be dropped: [`close`](GpuAllocator::close) ends it.
pub struct GpuAllocator<M: MemoryObject, A: Allocator = Global> {
    limits: Limits<A>,
    heaps: Vec<Heap, A>,
    types: Vec<TypeStores<M, A>, A>,
    own: OwnObjects<A>,
    allocations_remains: u32,
}

impl<M: MemoryObject, A: Allocator> Model for GpuAllocator<M, A> {
    ghost use Rattle.gpu_alloc_block.specs.State.{State};
    ghost use Rattle.gpu_alloc.specs.Codes.{state_code};

    ghost Value = { State };

    ghost coded = { state_code };

    ghost use Rattle.gpu_alloc.specs.Inside.{state_in, properties_in};
    ghost use Rattle.gpu_alloc.specs.Whole.{whole, IsKept};

    ghost view = { λ a. state_in a.limits a.heaps.items a.types.items (whole a.own a.types.items)
        a.allocations_remains };

    ghost invariant = { λ a. IsKept a.limits.sharing a.limits.config (properties_in a.limits a.heaps.items)
        a.heaps.items a.types.items a.own a.allocations_remains };
}

impl<M: MemoryObject, A: Allocator> GpuAllocator<M, A> {
    /// Allocates a block for a request: an object of its own where the request is large, and a place in a shared object
    /// otherwise.
    ///
    /// From the configuration's `dedicated_threshold` on, or from the 32nd part of its heap where that is less, a
    /// request gets an object of its own. The block then starts at offset 0 and has exactly the request's size. With
    /// the usage `TRANSIENT` the transient threshold takes the place of `dedicated_threshold`. A transient request that
    /// is too large for the largest free-list chunk, in whole atoms, gets an object of its own too. (The thresholds are
    /// the original crate's rule.)
    ///
    /// Any other request gets a block of a shared chunk. Each memory type has a free list, and a buddy allocator or an
    /// allocator of fit chunks, as was chosen:
    ///
    /// - Without `TRANSIENT`, where buddy chunks were chosen, the block comes from a buddy chunk. Its size is the least
    ///   power of two, in bytes, that is not below the request's size and alignment, the type's atom and the smallest
    ///   buddy block. It starts at a multiple of its size, in the shortest free place that suffices. Where no place
    ///   does, the device is asked for a chunk: the greater of twice the block and the latest buddy chunk of the type.
    /// - Without `TRANSIENT`, where fit chunks were chosen, the block comes from a fit chunk. It has the request's size
    ///   in whole grains (256 bytes, or the atom where that is larger). It starts at a grain and with the request's
    ///   alignment, at the last such place of a free run with room. Where no run has room, the device is asked for a
    ///   chunk. That is twice as large as the latest fit chunk, at most four times the first, and no larger than a free
    ///   list's largest. A request larger than the first fit chunk gets an object of its own.
    ///
    ///   Which run: lengths are sorted into classes, one for each whole number of 256-byte units below 64, and from
    ///   there on eight for each power of two. A class is *sure* where each of its runs has room, wherever it starts.
    ///   The run's class is no higher than the lowest sure class that has runs. A run with room in a lower class is
    ///   passed over only for one of a sure class, and only where the first four runs lack room, from the class of the
    ///   size on. A wholly free chunk comes last in its class.
    /// - With `TRANSIENT` the block comes from a chunk of the free list. It is the tail of the last free run with room,
    ///   from the last byte that is aligned (to the request's alignment and the atom) and leaves the size in whole
    ///   atoms. Where no run has room, the device is asked for a chunk. That is twice as large as the free list's
    ///   latest, or larger where the request needs it, and capped at the largest (`FreeListAllocator::alloc` says
    ///   more).
    ///
    /// A chunk is mapped whole where its type is host-visible. It may be larger than `max_memory_allocation_size`; the
    /// device decides. A block lies inside its object and is not mapped. Each question to the device carries
    /// `DEVICE_ADDRESS` exactly where the device has the feature (the original crate's rule).
    ///
    /// Afterwards the block agrees with the device, as its own calls require, and so does each owned block that agreed
    /// before. Each byte of those blocks is unchanged, and so is what the device has apart from the allocator's
    /// objects.
    ///
    /// The request must be askable (`Request::is_askable`, with the device's `buffer_device_address`). The device must
    /// be the one that this allocator has served, so that the two agree. The errors, in the order in which they are
    /// tested (the original crate's):
    ///
    /// - `OutOfDeviceMemory` where the size is over the limit given to `new`
    /// - `NoCompatibleMemoryTypes` where no memory type among the request's serves its usage
    /// - the errors of the memory types, below.
    ///
    /// Then the memory types are tried in order of rank. A type is passed over in any of these cases:
    ///
    /// - its heap is smaller than the request
    /// - a chunk for the request would have 2^64 bytes or more
    /// - a new object is needed that is larger than the heap's budget (`heap_budget`); the device is then not asked
    /// - the device answers `OutOfDeviceMemory`.
    ///
    /// The first type that is not passed over gives the block or the error. It is `TooManyObjects` where a new object
    /// is needed and no more may be held (or 2^64 - 1 free-list chunks have used up their numbers). It is
    /// `OutOfHostMemory` where the allocator or the device lacks host memory, or a new chunk could not be mapped. Where
    /// all types are passed over, it is `OutOfDeviceMemory`. After an error the allocator and the device's objects are
    /// unchanged: a chunk that was made is released.
    pub fn alloc<D: ObjectDevice<M>>(
        &mut self,
        device: &mut D,
        request: Request,
    ) -> Result<MemoryBlock<M>, AllocationError>
        requires askable { IsAskable (self.old.properties).buffer_device_address request }
        requires agrees { Agrees self.old (D.properties device.old) (D.objects device.old) }

        // The calls of the device, the answer and the new state follow the decision.
        ensures decided { (es : List Event) × Chain D.step device.old es device.new
            × Allocates self.old request None es result self.new }
        ensures objects { ObjectsAfter self.old result self.new (D.objects device.old) (D.objects device.new) }
        ensures agrees { Agrees self.new (D.properties device.new) (D.objects device.new) }

        // What follows from it.
        ensures granted { IfOk result (IsGranted self.old request self.new) }
        ensures alone { IfOk result (IsAloneWhereServed self.old request None) }
        ensures exact { IfOk result (IsExactFit self.old request) }
        ensures ready { IfOk result (λ block. BlockAgrees block (D.properties device.new) (D.objects device.new)) }
        ensures added { IfOk result (Adds self.old self.new) }
        ensures refused { OnErr result (self.new ≡ self.old) }
        ensures leaves { Leaves self.old self.new }
        ensures keeps { KeepsBlocks self.old (D.properties device.old) (D.objects device.old)
            self.new (D.properties device.new) (D.objects device.new) }
        ensures in_hand { LeavesInHand self.old (D.properties device.old) (D.objects device.old)
            self.new (D.properties device.new) (D.objects device.new) }
        ensures joins { IfOk result (AddsInHand self.old (D.properties device.old) (D.objects device.old)
            self.new (D.properties device.new) (D.objects device.new)) }
        ensures properties { D.properties device.new ≡ D.properties device.old }
        ensures total { total self.new ≡ total self.old }
        ensures sound { Sound.IsSound self.new }
    {
        self.keeps_sound();
        let answer = self.allocate(device, &request, None, &None);
        self.keeps_sound();
        answer
    }

    /// Allocates a block as [`alloc`](GpuAllocator::alloc) does, with a hint that it wants a memory object of its own.
    ///
    /// With `Required` it gets one. The error is `TooManyObjects` where no more objects may be held, after the test of
    /// the size and before any memory type is tried. With `Preferred` it gets one from the configuration's
    /// `preferred_dedicated_threshold` on, or from `dedicated_threshold` where that is less, and otherwise what `alloc`
    /// gives.
    ///
    /// The conditions and the errors are those of `alloc`.
    pub fn alloc_with_dedicated<D: ObjectDevice<M>>(
        &mut self,
        device: &mut D,
        request: Request,
        dedicated: Dedicated,
    ) -> Result<MemoryBlock<M>, AllocationError>
        requires askable { IsAskable (self.old.properties).buffer_device_address request }
        requires agrees { Agrees self.old (D.properties device.old) (D.objects device.old) }

        // The calls of the device, the answer and the new state follow the decision.
        ensures decided { (es : List Event) × Chain D.step device.old es device.new
            × Allocates self.old request (Some dedicated) es result self.new }
        ensures objects { ObjectsAfter self.old result self.new (D.objects device.old) (D.objects device.new) }
        ensures agrees { Agrees self.new (D.properties device.new) (D.objects device.new) }

        // What follows from it.
        ensures granted { IfOk result (IsGranted self.old request self.new) }
        ensures ready { IfOk result (λ block. BlockAgrees block (D.properties device.new) (D.objects device.new)) }
        ensures alone { IfOk result (IsAloneWhereServed self.old request (Some dedicated)) }
        ensures exact { IfOk result (IsExactFit self.old request) }
        ensures own { dedicated ≡ Dedicated.Required → IfOk result (λ block. block.kind ≡ Kind.Dedicated) }
        ensures added { IfOk result (Adds self.old self.new) }
        ensures refused { OnErr result (self.new ≡ self.old) }
        ensures leaves { Leaves self.old self.new }
        ensures keeps { KeepsBlocks self.old (D.properties device.old) (D.objects device.old)
            self.new (D.properties device.new) (D.objects device.new) }
        ensures in_hand { LeavesInHand self.old (D.properties device.old) (D.objects device.old)
            self.new (D.properties device.new) (D.objects device.new) }
        ensures joins { IfOk result (AddsInHand self.old (D.properties device.old) (D.objects device.old)
            self.new (D.properties device.new) (D.objects device.new)) }
        ensures properties { D.properties device.new ≡ D.properties device.old }
        ensures total { total self.new ≡ total self.old }
        ensures sound { Sound.IsSound self.new }
    {
        self.keeps_sound();
        let answer = self.allocate(device, &request, Some(dedicated), &None);
        self.keeps_sound();
        answer
    }

    /// Allocates a block, perhaps with a hint. Where the same request in whole pages is given, a shared chunk serves
    /// that one.
    fn allocate<D: ObjectDevice<M>>(
        &mut self,
        device: &mut D,
        request: &Request,
        hint: Option<Dedicated>,
        paged: &Option<Request>,
    ) -> Result<MemoryBlock<M>, AllocationError>
        requires askable { IsAskable (self.old.properties).buffer_device_address request.now }
        requires pages { IfSome paged.now (IsAskable (self.old.properties).buffer_device_address) }
        requires agrees { Agrees self.old (D.properties device.old) (D.objects device.old) }
        ensures decided { (es : List Event) × Chain D.step device.old es device.new
            × AllocatesBy self.old (plan_with self.old request.now hint paged.now) es result self.new }
        ensures objects { ObjectsAfter self.old result self.new (D.objects device.old) (D.objects device.new) }
    {
        if request.size > self.max_allocation_size() {
            return Err(AllocationError::OutOfDeviceMemory);
        }
        if self.remaining_allocations() == 0 && is_required(hint) {
            return Err(AllocationError::TooManyObjects);
        }
        let usage = meaning(request.usage);
        if !self.has_candidate(*request, usage) {
            return Err(AllocationError::NoCompatibleMemoryTypes);
        }
        self.try_all(device, request, hint, paged, usage)
    }

    /// Whether any memory type that serves this usage is one of those that the request allows.
    #[inline(always)]
    fn has_candidate(&self, request: Request, usage: UsageFlags) -> bool
        requires meant { usage_bits usage ≡ implied (usage_bits request.usage) }
        ensures { result ≡ not (length (candidates_of self.now request) == 0) }
    {
        self.limits
            .memory_for_usage
            .has_any(usage, request.memory_types)
    }

    /// The memory types that serve a usage, the best first.
    #[inline(always)]
    fn ranked(&self, usage: UsageFlags) -> &[u32]
        ensures ranked { result.now ≡ ranking (named (usage_bits usage)) (self.now.properties).memory_types }
        ensures few { All (λ t. t < 32) result.now }
    {
        self.limits.memory_for_usage.types(usage)
    }

    /// Tries the candidates in order of rank: the memory types that serve this usage and that the request allows.
    fn try_all<D: ObjectDevice<M>>(
        &mut self,
        device: &mut D,
        request: &Request,
        hint: Option<Dedicated>,
        paged: &Option<Request>,
        usage: UsageFlags,
    ) -> Result<MemoryBlock<M>, AllocationError>
        requires askable { IsAskable (self.old.properties).buffer_device_address request.now }
        requires pages { IfSome paged.now (IsAskable (self.old.properties).buffer_device_address) }
        requires meant { usage_bits usage ≡ implied (usage_bits (request.now).usage) }
        requires agrees { Agrees self.old (D.properties device.old) (D.objects device.old) }
        ensures tries { (es : List Event) × Chain D.step device.old es device.new
            × TriesAll self.old (asked_of self.old request.now hint paged.now) (candidates_of self.old request.now) es
            result self.new }
        ensures objects { ObjectsAfter self.old result self.new (D.objects device.old) (D.objects device.new) }
    {
        for rank in 0..self.ranked(usage).len() {
            let memory_type = self.ranked(usage)[rank];
            if request.memory_types >> memory_type & 1 == 1 {
                match self.try_asked(device, request, hint, paged, memory_type) {
                    Ok(Some(block)) => return Ok(block),
                    Ok(None) => {}
                    Err(refusal) => return Err(refusal),
                }
            }
        }
        Err(AllocationError::OutOfDeviceMemory)
    }

    /// Tries one memory type: `None` where it is passed over.
    fn try_type<D: ObjectDevice<M>>(
        &mut self,
        device: &mut D,
        request: Request,
        hint: Option<Dedicated>,
        memory_type: u32,
    ) -> Result<Option<MemoryBlock<M>>, AllocationError>
        requires askable { IsAskable (self.old.properties).buffer_device_address request }
        requires known { memory_type < length (self.old.properties).memory_types }
        requires agrees { Agrees self.old (D.properties device.old) (D.objects device.old) }
        ensures tries { (es : List Event) × Chain D.step device.old es device.new
            × TriesCandidate self.old request hint memory_type es result self.new }
        ensures objects { ObjectsTried self.old result self.new (D.objects device.old) (D.objects device.new) }
    {
        match self.strategy(request, hint, memory_type) {
            Strategy::OwnObject if self.is_passed_unasked(request.size, memory_type) => Ok(None),
            Strategy::OwnObject => self.try_object(device, request, memory_type),
            Strategy::InBuddyChunk => self.try_buddy(device, request, memory_type),
            Strategy::InFreeList => self.try_free_list(device, request, memory_type),
            Strategy::InFitChunk => self.try_fit(device, request, memory_type),
        }
    }

    /// Whether a memory type is passed over without asking the device, where an object of `size` bytes is wanted.
    /// Either the object is larger than the heap, or one may be asked for and is over the heap's budget.
    #[inline(always)]
    fn is_passed_unasked(&self, size: u64, memory_type: u32) -> bool
        requires known { memory_type < length (self.now.properties).memory_types }
        ensures passed { result ≡ true → (heap_size self.now.properties memory_type < size)
            ⊎ ((0 < self.now.remaining) × IsOverBudget (own_candidate self.now size memory_type)) }
        ensures fits { result ≡ false → size ≤ heap_size self.now.properties memory_type }
        ensures within { result ≡ false → 0 < self.now.remaining → IsWithinBudget (own_candidate self.now size memory_type) }
    {
        !self.heaps[self.limits.heap_index(memory_type)].fits(size)
            && self.is_passed_over_budget(size, memory_type)
    }

    /// Whether an object of `size` bytes is larger than a memory type's heap, or one more may be held. (It stands apart
    /// so that requests within the budget do not pay for it.)
    #[cold]
    #[inline(never)]
    fn is_passed_over_budget(&self, size: u64, memory_type: u32) -> bool
        requires known { memory_type < length (self.now.properties).memory_types }
        ensures { IsTrue result ↔ ((heap_size self.now.properties memory_type < size) ⊎ (0 < self.now.remaining)) }
    {
        self.heap_size(memory_type) < size || self.allocations_remains > 0
    }

    /// Tries one memory type for an object of its own, which its heap has room for: `None` where the type is passed
    /// over.
    fn try_object<D: ObjectDevice<M>>(
        &mut self,
        device: &mut D,
        request: Request,
        memory_type: u32,
    ) -> Result<Option<MemoryBlock<M>>, AllocationError>
        requires askable { IsAskable (self.old.properties).buffer_device_address request }
        requires known { memory_type < length (self.old.properties).memory_types }
        requires room { 0 < self.old.remaining → IsWithinBudget (own_candidate self.old request.size memory_type) }
        requires agrees { Agrees self.old (D.properties device.old) (D.objects device.old) }
        ensures tries { (es : List Event) × Chain D.step device.old es device.new
            × TriesBy OwnObject self.old request memory_type es result self.new }
        ensures objects { ObjectsTried self.old result self.new (D.objects device.old) (D.objects device.new) }
    {
        if self.allocations_remains == 0 {
            return Err(AllocationError::TooManyObjects);
        }
        if self.own.reserve().is_err() {
            return Err(AllocationError::OutOfHostMemory);
        }
        let flags = self.limits.flags();
        // (read before anything is written, since the table may have to be read again after that)
        let heap = self.limits.heap_index(memory_type);
        let props = self.limits.props(memory_type);
        let atom = self.limits.atom(memory_type);
        let answer = device.allocate_memory(request.size, memory_type, flags);
        match answer {
            Ok(memory) => {
                let row = OwnRow {
                    object: memory.object(),
                    offset: 0,
                    size: request.size,
                    memory_type,
                    imported: false,
                };
                let key = self.own.insert(row);
                booking::hold(
                    &mut self.heaps[heap],
                    &mut self.allocations_remains,
                    row.size,
                );
                Ok(Some(MemoryBlock::new(
                    memory,
                    row.offset,
                    row.size,
                    memory_type,
                    props,
                    atom,
                    Kind::Dedicated,
                    key,
                )))
            }
            Err(OutOfMemory::OutOfDeviceMemory) => Ok(None),
            Err(OutOfMemory::OutOfHostMemory) => Err(AllocationError::OutOfHostMemory),
        }
    }

    /// Tries one memory type for a block of a buddy chunk: `None` where the type is passed over.
    fn try_buddy<D: ObjectDevice<M>>(
        &mut self,
        device: &mut D,
        request: Request,
        memory_type: u32,
    ) -> Result<Option<MemoryBlock<M>>, AllocationError>
        requires askable { IsAskable (self.old.properties).buffer_device_address request }
        requires known { memory_type < length (self.old.properties).memory_types }
        requires chosen { self.old.sharing ≡ BuddyChosen }
        requires agrees { Agrees self.old (D.properties device.old) (D.objects device.old) }
        ensures tries { (es : List Event) × Chain D.step device.old es device.new
            × TriesBy InBuddyChunk self.old request memory_type es result self.new }
        ensures objects { ObjectsTried self.old result self.new (D.objects device.old) (D.objects device.new) }
    {
        let heap = self.limits.heap_index(memory_type);
        let flags = self.limits.flags();
        let Chosen::Buddy(buddy) = &mut self.types[memory_type as usize].chosen else {
            unreachable!()
        };
        let answer = uncounted::alloc::<M, A, D, Brand, Brand>(
            buddy,
            device,
            request.size,
            request.align_mask,
            flags,
            &mut self.heaps[heap],
            &mut self.allocations_remains,
            Blank::new(1),
            Blank::new(1),
        );
        let block = match answer {
            Ok(block) => block,
            Err(refusal) => return passing(refusal),
        };
        let props = self.limits.props(memory_type);
        let atom = self.limits.atom(memory_type);
        let (memory, leaf) = buddy_block::into_parts(block);
        Ok(Some(MemoryBlock::new(
            memory,
            leaf.offset,
            leaf.size,
            memory_type,
            props,
            atom,
            Kind::BuddyChunk,
            leaf.index,
        )))
    }

    /// Tries one memory type for a block of its free list: `None` where the type is passed over.
    fn try_free_list<D: ObjectDevice<M>>(
        &mut self,
        device: &mut D,
        request: Request,
        memory_type: u32,
    ) -> Result<Option<MemoryBlock<M>>, AllocationError>
        requires askable { IsAskable (self.old.properties).buffer_device_address request }
        requires known { memory_type < length (self.old.properties).memory_types }
        requires fits { fits_a_chunk self.old request memory_type ≡ true }
        requires agrees { Agrees self.old (D.properties device.old) (D.objects device.old) }
        ensures tries { (es : List Event) × Chain D.step device.old es device.new
            × TriesBy InFreeList self.old request memory_type es result self.new }
        ensures objects { ObjectsTried self.old result self.new (D.objects device.old) (D.objects device.new) }
    {
        let heap = self.limits.heap_index(memory_type);
        let flags = self.limits.flags();
        let answer = self.types[memory_type as usize].free_list.alloc(
            device,
            request.size,
            request.align_mask,
            flags,
            &mut self.heaps[heap],
            &mut self.allocations_remains,
        );
        let block = match answer {
            Ok(block) => block,
            Err(refusal) => return passing(refusal),
        };
        let props = self.limits.props(memory_type);
        let atom = self.limits.atom(memory_type);
        let (memory, slot, key) = free_list_block::into_parts(block);
        Ok(Some(MemoryBlock::new(
            memory,
            slot.offset,
            slot.size,
            memory_type,
            props,
            atom,
            Kind::FreeListChunk(slot.chunk),
            key,
        )))
    }

    /// Tries one memory type for a block of a fit chunk: `None` where the type is passed over.
    fn try_fit<D: ObjectDevice<M>>(
        &mut self,
        device: &mut D,
        request: Request,
        memory_type: u32,
    ) -> Result<Option<MemoryBlock<M>>, AllocationError>
        requires askable { IsAskable (self.old.properties).buffer_device_address request }
        requires known { memory_type < length (self.old.properties).memory_types }
        requires chosen { self.old.sharing ≡ FitChosen }
        requires fits { fits_first self.old request memory_type ≡ true }
        requires agrees { Agrees self.old (D.properties device.old) (D.objects device.old) }
        ensures tries { (es : List Event) × Chain D.step device.old es device.new
            × TriesBy InFitChunk self.old request memory_type es result self.new }
        ensures objects { ObjectsTried self.old result self.new (D.objects device.old) (D.objects device.new) }
    {
        let heap = self.limits.heap_index(memory_type);
        let flags = self.limits.flags();
        let Chosen::Fit(fit) = &mut self.types[memory_type as usize].chosen else {
            unreachable!()
        };
        let answer = uncounted::alloc_fit::<M, A, D, Brand>(
            fit,
            device,
            request.size,
            request.align_mask,
            flags,
            &mut self.heaps[heap],
            &mut self.allocations_remains,
            Blank::new(1),
        );
        let block = match answer {
            Ok(block) => block,
            Err(refusal) => return passing(refusal),
        };
        let props = self.limits.props(memory_type);
        let atom = self.limits.atom(memory_type);
        let (memory, slot, key) = free_list_block::into_parts(block);
        Ok(Some(MemoryBlock::new(
            memory,
            slot.offset,
            slot.size,
            memory_type,
            props,
            atom,
            Kind::FitChunk,
            key,
        )))
    }

    /// The size of a memory type's heap, in bytes.
    #[inline(always)]
    fn heap_size(&self, memory_type: u32) -> u64
        requires { memory_type < length (self.now.properties).memory_types }
        ensures { result ≡ heap_size self.now.properties memory_type }
    {
        self.heaps[self.limits.heap_index(memory_type)].size()
    }

    /// Returns a block, and releases objects that are then no longer needed:
    ///
    /// - An object of its own, or an import, is released.
    /// - A buddy chunk is released if no other block in it is live.
    /// - With a block of a free list, each chunk of that list without a live block is released, the oldest first. Only
    ///   the chunk with the list's last free run is kept (the original crate's rule), until
    ///   [`cleanup`](GpuAllocator::cleanup).
    /// - A fit chunk without another live block is released if its memory type has another such chunk, and kept
    ///   otherwise.
    ///
    /// For each released object, one more may be held. Its heap's ledger is reduced by the object's counted size: its
    /// own size, or for an import the block's size. In any other chunk the block joins the free space.
    ///
    /// The block must be live here (see `owns`). The device must be the one that this allocator has served, so that the
    /// two agree. The block may be mapped. It allocates nothing and cannot fail. Each other owned block that agreed
    /// with the device still does, and its bytes are unchanged.
    pub fn dealloc<D: ObjectDevice<M>>(&mut self, device: &mut D, block: MemoryBlock<M>)
        requires owned { IsOwned self.old block }
        requires agrees { Agrees self.old (D.properties device.old) (D.objects device.old) }

        ensures freed { (es : List Event) × Chain D.step device.old es device.new × Frees self.old block es self.new }
        ensures objects { ObjectsFreed self.old block (D.objects device.old) (D.objects device.new) }
        ensures gone { LetsObjectsGo D.step D.objects self.old device.old self.new device.new }
        ensures agrees { Agrees self.new (D.properties device.new) (D.objects device.new) }
        ensures removed { Removes self.old block self.new }
        ensures keeps { KeepsBlocks self.old (D.properties device.old) (D.objects device.old)
            self.new (D.properties device.new) (D.objects device.new) }
        ensures in_hand { RemovesInHand self.old (D.properties device.old) (D.objects device.old) block
            self.new (D.properties device.new) (D.objects device.new) }
        ensures properties { D.properties device.new ≡ D.properties device.old }
        ensures total { total self.new ≡ total self.old }
        ensures sound { Sound.IsSound self.new }
    {
        self.put_back(device, block);
    }

    /// Releases every free-list chunk and every fit chunk without a live block. It takes the memory types in order, and
    /// for each type releases the chunks of its free list first, the oldest first. For each chunk, one more object may
    /// be held, and its heap's ledger is reduced by the chunk's size.
    ///
    /// Where no block is live, nothing is held afterwards, and every ledger is 0. Each owned block that agreed with the
    /// device still does, and its bytes are unchanged. The device must be the one that this allocator has served, so
    /// that the two agree. It allocates nothing and cannot fail.
    pub fn cleanup<D: ObjectDevice<M>>(&mut self, device: &mut D)
        requires agrees { Agrees self.old (D.properties device.old) (D.objects device.old) }

        ensures cleaned { (es : List Event) × Chain D.step device.old es device.new × Cleans self.old es self.new }
        ensures objects { ObjectsCleaned self.old (D.objects device.old) (D.objects device.new) }
        ensures gone { LetsObjectsGo D.step D.objects self.old device.old self.new device.new }
        ensures agrees { Agrees self.new (D.properties device.new) (D.objects device.new) }
        ensures leaves { Leaves self.old self.new }
        ensures keeps { KeepsBlocks self.old (D.properties device.old) (D.objects device.old)
            self.new (D.properties device.new) (D.objects device.new) }
        ensures in_hand { LeavesInHand self.old (D.properties device.old) (D.objects device.old)
            self.new (D.properties device.new) (D.objects device.new) }
        ensures properties { D.properties device.new ≡ D.properties device.old }
        ensures rest { LeavesNoRest self.old self.new }
        ensures total { total self.new ≡ total self.old }
        ensures left { (object : ℕ) (h : HeldObject) → map.get self.new.held object ≡ Some h
            ↔ ((map.get self.old.held object ≡ Some h) × (IsCleanedUp self.old object h → ⊥)) }
        ensures ends { ((span : Span) → IsLive self.old span → ⊥) → (self.new.held ≡ map.empty)
            × ((heap : ℕ) → ledger self.new heap ≡ 0) }
        ensures sound { Sound.IsSound self.new }
    {
        let count = self.limits.memory_types.len() as u32;
        for memory_type in 0..count {
            self.clean_type(device, memory_type);
        }
        self.keeps_sound();
    }

    /// A lemma about every allocator: does nothing at run time.
    fn keeps_sound(&self)
        ensures sound { Sound.IsSound self.now }
        ensures atoms { KeepsAtoms self.now }
    {
        let _ = &self.limits;
    }

    /// How requests that are not `TRANSIENT` share objects, as chosen when the allocator was opened.
    pub fn sharing(&self) -> Sharing
        ensures { result ≡ self.now.sharing }
    {
        self.limits.sharing
    }

    /// The largest size of a request, in bytes, as given to `new`.
    pub fn max_allocation_size(&self) -> u64
        ensures { result ≡ (self.now.properties).max_memory_allocation_size }
    {
        self.limits.max_memory_allocation_size
    }

    /// How many more objects may be held.
    pub fn remaining_allocations(&self) -> u32
        ensures { result ≡ self.now.remaining }
    {
        let GpuAllocator {
            allocations_remains,
            ..
        } = self;
        *allocations_remains
    }

    /// Sets how many more objects may be held. Together with the objects that are held (`held_objects`) it must be a
    /// 32-bit number, so that each of them can be returned.
    pub fn set_remaining_allocations(&mut self, remaining: u32)
        requires { remaining + map.len self.old.held < 2 ^ 32 }
        ensures set { self.new ≡ record self.old { remaining = remaining } }

        // What follows from it.
        ensures leaves { Leaves self.old self.new }
        ensures agrees { StaysAgreed self.old self.new }
        ensures sound { Sound.IsSound self.new }
    {
        self.allocations_remains = remaining;
        self.keeps_sound();
    }

    /// How many objects are held.
    pub fn held_objects(&self) -> u32
        ensures { result ≡ map.len self.now.held }
    {
        let mut count = self.own.len();
        for stores in self.types.iter() {
            count += match &stores.chosen {
                Chosen::Buddy(buddy) => buddy.chunks().len(),
                Chosen::Fit(fit) => fit.chunks().len(),
            };
            count += stores.free_list.chunks().len();
        }
        count as u32
    }

    /// Whether an object of this name is held: as a block's own, as an import or as a chunk. It searches all that is
    /// held.
    pub fn holds(&self, object: u64) -> bool
        ensures { result ≡ is_some (map.get self.now.held object) }
    {
        self.held(object).is_some()
    }

    /// Ends the allocator, which may hold no object (see `held_objects`). After all blocks are returned,
    /// [`cleanup`](GpuAllocator::cleanup) releases what free lists and fit chunks keep.
    pub fn close(self)
        requires { map.len self.held ≡ 0 }
    {
        let GpuAllocator {
            limits: _,
            heaps: _,
            types,
            own: _,
            allocations_remains: _,
        } = self;
        close_stores(types);
    }
}

/// A memory type's error, as the request takes it: a type without device memory is passed over.
fn passing<T>(refusal: AllocationError) -> Result<Option<T>, AllocationError>
    ensures { result ≡ passing refusal }
{
    match refusal {
        AllocationError::OutOfDeviceMemory => Ok(None),
        refusal => Err(refusal),
    }
}
