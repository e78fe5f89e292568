//! Requests that ask the device for nothing.

ghost use Rattle.std.specs.Prelude.{◌≡◌, ◌<◌, ◌↔◌, ℕ, length, true, Some, None, Ok};
ghost use Rattle.std.specs.Prelude.{IfOk, IfSome, IsNone, IsTrue, OnErr};
ghost use Rattle.gpu_alloc_types.specs.Flags.{usage_bits};
ghost use Rattle.gpu_alloc_usage.specs.Ranking.{implied};
ghost use Rattle.gpu_alloc_block.specs.Agreement.{Agrees, BlockAgrees, KeepsBlocks};
ghost use Rattle.gpu_alloc_block.specs.Kept.{LeavesInHand, AddsInHand};
ghost use Rattle.gpu_alloc_block.specs.State.{is_shared};
ghost use Rattle.gpu_alloc.specs.Allocation.{IsCandidate, IsExactFit, IsGranted, IsInPages, ask, asked_of};
ghost use Rattle.gpu_alloc.specs.Allocation.{ObjectsTried, candidates_of, fits_a_chunk, plan_with};
ghost use Rattle.gpu_alloc.specs.HeldOnly.{AllocatesHeld, HasPlaceBy, HasPlaceFor, IsFirstWithPlace, in_pages_where, plan_held};
ghost use Rattle.gpu_alloc.specs.Owned.{Leaves, Adds};
ghost use Rattle.gpu_alloc.specs.Request.{IsAskable, IsGranularity};
ghost use Rattle.gpu_alloc.specs.Sound as Sound;
ghost use Rattle.gpu_alloc.specs.FitSharing.{fits_first};
ghost use Rattle.gpu_alloc.specs.declared.allocator.Strategy.TheVariants.{InBuddyChunk, InFreeList, InFitChunk};

use super::stores::Chosen;
use super::{GpuAllocator, Strategy, uncounted};
use crate::{Dedicated, MemoryBlock, Request};
use gpu_alloc_base::AllocationError;
use gpu_alloc_types::{MemoryObject, ObjectDevice, UsageFlags};
use gpu_alloc_usage::meaning;
use std::alloc::Allocator;
use std::marker::Brand;
use std::sync::ledger::Blank;

impl<M: MemoryObject, A: Allocator> GpuAllocator<M, A> {
    /// Allocates a block from what is held. The device is asked for nothing, and is unchanged. It returns `Ok(None)`
    /// where no memory type that may serve the request has a place for it. `alloc` would then ask the device, or
    /// refuse: [`can_ever_serve`](GpuAllocator::can_ever_serve) is `false` for a request that it refuses whatever is
    /// held.
    ///
    /// The request is that of [`alloc`](GpuAllocator::alloc), of `alloc_with_dedicated` where there is a hint, and of
    /// `alloc_optimal` where there is a granularity, in bytes. The memory types are tried in order of rank. The first
    /// with a place in one of its chunks serves the request as those calls would serve it there. So a type that they
    /// would ask for a chunk is passed over for a later one that has a place. A type that serves the request by an
    /// object of its own has no place: with `Required` the answer is `Ok(None)` or an error. How many more objects may
    /// be held does not matter.
    ///
    /// The conditions are those of the other calls. The errors, in the order in which they are tested:
    ///
    /// - `OutOfDeviceMemory` where the size is over the limit given to `new`, or whole pages for it would have 2^64
    ///   bytes or more
    /// - `NoCompatibleMemoryTypes` where no memory type among the request's serves its usage
    /// - `OutOfHostMemory` where host memory is missing for a block that has a place.
    ///
    /// After an error and after `Ok(None)` the allocator is unchanged. (The original crate has no such call.)
    pub fn alloc_held<D: ObjectDevice<M>>(
        &mut self,
        device: &mut D,
        request: Request,
        dedicated: Option<Dedicated>,
        granularity: Option<u64>,
    ) -> Result<Option<MemoryBlock<M>>, AllocationError>
        requires askable { IsAskable (self.old.properties).buffer_device_address request }
        requires granularity { IfSome granularity IsGranularity }
        requires agrees { Agrees self.old (D.properties device.old) (D.objects device.old) }

        // The answer and the new state follow the decision, and the device was asked for nothing.
        ensures decided { AllocatesHeld self.old (plan_held self.old request dedicated granularity) result self.new }
        ensures unasked { device.new ≡ device.old }
        ensures agrees { Agrees self.new (D.properties device.new) (D.objects device.new) }

        // What follows from it.
        ensures held { self.new.held ≡ self.old.held }
        ensures remaining { self.new.remaining ≡ self.old.remaining }
        ensures granted { IfOk result (λ served. IfSome served (IsGranted self.old request self.new)) }
        ensures shared { IfOk result (λ served. IfSome served (λ block. is_shared block.kind ≡ true)) }
        ensures pages { IfOk result (λ served. IfSome served (λ block.
            IfSome granularity (λ page. IsInPages page request.size block))) }
        ensures exact { IfOk result (λ served. IfSome served (IsExactFit self.old (in_pages_where granularity request))) }
        ensures ready { IfOk result (λ served. IfSome served (λ block.
            BlockAgrees block (D.properties device.new) (D.objects device.new))) }
        ensures added { IfOk result (λ served. IfSome served (Adds self.old self.new)) }
        ensures refused { OnErr result (self.new ≡ self.old) }
        ensures would_ask { result ≡ Ok None → self.new ≡ self.old }
        ensures no_place { result ≡ Ok None → (t : ℕ) → IsCandidate self.old request t
            → HasPlaceFor self.old (plan_held self.old request dedicated granularity).asked t → ⊥ }
        ensures required { dedicated ≡ Some Dedicated.Required → IfOk result IsNone }
        ensures leaves { Leaves self.old self.new }
        ensures keeps { KeepsBlocks self.old (D.properties device.old) (D.objects device.old)
            self.new (D.properties device.new) (D.objects device.new) }
        ensures in_hand { LeavesInHand self.old (D.properties device.old) (D.objects device.old)
            self.new (D.properties device.new) (D.objects device.new) }
        ensures joins { IfOk result (λ served. IfSome served (AddsInHand self.old (D.properties device.old)
            (D.objects device.old) self.new (D.properties device.new) (D.objects device.new))) }
        ensures sound { Sound.IsSound self.new }
    {
        self.keeps_sound();
        let answer = self.allocate_held(device, request, dedicated, granularity);
        self.keeps_sound();
        answer
    }

    fn allocate_held<D: ObjectDevice<M>>(
        &mut self,
        device: &mut D,
        request: Request,
        hint: Option<Dedicated>,
        granularity: Option<u64>,
    ) -> Result<Option<MemoryBlock<M>>, AllocationError>
        requires askable { IsAskable (self.old.properties).buffer_device_address request }
        requires granularity { IfSome granularity IsGranularity }
        requires agrees { Agrees self.old (D.properties device.old) (D.objects device.old) }
        ensures decided { AllocatesHeld self.old (plan_held self.old request hint granularity) result self.new }
        ensures unasked { device.new ≡ device.old }
        ensures objects { ObjectsTried self.old result self.new (D.objects device.old) (D.objects device.new) }
    {
        let Some(granularity) = granularity else {
            return self.take_held(device, &request, hint, &None);
        };
        match request.in_pages(granularity) {
            Some(paged) => self.take_held(device, &request, hint, &Some(paged)),
            None => Err(AllocationError::OutOfDeviceMemory),
        }
    }

    /// Allocates a block from what is held, for the same request in whole pages where that is given. (The memory type
    /// with a place then serves it like any other request, so that other requests do not pay for this call.)
    fn take_held<D: ObjectDevice<M>>(
        &mut self,
        device: &mut D,
        request: &Request,
        hint: Option<Dedicated>,
        paged: &Option<Request>,
    ) -> Result<Option<MemoryBlock<M>>, AllocationError>
        requires askable { IsAskable (self.old.properties).buffer_device_address request.now }
        requires pages { IfSome paged.now (IsAskable (self.old.properties).buffer_device_address) }
        requires agrees { Agrees self.old (D.properties device.old) (D.objects device.old) }
        ensures decided { AllocatesHeld self.old (plan_with self.old request.now hint paged.now) result self.new }
        ensures unasked { device.new ≡ device.old }
        ensures objects { ObjectsTried self.old result self.new (D.objects device.old) (D.objects device.new) }
    {
        if request.size > self.max_allocation_size() {
            return Err(AllocationError::OutOfDeviceMemory);
        }
        let usage = meaning(request.usage);
        if !self.has_candidate(*request, usage) {
            return Err(AllocationError::NoCompatibleMemoryTypes);
        }
        match self.first_with_place(request, hint, paged, usage) {
            Some(memory_type) => {
                let only = Request {
                    memory_types: 1 << memory_type,
                    ..*request
                };
                match self.allocate(device, &only, hint, paged) {
                    Ok(block) => Ok(Some(block)),
                    Err(refusal) => Err(refusal),
                }
            }
            None => Ok(None),
        }
    }

    /// The first candidate, in order of rank, that has a place for its request, or `None`.
    fn first_with_place(
        &self,
        request: &Request,
        hint: Option<Dedicated>,
        paged: &Option<Request>,
        usage: UsageFlags,
    ) -> Option<u32>
        requires askable { IsAskable (self.now.properties).buffer_device_address request.now }
        requires pages { IfSome paged.now (IsAskable (self.now.properties).buffer_device_address) }
        requires meant { usage_bits usage ≡ implied (usage_bits (request.now).usage) }
        ensures first { IsFirstWithPlace self.now (asked_of self.now request.now hint paged.now)
            (candidates_of self.now request.now) result }
        ensures few { IfSome result (λ t. t < 32) }
    {
        for rank in 0..self.ranked(usage).len() {
            let memory_type = self.ranked(usage)[rank];
            let permitted = request.memory_types >> memory_type & 1 == 1;
            if permitted && self.has_place_asked(request, hint, paged, memory_type) {
                return Some(memory_type);
            }
        }
        None
    }

    /// Whether a memory type has a place for its request: for whole pages where the same request in them is given.
    fn has_place_asked(
        &self,
        request: &Request,
        hint: Option<Dedicated>,
        paged: &Option<Request>,
        memory_type: u32,
    ) -> bool
        requires askable { IsAskable (self.now.properties).buffer_device_address request.now }
        requires pages { IfSome paged.now (IsAskable (self.now.properties).buffer_device_address) }
        requires known { memory_type < length (self.now.properties).memory_types }
        ensures { IsTrue result ↔ HasPlaceFor self.now (asked_of self.now request.now hint paged.now) memory_type }
    {
        match paged {
            None => self.has_place(*request, hint, memory_type),
            Some(paged) => {
                let asked = self.ask_in_pages(request, hint, paged, memory_type);
                self.has_place(asked.request, asked.hint, memory_type)
            }
        }
    }

    /// Whether a memory type has a place for a request, perhaps with a hint.
    fn has_place(&self, request: Request, hint: Option<Dedicated>, memory_type: u32) -> bool
        requires askable { IsAskable (self.now.properties).buffer_device_address request }
        requires known { memory_type < length (self.now.properties).memory_types }
        ensures { IsTrue result ↔ HasPlaceFor self.now (ask request hint) memory_type }
    {
        match self.strategy(request, hint, memory_type) {
            Strategy::OwnObject => false,
            Strategy::InBuddyChunk => self.has_buddy_place(request, memory_type),
            Strategy::InFreeList => self.has_list_place(request, memory_type),
            Strategy::InFitChunk => self.has_fit_place(request, memory_type),
        }
    }

    /// Whether a buddy chunk of a memory type has a place: its allocator does not refuse although no more objects may
    /// be held. Where fit chunks are chosen there is no buddy chunk.
    fn has_buddy_place(&self, request: Request, memory_type: u32) -> bool
        requires askable { IsAskable (self.now.properties).buffer_device_address request }
        requires known { memory_type < length (self.now.properties).memory_types }
        ensures { IsTrue result ↔ HasPlaceBy InBuddyChunk self.now request memory_type }
    {
        let heap = &self.heaps[self.limits.heap_index(memory_type)];
        let Chosen::Buddy(buddy) = &self.types[memory_type as usize].chosen else {
            return false;
        };
        let (size, mask) = (request.size, request.align_mask);
        let refusal = uncounted::refuses::<M, A, Brand>(buddy, size, mask, heap, 0, Blank::new(1));
        refusal.is_none()
    }

    /// Whether a free-list chunk of a memory type has a place: the free list does not refuse although no more objects
    /// may be held.
    fn has_list_place(&self, request: Request, memory_type: u32) -> bool
        requires askable { IsAskable (self.now.properties).buffer_device_address request }
        requires known { memory_type < length (self.now.properties).memory_types }
        requires fits { fits_a_chunk self.now request memory_type ≡ true }
        ensures { IsTrue result ↔ HasPlaceBy InFreeList self.now request memory_type }
    {
        let heap = &self.heaps[self.limits.heap_index(memory_type)];
        let list = &self.types[memory_type as usize].free_list;
        list.refuses(request.size, request.align_mask, heap, 0)
            .is_none()
    }

    /// Whether a fit chunk of a memory type has a place: its allocator does not refuse although no more objects may be
    /// held. Where buddy chunks are chosen there is no fit chunk.
    fn has_fit_place(&self, request: Request, memory_type: u32) -> bool
        requires askable { IsAskable (self.now.properties).buffer_device_address request }
        requires known { memory_type < length (self.now.properties).memory_types }
        requires fits { fits_first self.now request memory_type ≡ true }
        ensures { IsTrue result ↔ HasPlaceBy InFitChunk self.now request memory_type }
    {
        let heap = &self.heaps[self.limits.heap_index(memory_type)];
        let Chosen::Fit(fit) = &self.types[memory_type as usize].chosen else {
            return false;
        };
        let (size, mask) = (request.size, request.align_mask);
        let first = uncounted::refuses_fit::<M, A, Brand>(fit, size, mask, heap, 0, Blank::new(1));
        first.is_none()
    }
}
