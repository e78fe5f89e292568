//! Optimal images: in a shared object, whole pages keep them apart from other blocks.

ghost use Rattle.std.specs.Prelude.{◌≡◌, ◌<◌, List, length, Some, IfOk, IfSome, OnErr};
ghost use Rattle.gpu_alloc_types.specs.Device.{Event, Chain};
ghost use Rattle.gpu_alloc_block.specs.Agreement.{Agrees, BlockAgrees, KeepsBlocks};
ghost use Rattle.gpu_alloc_block.specs.Kept.{LeavesInHand, AddsInHand};
ghost use Rattle.gpu_alloc_block.specs.State.{total};
ghost use Rattle.gpu_alloc.specs.Allocation.{AllocatesBy, AllocatesOptimal, ObjectsAfter, ObjectsTried, IsGranted};
ghost use Rattle.gpu_alloc.specs.Allocation.{IsInPages, TriesAsked};
ghost use Rattle.gpu_alloc.specs.Allocation.{IsAloneWhereServed, IsExactFit, ask_in_pages, asked_of, plan_in_pages};
ghost use Rattle.gpu_alloc.specs.Allocation.{serves_alone};
ghost use Rattle.gpu_alloc.specs.Owned.{Leaves, Adds};
ghost use Rattle.gpu_alloc.specs.Request.{IsAskable, IsGranularity, in_pages};
ghost use Rattle.gpu_alloc.specs.Sound as Sound;

use super::{Ask, GpuAllocator, Strategy};
use crate::{Dedicated, MemoryBlock, Request};
use gpu_alloc_base::AllocationError;
use gpu_alloc_block::Kind;
use gpu_alloc_types::{MemoryObject, ObjectDevice};
use std::alloc::Allocator;

impl<M: MemoryObject, A: Allocator> GpuAllocator<M, A> {
    /// Allocates a block as [`alloc`](GpuAllocator::alloc) does, or with a hint as `alloc_with_dedicated`, for an image
    /// that is not linear. Such an image may share no page of `granularity` bytes with a buffer or a linear image
    /// (Vulkan's `bufferImageGranularity`).
    ///
    /// In a shared object the block begins at a page, and its whole pages hold the request's size. It is served as a
    /// request whose size is rounded up to whole pages and whose alignment is at least one page. So no page with one of
    /// the block's first `size` bytes has a byte of another block. An object of its own has exactly the request's size.
    ///
    /// The granularity must be a power of two of at most 2^32; with 1 this is `alloc`. The other conditions and the
    /// errors are those of `alloc`. The size limit and the test of the heap use the requested size. `OutOfDeviceMemory`
    /// is also the error where that size in whole pages would be 2^64 bytes or more. (The original crate has no
    /// granularity.)
    pub fn alloc_optimal<D: ObjectDevice<M>>(
        &mut self,
        device: &mut D,
        request: Request,
        dedicated: Option<Dedicated>,
        granularity: u64,
    ) -> Result<MemoryBlock<M>, AllocationError>
        requires askable { IsAskable (self.old.properties).buffer_device_address request }
        requires granularity { IsGranularity granularity }
        requires agrees { Agrees self.old (D.properties device.old) (D.objects device.old) }

        // The calls of the device, the answer and the new state follow the decision.
        ensures decided { (es : List Event) × Chain D.step device.old es device.new
            × AllocatesOptimal self.old request dedicated granularity es result self.new }
        ensures objects { ObjectsAfter self.old result self.new (D.objects device.old) (D.objects device.new) }
        ensures agrees { Agrees self.new (D.properties device.new) (D.objects device.new) }

        // What follows from it.
        ensures granted { IfOk result (IsGranted self.old request self.new) }
        ensures pages { IfOk result (IsInPages granularity request.size) }
        ensures alone { IfOk result (IsAloneWhereServed self.old (in_pages granularity request) dedicated) }
        ensures exact { IfOk result (IsExactFit self.old (in_pages granularity request)) }
        ensures size { IfOk result (λ block. block.kind ≡ Kind.Dedicated → block.size ≡ request.size) }
        ensures own { dedicated ≡ Some Dedicated.Required → IfOk result (λ block. block.kind ≡ Kind.Dedicated) }
        ensures ready { IfOk result (λ block. BlockAgrees block (D.properties device.new) (D.objects device.new)) }
        ensures added { IfOk result (Adds self.old self.new) }
        ensures refused { OnErr result (self.new ≡ self.old) }
        ensures leaves { Leaves self.old self.new }
        ensures keeps { KeepsBlocks self.old (D.properties device.old) (D.objects device.old)
            self.new (D.properties device.new) (D.objects device.new) }
        ensures in_hand { LeavesInHand self.old (D.properties device.old) (D.objects device.old)
            self.new (D.properties device.new) (D.objects device.new) }
        ensures joins { IfOk result (AddsInHand self.old (D.properties device.old) (D.objects device.old)
            self.new (D.properties device.new) (D.objects device.new)) }
        ensures properties { D.properties device.new ≡ D.properties device.old }
        ensures total { total self.new ≡ total self.old }
        ensures sound { Sound.IsSound self.new }
    {
        self.keeps_sound();
        let answer = self.allocate_in_pages(device, request, dedicated, granularity);
        self.keeps_sound();
        answer
    }

    fn allocate_in_pages<D: ObjectDevice<M>>(
        &mut self,
        device: &mut D,
        request: Request,
        hint: Option<Dedicated>,
        granularity: u64,
    ) -> Result<MemoryBlock<M>, AllocationError>
        requires askable { IsAskable (self.old.properties).buffer_device_address request }
        requires granularity { IsGranularity granularity }
        requires agrees { Agrees self.old (D.properties device.old) (D.objects device.old) }
        ensures decided { (es : List Event) × Chain D.step device.old es device.new
            × AllocatesBy self.old (plan_in_pages self.old request hint granularity) es result self.new }
        ensures objects { ObjectsAfter self.old result self.new (D.objects device.old) (D.objects device.new) }
    {
        match request.in_pages(granularity) {
            Some(paged) => self.allocate(device, &request, hint, &Some(paged)),
            None => Err(AllocationError::OutOfDeviceMemory),
        }
    }

    /// Whether a memory type serves a request, perhaps with a hint, by an object of the block's own. This depends on
    /// the request, the memory type and what the allocator was opened with, whatever is held. The memory type must
    /// exist.
    #[inline(always)]
    pub fn serves_alone(
        &self,
        request: Request,
        dedicated: Option<Dedicated>,
        memory_type: u32,
    ) -> bool
        requires known { memory_type < length (self.now.properties).memory_types }
        ensures { result ≡ serves_alone self.now request dedicated memory_type }
    {
        match self.strategy(request, dedicated, memory_type) {
            Strategy::OwnObject => true,
            Strategy::InBuddyChunk | Strategy::InFreeList | Strategy::InFitChunk => false,
        }
    }

    /// Tries one memory type, for whole pages where the same request in them is given: `None` where it is passed over.
    #[inline(always)]
    pub(super) fn try_asked<D: ObjectDevice<M>>(
        &mut self,
        device: &mut D,
        request: &Request,
        hint: Option<Dedicated>,
        paged: &Option<Request>,
        memory_type: u32,
    ) -> Result<Option<MemoryBlock<M>>, AllocationError>
        requires askable { IsAskable (self.old.properties).buffer_device_address request.now }
        requires pages { IfSome paged.now (IsAskable (self.old.properties).buffer_device_address) }
        requires known { memory_type < length (self.old.properties).memory_types }
        requires agrees { Agrees self.old (D.properties device.old) (D.objects device.old) }
        ensures tries { (es : List Event) × Chain D.step device.old es device.new
            × TriesAsked self.old (asked_of self.old request.now hint paged.now) memory_type es result self.new }
        ensures objects { ObjectsTried self.old result self.new (D.objects device.old) (D.objects device.new) }
    {
        // (field by field, so that nothing of it is written to memory where no page is asked for)
        let (size, align_mask, usage, memory_types, hint) = match paged {
            None => (
                request.size,
                request.align_mask,
                request.usage,
                request.memory_types,
                hint,
            ),
            Some(paged) => {
                let asked = self.ask_in_pages(request, hint, paged, memory_type);
                let own = asked.request;
                (
                    own.size,
                    own.align_mask,
                    own.usage,
                    own.memory_types,
                    asked.hint,
                )
            }
        };
        let request = Request {
            size,
            align_mask,
            usage,
            memory_types,
        };
        self.try_type(device, request, hint, memory_type)
    }

    /// What a memory type is asked for in whole pages. (It stands apart so that other requests do not pay for it.)
    #[cold]
    #[inline(never)]
    pub(super) fn ask_in_pages(
        &self,
        request: &Request,
        hint: Option<Dedicated>,
        paged: &Request,
        memory_type: u32,
    ) -> Ask
        requires known { memory_type < length (self.now.properties).memory_types }
        ensures { result ≡ ask_in_pages self.now request.now hint paged.now memory_type }
    {
        if self.serves_alone(*paged, hint, memory_type) {
            Ask {
                request: *request,
                hint: Some(Dedicated::Required),
            }
        } else {
            Ask {
                request: *paged,
                hint,
            }
        }
    }
}
