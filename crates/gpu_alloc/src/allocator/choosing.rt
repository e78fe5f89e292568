//! How a memory type serves a request.

ghost use Rattle.std.specs.Prelude.{◌≡◌, ◌<◌, length};
ghost use Rattle.gpu_alloc.specs.Allocation.{strategy, unhinted, fits_a_chunk, shares_by};
ghost use Rattle.gpu_alloc.specs.FitSharing.{fits_first};

use super::{GpuAllocator, Strategy};
use crate::limits::LEAST_GRAIN;
use crate::{Dedicated, Request};
use gpu_alloc_block::Sharing;
use gpu_alloc_types::{MemoryObject, UsageFlags};
use std::alloc::Allocator;

impl<M: MemoryObject, A: Allocator> GpuAllocator<M, A> {
    /// How a memory type serves a request.
    #[inline(always)]
    pub(super) fn strategy(
        &self,
        request: Request,
        hint: Option<Dedicated>,
        memory_type: u32,
    ) -> Strategy
        requires known { memory_type < length (self.now.properties).memory_types }
        ensures { result ≡ strategy self.now request hint memory_type }
    {
        match hint {
            Some(Dedicated::Required) => Strategy::OwnObject,
            Some(Dedicated::Preferred)
                if request.size >= self.limits.config.preferred_threshold() => {
                Strategy::OwnObject
            }
            _ => self.unhinted(request, memory_type),
        }
    }

    /// How a memory type serves a request by its size and its usage.
    #[inline(always)]
    fn unhinted(&self, request: Request, memory_type: u32) -> Strategy
        requires known { memory_type < length (self.now.properties).memory_types }
        ensures { result ≡ unhinted self.now request memory_type }
    {
        let config = &self.limits.config;
        let part = self.heap_size(memory_type) / 32;
        if request.usage.contains(UsageFlags::TRANSIENT) {
            if request.size < config.transient_threshold().min(part)
                && self.fits_a_chunk(request, memory_type)
            {
                Strategy::InFreeList
            } else {
                Strategy::OwnObject
            }
        } else if request.size < config.dedicated_threshold.min(part) {
            self.shared(request, memory_type)
        } else {
            Strategy::OwnObject
        }
    }

    /// How a memory type serves a request that is small and not transient: by a chunk of the kind that was chosen.
    #[inline(always)]
    fn shared(&self, request: Request, memory_type: u32) -> Strategy
        requires known { memory_type < length (self.now.properties).memory_types }
        ensures { result ≡ shares_by self.now.sharing (fits_first self.now request memory_type) }
    {
        match self.limits.sharing {
            Sharing::Buddy => Strategy::InBuddyChunk,
            Sharing::Fit if self.fits_first(request, memory_type) => Strategy::InFitChunk,
            Sharing::Fit => Strategy::OwnObject,
        }
    }

    /// Whether a request in whole grains is no larger than the first fit chunk.
    fn fits_first(&self, request: Request, memory_type: u32) -> bool
        requires known { memory_type < length (self.now.properties).memory_types }
        ensures { result ≡ fits_first self.now request memory_type }
    {
        let part = self.heap_size(memory_type) / 32;
        let grain = self.limits.atom(memory_type).max(LEAST_GRAIN);
        let first = self.limits.config.starting_free_list_chunk.min(part);
        // (the first fit chunk has whole grains already)
        request.size <= first - (first & (grain - 1))
    }

    /// Whether a request in whole atoms fits the largest free-list chunk.
    #[inline(always)]
    fn fits_a_chunk(&self, request: Request, memory_type: u32) -> bool
        requires known { memory_type < length (self.now.properties).memory_types }
        ensures { result ≡ fits_a_chunk self.now request memory_type }
    {
        self.types[memory_type as usize]
            .free_list
            .fits_a_chunk(request.size)
    }
}
