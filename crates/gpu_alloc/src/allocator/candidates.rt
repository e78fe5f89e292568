//! The memory types that would serve a request, for a caller that makes an object itself.

ghost use Rattle.std.specs.Prelude.{◌≡◌, IfOk};
ghost use Rattle.gpu_alloc_types.specs.Flags.{usage_bits};
ghost use Rattle.gpu_alloc_usage.specs.Ranking.{candidates};

use super::GpuAllocator;
use gpu_alloc_types::{MemoryObject, UsageFlags};
use gpu_alloc_usage::meaning;
use std::alloc::{AllocError, Allocator};

impl<M: MemoryObject, A: Allocator> GpuAllocator<M, A> {
    /// The indices of the memory types that serve a usage and whose bit is set in `memory_types` (bit 0 for the type
    /// with index 0), the best first. They are exactly those that [`alloc`](GpuAllocator::alloc) tries for such a
    /// request, in its order. The list may be empty.
    ///
    /// The list takes its memory from `alloc`, and the only error is want of it. Nothing changes.
    pub fn candidates<B: Allocator>(
        &self,
        alloc: B,
        usage: UsageFlags,
        memory_types: u32,
    ) -> Result<Vec<u32, B>, AllocError>
        ensures { IfOk result (λ types. types.items
            ≡ candidates (self.now.properties).memory_types (usage_bits usage) memory_types) }
    {
        let ranked = self.ranked(meaning(usage));
        let mut types = Vec::with_capacity(alloc, ranked.len())?;
        for rank in 0..ranked.len() {
            if memory_types >> ranked[rank] & 1 == 1 {
                types.push_reserved(ranked[rank]);
            }
        }
        Ok(types)
    }
}
