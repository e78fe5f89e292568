//! Whether a request can ever be served.

ghost use Rattle.std.specs.Prelude.{◌↔◌, IsTrue};
ghost use Rattle.gpu_alloc.specs.Serving.{MayServe};

use super::GpuAllocator;
use crate::Request;
use gpu_alloc_types::MemoryObject;
use gpu_alloc_usage::meaning;
use std::alloc::Allocator;

impl<M: MemoryObject, A: Allocator + Copy> GpuAllocator<M, A> {
    /// Whether [`alloc`](GpuAllocator::alloc) may serve a request once enough blocks are returned. Its size, in bytes,
    /// must be within the limit given to `new`, and one of its candidates must lie in a heap that is at least as large.
    ///
    /// Where this is `false`, no return helps: `alloc` refuses the request in every state, without a call of the
    /// device. Where it is `true`, an object of its own fits an empty heap, so a caller may free blocks and ask again.
    /// This is not a guarantee: the device may still refuse. A chunk for a block that shares one may be larger than its
    /// heap, above all because of its alignment. A heap's limit is not considered, since it may be changed.
    pub fn can_ever_serve(&self, request: Request) -> bool
        ensures { IsTrue result ↔ MayServe self.now request }
    {
        if request.size > self.max_allocation_size() {
            return false;
        }
        let usage = meaning(request.usage);
        for rank in 0..self.ranked(usage).len() {
            let memory_type = self.ranked(usage)[rank];
            let permitted = request.memory_types >> memory_type & 1 == 1;
            if permitted && request.size <= self.heap_size(memory_type) {
                return true;
            }
        }
        false
    }
}
