//! Buffers that the host fills and the device copies.

ghost use Rattle.std.specs.Prelude.{◌≡◌, ◌+◌, ◌≤◌, true, IfSome, IsTrue};
ghost use Rattle.std.specs.FinMap as map;
ghost use Rattle.std.specs.Int.{bit_at};
ghost use Rattle.gpu_alloc_types.specs.Flags.{has_bit, host_visible};
ghost use Rattle.gpu_alloc_types.specs.Properties.{props_at, atom_of};
ghost use Rattle.gpu_alloc.specs.Agreement.{Agrees};
ghost use Rattle.gpu_alloc.specs.State.{span_of, AreSpansApart, IsOwned};

use gpu_alloc::laws::{candidates_serve_the_request, owned_blocks_are_apart};
use gpu_alloc::{GpuAllocator, MemoryBlock, Request, UsageFlags};
use gpu_alloc_types::{MemoryDevice, MemoryObject};

/// Allocates a buffer that the host fills, of one of these memory types, if there is room. Its memory is host-visible,
/// and it carries the property bits and the atom of its memory type.
pub fn upload_buffer<M: MemoryObject, D: MemoryDevice<M>>(
    allocator: &mut GpuAllocator<M>,
    device: &mut D,
    size: u64,
    memory_types: u32,
) -> Option<MemoryBlock<M>>
    requires { Agrees allocator.old (D.properties device.old) (D.objects device.old) }
    ensures agrees { Agrees allocator.new (D.properties device.new) (D.objects device.new) }
    ensures owned { IfSome result (IsOwned allocator.new) }
    ensures permitted { IfSome result (λ block. bit_at memory_types block.memory_type ≡ 1) }
    ensures visible { IfSome result (λ block. has_bit block.props host_visible ≡ true) }
    ensures props { IfSome result (λ block. block.props ≡ props_at allocator.new.properties block.memory_type) }
    ensures atom { IfSome result (λ block. block.atom ≡ atom_of allocator.new.properties block.memory_type) }
    ensures objects { map.len allocator.new.held ≤ map.len allocator.old.held + 1 }
{
    let request = Request {
        size,
        align_mask: 0,
        usage: UsageFlags::UPLOAD,
        memory_types,
    };
    if !request.is_askable(false) {
        return None;
    }
    match allocator.alloc(device, request) {
        Ok(block) => {
            candidates_serve_the_request();
            Some(block)
        }
        Err(_) => None,
    }
}

/// Whether bytes may be copied from one block to another: both are the allocator's, and lie at two places.
pub fn may_copy<M: MemoryObject>(
    allocator: &GpuAllocator<M>,
    from: &MemoryBlock<M>,
    to: &MemoryBlock<M>,
) -> bool
    ensures { IsTrue result → AreSpansApart (span_of from.now) (span_of to.now) }
{
    if !allocator.owns(from) {
        return false;
    }
    if !allocator.owns(to) {
        return false;
    }
    owned_blocks_are_apart();
    if from.memory().object() != to.memory().object() {
        return true;
    }
    from.offset() != to.offset()
}
