//! What callers learn from the definitions that contracts cite. The functions are lemmas: they do nothing at run time.

ghost use Rattle.gpu_alloc_types.specs.Flags.{property_bits};
ghost use Rattle.gpu_alloc_base.specs.Accounts.{IsCounted};
ghost use Rattle.gpu_alloc_base.specs.InHand.{Offers};
ghost use Rattle.gpu_alloc_freelist.specs.FreeListAllocator.{Agrees, HoldsNothing};

use crate::FreeListAllocator;
use gpu_alloc_base::heap::Heap;
use gpu_alloc_types::{MemoryObject, MemoryPropertyFlags, ObjectDevice};
use std::alloc::Allocator;

/// An allocator that holds nothing agrees with every device that offers its memory type with these properties, and
/// every ledger counts what it holds. A caller that made one calls this to know it.
pub fn agrees_at_first<M: MemoryObject, D: ObjectDevice<M>, A: Allocator>(
    allocator: &FreeListAllocator<M, A>,
    device: &D,
    memory_type: u32,
    props: MemoryPropertyFlags,
    heap: &Heap,
    allocations_remains: u32,
)
    requires nothing { HoldsNothing memory_type (property_bits props) allocator.now }
    requires offers { Offers (D.properties device.now) memory_type (property_bits props) }
    ensures agrees { Agrees allocator.now (D.properties device.now) (D.objects device.now) }
    ensures counted { IsCounted (allocator.now).space.chunks heap.now allocations_remains }
{
    let _ = allocator;
    let _ = device;
    let _ = memory_type;
    let _ = props;
    let _ = heap;
    let _ = allocations_remains;
}
