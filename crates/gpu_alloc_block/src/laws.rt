//! Laws of the definitions that contracts cite. The functions are lemmas: they do nothing at run time.

ghost use Rattle.std.specs.Prelude.{◌≡◌, ℕ, ◌+◌, ◌<◌, ◌≤◌, Option, Some};
ghost use Rattle.gpu_alloc_types.specs.Device.{Object, HeldWith, IsInMapped};
ghost use Rattle.gpu_alloc_types.specs.Properties.{Properties};
ghost use Rattle.gpu_alloc_block.specs.Agreement.{BlockAgrees, LiesInBlock};
ghost use Rattle.gpu_alloc_block.specs.ByteCalls.{BytesMoved, MayBeMoved};
ghost use Rattle.gpu_alloc_block.specs.Ranges.{HasAll, rounded_range};
ghost use Rattle.gpu_alloc_block.specs.State.{State};

use crate::{Mapping, MemoryBlock};
use gpu_alloc_types::{MemoryObject, ObjectDevice};

/// The flushed or invalidated range of a block covers the bytes that it is for and lies inside the block. Only an
/// import's may begin before it, by less than one atom. So a block's call changes no byte of another block, as its
/// clause `in_hand` says.
pub fn rounded_ranges_lie_in_their_block<M: MemoryObject>(block: &MemoryBlock<M>)
    ensures covers { (offset len : ℕ) → offset + len ≤ block.now.size
        → HasAll (rounded_range block.now offset len) (block.now.offset + offset) len }
    ensures inside { (p : Properties) (objects : ℕ → Option Object) (offset len : ℕ) → BlockAgrees block.now p objects
        → offset + len ≤ block.now.size → LiesInBlock block.now (rounded_range block.now offset len) }
{
    block.keeps_end();
}

/// Bytes inside a block's mapping may be moved by the device's own calls (`put_bytes`, `get_bytes`), on each device
/// that the block agrees with.
pub fn bytes_of_a_mapping_may_be_moved<M: MemoryObject>(block: &MemoryBlock<M>)
    ensures { MayBeMoved block.now }
{
    block.keeps_end();
}

/// The same for `len` bytes from `place` on, in bytes from the start of the block's object: after this call a caller
/// may put or get them.
pub fn these_bytes_may_be_moved<M: MemoryObject, D: ObjectDevice<M>>(
    block: &MemoryBlock<M>,
    device: &D,
    mapping: Mapping,
    place: u64,
    len: usize,
)
    requires agrees { BlockAgrees block.now (D.properties device.now) (D.objects device.now) }
    requires mapped { block.now.mapping ≡ Some mapping }
    requires some { 0 < len }
    requires from { mapping.start ≤ place }
    requires to { place + len ≤ mapping.start + mapping.len }
    ensures { HeldWith (D.objects device.now) block.now.object (IsInMapped place len) }
{
    bytes_of_a_mapping_may_be_moved(block);
}

/// After a device puts or gets bytes, flushes or invalidates for its caller, every allocator and every block still
/// agrees with it, whatever it answered. `gpu_alloc::laws::byte_calls_keep_agreement` says this of one allocator.
pub fn byte_calls_keep_each_agreement<M: MemoryObject, D: ObjectDevice<M>>(device: &D)
    ensures { (s : State) → BytesMoved s D.step D.properties D.objects device.now }
{
    let _ = device;
}
