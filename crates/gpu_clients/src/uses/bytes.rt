//! Blocks whose bytes the host writes and reads, several of them in hand at a time.

ghost use Rattle.std.specs.Prelude.{◌≡◌, ◌+◌, ◌≤◌, ◌<◌, length, [], ◌∷◌};
ghost use Rattle.std.specs.FinSet as set;
ghost use Rattle.gpu_alloc.specs.Agreement.{Agrees, BlockAgrees, KeepsAgreement};
ghost use Rattle.gpu_alloc.specs.Owned.{AreOwned, IsSameBlock};
ghost use Rattle.gpu_alloc.specs.Request.{IsAskable};

use gpu_alloc::laws::kept_blocks_agree;
use gpu_alloc::{AllocationError, Dedicated, GpuAllocator, MemoryBlock, Request};
use gpu_alloc_types::{MemoryDevice, MemoryObject};

/// Writes bytes at a block's start. A refusal of the device is ignored.
pub(crate) fn fill<M: MemoryObject, D: MemoryDevice<M>>(
    device: &mut D,
    block: &mut MemoryBlock<M>,
    bytes: &[u8],
)
    requires ready { BlockAgrees block.old (D.properties device.old) (D.objects device.old) }
    requires fit { length bytes.now ≤ block.old.size }
    ensures keeps { KeepsAgreement block.old (D.properties device.old) (D.objects device.old)
        (D.properties device.new) (D.objects device.new) }
    ensures same { IsSameBlock block.old block.new }
{
    let _ = block.write_bytes(device, 0, bytes);
}

/// Reads bytes from a block's start. A refusal of the device is ignored.
fn peek<M: MemoryObject, D: MemoryDevice<M>>(
    device: &mut D,
    block: &mut MemoryBlock<M>,
    bytes: &mut [u8],
)
    requires ready { BlockAgrees block.old (D.properties device.old) (D.objects device.old) }
    requires fit { length bytes.old ≤ block.old.size }
    ensures keeps { KeepsAgreement block.old (D.properties device.old) (D.objects device.old)
        (D.properties device.new) (D.objects device.new) }
    ensures same { IsSameBlock block.old block.new }
{
    let _ = block.read_bytes(device, 0, bytes);
}

/// Writes bytes to one block and reads as many of another, while a third is in hand.
fn copy<M: MemoryObject, D: MemoryDevice<M>>(
    allocator: &GpuAllocator<M>,
    device: &mut D,
    first: &mut MemoryBlock<M>,
    second: &mut MemoryBlock<M>,
    third: &MemoryBlock<M>,
    bytes: &mut [u8],
)
    requires agrees { Agrees allocator.now (D.properties device.old) (D.objects device.old) }
    requires owned { AreOwned allocator.now (third.now ∷ first.old ∷ second.old ∷ []) }
    requires first { BlockAgrees first.old (D.properties device.old) (D.objects device.old) }
    requires second { BlockAgrees second.old (D.properties device.old) (D.objects device.old) }
    requires third { BlockAgrees third.now (D.properties device.old) (D.objects device.old) }
    requires fit { length bytes.old ≤ first.old.size }
    requires fit_too { length bytes.old ≤ second.old.size }
    ensures agrees { Agrees allocator.now (D.properties device.new) (D.objects device.new) }
    ensures owned { AreOwned allocator.now (third.now ∷ first.new ∷ second.new ∷ []) }
    ensures third { BlockAgrees third.now (D.properties device.new) (D.objects device.new) }
{
    let _ = allocator;
    let _ = third;
    fill(device, first, bytes);
    peek(device, second, bytes);
}

/// Maps the first byte of a block, if the device does so, and unmaps it, while two others are in hand.
fn show<M: MemoryObject, D: MemoryDevice<M>>(
    allocator: &GpuAllocator<M>,
    device: &mut D,
    first: &MemoryBlock<M>,
    second: &MemoryBlock<M>,
    third: &mut MemoryBlock<M>,
)
    requires agrees { Agrees allocator.now (D.properties device.old) (D.objects device.old) }
    requires owned { AreOwned allocator.now (third.old ∷ first.now ∷ second.now ∷ []) }
    requires third { BlockAgrees third.old (D.properties device.old) (D.objects device.old) }
    requires some { 0 < third.old.size }
    ensures agrees { Agrees allocator.now (D.properties device.new) (D.objects device.new) }
    ensures owned { AreOwned allocator.now (third.new ∷ first.now ∷ second.now ∷ []) }
{
    let _ = allocator;
    let _ = first;
    let _ = second;
    let _ = third.map(device, 0, 1);
    third.unmap(device);
}

/// Uses the bytes of three blocks.
fn touch<M: MemoryObject, D: MemoryDevice<M>>(
    allocator: &GpuAllocator<M>,
    device: &mut D,
    first: &mut MemoryBlock<M>,
    second: &mut MemoryBlock<M>,
    third: &mut MemoryBlock<M>,
    bytes: &mut [u8],
)
    requires agrees { Agrees allocator.now (D.properties device.old) (D.objects device.old) }
    requires owned { AreOwned allocator.now (third.old ∷ first.old ∷ second.old ∷ []) }
    requires first { BlockAgrees first.old (D.properties device.old) (D.objects device.old) }
    requires second { BlockAgrees second.old (D.properties device.old) (D.objects device.old) }
    requires third { BlockAgrees third.old (D.properties device.old) (D.objects device.old) }
    requires fit { length bytes.old ≤ first.old.size }
    requires fit_too { length bytes.old ≤ second.old.size }
    requires some { 0 < third.old.size }
    ensures agrees { Agrees allocator.now (D.properties device.new) (D.objects device.new) }
    ensures owned { AreOwned allocator.now (third.new ∷ first.new ∷ second.new ∷ []) }
{
    copy(allocator, device, first, second, third, bytes);
    show(allocator, device, first, second, third);
}

/// Returns the third of three blocks.
fn return_third<M: MemoryObject, D: MemoryDevice<M>>(
    allocator: &mut GpuAllocator<M>,
    device: &mut D,
    first: &MemoryBlock<M>,
    second: &MemoryBlock<M>,
    third: MemoryBlock<M>,
)
    requires agrees { Agrees allocator.old (D.properties device.old) (D.objects device.old) }
    requires owned { AreOwned allocator.old (third ∷ first.now ∷ second.now ∷ []) }
    ensures agrees { Agrees allocator.new (D.properties device.new) (D.objects device.new) }
    ensures owned { AreOwned allocator.new (first.now ∷ second.now ∷ []) }
    ensures count { set.len allocator.new.live + 1 ≡ set.len allocator.old.live }
{
    let _ = first;
    let _ = second;
    allocator.dealloc(device, third);
}

/// Returns two blocks, in the order in which they were granted.
fn return_both<M: MemoryObject, D: MemoryDevice<M>>(
    allocator: &mut GpuAllocator<M>,
    device: &mut D,
    first: MemoryBlock<M>,
    second: MemoryBlock<M>,
)
    requires agrees { Agrees allocator.old (D.properties device.old) (D.objects device.old) }
    requires owned { AreOwned allocator.old (first ∷ second ∷ []) }
    ensures agrees { Agrees allocator.new (D.properties device.new) (D.objects device.new) }
    ensures count { set.len allocator.new.live + 2 ≡ set.len allocator.old.live }
{
    allocator.dealloc(device, first);
    allocator.dealloc(device, second);
}

/// Allocates a block with an object of its own while two others are in hand, uses the bytes of all three, and returns
/// it.
fn with_third<M: MemoryObject, D: MemoryDevice<M>>(
    allocator: &mut GpuAllocator<M>,
    device: &mut D,
    request: Request,
    first: &mut MemoryBlock<M>,
    second: &mut MemoryBlock<M>,
    bytes: &mut [u8],
) -> Result<(), AllocationError>
    requires askable { IsAskable (allocator.old.properties).buffer_device_address request }
    requires agrees { Agrees allocator.old (D.properties device.old) (D.objects device.old) }
    requires owned { AreOwned allocator.old (first.old ∷ second.old ∷ []) }
    requires first { BlockAgrees first.old (D.properties device.old) (D.objects device.old) }
    requires second { BlockAgrees second.old (D.properties device.old) (D.objects device.old) }
    requires fit { length bytes.old ≤ first.old.size }
    requires fit_too { length bytes.old ≤ second.old.size }
    ensures agrees { Agrees allocator.new (D.properties device.new) (D.objects device.new) }
    ensures owned { AreOwned allocator.new (first.new ∷ second.new ∷ []) }
    ensures count { set.len allocator.new.live ≡ set.len allocator.old.live }
{
    let mut third = allocator.alloc_with_dedicated(device, request, Dedicated::Required)?;
    kept_blocks_agree();
    touch(allocator, device, first, second, &mut third, bytes);
    return_third(allocator, device, first, second, third);
    Ok(())
}

/// Allocates two blocks for a request and a third with an object of its own. Writes bytes to the first, reads as many
/// of the second, and maps and unmaps the third. Then it returns all.
pub fn three_blocks<M: MemoryObject, D: MemoryDevice<M>>(
    allocator: &mut GpuAllocator<M>,
    device: &mut D,
    request: Request,
    bytes: &mut [u8],
) -> Result<(), AllocationError>
    requires askable { IsAskable (allocator.old.properties).buffer_device_address request }
    requires fit { length bytes.old ≤ request.size }
    requires agrees { Agrees allocator.old (D.properties device.old) (D.objects device.old) }
    ensures agrees { Agrees allocator.new (D.properties device.new) (D.objects device.new) }
    ensures count { set.len allocator.new.live ≡ set.len allocator.old.live }
{
    let mut first = allocator.alloc(device, request)?;
    match allocator.alloc(device, request) {
        Ok(mut second) => {
            kept_blocks_agree();
            let answer = with_third(allocator, device, request, &mut first, &mut second, bytes);
            return_both(allocator, device, first, second);
            answer
        }
        Err(refusal) => {
            allocator.dealloc(device, first);
            Err(refusal)
        }
    }
}
