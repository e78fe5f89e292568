//! An allocator, from opening to close.

ghost use Rattle.std.specs.Prelude.{◌≡◌, IfOk};
ghost use Rattle.std.specs.FinSet as set;
ghost use Rattle.gpu_alloc_types.specs.Properties.{IsUsable, properties_of};
ghost use Rattle.gpu_alloc.specs.Agreement.{Agrees};

use gpu_alloc::laws::agrees_at_first;
use gpu_alloc::{AllocationError, Config, DeviceProperties, GpuAllocator, Request};
use gpu_alloc_types::{MemoryDevice, MemoryObject};
use std::alloc::Global;

/// An allocator for a device that has these properties.
pub fn open<M: MemoryObject, D: MemoryDevice<M>>(
    alloc: Global,
    props: DeviceProperties<'_>,
    device: &D,
) -> Result<GpuAllocator<M>, AllocationError>
    requires usable { IsUsable (properties_of props) }
    requires same { D.properties device.now ≡ properties_of props }
    ensures agrees { IfOk result (λ a. Agrees a (D.properties device.now) (D.objects device.now)) }
    ensures none { IfOk result (λ a. set.len a.live ≡ 0) }
{
    let allocator = GpuAllocator::new(alloc, Config::i_am_potato(), props)?;
    agrees_at_first(&allocator, device);
    Ok(allocator)
}

/// Allocates a block, if there is room, and returns it.
fn borrow<M: MemoryObject, D: MemoryDevice<M>>(
    allocator: &mut GpuAllocator<M>,
    device: &mut D,
    request: Request,
)
    requires agrees { Agrees allocator.old (D.properties device.old) (D.objects device.old) }
    ensures agrees { Agrees allocator.new (D.properties device.new) (D.objects device.new) }
    ensures count { set.len allocator.new.live ≡ set.len allocator.old.live }
{
    if !request.is_askable(false) {
        return;
    }
    if let Ok(block) = allocator.alloc(device, request) {
        allocator.dealloc(device, block);
    }
}

/// Opens an allocator over a device, allocates a block and returns it, cleans up and closes.
pub fn open_and_close<M: MemoryObject, D: MemoryDevice<M>>(
    alloc: Global,
    props: DeviceProperties<'_>,
    device: &mut D,
    request: Request,
) -> Result<(), AllocationError>
    requires usable { IsUsable (properties_of props) }
    requires same { D.properties device.old ≡ properties_of props }
{
    let mut allocator: GpuAllocator<M> = open(alloc, props, device)?;
    borrow(&mut allocator, device, request);
    allocator.cleanup(device);
    allocator.close();
    Ok(())
}
