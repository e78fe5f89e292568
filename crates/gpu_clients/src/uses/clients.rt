//! Callers of the clients, over any device and any allocator of host memory.

ghost use Rattle.std.specs.Prelude.{◌≡◌, ℕ, ◌≤◌, All, IfOk, OnErr, length};
ghost use Rattle.gpu_alloc_types.specs.Properties.{IsUsable, properties_of};
ghost use Rattle.gpu_alloc.specs.Pages.{SharesNoPage};
ghost use Rattle.gpu_alloc.specs.Request.{IsAskable};
ghost use Rattle.gpu_clients.specs.Resources.{WasGiven, FindsBlock, IsManagerAsBefore};
ghost use Rattle.gpu_clients.specs.Staging.{beside};

use crate::frames::FramePlanner;
use crate::resources::{Handle, ResourceManager};
use crate::staging::{StagingError, StagingPool};
use gpu_alloc::{AllocationError, Config, DeviceProperties, Request};
use gpu_alloc_types::{MemoryDevice, MemoryObject, ObjectDevice};
use std::alloc::Allocator;

/// Sends bytes to the device and reads as many back, if it has room, and ends. The device has what it had.
pub fn there_and_back<M: MemoryObject, D: MemoryDevice<M>, A: Allocator + Copy>(
    alloc: A,
    props: DeviceProperties<'_>,
    device: D,
    sent: &[u8],
    got: &mut [u8],
) -> D
    requires usable { IsUsable (properties_of props) }
    requires same { D.properties device ≡ properties_of props }
    ensures beside { (name : ℕ) → D.objects result name ≡ D.objects device name }
{
    match StagingPool::new(alloc, Config::i_am_potato(), props, device) {
        Ok(mut pool) => {
            let _ = pass(&mut pool, sent, got);
            pool.end()
        }
        Err(device) => device,
    }
}

/// Two buffers, of which the first is read and retired.
fn pass<M: MemoryObject, D: MemoryDevice<M>, A: Allocator + Copy>(
    pool: &mut StagingPool<M, D, A>,
    sent: &[u8],
    got: &mut [u8],
) -> Result<(), StagingError>
    ensures beside { (name : ℕ) → beside D.objects pool.new name ≡ beside D.objects pool.old name }
{
    let key = pool.upload(sent, 0, u32::MAX)?;
    pool.upload(sent, 0, u32::MAX)?;
    pool.download(key, 0, got)?;
    pool.retire(key);
    Ok(())
}

/// Replaces a block by another. The old handle finds nothing then. After an error nothing has changed.
pub fn replace<M: MemoryObject, D: ObjectDevice<M>, A: Allocator + Copy>(
    manager: &mut ResourceManager<M, D, A>,
    handle: Handle,
    request: Request,
) -> Result<Handle, AllocationError>
    requires askable { IsAskable ((manager.old.allocator).properties).buffer_device_address request }
    ensures fresh { IfOk result (λ new. WasGiven manager.old new → ⊥) }
    ensures refused { OnErr result (IsManagerAsBefore manager.old manager.new) }
{
    let new = manager.create(request)?;
    manager.destroy(handle);
    Ok(new)
}

/// Allocates an optimal image and then a buffer, which share no page. After an error there may be the image.
pub fn image_and_buffer<M: MemoryObject, D: ObjectDevice<M>, A: Allocator + Copy>(
    manager: &mut ResourceManager<M, D, A>,
    image: Request,
    buffer: Request,
) -> Result<(Handle, Handle), AllocationError>
    requires image { IsAskable ((manager.old.allocator).properties).buffer_device_address image }
    requires buffer { IsAskable ((manager.old.allocator).properties).buffer_device_address buffer }
    ensures { IfOk result (λ made. FindsBlock manager.new made.0 (λ b.
        FindsBlock manager.new made.1 (SharesNoPage manager.new.granularity image.size b))) }
{
    let first = manager.create_optimal(image)?;
    let second = manager.create(buffer)?;
    manager.keeps_pages();
    Ok((first, second))
}

/// Begins a flight, after the oldest of three is retired.
pub fn next_flight<M: MemoryObject, D: ObjectDevice<M>, A: Allocator + Copy>(
    planner: &mut FramePlanner<M, D, A>,
    requests: &[Request],
) -> Result<(), AllocationError>
    requires askable { All (IsAskable ((planner.old.hand).allocator.properties).buffer_device_address) requests.now }
    requires few { length planner.old.counts ≤ 3 }
    ensures { length planner.new.counts ≤ 3 }
{
    if planner.flights() == 3 {
        planner.retire_oldest();
    }
    planner.begin_flight(requests)
}
