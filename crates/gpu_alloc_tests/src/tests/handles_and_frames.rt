//! Handles and frames over a device that refuses one object.

ghost use Rattle.std.specs.Prelude.{false};
ghost use Rattle.gpu_alloc.specs.Request.{IsAskable};

use super::offers::{LOCAL, again, offer};
use super::same::{holds, same};
use AllocationError::OutOfDeviceMemory;
use gpu_alloc::{AllocationError, Config, Request, UsageFlags};
use gpu_clients::frames::FramePlanner;
use gpu_clients::resources::{Handle, ResourceManager};
use gpu_sim::{Cause, Question, Sim, SimMemory};
use std::process::Abort;
use std::test::Fail;

type Manager = ResourceManager<SimMemory, Sim>;

type Planner = FramePlanner<SimMemory, Sim>;

/// A valid request for this many bytes.
fn request(rt: &impl Abort, size: u64) -> Request
    ensures { IsAskable false result }
{
    let request = Request {
        size,
        align_mask: 0,
        usage: UsageFlags::TRANSIENT,
        memory_types: u32::MAX,
    };
    holds(rt, request.is_askable(false), "a request");
    request
}

/// Makes a block of this many bytes, which is found under its handle.
fn make(rt: &impl Abort, manager: &mut Manager, size: u64) -> Handle {
    let asked = request(rt, size);
    let handle = manager.create(asked).expect(rt, "a block");
    finds(rt, manager, handle, Some(size));
    handle
}

/// The handle finds a block of this many bytes, or none.
fn finds(rt: &impl Abort, manager: &Manager, handle: Handle, size: Option<u64>) {
    let found = manager.block(handle).map(|block| block.size());
    same(rt, "what a handle finds", &found, &size);
}

/// Two blocks, one of which is replaced by a third in its slot, and a refusal.
fn replace(rt: &impl Abort, manager: &mut Manager) {
    let first = make(rt, manager, 64);
    let second = make(rt, manager, 128);
    same(rt, "whether it went", &manager.destroy(first), &true);
    same(rt, "whether it went again", &manager.destroy(first), &false);
    let third = make(rt, manager, 256);
    let asked = request(rt, 1 << 19);
    let refused = manager.create(asked);
    same(rt, "a refusal", &refused, &Err(OutOfDeviceMemory));
    finds(rt, manager, first, None);
    finds(rt, manager, second, Some(128));
    finds(rt, manager, third, Some(256));
    same(rt, "how many", &manager.len(), &2);
}

/// Begins a flight of two blocks.
fn begin(rt: &impl Abort, planner: &mut Planner, last: u64) -> Result<(), AllocationError> {
    let requests = [request(rt, 16), request(rt, last)];
    planner.begin_flight(&requests)
}

/// Two flights, the oldest of which is retired, and one that is refused.
fn fly(rt: &impl Abort, planner: &mut Planner) {
    same(rt, "a flight", &begin(rt, planner, 32), &Ok(()));
    same(rt, "another", &begin(rt, planner, 64), &Ok(()));
    let refused = begin(rt, planner, 1 << 19);
    same(rt, "a refusal", &refused, &Err(OutOfDeviceMemory));
    same(rt, "flights", &planner.flights(), &2);
    same(rt, "whether one went", &planner.retire_oldest(), &true);
    same(rt, "flights", &planner.flights(), &1);
}

#[test]
fn a_handle_ends_with_its_block(rt: HostRuntime) -> Result<(), Fail> {
    let types = [LOCAL];
    let offered = offer(&types, 1);
    holds(&rt, offered.is_usable(), "properties of no use");
    let mut device: Sim = Sim::new(rt.alloc(), again(&offered))?;
    device.refuse(Question::Allocate, 2, Cause::Device)?;
    match ResourceManager::new(rt.alloc(), Config::i_am_potato(), offered, device) {
        Ok(mut manager) => {
            replace(&rt, &mut manager);
            let device = manager.end();
            same(&rt, "objects at the end", &device.objects(), &0);
            drop(device);
            Ok(())
        }
        Err(device) => {
            drop(device);
            Err(Fail::from("no memory for a manager"))
        }
    }
}

#[test]
fn a_refused_flight_leaves_the_others(rt: HostRuntime) -> Result<(), Fail> {
    let types = [LOCAL];
    let offered = offer(&types, 1);
    holds(&rt, offered.is_usable(), "properties of no use");
    let mut device: Sim = Sim::new(rt.alloc(), again(&offered))?;
    device.refuse(Question::Allocate, 2, Cause::Device)?;
    match FramePlanner::new(rt.alloc(), Config::i_am_potato(), offered, device) {
        Ok(mut planner) => {
            fly(&rt, &mut planner);
            let device = planner.end();
            same(&rt, "objects at the end", &device.objects(), &0);
            drop(device);
            Ok(())
        }
        Err(device) => {
            drop(device);
            Err(Fail::from("no memory for a planner"))
        }
    }
}
