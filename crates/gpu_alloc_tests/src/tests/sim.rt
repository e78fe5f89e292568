//! The simulated device by itself: one with a plan of refusals, and what a handle of its objects takes.

ghost use Rattle.std.specs.Prelude.{◌≡◌, length, IfOk, IsTrue};
ghost use Rattle.gpu_alloc_types.specs.Flags.{has_bit, host_visible, property_bits};
ghost use Rattle.gpu_alloc_types.specs.Properties.{is_host_visible};

use super::offers::{LOCAL, offer};
use super::same::{same, same_at};
use gpu_alloc_types::{
    AllocationFlags, MemoryDevice, MemoryObject, MemoryPropertyFlags, MemoryType,
};
use gpu_sim::{Cause, HostMemory, Question, ScarceMemory, Sim, SimMemory};
use std::alloc::{AllocError, Allocator, Global};
use std::marker::Model;
use std::process::Abort;
use std::test::Fail;

/// Which question of a kind is refused, for want of host memory.
pub(super) type Plan = (Question, u64);

/// A plan for no question.
pub(super) const NONE: Plan = (Question::Map, 0);

/// A device with one host-visible memory type and an atom of 1 byte. Contracts see nothing else of it.
#[derive(Drop)]
pub(super) struct Device {
    pub(super) sim: Sim,
}

impl Model for Device {
    ghost use Rattle.std.specs.Prelude.{◌≡◌, ℕ, IsTrue, length};
    ghost use Rattle.gpu_alloc_types.specs.Properties.{is_host_visible};

    ghost Value = { ℕ };

    ghost view = { λ _. 0 };

    ghost invariant = { λ d. (length (d.sim).properties.memory_types ≡ 1)
        × IsTrue (is_host_visible (d.sim).properties 0)
        × ((d.sim).properties.non_coherent_atom_size ≡ 1) };
}

impl Device {
    /// A device that refuses that question. Its memory is coherent or not.
    pub(super) fn new(
        rt: &impl Abort,
        alloc: Global,
        coherent: bool,
        refused: Plan,
    ) -> Result<Device, AllocError> {
        let seen = MemoryPropertyFlags::from_bits_retain(2);
        let both = MemoryPropertyFlags::from_bits_retain(6);
        let mut device = if coherent {
            Device::over(alloc, both)?
        } else {
            Device::over(alloc, seen)?
        };
        refuse(rt, &mut device.sim, refused);
        Ok(device)
    }

    /// One whose memory type has these properties.
    fn over(alloc: Global, props: MemoryPropertyFlags) -> Result<Device, AllocError>
        requires { IsTrue (has_bit (property_bits props) host_visible) }
    {
        Ok(Device {
            sim: of_type(alloc, props)?,
        })
    }
}

/// Has a device refuse that question.
fn refuse(rt: &impl Abort, device: &mut Sim, refused: Plan)
    ensures { device.new.properties ≡ device.old.properties }
{
    let (kind, nth) = refused;
    let planned = device.refuse(kind, nth, Cause::Host);
    same(rt, "a plan", &planned, &Ok(()));
}

/// A device whose memory type has these properties.
fn of_type(alloc: Global, props: MemoryPropertyFlags) -> Result<Sim, AllocError>
    requires { IsTrue (has_bit (property_bits props) host_visible) }
    ensures types { IfOk result (λ d. length d.properties.memory_types ≡ 1) }
    ensures visible { IfOk result (λ d. IsTrue (is_host_visible d.properties 0)) }
    ensures atom { IfOk result (λ d. d.properties.non_coherent_atom_size ≡ 1) }
{
    Sim::new(alloc, offer(&[MemoryType { heap: 0, props }], 1))
}

/// A handle of the first object of a device, which is dropped.
fn handle_of<A: Allocator + Copy>(heap: A) -> Result<Option<SimMemory<A>>, AllocError> {
    let mut device = Sim::new(heap, offer(&[LOCAL], 1))?;
    let made = device.allocate_memory(1, 0, AllocationFlags::empty());
    drop(device);
    Ok(made.ok())
}

/// Duplicates a handle until memory runs out. Returns how many there are then.
fn count_duplicates(
    alloc: Global,
    memory: &SimMemory<HostMemory<'_>>,
) -> Result<Option<usize>, AllocError> {
    let mut others = Vec::new(alloc);
    for _ in 0..1024 {
        match memory.duplicate() {
            Ok(other) => others.push(other)?,
            Err(_) => return Ok(Some(others.len())),
        }
    }
    Ok(None)
}

/// Each duplicate takes 8 bytes, and is refused where they are not left.
#[test]
fn a_duplicate_is_refused_with_its_memory(rt: HostRuntime) -> Result<(), Fail> {
    let scarce = ScarceMemory::new(rt.alloc())?;
    let Some(memory) = handle_of(scarce.host())? else {
        panic!(rt; "no object");
    };
    for (room, count) in [(0, 0), (7, 0), (8, 1), (80, 10), (4096, 512), (8, 1)] {
        scarce.leave(room)?;
        let fit = count_duplicates(rt.alloc(), &memory)?;
        same_at(&rt, "duplicates in bytes:", &room, &fit, &Some(count));
    }
    scarce.lift();
    let fit = count_duplicates(rt.alloc(), &memory)?;
    let came = (fit, memory.object());
    same(&rt, "duplicates and the object", &came, &(None, 1));
    Ok(())
}
