//! Each request for host memory of an opening refused in turn.

ghost use Rattle.std.specs.Prelude.{◌≡◌, IfOk, IfErr};
ghost use Rattle.gpu_alloc_types.specs.Properties.{IsUsable};
ghost use Rattle.gpu_script_language.specs.Setup.{offered};

use super::scripts::{are_usable, ended, good_script, halves};
use super::whole::{BYTES, OBJECTS};
use crate::tests::same::same_at;
use gpu_script_language::{Setup, SimSession};
use gpu_session::{Session, SessionOpenError};
use gpu_sim::{ScarceMemory, Sim};
use std::alloc::{AllocError, Allocator, Global};
use std::process::Abort;
use std::test::Fail;

/// The device that a script describes, which refuses nothing.
fn device_of<A: Allocator + Copy>(host: A, setup: &Setup<A>) -> Result<Sim<A>, AllocError>
    ensures { IfOk result (λ device. device.properties ≡ offered setup.now) }
{
    Sim::new(host, setup.properties())
}

/// A session over it, or the device where the session lacks memory.
fn open_over<A: Allocator + Copy>(
    host: A,
    setup: &Setup<A>,
    device: Sim<A>,
) -> Result<SimSession<A>, Sim<A>>
    requires usable { IsUsable (offered setup.now) }
    requires same { device.properties ≡ offered setup.now }
    ensures { IfErr result (λ back. back ≡ device) }
{
    match Session::new(host, setup.config, setup.properties(), device) {
        Ok(session) => Ok(session),
        Err(SessionOpenError { device }) => Err(device),
    }
}

/// Opens a session over a script's device where `room` bytes are left, and runs its commands. Where its memory is
/// missing, the device comes back, and serves with ample memory. At the end it holds nothing. Returns whether those
/// bytes were enough.
fn open_script<A: Allocator + Copy>(
    rt: &impl Abort,
    memory: &ScarceMemory,
    host: A,
    text: &str,
    room: usize,
) -> Result<bool, Fail> {
    let script = good_script(host, text)?;
    are_usable(rt, &script.setup);
    let device = device_of(host, &script.setup)?;
    memory.leave(room)?;
    let opened = open_over(host, &script.setup, device);
    memory.lift();
    let enough = opened.is_ok();
    let opened = match opened {
        Ok(session) => Ok(session),
        Err(device) => open_over(host, &script.setup, device),
    };
    match opened {
        Ok(mut session) => {
            let ran = session.run(script.commands.as_slice()).is_ok();
            let (objects, _) = ended(session);
            let what = "whether the commands run, and objects at the end, after";
            same_at(rt, what, &room, &(ran, objects), &(true, 0));
            Ok(enough)
        }
        Err(_) => Err(Fail::from("refused with ample memory")),
    }
}

/// How often a session over a script's device lacked its memory: never at first, where more bytes are left than it
/// takes, and then at each request, the last one first.
fn refused_openings(rt: &impl Abort, alloc: Global, text: &str) -> Result<u32, Fail> {
    let mut refused = 0u32;
    let mut room = 1 << 17;
    for _ in 0..4096 {
        let memory = ScarceMemory::new(alloc)?;
        if !open_script(rt, &memory, memory.host(), text, room)? {
            refused = refused.saturating_add(1);
        }
        match memory.less_room(room) {
            Some(less) => room = less,
            None => return Ok(refused),
        }
    }
    Err(Fail::from("requests without end"))
}

#[test]
fn a_refused_opening_gives_the_device_back(rt: HostRuntime) -> Result<(), Fail> {
    for text in [OBJECTS[2], OBJECTS[3], BYTES[3]] {
        let (script, _) = halves(rt.alloc(), text)?;
        let refused = refused_openings(&rt, rt.alloc(), script.as_str())?;
        same_at(&rt, "refused openings", &refused, &(refused > 0), &true);
    }
    Ok(())
}
