//! Runs a script, and compares what it prints.

ghost use Rattle.gpu_alloc_types.specs.Properties.{IsUsable};
ghost use Rattle.gpu_script_language.specs.Setup.{offered};

use crate::tests::same::{holds, same_at};
use gpu_script_language::{Script, Setup, SimSession, open, parse, run_script};
use gpu_sim::Question;
use std::alloc::{AllocError, Allocator, Global};
use std::io::Read;
use std::process::Abort;
use std::test::Fail;

/// How a script of any bytes ends with this host memory, and what it prints.
pub(super) fn ran<A: Allocator + Copy>(
    alloc: Global,
    host: A,
    input: &mut impl Read,
) -> (u8, Vec<u8>) {
    let mut output = Vec::new(alloc);
    let status = run_script(host, input, &mut output);
    (status, output)
}

/// Runs each script, and compares its status and what it prints.
pub(super) fn compare(rt: &impl Abort, alloc: Global, rows: &[(&str, &str, u8)]) {
    for (script, printed, status) in rows {
        let (ended, output) = ran(alloc, alloc, &mut script.as_bytes());
        let came = (ended, str::from_utf8(output.as_slice()).ok());
        let wanted = (*status, Some(*printed));
        same_at(rt, "status and what is printed by", script, &came, &wanted);
    }
}

/// A script and what it prints, from a text in which each command stands with its reply.
pub(super) fn halves(alloc: Global, text: &str) -> Result<(String, String), AllocError> {
    let mut script = String::new(alloc);
    let mut printed = String::new(alloc);
    for line in text.lines() {
        let (command, reply) = line.split_once(" = ").unwrap_or((line, ""));
        if !command.is_empty() {
            writeln!(script, "{command}")?;
        }
        if !reply.is_empty() {
            writeln!(printed, "{reply}")?;
        }
    }
    Ok((script, printed))
}

/// An allocator can be built on what setup lines describe.
pub(super) fn are_usable<A: Allocator + Copy>(rt: &impl Abort, setup: &Setup<A>)
    ensures { IsUsable (offered setup.now) }
{
    holds(rt, setup.properties().is_usable(), "properties of no use");
}

/// A new session over the device that setup lines describe.
pub(super) fn open_session<A: Allocator + Copy>(
    rt: &impl Abort,
    alloc: A,
    setup: &Setup<A>,
) -> Result<SimSession<A>, AllocError> {
    are_usable(rt, setup);
    open(alloc, setup)
}

/// Ends a session. Returns how many objects its device then holds, and how often it was asked to allocate.
pub(super) fn ended<A: Allocator + Copy>(session: SimSession<A>) -> (usize, u64) {
    let device = session.finish();
    (device.objects(), device.asked(Question::Allocate))
}

/// The script in valid lines.
pub(super) fn good_script<A: Allocator + Copy>(alloc: A, text: &str) -> Result<Script<A>, Fail> {
    match parse(alloc, text.as_bytes()) {
        Ok(script) => Ok(script),
        Err(_) => Err(Fail::from("a bad script")),
    }
}
