//! A script's run: it is read, parsed, run by a session over the simulated device, and answered to a writer.

ghost use Rattle.std.specs.Prelude.{◌≡◌, ◌≤◌, IfOk};
ghost use Rattle.gpu_alloc_types.specs.Properties.{IsUsable};
ghost use Rattle.gpu_script_language.specs.Setup.{offered};

use crate::line::LineError;
use crate::parser::{Script, Stop, parse};
use crate::print::print_replies;
use crate::setup::Setup;
use gpu_session::{Command, Reply, Session, SessionOpenError};
use gpu_sim::{Sim, SimMemory};
use std::alloc::{AllocError, Allocator};
use std::io::{ErrorKind, Read, Write};

/// A session over the simulated device.
pub type SimSession<A> = Session<SimMemory<A>, Sim<A>, A>;

/// Runs the script that a reader gives, and writes its answer to a writer.
///
/// The whole script is read and parsed before anything runs, and the answer is written at once. The status is:
///
/// - 0 where it ran
/// - 1 where a read or a write failed; how much was written is then unspecified
/// - 2 for a bad line; the output is then `line N: ` and what is wrong with it
/// - 3 where the program itself lacked host memory; the output is then `out of memory`.
pub fn run_script<R: Read, W: Write, A: Allocator + Copy>(
    alloc: A,
    input: &mut R,
    output: &mut W,
) -> u8
    ensures { result ≤ 3 }
{
    let answered = answer(alloc, input);
    write_answer(output, answered)
}

/// Writes a script's answer, or why there is none. The status is that of [`run_script`].
pub fn write_answer<W: Write, A: Allocator>(output: &mut W, answer: Result<String<A>, Stop>) -> u8
    ensures { result ≤ 3 }
{
    let (status, written) = match answer {
        Ok(text) => (0, output.write_all(text.as_bytes())),
        Err(Stop::BadLine(number, error)) => (2, writeln!(output, "line {number}: {error}")),
        Err(Stop::Memory) => (3, output.write_all(b"out of memory\n")),
        Err(Stop::Read) => return 1,
    };
    if written.is_err() || output.flush().is_err() {
        return 1;
    }
    status
}

/// A script's answer.
fn answer<R: Read, A: Allocator + Copy>(alloc: A, input: &mut R) -> Result<String<A>, Stop> {
    let text = read_all(alloc, input)?;
    let script = parse_usable(alloc, text.as_slice())?;
    let printed = run(alloc, &script);
    // A call, as for each device below, so that its parts are taken apart in `drop` and not here.
    drop(script);
    Ok(printed?)
}

/// The script in these bytes, as [`parse`] returns it, if its device is usable. If not, `Stop::BadLine` has the line
/// after the last one.
pub fn parse_usable<A: Allocator + Copy>(alloc: A, text: &[u8]) -> Result<Script<A>, Stop>
    ensures usable { IfOk result (λ script. IsUsable (offered script.setup)) }
{
    let script = parse(alloc, text)?;
    if !script.setup.properties().is_usable() {
        let after = script.lines.saturating_add(1);
        return Err(Stop::BadLine(after, LineError::BadProperties));
    }
    Ok(script)
}

/// The bytes of a reader. `Stop::Read` means that a read failed, `Stop::Memory` that there was no memory for them.
pub fn read_all<R: Read, A: Allocator + Copy>(alloc: A, input: &mut R) -> Result<Vec<u8, A>, Stop> {
    let mut text = Vec::new(alloc);
    let mut buffer = [0u8; 4096];
    // Bounded, so that it ends for every reader.
    for _ in 0..u64::MAX {
        match input.read(&mut buffer) {
            Ok(0) => return Ok(text),
            Ok(count) => text.extend_from_slice(&buffer[..count])?,
            Err(e) => {
                if e.kind() != ErrorKind::Interrupted {
                    return Err(Stop::Read);
                }
            }
        }
    }
    Err(Stop::Read)
}

/// Runs a script's commands as one list over the device that it describes, and finishes the session.
fn run<A: Allocator + Copy>(alloc: A, script: &Script<A>) -> Result<String<A>, AllocError>
    requires usable { IsUsable (offered script.now.setup) }
{
    let session = open(alloc, &script.setup)?;
    let (replies, device) = run_and_finish(session, script.commands.as_slice());
    let printed = match replies {
        Ok(replies) => print_replies(alloc, replies.as_slice(), &device),
        Err(e) => Err(e),
    };
    drop(device);
    printed
}

/// Runs commands as one list, and finishes the session. Returns the replies, and the device at the end.
fn run_and_finish<A: Allocator + Copy>(
    mut session: SimSession<A>,
    commands: &[Command<A>],
) -> (Result<Vec<Reply<A>, A>, AllocError>, Sim<A>) {
    let replies = session.run(commands);
    (replies, session.finish())
}

/// A session over the device that the setup lines describe, with nothing live. It takes memory for the device's books
/// and the session's; where that is missing, nothing is left.
pub fn open<A: Allocator + Copy>(alloc: A, setup: &Setup<A>) -> Result<SimSession<A>, AllocError>
    requires usable { IsUsable (offered setup.now) }
{
    let device = device(alloc, setup)?;
    match Session::new(alloc, setup.config, setup.properties(), device) {
        Ok(session) => Ok(session),
        Err(SessionOpenError { device }) => {
            drop(device);
            Err(AllocError)
        }
    }
}

/// The device that the setup lines describe, with the refusals that they plan.
fn device<A: Allocator + Copy>(alloc: A, setup: &Setup<A>) -> Result<Sim<A>, AllocError>
    ensures { IfOk result (λ device. device.properties ≡ offered setup.now) }
{
    let mut device = Sim::new(alloc, setup.properties())?;
    for refusal in &setup.refusals {
        if device
            .refuse(refusal.kind, refusal.nth, refusal.cause)
            .is_err()
        {
            drop(device);
            return Err(AllocError);
        }
    }
    Ok(device)
}
