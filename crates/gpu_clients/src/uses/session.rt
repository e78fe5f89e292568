//! Lists of commands, answered by one session.

ghost use Rattle.std.specs.Prelude.{◌≡◌, ◌++◌, All, IfOk, OnOk};
ghost use Rattle.gpu_alloc.specs.State.{total};
ghost use Rattle.gpu_alloc_types.specs.Properties.{IsUsable, properties_of};
ghost use Rattle.gpu_session.specs.Isolation.{HoldsWritten, TellAlong};
ghost use Rattle.gpu_session.specs.Run.{EndsWithCleanup, Run};
ghost use Rattle.gpu_session.specs.Sound.{HasNothingLeft, HasWholeObjects, IsForRequired, LeavesRemaining, SoundStep};
ghost use Rattle.gpu_session.specs.Written.{written};

use gpu_alloc::{Config, DeviceProperties};
use gpu_alloc_types::{MemoryDevice, MemoryObject};
use gpu_session::laws::{
    reads_tell_what_was_written, required_runs_keep_whole_objects, runs_end_with_nothing_held,
    runs_hold_what_was_written, runs_join, runs_keep_the_total,
};
use gpu_session::{Command, Reply, Session};
use std::alloc::{AllocError, Global};

/// Answers a list of commands twice, as far as there is memory for the replies, and returns the device, which has the
/// properties that it had.
pub fn answer_twice<M: MemoryObject, D: MemoryDevice<M>>(
    alloc: Global,
    props: DeviceProperties<'_>,
    device: D,
    commands: &[Command<Global>],
) -> D
    requires usable { IsUsable (properties_of props) }
    requires same { D.properties device ≡ properties_of props }
    ensures { D.properties result ≡ D.properties device }
{
    match Session::new(alloc, Config::i_am_potato(), props, device) {
        Ok(mut session) => {
            let first = session.run(commands);
            let second = session.run(commands);
            drop(first);
            drop(second);
            session.finish()
        }
        Err(refusal) => refusal.device,
    }
}

/// Answers a list of commands that never sets how many more objects may be held: the total of objects that are held or
/// may be held stays.
pub fn answer<M: MemoryObject, D: MemoryDevice<M>>(
    session: &mut Session<M, D>,
    commands: &[Command<Global>],
) -> Result<Vec<Reply<Global>>, AllocError>
    requires leaves { All LeavesRemaining commands.now }
    ensures { total (session.new.books).allocator ≡ total (session.old.books).allocator }
{
    match session.run(commands) {
        Ok(replies) => {
            runs_keep_the_total::<M, D, Global>();
            Ok(replies)
        }
        Err(refusal) => Err(refusal),
    }
}

/// Answers a list of commands that ends with `Cleanup`: if no name has a block then, nothing is held.
pub fn answer_and_clean_up<M: MemoryObject, D: MemoryDevice<M>>(
    session: &mut Session<M, D>,
    commands: &[Command<Global>],
) -> Result<Vec<Reply<Global>>, AllocError>
    requires ends { EndsWithCleanup commands.now }
    ensures { OnOk result (HasNothingLeft session.new.books) }
{
    match session.run(commands) {
        Ok(replies) => {
            runs_end_with_nothing_held::<M, D, Global>();
            Ok(replies)
        }
        Err(refusal) => Err(refusal),
    }
}

/// Answers a list of commands. Each byte of a live block that a completed command has written has one of the values
/// that they allow, for host and device, whatever other blocks' commands did.
pub fn answer_and_hold<M: MemoryObject, D: MemoryDevice<M>>(
    session: &mut Session<M, D>,
    commands: &[Command<Global>],
) -> Result<Vec<Reply<Global>>, AllocError>
    ensures { IfOk result (λ replies.
        HoldsWritten (D.objects session.new.device) session.new.books (written commands.now replies.items)) }
{
    match session.run(commands) {
        Ok(replies) => {
            runs_hold_what_was_written::<M, D, Global>();
            Ok(replies)
        }
        Err(refusal) => Err(refusal),
    }
}

/// The replies to two lists.
type Answers = (Vec<Reply<Global>>, Vec<Reply<Global>>);

/// Answers two lists of commands, one after the other: together they are a run of the joined lists.
pub fn answer_both<M: MemoryObject, D: MemoryDevice<M>>(
    session: &mut Session<M, D>,
    commands: &[Command<Global>],
    later: &[Command<Global>],
) -> Result<Answers, AllocError>
    ensures { IfOk result (λ answers. Run (SoundStep D.step D.properties D.objects) session.old
        (commands.now ++ later.now) ((answers.0).items ++ (answers.1).items) session.new) }
{
    let replies = session.run(commands)?;
    let answers = session.run(later)?;
    runs_join::<M, D, Global>();
    Ok((replies, answers))
}

/// Answers two lists of commands, one after the other. Each read of the second gives what both lists wrote before it,
/// as each read of the first does for the first.
pub fn answer_both_and_tell<M: MemoryObject, D: MemoryDevice<M>>(
    session: &mut Session<M, D>,
    commands: &[Command<Global>],
    later: &[Command<Global>],
) -> Result<Answers, AllocError>
    ensures { IfOk result (λ answers.
        TellAlong (commands.now ++ later.now) ((answers.0).items ++ (answers.1).items)) }
{
    let told = answer_both(session, commands, later)?;
    reads_tell_what_was_written::<M, D, Global>();
    Ok(told)
}

/// Opens a session and answers a list of commands that asks for blocks only with the hint `Required`: each live block
/// is the whole of an object of its own. Where there is no memory, the device comes back.
pub fn open_with_whole_objects<M: MemoryObject, D: MemoryDevice<M>>(
    alloc: Global,
    props: DeviceProperties<'_>,
    device: D,
    commands: &[Command<Global>],
) -> Result<Session<M, D>, D>
    requires usable { IsUsable (properties_of props) }
    requires same { D.properties device ≡ properties_of props }
    requires required { All IsForRequired commands.now }
    ensures { IfOk result (HasWholeObjects D.objects) }
{
    let mut session = match Session::new(alloc, Config::i_am_potato(), props, device) {
        Ok(session) => session,
        Err(refusal) => return Err(refusal.device),
    };
    match session.run(commands) {
        Ok(replies) => {
            required_runs_keep_whole_objects::<M, D, Global>();
            drop(replies);
            Ok(session)
        }
        Err(_) => Err(session.finish()),
    }
}
