//! Host memory that is refused: to the program, and to single commands, each of whose requests is refused in turn.

use super::questions::told;
use super::scripts::{ended, good_script, open_session, ran};
use crate::tests::drawn::count;
use crate::tests::same::{same, same_at};
use gpu_alloc::AllocationError;
use gpu_script_language::{SimSession, print_reply};
use gpu_session::{Command, Fault, Reply};
use gpu_sim::ScarceMemory;
use std::alloc::{AllocError, Allocator, Global};
use std::process::Abort;
use std::test::Fail;

/// How one command ended.
#[derive(Clone, Copy, Debug, PartialEq, Eq)]
enum Outcome {
    /// It lacked no memory.
    Served,

    /// There was no place for its reply.
    NothingRan,

    /// The session lacked memory.
    NoMemory,

    /// The allocator or the device lacked memory.
    Refused,
}

/// More bytes than a command or a script here takes.
const MUCH: usize = 1 << 17;

/// Which refusals a command meets: no place for its reply, no memory for the session, none for the allocator or the
/// device.
type Refusals = [bool; 3];

/// The outcome of one command with these replies.
fn outcome_of<A: Allocator>(replies: &Result<Vec<Reply<A>, A>, AllocError>) -> Outcome {
    let Ok(replies) = replies else {
        return Outcome::NothingRan;
    };
    match replies.as_slice() {
        [Reply::Fault(Fault::NoMemory)] => Outcome::NoMemory,
        [Reply::Refused(AllocationError::OutOfHostMemory)] => Outcome::Refused,
        _ => Outcome::Served,
    }
}

/// What is printed for replies, if there are any.
fn printed<A: Allocator + Copy>(
    alloc: Global,
    host: A,
    replies: &Result<Vec<Reply<A>, A>, AllocError>,
) -> Result<String, AllocError> {
    let mut text = String::new(host);
    if let Ok(replies) = replies {
        for reply in replies {
            print_reply(&mut text, reply)?;
        }
    }
    String::from_str(alloc, text.as_str())
}

/// Runs a command where `room` bytes are left. Where they are too few, what is held must be as before. Returns what is
/// printed for its reply too.
fn run_in<A: Allocator + Copy>(
    rt: &impl Abort,
    alloc: Global,
    memory: &ScarceMemory,
    host: A,
    session: &mut SimSession<A>,
    command: &[Command<A>],
    room: usize,
) -> Result<(Outcome, String), AllocError> {
    let before = told(alloc, host, session)?;
    memory.leave(room)?;
    let replies = session.run(command);
    memory.lift();
    let after = told(alloc, host, session)?;
    let outcome = outcome_of(&replies);
    if outcome != Outcome::Served {
        same_at(rt, "held after", &outcome, &after, &before);
    }
    Ok((outcome, printed(alloc, host, &replies)?))
}

/// Runs the earlier commands with ample memory, and then one command where `room` bytes are left. At the end the device
/// holds nothing.
fn run_last<A: Allocator + Copy>(
    rt: &impl Abort,
    alloc: Global,
    memory: &ScarceMemory,
    host: A,
    earlier: &str,
    command: &str,
    room: usize,
) -> Result<(Outcome, String), Fail> {
    let earlier = good_script(host, earlier)?;
    let command = good_script(host, command)?;
    let command = command.commands.as_slice();
    let mut session = open_session(rt, host, &earlier.setup)?;
    let ran = session.run(earlier.commands.as_slice()).is_ok();
    let outcome = run_in(rt, alloc, memory, host, &mut session, command, room);
    let (objects, _) = ended(session);
    let came = (ran, objects);
    same(rt, "earlier commands and objects", &came, &(true, 0));
    Ok(outcome?)
}

/// Which refusals a command meets: none at first, where more bytes are left than it takes, and then one at each of its
/// requests, the last one first. Where it is served, its reply is that with ample memory.
fn refusals(
    rt: &impl Abort,
    alloc: Global,
    earlier: &str,
    command: &str,
) -> Result<Refusals, Fail> {
    let mut met = [false; 3];
    let memory = ScarceMemory::new(alloc)?;
    let (first, ample) = run_last(rt, alloc, &memory, memory.host(), earlier, command, MUCH)?;
    same_at(rt, "with ample memory", &command, &first, &Outcome::Served);
    let mut room = MUCH;
    for _ in 0..4096 {
        let memory = ScarceMemory::new(alloc)?;
        let host = memory.host();
        let (outcome, came) = run_last(rt, alloc, &memory, host, earlier, command, room)?;
        match outcome {
            Outcome::Served => same_at(rt, "the reply to", &command, &came, &ample),
            Outcome::NothingRan => met[0] = true,
            Outcome::NoMemory => met[1] = true,
            Outcome::Refused => met[2] = true,
        }
        match memory.less_room(room) {
            Some(less) => room = less,
            None => return Ok(met),
        }
    }
    Err(Fail::from("requests without end"))
}

/// Nothing is held.
const BASE: &str = "heap 1048576\ntype 0 1\n";

/// A buddy block and a mapped object of its own are held.
const HELD: &str = "heap 1048576\ntype 0 6\nalloc 1 64 0 2 1\nrequired 2 64 0 2 1\nmap 2 0 64\n";

/// A block of a free list is held, and one of a buddy chunk beside it.
const RUN: &str = "heap 1048576\ntype 0 1\nalloc 1 100 0 16 1\n";

const RUN_AND_BUDDY: &str = "heap 1048576\ntype 0 1\nalloc 1 100 0 16 1\nalloc 2 100 0 0 1\n";

/// Two heaps, and a ledger of each.
const TWO_HEAPS: &str = "heap 1048576\nheap 1048576\ntype 0 1\n";

/// Commands, and which refusals they meet. Those that take no memory only lack a place for their reply.
const WANTS: [(&str, &str, Refusals); 20] = [
    (BASE, "required 1 100 0 0 1", [true, true, true]),
    (BASE, "preferred 1 1024 0 0 1", [true, true, true]),
    (BASE, "alloc 1 100 0 0 1", [true, true, true]),
    (BASE, "alloc 1 100 0 16 1", [true, true, true]),
    (BASE, "import 1 0 128 32 64", [true, true, true]),
    (HELD, "read 1 0 64", [true, true, false]),
    (HELD, "get 2 0 64", [true, true, false]),
    (HELD, "ranges 0", [true, true, false]),
    (RUN, "ranges 0", [true, true, false]),
    (RUN_AND_BUDDY, "ranges 0", [true, true, false]),
    (HELD, "counts", [true, true, false]),
    (TWO_HEAPS, "counts", [true, true, false]),
    (HELD, "free 1", [true, false, false]),
    (HELD, "free 2", [true, false, false]),
    (HELD, "map 1 0 64", [true, false, false]),
    (HELD, "unmap 2", [true, false, false]),
    (HELD, "write 1 0 00", [true, false, false]),
    (HELD, "put 2 0 00", [true, false, false]),
    (HELD, "remaining 1", [true, false, false]),
    (HELD, "cleanup", [true, false, false]),
];

#[test]
fn each_request_for_memory_is_refused_in_turn(rt: HostRuntime) -> Result<(), Fail> {
    for (earlier, command, wanted) in &WANTS {
        let met = refusals(&rt, rt.alloc(), earlier, command)?;
        same_at(&rt, "the refusals of", command, &met, wanted);
    }
    Ok(())
}

/// Two blocks. The second is an object of its own, with so many bytes that the rest runs where they are refused.
const SCRIPT: &str =
    "heap 1048576\ntype 0 6\nrefuse map 3 failed\nrequired 1 8 0 2 1\nwrite 1 0 00\nread 1 0 8\n\
required 2 4096 0 2 1\nranges 0\nfree 1";

/// How many lines are printed, 0 where it is not a text.
fn lines_of(printed: &[u8]) -> usize {
    match str::from_utf8(printed) {
        Ok(text) => text.lines().count(),
        Err(_) => 0,
    }
}

/// Compares what the program prints where memory is missing: only that it is, by its status too, or a line for each
/// command. Returns whether the program's own memory is missing.
fn compare_ended(rt: &impl Abort, room: usize, status: u8, printed: &[u8], whole: &[u8]) -> bool {
    if status == 3 {
        let wanted = "out of memory\n".as_bytes();
        same_at(rt, "printed in", &room, &printed, &wanted);
        return true;
    }
    let ended = (status, lines_of(printed));
    let wanted = (0, lines_of(whole));
    same_at(rt, "status and lines in", &room, &ended, &wanted);
    false
}

/// Each request of the program's own for memory is refused in turn, the last one first. Then it says only so, by its
/// status too. Those that its commands make are answered by a line each, and the rest runs.
#[test]
fn a_program_without_memory_says_so_alone(rt: HostRuntime) -> Result<(), Fail> {
    let (status, whole) = ran(rt.alloc(), rt.alloc(), &mut SCRIPT.as_bytes());
    same(&rt, "the status with ample memory", &status, &0);
    let (mut served, mut wanting, mut refused) = (0, 0, 0);
    let mut room = MUCH;
    for _ in 0..4096 {
        let memory = ScarceMemory::new(rt.alloc())?;
        memory.leave(room)?;
        let (status, printed) = ran(rt.alloc(), memory.host(), &mut SCRIPT.as_bytes());
        memory.lift();
        if printed == whole {
            let before = (wanting, refused);
            same_at(&rt, "whole in less than", &room, &before, &(0, 0));
            count(&mut served);
        } else if compare_ended(&rt, room, status, printed.as_slice(), whole.as_slice()) {
            count(&mut wanting);
        } else {
            count(&mut refused);
        }
        match memory.less_room(room) {
            Some(less) => room = less,
            None => {
                let what = "whether all had memory, it had none, and a command had none";
                let came = (served > 0, wanting > 0, refused > 0);
                same(&rt, what, &came, &(true, true, true));
                return Ok(());
            }
        }
    }
    Err(Fail::from("requests without end"))
}

/// The text of each fault.
pub(super) const FAULTS: [(Fault, &str); 12] = [
    (Fault::NameInUse, "fault 1 NameInUse"),
    (Fault::UnknownName, "fault 2 UnknownName"),
    (Fault::BadSize, "fault 3 BadSize"),
    (Fault::BadAlignment, "fault 4 BadAlignment"),
    (Fault::NoDeviceAddress, "fault 5 NoDeviceAddress"),
    (Fault::BadRange, "fault 6 BadRange"),
    (Fault::BadType, "fault 7 BadType"),
    (Fault::NoRemaining, "fault 8 NoRemaining"),
    (Fault::TooManyRemaining, "fault 9 TooManyRemaining"),
    (Fault::BadImportEnd, "fault 10 BadImportEnd"),
    (Fault::NotMapped, "fault 11 NotMapped"),
    (Fault::NoMemory, "fault 12 NoMemory"),
];

#[test]
fn faults_print_their_numbers_and_names(rt: HostRuntime) -> Result<(), Fail> {
    for (fault, line) in &FAULTS {
        let mut text = String::new(rt.alloc());
        print_reply(&mut text, &Reply::Fault(*fault))?;
        same(&rt, "what is printed of a fault", &text.as_str(), line);
    }
    Ok(())
}
