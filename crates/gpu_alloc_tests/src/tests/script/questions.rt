//! Each question to the device refused, for each cause that it can have, with one command a list: what is refused
//! changes nothing, and at the end nothing is held.

use super::lists::session_of;
use super::scripts::{compare, ended, good_script, halves};
use super::whole::BYTES;
use crate::tests::same::{holds, same, same_at};
use gpu_script_language::{SimSession, print_reply};
use gpu_session::{Command, Reply};
use std::alloc::{AllocError, Allocator, Global};
use std::process::Abort;
use std::test::Fail;

/// The answer for want of device memory.
const DEVICE: &str = "refused: Device memory exhausted";

/// The answer for want of host memory.
const HOST: &str = "refused: Host memory exhausted";

/// The script has blocks of each kind in two equal types, each in a heap of its own. It asks the device for four
/// allocations, two mappings, two flushes and two invalidates. A row has one of them, the place of the command that
/// asks it, and the answer where it is refused for want of device memory: a type that is passed over leaves the request
/// to the other one.
const REFUSED: [(&str, usize, &str); 10] = [
    ("allocate 1", 0, "block type 1 object 1 offset 0 size 128"),
    (
        "allocate 2",
        1,
        "block type 1 object 2 offset 8064 size 128",
    ),
    ("allocate 3", 2, DEVICE),
    ("allocate 4", 8, DEVICE),
    ("map 1", 0, "block type 1 object 2 offset 0 size 128"),
    ("map 2", 1, "block type 1 object 3 offset 8064 size 128"),
    ("flush 1", 3, DEVICE),
    ("flush 2", 4, DEVICE),
    ("invalidate 1", 5, DEVICE),
    ("invalidate 2", 6, DEVICE),
];

/// What is held: the counts, and the free ranges of the first two types. It is asked and printed with the session's own
/// memory.
pub(super) fn told<A: Allocator + Copy>(
    alloc: Global,
    host: A,
    session: &mut SimSession<A>,
) -> Result<Vec<String>, AllocError> {
    let mut commands = Vec::new(host);
    commands.push(Command::Counts)?;
    commands.push(Command::FreeRanges { memory_type: 0 })?;
    commands.push(Command::FreeRanges { memory_type: 1 })?;
    let replies = session.run(commands.as_slice())?;
    let mut told = Vec::new(alloc);
    for reply in &replies {
        let mut line = String::new(host);
        print_reply(&mut line, reply)?;
        told.push(String::from_str(alloc, line.as_str())?)?;
    }
    Ok(told)
}

/// The ledger of a type's heap and its free ranges, from these texts. The ledger follows six words of the counts.
fn of_type(told: &[String], memory_type: usize) -> Option<(&str, &str)> {
    let mut words = told.first()?.as_str().split(' ');
    let ledger = words.nth(memory_type.saturating_add(6))?;
    let ranges = told.get(memory_type.saturating_add(1))?;
    Some((ledger, ranges.as_str()))
}

/// Compares the texts before and after a command with this reply. A grant changes no type but its own, and what is
/// neither granted nor done changes nothing.
fn compare_told(rt: &impl Abort, reply: &Reply, before: &[String], after: &[String]) {
    match reply {
        Reply::Granted { memory_type, .. } => {
            let other = if *memory_type == 0 { 1 } else { 0 };
            let held = of_type(before, other);
            holds(rt, held.is_some(), "a type of which nothing is told");
            let now = of_type(after, other);
            same_at(rt, "what is held of type", &other, &now, &held);
        }
        Reply::Done => (),
        _ => same(rt, "held after a refusal or a question", &after, &before),
    }
}

/// Runs each command as a list of its own, and adds its reply. What it may not change is compared.
fn run_apart(
    rt: &impl Abort,
    alloc: Global,
    session: &mut SimSession<Global>,
    commands: &[Command],
    printed: &mut String,
) -> Result<(), AllocError> {
    let mut before = told(alloc, alloc, session)?;
    for command in commands.chunks(1) {
        let replies = session.run(command)?;
        let after = told(alloc, alloc, session)?;
        for reply in &replies {
            compare_told(rt, reply, before.as_slice(), after.as_slice());
            print_reply(printed, reply)?;
            printed.push('\n')?;
        }
        before = after;
    }
    Ok(())
}

/// What a script prints whose commands are run that way.
fn printed_apart(rt: &impl Abort, alloc: Global, text: &str) -> Result<String, Fail> {
    let script = good_script(alloc, text)?;
    let mut session = session_of(rt, alloc, text)?;
    let mut printed = String::new(alloc);
    let commands = script.commands.as_slice();
    let ran = run_apart(rt, alloc, &mut session, commands, &mut printed);
    let (objects, allocations) = ended(session);
    ran?;
    writeln!(printed, "end objects {objects} allocations {allocations}")?;
    Ok(printed)
}

/// Compares what the script prints with a question refused for this cause, by one list a command and by the program,
/// with the reply to the command that asks it. Nothing is held at the end. Where another type serves, the device is
/// asked once more.
fn compare_refused(
    rt: &impl Abort,
    alloc: Global,
    script: &str,
    question: &str,
    cause: &str,
    place: usize,
    answer: &str,
) -> Result<(), Fail> {
    let text = format!(in alloc; "refuse {question} {cause}\n{script}")?;
    let printed = printed_apart(rt, alloc, text.as_str())?;
    let printed = printed.as_str();
    let at = (question, cause);
    let answered = printed.lines().nth(place);
    same_at(rt, "the answer at a refused", &at, &answered, &Some(answer));
    let asked = if answer.starts_with("block") { 5 } else { 4 };
    let end = format!(in alloc;
        "counts remaining 4096 held 0 used 0 0\nend objects 0 allocations {asked}\n"
    )?;
    let ends = printed.ends_with(end.as_str());
    same_at(rt, "the end with a refused", &at, &ends, &true);
    compare(rt, alloc, &[(text.as_str(), printed, 0)]);
    Ok(())
}

#[test]
fn a_refused_question_changes_nothing(rt: HostRuntime) -> Result<(), Fail> {
    let alloc = rt.alloc();
    let (script, _) = halves(alloc, BYTES[3])?;
    let script = script.as_str();
    for (question, place, answer) in &REFUSED {
        compare_refused(&rt, alloc, script, question, "device", *place, answer)?;
        compare_refused(&rt, alloc, script, question, "host", *place, HOST)?;
        if question.starts_with("map") {
            compare_refused(&rt, alloc, script, question, "failed", *place, HOST)?;
        }
    }
    Ok(())
}
