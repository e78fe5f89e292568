//! Lists of commands drawn from a fixed seed, as texts of scripts, with refusals that are drawn too. What each `Read`
//! gives is compared with what was written, by the numbers that were drawn, and what the script prints with the replies.

mod printed;
mod tally;

use super::scripts::{compare, good_script, open_session};
use crate::tests::drawn::Chance;
use crate::tests::same::{same, same_at};
use gpu_alloc::MapError;
use gpu_script_language::SimSession;
use gpu_session::{Command, Reply, values_of};
use gpu_sim::Question;
use printed::printed;
use std::alloc::{AllocError, Global};
use std::process::Abort;
use std::test::Fail;
use tally::Tally;

/// How many lists are drawn.
const LISTS: u64 = 200;

/// How many commands a list has.
const COMMANDS: u64 = 60;

/// More than the greatest name that is drawn.
const NAMES: usize = 7;

/// How many bytes are kept of each block: no command that is drawn moves a byte past them.
const BLOCK: usize = 40;

/// Each kind of command by its word, how many numbers follow it, and the place of a kind that often follows on the same
/// name: so a put is often followed by an unmap, a write and a read.
const KINDS: [(&str, usize, usize); 15] = [
    ("alloc", 5, 7),
    ("required", 5, 7),
    ("preferred", 5, 7),
    ("import", 5, 7),
    ("free", 1, 0),
    ("map", 3, 9),
    ("unmap", 1, 7),
    ("write", 2, 8),
    ("read", 3, 5),
    ("put", 2, 6),
    ("get", 3, 9),
    ("remaining", 1, 7),
    ("cleanup", 0, 7),
    ("ranges", 1, 7),
    ("counts", 0, 7),
];

/// How often kinds are drawn, by their places in `KINDS`: those that move bytes the most.
const DRAWN: [usize; 32] = [
    0, 0, 0, 0, 1, 2, 3, 3, 4, 5, 5, 5, 6, 7, 7, 7, 7, 7, 8, 8, 8, 8, 8, 8, 9, 9, 10, 11, 12, 13,
    14, 6,
];

/// A command as the word and the numbers of its line, and the bytes that follow them where it has any.
#[derive(Drop)]
struct Line {
    word: &'static str,
    numbers: [u64; 5],
    bytes: Vec<u8>,
}

/// The numbers of a command of this kind.
fn numbers_of(word: &str, chance: &mut Chance) -> [u64; 5] {
    let name = chance.next() % 6 + 1;
    let first = chance.next();
    let second = chance.next();
    let third = chance.next();
    match word {
        "alloc" | "required" | "preferred" => {
            let mask = if third % 4 == 0 { 31 } else { 0 };
            let usage = if first % 3 == 0 { 18 } else { 2 };
            let types = if third % 16 == 1 { 0 } else { 1 };
            [name, second % 100 + 1, mask, usage, types]
        }
        "import" => {
            let size = (second % 4 + 1) * 16;
            let span = if third % 8 == 0 { size + 1 } else { size };
            [name, 0, 128, first % 3 * 16, span]
        }
        "remaining" => [first % 4 + 1, 0, 0, 0, 0],
        "ranges" => [first % 5 / 4, 0, 0, 0, 0],
        _ => [name, first % 12, second % 16 + 1, 0, 0],
    }
}

/// Up to eight bytes, each of 1 to 63: no byte of fresh memory is among them.
fn some_bytes(alloc: Global, chance: &mut Chance) -> Result<Vec<u8>, AllocError> {
    let mut bytes = Vec::new(alloc);
    for _ in 0..chance.next() % 9 {
        bytes.push((chance.next() % 63 + 1) as u8)?;
    }
    Ok(bytes)
}

/// Draws a list, and adds its lines to a script. Two in three commands follow from the last one, on the same name.
fn draw_list(
    alloc: Global,
    chance: &mut Chance,
    text: &mut String,
) -> Result<Vec<Line>, AllocError> {
    let mut lines = Vec::new(alloc);
    let mut place = 7;
    let mut name = 1;
    for _ in 0..COMMANDS {
        let follows = chance.next() % 3 != 0;
        if !follows {
            place = DRAWN[(chance.next() % 32) as usize];
        }
        let (word, count, next) = KINDS[place % KINDS.len()];
        let mut numbers = numbers_of(word, chance);
        if follows {
            numbers[0] = name;
        }
        name = numbers[0];
        place = next;
        let bytes = some_bytes(alloc, chance)?;
        let line = Line {
            word,
            numbers,
            bytes,
        };
        add_line(text, &line, count)?;
        lines.push(line)?;
    }
    Ok(lines)
}

/// Adds a command's line to a script. This many numbers follow its word.
fn add_line(text: &mut String, line: &Line, count: usize) -> Result<(), AllocError> {
    text.push_str(line.word)?;
    for number in line.numbers.iter().take(count) {
        write!(text, " {number}")?;
    }
    if line.word == "write" || line.word == "put" {
        add_bytes(text, line.bytes.as_slice())?;
    }
    text.push('\n')
}

/// Adds a field of bytes.
fn add_bytes(text: &mut String, bytes: &[u8]) -> Result<(), AllocError> {
    text.push_str(if bytes.is_empty() { " -" } else { " " })?;
    for byte in bytes {
        write!(text, "{byte:02x}")?;
    }
    Ok(())
}

/// Kinds of questions of which one is refused, and the words of the line that says so.
const REFUSED: [(Question, &str); 6] = [
    (Question::Flush, "refuse flush"),
    (Question::Flush, "refuse flush"),
    (Question::Invalidate, "refuse invalidate"),
    (Question::Invalidate, "refuse invalidate"),
    (Question::Map, "refuse map"),
    (Question::Allocate, "refuse allocate"),
];

/// Begins a script with one type of non-coherent host-visible memory. Returns which question of each kind is refused.
fn draw_setup(text: &mut String, chance: &mut Chance) -> Result<[u64; 6], AllocError> {
    let mut refused = [0; 6];
    text.push_str("heap 1048576\ntype 0 2\natom 16\n")?;
    for ((question, words), nth) in REFUSED.iter().zip(&mut refused) {
        *nth = chance.next() % 7 + 1;
        let cause = match *nth % 3 {
            0 if *question == Question::Map => "failed",
            1 => "host",
            _ => "device",
        };
        writeln!(text, "{words} {nth} {cause}")?;
    }
    Ok(refused)
}

/// What was written to the blocks of each name, as a number for each byte. It has the bit `v` where the byte may have
/// the value `v`, and no bit where no write has covered the byte since the block was granted.
#[derive(Drop)]
struct Written {
    values: [[u64; BLOCK]; NAMES],

    /// Where the latest mapping of each block starts in it.
    mapped_from: [u64; NAMES],
}

impl Written {
    /// Nothing was written.
    fn new() -> Written {
        Written {
            values: [[0; BLOCK]; NAMES],
            mapped_from: [0; NAMES],
        }
    }

    /// The values of a byte, 0 where it is not kept.
    fn bits(&self, name: u64, byte: u64) -> u64 {
        let block = self.values.get(name as usize);
        let bits = block.and_then(|block| block.get(byte as usize));
        bits.copied().unwrap_or(0)
    }

    /// Whether a byte that a line would write has values.
    fn is_known(&self, line: &Line) -> bool {
        let [name, offset, ..] = line.numbers;
        (0..line.bytes.len() as u64).any(|place| self.bits(name, offset.wrapping_add(place)) != 0)
    }

    /// No byte of the block has values.
    fn clear(&mut self, name: u64) {
        if let Some(block) = self.values.get_mut(name as usize) {
            *block = [0; BLOCK];
        }
    }

    /// These bytes are the values from an offset on. Where they only may be, they are added to those that there are.
    fn cover(&mut self, name: u64, offset: u64, bytes: &[u8], is_sure: bool) {
        let Some(block) = self.values.get_mut(name as usize) else {
            return;
        };
        for (bits, value) in block.iter_mut().skip(offset as usize).zip(bytes) {
            let bit = 1u64 << (*value % 64);
            if is_sure {
                *bits = bit;
            } else if *bits != 0 {
                *bits |= bit;
            }
        }
    }

    /// Whether each of these bytes, read from an offset on, is kept, and is one of its values where it has some.
    fn fits(&self, name: u64, offset: u64, bytes: &[u8]) -> bool {
        for (place, value) in bytes.iter().enumerate() {
            let byte = offset.wrapping_add(place as u64);
            let bits = self.bits(name, byte);
            let fits = bits == 0 || *value < 64 && bits >> (*value % 64) & 1 == 1;
            if byte >= BLOCK as u64 || !fits {
                return false;
            }
        }
        true
    }

    /// After a command: whether its reply gives no byte a value that it cannot have.
    fn after(&mut self, line: &Line, reply: &Reply) -> bool {
        let [name, offset, ..] = line.numbers;
        let bytes = line.bytes.as_slice();
        match (reply, line.word) {
            (Reply::Granted { .. }, _) | (Reply::Done, "free") => self.clear(name),
            (Reply::Done, "write") => self.cover(name, offset, bytes, true),
            (Reply::Done, "put") => {
                let start = self.mapped_from.get(name as usize).copied().unwrap_or(0);
                self.cover(name, start.wrapping_add(offset), bytes, false);
            }
            (Reply::Mapped(_), _) => {
                if let Some(start) = self.mapped_from.get_mut(name as usize) {
                    *start = offset;
                }
            }
            (Reply::MapRefused(error), "write") if may_have_moved(*error) => {
                self.cover(name, offset, bytes, false);
            }
            (Reply::Bytes(read), "read") => return self.fits(name, offset, read.as_slice()),
            _ => (),
        }
        true
    }
}

/// Whether a write with this error may have moved bytes.
fn may_have_moved(error: MapError) -> bool {
    error != MapError::AlreadyMapped && error != MapError::MapFailed
}

/// Compares each reply with what was written, and after the command at the place `part` the possible values of each byte.
/// Marks what occurs.
fn check_replies(
    rt: &impl Abort,
    alloc: Global,
    lines: &[Line],
    commands: &[Command],
    replies: &[Reply],
    printed: &str,
    part: usize,
    tally: &mut Tally,
) -> Result<(), Fail> {
    let mut written = Written::new();
    let lines = lines.iter().zip(replies).zip(printed.lines());
    for (index, ((line, reply), printed)) in lines.enumerate() {
        tally.mark_reply(line, reply, printed, &written);
        let fits = written.after(line, reply);
        same(rt, "a read gives what was written", &fits, &true);
        if index == part {
            let commands = commands.get(..=index).unwrap_or(&[]);
            let replies = replies.get(..=index).unwrap_or(&[]);
            compare_told(rt, alloc, commands, replies, &written, tally)?;
        }
    }
    Ok(())
}

/// Compares the possible values of each byte, from the commands and their replies, with what was written, and marks
/// bytes that have values.
fn compare_told(
    rt: &impl Abort,
    alloc: Global,
    commands: &[Command],
    replies: &[Reply],
    written: &Written,
    tally: &mut Tally,
) -> Result<(), AllocError> {
    for name in 0..NAMES as u32 {
        for byte in 0..BLOCK as u64 {
            let mut told = 0;
            for value in values_of(alloc, commands, replies, name, byte)? {
                told |= 1u64 << (value % 64);
            }
            let bits = written.bits(u64::from(name), byte);
            same_at(rt, "name and byte", &(name, byte), &told, &bits);
            tally.mark_byte(bits, "byte of one value", "byte of several values");
        }
    }
    Ok(())
}

/// A new session by a script's setup.
pub(super) fn session_of(
    rt: &impl Abort,
    alloc: Global,
    script: &str,
) -> Result<SimSession<Global>, Fail> {
    let script = good_script(alloc, script)?;
    Ok(open_session(rt, alloc, &script.setup)?)
}

/// The replies to the commands of a script, and what it must print.
fn answers(
    rt: &impl Abort,
    alloc: Global,
    script: &str,
    commands: &[Command],
    refused: [u64; 6],
    tally: &mut Tally,
) -> Result<(Vec<Reply>, String), Fail> {
    let mut session = session_of(rt, alloc, script)?;
    let replies = session.run(commands);
    let device = session.finish();
    tally.mark_refused(refused, &device);
    let objects = device.objects();
    let asked = device.asked(Question::Allocate);
    drop(device);
    let replies = replies?;
    let text = printed(alloc, replies.as_slice(), objects, asked)?;
    Ok((replies, text))
}

/// Draws a list, and runs it by a session and as a script. The possible values of each byte are compared after its
/// command at the place `part`.
fn try_list(
    rt: &impl Abort,
    alloc: Global,
    chance: &mut Chance,
    part: usize,
    tally: &mut Tally,
) -> Result<(), Fail> {
    let mut text = String::new(alloc);
    let refused = draw_setup(&mut text, chance)?;
    let lines = draw_list(alloc, chance, &mut text)?;
    let text = text.as_str();
    let script = good_script(alloc, text)?;
    let commands = script.commands.as_slice();
    let (replies, printed) = answers(rt, alloc, text, commands, refused, tally)?;
    let (lines, replies, printed) = (lines.as_slice(), replies.as_slice(), printed.as_str());
    let count = commands.len();
    let came = (lines.len(), replies.len(), printed.contains("NoMemory"));
    same(
        rt,
        "lines, replies and a fault",
        &came,
        &(count, count, false),
    );
    check_replies(rt, alloc, lines, commands, replies, printed, part, tally)?;
    compare(rt, alloc, &[(text, printed, 0)]);
    Ok(())
}

#[test]
fn reads_of_drawn_lists_give_what_was_written(rt: HostRuntime) -> Result<(), Fail> {
    let mut chance = Chance { state: 20 };
    let mut tally = Tally::new();
    for nth in 0..LISTS {
        let part = (nth % COMMANDS) as usize;
        try_list(&rt, rt.alloc(), &mut chance, part, &mut tally)?;
    }
    tally.has_all(&rt);
    Ok(())
}
