//! What occurs in lists of commands, so that a test fails where something is missing.

use super::{Line, NAMES, REFUSED, Written};
use crate::tests::drawn::{came_often, count};
use gpu_alloc::MapError;
use gpu_session::Reply;
use gpu_sim::Sim;
use std::alloc::Global;
use std::process::Abort;

/// How a line begins that is printed for a command without an effect.
const IDLE: [&str; 5] = ["refused", "fault", "unmapped no", "bytes -", "ranges none"];

/// What must occur in the lists: each kind of command with an effect, and these cases.
const CASES: [&str; 29] = [
    "alloc",
    "required",
    "preferred",
    "import",
    "free",
    "map",
    "unmap",
    "write",
    "read",
    "put",
    "get",
    "remaining",
    "cleanup",
    "ranges",
    "counts",
    "refused",
    "refuse flush",
    "refuse invalidate",
    "byte of one value",
    "byte of several values",
    "read byte of one value",
    "read byte of several values",
    "refused write that may have moved bytes",
    "write refused by its block's mapping",
    "write refused by a mapping that failed",
    "read of a block in a buddy chunk",
    "read of a block in a free list's chunk",
    "read of a block that is an object",
    "read of an import",
];

/// What occurred in the lists.
#[derive(Drop)]
pub(super) struct Tally {
    /// How often each kind of command had an effect and each case occurred: rows of [`CASES`].
    met: [u64; 29],

    /// Which case a read of the block of each name is, if any.
    reads: [&'static str; NAMES],
}

impl Tally {
    /// Nothing occurred.
    pub(super) fn new() -> Tally {
        Tally {
            met: [0; 29],
            reads: [""; NAMES],
        }
    }

    /// Marks a kind of command or a case.
    fn mark(&mut self, name: &str) {
        for (times, case) in self.met.iter_mut().zip(&CASES) {
            if *case == name {
                count(times);
            }
        }
    }

    /// Marks a byte by how many values it may have, as one case or as another.
    pub(super) fn mark_byte(&mut self, bits: u64, one: &str, several: &str) {
        match bits.count_ones() {
            0 => (),
            1 => self.mark(one),
            _ => self.mark(several),
        }
    }

    /// Marks the bytes that a command read.
    fn mark_read(&mut self, line: &Line, len: u64, written: &Written) {
        let [name, offset, ..] = line.numbers;
        let case = self.reads.get(name as usize).copied().unwrap_or("");
        for place in 0..len {
            let bits = written.bits(name, offset.wrapping_add(place));
            let (one, several) = ("read byte of one value", "read byte of several values");
            self.mark_byte(bits, one, several);
            self.mark_byte(bits, case, case);
        }
    }

    /// Marks a command with its reply and what is printed of that, given what was written before it.
    pub(super) fn mark_reply(
        &mut self,
        line: &Line,
        reply: &Reply,
        printed: &str,
        written: &Written,
    ) {
        if !IDLE.iter().any(|idle| printed.starts_with(*idle)) {
            self.mark(line.word);
        }
        match reply {
            Reply::Granted { offset, .. } => {
                if let Some(read) = self.reads.get_mut(line.numbers[0] as usize) {
                    *read = case_of(line, *offset);
                }
            }
            Reply::Refused(_) => self.mark("refused"),
            Reply::MapRefused(error) if line.word == "write" && written.is_known(line) => {
                self.mark(match error {
                    MapError::AlreadyMapped => "write refused by its block's mapping",
                    MapError::MapFailed => "write refused by a mapping that failed",
                    _ => "refused write that may have moved bytes",
                });
            }
            Reply::Bytes(bytes) if line.word == "read" => {
                self.mark_read(line, bytes.as_slice().len() as u64, written);
            }
            _ => (),
        }
    }

    /// Marks the refusals that the device met, given which question of each kind it refuses.
    pub(super) fn mark_refused(&mut self, refused: [u64; 6], device: &Sim<Global>) {
        for ((question, words), nth) in REFUSED.iter().zip(refused) {
            if nth <= device.asked(*question) {
                self.mark(words);
            }
        }
    }

    /// Each thing must have occurred.
    pub(super) fn has_all(&self, rt: &impl Abort) {
        came_often(rt, &CASES, &self.met, 1);
    }
}

/// Which case a read of a block is, by the line that asked for it and its start in its object. A block that is not at
/// the front lies in a shared chunk, unless it is an import.
fn case_of(line: &Line, start: u64) -> &'static str {
    match line.word {
        "import" => "read of an import",
        "required" => "read of a block that is an object",
        _ if start == 0 => "",
        _ if line.numbers[3] == 2 => "read of a block in a buddy chunk",
        _ => "read of a block in a free list's chunk",
    }
}
