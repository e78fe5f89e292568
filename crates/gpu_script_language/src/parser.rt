//! A script, line by line.

use crate::commands::COMMAND_WORDS;
use crate::fields::Fields;
use crate::line::{LineError, LineStop, meaning_of};
use crate::lines::Lines;
use crate::setup::{SETUP_WORDS, Setup};
use gpu_session::Command;
use std::alloc::{AllocError, Allocator};

/// Why a script has no replies.
#[derive(Drop)]
pub enum Stop {
    /// A read failed.
    Read,

    /// A line is bad. Lines count from 1.
    BadLine(u64, LineError),

    /// Host memory is missing for the program itself.
    Memory,
}

impl From<AllocError> for Stop {
    fn from(_e: AllocError) -> Stop {
        Stop::Memory
    }
}

/// A parsed script.
#[derive(Drop)]
pub struct Script<A: Allocator> {
    /// What its setup lines describe.
    pub setup: Setup<A>,

    /// Its commands, in order.
    pub commands: Vec<Command<A>, A>,

    /// How many lines it has.
    pub lines: u64,
}

/// The script in these bytes: lines of fields, with the setup lines first. Otherwise `Stop::BadLine` has the first bad
/// line, and `Stop::Memory` means that there was no memory for the script.
pub fn parse<A: Allocator + Copy>(alloc: A, text: &[u8]) -> Result<Script<A>, Stop> {
    let mut script = Script {
        setup: Setup::new(alloc),
        commands: Vec::new(alloc),
        lines: 0,
    };
    let mut lines = Lines::of(text);
    while let Some(line) = lines.next() {
        script.lines = script.lines.saturating_add(1);
        match script.take_line(alloc, line) {
            Ok(()) => {}
            Err(LineStop::Bad(error)) => return Err(Stop::BadLine(script.lines, error)),
            Err(LineStop::Memory) => return Err(Stop::Memory),
        }
    }
    Ok(script)
}

impl<A: Allocator + Copy> Script<A> {
    /// Takes one line. Blank lines and comments mean nothing.
    fn take_line(&mut self, alloc: A, line: &[u8]) -> Result<(), LineStop> {
        let mut fields = Fields::of(line);
        let Some(first) = fields.next() else {
            return Ok(());
        };
        if let [b'#', ..] = first {
            return Ok(());
        }
        if let Ok(word) = meaning_of(&COMMAND_WORDS, Some(first)) {
            self.commands.push(word.read(alloc, fields)?)?;
            return Ok(());
        }
        let word = meaning_of(&SETUP_WORDS, Some(first))?;
        if !self.commands.is_empty() {
            return Err(LineStop::Bad(LineError::SetupAfterCommands));
        }
        self.setup.take_line(word, fields)
    }
}
