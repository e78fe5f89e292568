//! Readers and writers that fail.

use super::scripts::ran;
use crate::tests::same::{same, same_at};
use gpu_script_language::run_script;
use gpu_sim::ScarceMemory;
use std::alloc::{Allocator, Global};
use std::io;
use std::io::{Error, ErrorKind, Read, Write};
use std::process::Abort;
use std::test::Fail;

/// A reader that gives one byte a read, and fails after a number of reads, and again after each such number.
#[derive(Drop)]
struct BrokenReader<'a> {
    left: &'a [u8],
    good: usize,
    next: usize,
    kind: ErrorKind,
}

impl Read for BrokenReader<'_> {
    fn read(&mut self, buf: &mut [u8]) -> io::Result<usize> {
        if self.good == 0 {
            self.good = self.next;
            return Err(Error::from(self.kind));
        }
        self.good -= 1;
        let count = self.left.len().min(buf.len()).min(1);
        let (now, later) = self.left.split_at(count);
        buf[..count].copy_from_slice(now);
        self.left = later;
        Ok(count)
    }
}

/// A writer that takes a number of bytes, and fails where it has no room left: at a write or, once all is written, at
/// the flush.
#[derive(Drop)]
struct BrokenWriter {
    taken: Vec<u8>,
    room: usize,
}

impl Write for BrokenWriter {
    fn write(&mut self, buf: &[u8]) -> io::Result<usize> {
        let count = buf.len().min(self.room);
        if count == 0 && !buf.is_empty() {
            return Err(Error::from(ErrorKind::BrokenPipe));
        }
        self.taken.extend_from_slice(&buf[..count])?;
        self.room -= count;
        Ok(count)
    }

    fn flush(&mut self) -> io::Result<()> {
        if self.room == 0 {
            return Err(Error::from(ErrorKind::BrokenPipe));
        }
        Ok(())
    }
}

const SCRIPT: &str = "heap 64\ntype 0 1\ncounts";

const ANSWER: &str = "counts remaining 4096 held 0 used 0\nend objects 0 allocations 0\n";

/// A script that runs, one with a bad line, and one with bad properties: what they print, and the status.
const ENDS: [(&str, &str, u8); 3] = [
    (SCRIPT, ANSWER, 0),
    ("frob 1\ncounts", "line 1: unknown word\n", 2),
    ("atom 3", "line 2: bad properties\n", 2),
];

/// Compares the end of a script whose reader fails at each of its reads in turn, including the one that finds its end.
/// Nothing is printed then, not even for a bad line that was read.
fn compare_reads(rt: &impl Abort, alloc: Global, script: &str, printed: &str, status: u8) {
    let reads = script.len().saturating_add(1);
    for good in 0..=reads {
        let mut input = BrokenReader {
            left: script.as_bytes(),
            good,
            next: 0,
            kind: ErrorKind::BrokenPipe,
        };
        let (ended, output) = ran(alloc, alloc, &mut input);
        let came = (ended, output.as_slice());
        let wanted = if good < reads {
            (1, "".as_bytes())
        } else {
            (status, printed.as_bytes())
        };
        same_at(rt, "status and output after reads:", &good, &came, &wanted);
    }
}

#[test]
fn a_failed_read_prints_nothing(rt: HostRuntime) {
    for (script, printed, status) in &ENDS {
        compare_reads(&rt, rt.alloc(), script, printed, *status);
    }
}

#[test]
fn an_interrupted_read_is_tried_again(rt: HostRuntime) {
    let mut input = BrokenReader {
        left: SCRIPT.as_bytes(),
        good: 0,
        next: 1,
        kind: ErrorKind::Interrupted,
    };
    let (ended, output) = ran(rt.alloc(), rt.alloc(), &mut input);
    let came = (ended, output.as_slice());
    same(&rt, "status and output", &came, &(0, ANSWER.as_bytes()));
}

/// Compares the end of a script whose writer fails after each number of bytes in turn, and at the flush. The program
/// takes its memory from the allocator given second.
fn compare_writes<A: Allocator + Copy>(
    rt: &impl Abort,
    alloc: Global,
    programs: A,
    script: &str,
    printed: &str,
    status: u8,
) {
    for room in 0..=printed.len().saturating_add(1) {
        let mut input = script.as_bytes();
        let mut output = BrokenWriter {
            taken: Vec::new(alloc),
            room,
        };
        let ended = run_script(programs, &mut input, &mut output);
        let came = (ended, output.taken.as_slice());
        let wanted = if room > printed.len() {
            (status, printed.as_bytes())
        } else {
            (1, &printed.as_bytes()[..room])
        };
        same_at(rt, "status and output with room for", &room, &came, &wanted);
    }
}

#[test]
fn a_failed_write_has_written_a_part(rt: HostRuntime) -> Result<(), Fail> {
    for (script, printed, status) in &ENDS {
        compare_writes(&rt, rt.alloc(), rt.alloc(), script, printed, *status);
    }
    let memory = ScarceMemory::new(rt.alloc())?;
    memory.leave(0)?;
    let nothing = memory.host();
    compare_writes(&rt, rt.alloc(), nothing, SCRIPT, "out of memory\n", 3);
    Ok(())
}
