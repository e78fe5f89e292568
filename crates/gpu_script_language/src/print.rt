//! Replies as lines of text.

use gpu_alloc::FreeRange;
use gpu_session::{Fault, Reply};
use gpu_sim::{Question, Sim};
use std::alloc::{AllocError, Allocator};

/// Prints a line for each reply, and one with what the device holds at the end and how often it was asked to allocate.
pub(crate) fn print_replies<A: Allocator + Copy>(
    alloc: A,
    replies: &[Reply<A>],
    device: &Sim<A>,
) -> Result<String<A>, AllocError> {
    let mut text = String::new(alloc);
    for reply in replies {
        print_reply(&mut text, reply)?;
        text.push('\n')?;
    }
    let objects = device.objects();
    let allocations = device.asked(Question::Allocate);
    writeln!(text, "end objects {objects} allocations {allocations}")?;
    Ok(text)
}

/// Appends the line of a reply, without its line feed. Where memory for it is missing, a part of it may remain.
pub fn print_reply<A: Allocator>(text: &mut String<A>, reply: &Reply<A>) -> Result<(), AllocError> {
    match reply {
        Reply::Granted {
            memory_type,
            object,
            offset,
            size,
        } => write!(
            text,
            "block type {memory_type} object {object} offset {offset} size {size}"
        ),
        Reply::Refused(error) => write!(text, "refused: {error}"),
        Reply::MapRefused(error) => write!(text, "refused: {error}"),
        Reply::Done => text.push_str("ok"),
        Reply::Mapped(mapping) => write!(text, "mapped {} {}", mapping.start, mapping.len),
        Reply::Unmapped(true) => text.push_str("unmapped yes"),
        Reply::Unmapped(false) => text.push_str("unmapped no"),
        Reply::Bytes(bytes) => print_bytes(text, bytes.as_slice()),
        Reply::Ranges(ranges) => print_ranges(text, ranges.as_slice()),
        Reply::Counts {
            remaining,
            held,
            used,
        } => print_counts(text, *remaining, *held, used.as_slice()),
        Reply::Fault(fault) => {
            let number = *fault as u8;
            let name = name_of(*fault);
            write!(text, "fault {number} {name}")
        }
    }
}

/// Prints two hexadecimal digits for each byte.
fn print_bytes<A: Allocator>(text: &mut String<A>, bytes: &[u8]) -> Result<(), AllocError> {
    text.push_str("bytes ")?;
    if bytes.is_empty() {
        text.push('-')?;
    }
    for byte in bytes {
        write!(text, "{byte:02x}")?;
    }
    Ok(())
}

/// Prints the object, the start and the end of each range.
fn print_ranges<A: Allocator>(
    text: &mut String<A>,
    ranges: &[FreeRange],
) -> Result<(), AllocError> {
    text.push_str("ranges")?;
    if ranges.is_empty() {
        text.push_str(" none")?;
    }
    for range in ranges {
        write!(text, " {}:{}-{}", range.object, range.start, range.end)?;
    }
    Ok(())
}

/// Prints how many more objects may be held, how many are held, and what is held of each heap.
fn print_counts<A: Allocator>(
    text: &mut String<A>,
    remaining: u32,
    held: u32,
    used: &[u128],
) -> Result<(), AllocError> {
    write!(text, "counts remaining {remaining} held {held} used")?;
    for ledger in used {
        write!(text, " {ledger}")?;
    }
    Ok(())
}

fn name_of(fault: Fault) -> &'static str {
    match fault {
        Fault::NameInUse => "NameInUse",
        Fault::UnknownName => "UnknownName",
        Fault::BadSize => "BadSize",
        Fault::BadAlignment => "BadAlignment",
        Fault::NoDeviceAddress => "NoDeviceAddress",
        Fault::BadRange => "BadRange",
        Fault::BadType => "BadType",
        Fault::NoRemaining => "NoRemaining",
        Fault::TooManyRemaining => "TooManyRemaining",
        Fault::BadImportEnd => "BadImportEnd",
        Fault::NotMapped => "NotMapped",
        Fault::NoMemory => "NoMemory",
    }
}
