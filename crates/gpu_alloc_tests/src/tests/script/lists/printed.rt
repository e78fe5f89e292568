//! What a script prints for replies. This is written apart from the program's own printer, except for the texts of
//! errors, which contracts state.

use super::add_bytes;
use crate::tests::script::memory::FAULTS;
use gpu_session::Reply;
use std::alloc::{AllocError, Global};

/// Adds the line of a reply.
fn add_reply(text: &mut String, reply: &Reply) -> Result<(), AllocError> {
    match reply {
        Reply::Granted {
            memory_type,
            object,
            offset,
            size,
        } => write!(
            text,
            "block type {memory_type} object {object} offset {offset} size {size}"
        ),
        Reply::Refused(error) => write!(text, "refused: {error}"),
        Reply::MapRefused(error) => write!(text, "refused: {error}"),
        Reply::Done => text.push_str("ok"),
        Reply::Mapped(mapping) => write!(text, "mapped {} {}", mapping.start, mapping.len),
        Reply::Unmapped(true) => text.push_str("unmapped yes"),
        Reply::Unmapped(false) => text.push_str("unmapped no"),
        Reply::Bytes(bytes) => {
            text.push_str("bytes")?;
            add_bytes(text, bytes.as_slice())
        }
        Reply::Ranges(ranges) if ranges.as_slice().is_empty() => text.push_str("ranges none"),
        Reply::Ranges(ranges) => {
            text.push_str("ranges")?;
            for range in ranges.as_slice() {
                write!(text, " {}:{}-{}", range.object, range.start, range.end)?;
            }
            Ok(())
        }
        Reply::Counts {
            remaining,
            held,
            used,
        } => {
            write!(text, "counts remaining {remaining} held {held} used")?;
            for ledger in used.as_slice() {
                write!(text, " {ledger}")?;
            }
            Ok(())
        }
        Reply::Fault(fault) => match FAULTS.iter().find(|(of, _)| of == fault) {
            Some((_, line)) => text.push_str(line),
            None => Ok(()),
        },
    }
}

/// What a script with these replies prints, which then holds `objects` objects and has asked to allocate `asked` times.
pub(super) fn printed(
    alloc: Global,
    replies: &[Reply],
    objects: usize,
    asked: u64,
) -> Result<String, AllocError> {
    let mut text = String::new(alloc);
    for reply in replies {
        add_reply(&mut text, reply)?;
        text.push('\n')?;
    }
    writeln!(text, "end objects {objects} allocations {asked}")?;
    Ok(text)
}
