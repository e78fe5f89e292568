//! What `values_of` returns for bytes, from the commands of a script and their replies.

use super::lists::session_of;
use super::scripts::{good_script, halves};
use super::whole::BYTES;
use crate::tests::same::{same, same_at};
use gpu_session::{Command, Reply, values_of};
use std::alloc::{AllocError, Global};
use std::process::Abort;
use std::test::Fail;

/// A byte, by the name of its block and its place from the block's start, and the values that it may have, the latest
/// first.
type Told = (u32, u64, &'static [u8]);

/// What a table says of a byte.
fn row_of(rows: &[Told], name: u32, byte: u64) -> &'static [u8] {
    match rows.iter().find(|row| (row.0, row.1) == (name, byte)) {
        Some((_, _, values)) => values,
        None => &[],
    }
}

/// The replies to commands that a new session by a script's setup runs as two lists: up to a place, and from it on.
fn answered(
    rt: &impl Abort,
    alloc: Global,
    text: &str,
    commands: &[Command],
    place: usize,
) -> Result<Vec<Reply>, Fail> {
    let mut session = session_of(rt, alloc, text)?;
    let (first, second) = commands.split_at(place.min(commands.len()));
    let replies = session.run(first);
    let later = session.run(second);
    drop(session.finish());
    let mut replies = replies?;
    for reply in later? {
        replies.push(reply)?;
    }
    Ok(replies)
}

/// Compares the values of the first bytes of four blocks, from commands and their replies. Bytes of a table have the
/// table's values, and all others none.
fn compare_told(
    rt: &impl Abort,
    alloc: Global,
    commands: &[Command],
    replies: &[Reply],
    rows: &[Told],
) -> Result<(), AllocError> {
    same(rt, "replies", &replies.len(), &commands.len());
    for name in 1..5 {
        for byte in 0..64 {
            let told = values_of(alloc, commands, replies, name, byte)?;
            let wanted = row_of(rows, name, byte);
            let at = (name, byte);
            same_at(rt, "name and byte", &at, &told.as_slice(), &wanted);
        }
    }
    Ok(())
}

/// Compares the values after the commands of a script, run as one list and as two. Replies may stand in its text.
fn compare(rt: &impl Abort, alloc: Global, text: &str, rows: &[Told]) -> Result<(), Fail> {
    let (text, _) = halves(alloc, text)?;
    let text = text.as_str();
    let script = good_script(alloc, text)?;
    let commands = script.commands.as_slice();
    for place in [0, commands.len() / 2] {
        let replies = answered(rt, alloc, text, commands, place)?;
        compare_told(rt, alloc, commands, replies.as_slice(), rows)?;
    }
    Ok(())
}

/// Puts and refused writes over bytes that were written, and blocks that are freed and granted again.
const PUTS: &str = "\
heap 1048576
type 0 2
atom 64
refuse flush 3 device
refuse map 5 failed
alloc 1 64 0 2 1
write 1 4 aabb
map 1 4 8
put 1 1 cc
unmap 1
write 1 5 dd
write 1 4 ee
map 1 5 2
put 1 0 ff
put 1 0 ff
put 1 0 1122
write 1 4 99
unmap 1
required 3 64 0 2 1
write 3 0 55
free 3
required 2 64 0 2 1
write 2 0 66
free 2
required 2 64 0 2 1
write 2 0 77
write 2 0 88
";

/// A refused write alone gives its bytes no values.
const AFTER_A_REFUSAL: [Told; 3] = [(1, 3, &[0x61]), (1, 4, &[0x62]), (1, 5, &[0x63])];

/// A put alone gives no values, since the device may see any byte there.
const AFTER_A_PUT: [Told; 2] = [(1, 0, &[0xaa]), (1, 1, &[0xbb])];

/// A write gives no byte a value if it is refused because its block is mapped, or because the mapping failed.
const AFTER_PUTS: [Told; 3] = [
    (1, 4, &[0xee, 0xaa]),
    (1, 5, &[0x11, 0xff, 0xff, 0xdd]),
    (2, 0, &[0x77]),
];

#[test]
fn values_of_bytes_that_scripts_write(rt: HostRuntime) -> Result<(), Fail> {
    compare(&rt, rt.alloc(), BYTES[0], &AFTER_A_REFUSAL)?;
    compare(&rt, rt.alloc(), BYTES[1], &AFTER_A_PUT)?;
    compare(&rt, rt.alloc(), PUTS, &AFTER_PUTS)
}
