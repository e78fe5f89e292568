//! What blocks ask the device for. Each command stands with its reply, then with how often the device was asked to
//! allocate, map, flush and invalidate by then, and with the latest range that it was asked for, if there is one: its
//! object, where it starts there, and its bytes.

use super::lists::session_of;
use super::scripts::good_script;
use crate::tests::same::{same, same_at};
use Question::{Allocate, Flush, Invalidate, Map};
use gpu_script_language::print_reply;
use gpu_sim::{Question, Sim};
use std::alloc::{AllocError, Global};
use std::process::Abort;
use std::test::Fail;

const ROWS: [&str; 5] = [
    // Whole atoms around the bytes are mapped, flushed and invalidated, cut where the object ends. The first one may
    // begin before an import. While a block is mapped nothing is asked, and for no bytes nothing is.
    "\
heap 1048576
type 0 2
atom 64
required 1 250 0 2 1 = block type 0 object 1 offset 0 size 250 = 1 0 0 0
write 1 250 - = ok = 1 0 0 0
read 1 0 0 = bytes - = 1 0 0 0
map 1 70 10 = mapped 70 10 = 1 1 0 0 at 1 64 64
map 1 0 250 = refused: Block is already mapped = 1 1 0 0 at 1 64 64
write 1 0 - = refused: Block is already mapped = 1 1 0 0 at 1 64 64
read 1 0 1 = refused: Block is already mapped = 1 1 0 0 at 1 64 64
unmap 1 = unmapped yes = 1 1 0 0 at 1 64 64
write 1 63 0303 = ok = 1 2 1 0 at 1 0 128
read 1 62 4 = bytes ee0303ee = 1 3 1 1 at 1 0 128
map 1 249 1 = mapped 249 1 = 1 4 1 1 at 1 192 58
unmap 1 = unmapped yes = 1 4 1 1 at 1 192 58
write 1 249 04 = ok = 1 5 2 1 at 1 192 58
read 1 248 2 = bytes ee04 = 1 6 2 2 at 1 192 58
read 1 128 1 = bytes 00 = 1 7 2 3 at 1 128 64
required 2 64 0 2 1 = block type 0 object 2 offset 0 size 64 = 2 7 2 3 at 1 128 64
map 2 0 64 = mapped 0 64 = 2 8 2 3 at 2 0 64
import 3 0 128 32 96 = block type 0 object 3 offset 32 size 96 = 3 8 2 3 at 2 0 64
map 3 95 1 = mapped 127 1 = 3 9 2 3 at 3 64 64
unmap 3 = unmapped yes = 3 9 2 3 at 3 64 64
write 3 0 01020304 = ok = 3 10 3 3 at 3 0 64
read 3 31 2 = bytes ee00 = 3 11 3 4 at 3 0 128
map 3 0 1 = mapped 32 1 = 3 12 3 4 at 3 0 64
",
    // What is refused was asked for, and leaves the block unmapped.
    "\
heap 1048576
type 0 2
atom 64
refuse map 1 failed
refuse flush 1 host
refuse flush 2 device
refuse invalidate 1 device
required 1 256 0 2 1 = block type 0 object 1 offset 0 size 256 = 1 0 0 0
write 1 70 aa = refused: Failed to map memory object = 1 1 0 0 at 1 64 64
unmap 1 = unmapped no = 1 1 0 0 at 1 64 64
write 1 60 1111111111111111 = refused: Host memory exhausted = 1 2 1 0 at 1 0 128
unmap 1 = unmapped no = 1 2 1 0 at 1 0 128
write 1 192 22 = refused: Device memory exhausted = 1 3 2 0 at 1 192 64
read 1 60 8 = refused: Device memory exhausted = 1 4 2 1 at 1 0 128
read 1 60 8 = bytes 1111111100000000 = 1 5 2 2 at 1 0 128
",
    // A shared object was mapped whole. Neighbours are mapped and move bytes apart, each in atoms of its own.
    "\
heap 1048576
type 0 2
atom 64
refuse flush 3 device
refuse invalidate 2 host
alloc 1 64 0 2 1 = block type 0 object 1 offset 0 size 64 = 1 1 0 0 at 1 0 8192
alloc 2 64 0 2 1 = block type 0 object 1 offset 64 size 64 = 1 1 0 0 at 1 0 8192
write 2 64 - = ok = 1 1 0 0 at 1 0 8192
read 2 64 0 = bytes - = 1 1 0 0 at 1 0 8192
map 2 8 4 = mapped 72 4 = 1 1 0 0 at 1 0 8192
write 2 0 ff = refused: Block is already mapped = 1 1 0 0 at 1 0 8192
write 1 0 0102 = ok = 1 1 1 0 at 1 0 64
read 1 62 2 = bytes eeee = 1 1 1 1 at 1 0 64
unmap 2 = unmapped yes = 1 1 1 1 at 1 0 64
write 2 63 03 = ok = 1 1 2 1 at 1 64 64
write 2 31 04 = refused: Device memory exhausted = 1 1 3 1 at 1 64 64
read 2 0 64 = refused: Host memory exhausted = 1 1 3 2 at 1 64 64
read 2 63 1 = bytes 03 = 1 1 3 3 at 1 64 64
map 1 0 64 = mapped 0 64 = 1 1 3 3 at 1 64 64
alloc 3 100 0 18 1 = block type 0 object 2 offset 8064 size 128 = 2 2 3 3 at 2 0 8192
alloc 4 100 0 18 1 = block type 0 object 2 offset 7936 size 128 = 2 2 3 3 at 2 0 8192
write 3 0 01 = ok = 2 2 4 3 at 2 8064 64
write 4 127 02 = ok = 2 2 5 3 at 2 8000 64
read 4 60 8 = bytes 00000000eeeeeeee = 2 2 5 4 at 2 7936 128
map 3 127 1 = mapped 8191 1 = 2 2 5 4 at 2 7936 128
",
    // Coherent memory has no atoms, and nothing is flushed or invalidated.
    "\
heap 1048576
type 0 6
atom 64
required 1 256 0 2 1 = block type 0 object 1 offset 0 size 256 = 1 0 0 0
map 1 255 1 = mapped 255 1 = 1 1 0 0 at 1 255 1
unmap 1 = unmapped yes = 1 1 0 0 at 1 255 1
write 1 70 0505 = ok = 1 2 0 0 at 1 70 2
read 1 69 4 = bytes 00050500 = 1 3 0 0 at 1 69 4
alloc 2 64 0 2 1 = block type 0 object 2 offset 0 size 64 = 2 4 0 0 at 2 0 8192
alloc 3 64 0 2 1 = block type 0 object 2 offset 64 size 64 = 2 4 0 0 at 2 0 8192
map 2 0 1 = mapped 0 1 = 2 4 0 0 at 2 0 8192
write 3 0 02 = ok = 2 4 0 0 at 2 0 8192
read 3 0 1 = bytes 02 = 2 4 0 0 at 2 0 8192
",
    // What the host does not see is refused, and the device is not asked.
    "\
heap 1048576
type 0 1
required 1 8 0 0 1 = block type 0 object 1 offset 0 size 8 = 1 0 0 0
map 1 0 8 = refused: Impossible to map non-host-visible memory = 1 0 0 0
write 1 0 01 = refused: Impossible to map non-host-visible memory = 1 0 0 0
read 1 0 8 = refused: Impossible to map non-host-visible memory = 1 0 0 0
unmap 1 = unmapped no = 1 0 0 0
",
];

/// What the device was asked, as it stands after a reply.
fn asked_of(alloc: Global, device: &Sim) -> Result<String, AllocError> {
    let mut text = String::from_str(alloc, " =")?;
    for kind in [Allocate, Map, Flush, Invalidate] {
        write!(text, " {}", device.asked(kind))?;
    }
    if let Some((object, start, size)) = device.last_range() {
        write!(text, " at {object} {start} {size}")?;
    }
    Ok(text)
}

/// The reply to the last command of a script, and what the device was asked by then. Nothing is held at the end.
fn last_of(rt: &impl Abort, alloc: Global, text: &str) -> Result<String, Fail> {
    let script = good_script(alloc, text)?;
    let mut session = session_of(rt, alloc, text)?;
    let replies = session.run(script.commands.as_slice());
    let device = session.finish();
    let (asked, objects) = (asked_of(alloc, &device), device.objects());
    drop(device);
    same_at(rt, "objects at the end of", &text, &objects, &0);
    let (asked, replies) = (asked?, replies?);
    let mut line = String::new(alloc);
    if let Some(reply) = replies.last() {
        print_reply(&mut line, reply)?;
    }
    line.push_str(asked.as_str())?;
    Ok(line)
}

/// Runs a script as far as each of its commands, and compares the result of the last one.
fn compare_each(rt: &impl Abort, alloc: Global, row: &str) -> Result<(), Fail> {
    let mut script = String::new(alloc);
    for line in row.lines() {
        let (command, wanted) = line.split_once(" = ").unwrap_or((line, ""));
        writeln!(script, "{command}")?;
        if !wanted.is_empty() {
            let came = last_of(rt, alloc, script.as_str())?;
            same_at(rt, "after", &script.as_str(), &came.as_str(), &wanted);
        }
    }
    Ok(())
}

/// If not, the device would be asked for more than the call needs, or for bytes of another block.
#[test]
fn blocks_ask_for_their_own_atoms_alone(rt: HostRuntime) -> Result<(), Fail> {
    for row in &ROWS {
        compare_each(&rt, rt.alloc(), row)?;
    }
    Ok(())
}
