//! Lines, good and bad, and scripts of any bytes.

use super::scripts::compare;
use std::test::Fail;

/// What `counts` prints where there is no heap.
const NOTHING: &str = "counts remaining 4096 held 0 used\n";

/// What it prints where there is one.
const ONE_HEAP: &str = "counts remaining 4096 held 0 used 0\n";

/// What a command whose block is missing prints.
const UNKNOWN: &str = "fault 2 UnknownName\n";

/// Scripts with a bad line, its number and what is wrong with it.
const BAD: [(&str, &str); 65] = [
    // Setup lines.
    ("heap 18446744073709551616", "1: bad number"),
    ("heap 10\ncounts\ntype 0 1", "3: setup after commands"),
    ("\n# x\nfrob 1", "3: unknown word"),
    ("config melon", "1: unknown word"),
    ("config 1 2", "1: wrong number of fields"),
    ("config", "1: wrong number of fields"),
    ("config 1 2 3 4 5 6 x", "1: bad number"),
    ("config 1 2 3 4 5 6 7 8", "1: wrong number of fields"),
    ("refuse map 0 melon", "1: bad number"),
    ("refuse map 1 melon", "1: unknown word"),
    ("refuse melon 0 melon", "1: unknown word"),
    ("refuse allocate 1 failed", "1: unknown word"),
    ("refuse flush 1 failed", "1: unknown word"),
    ("refuse invalidate 1 failed", "1: unknown word"),
    ("type 0 64", "1: bad number"),
    ("type 4294967296 1", "1: bad number"),
    ("address 1", "1: wrong number of fields"),
    ("limits 4294967296 1", "1: bad number"),
    ("heap 1x", "1: bad number"),
    ("heap -1", "1: bad number"),
    ("heap 1\ntype 1 1", "3: bad properties"),
    ("atom 3", "2: bad properties"),
    ("atom 3\n", "2: bad properties"),
    ("counts\nfrob\nheap", "2: unknown word"),
    ("counts\nheap", "2: setup after commands"),
    // Commands.
    ("alloc 1 100", "1: wrong number of fields"),
    ("alloc 1 1 0 256 1", "1: bad number"),
    ("alloc 4294967296 1 0 0 1", "1: bad number"),
    ("alloc 1 1 0 0 4294967296", "1: bad number"),
    ("required 1 100", "1: wrong number of fields"),
    ("required 1 1 0 256 1", "1: bad number"),
    ("required 1 1 0 0 1 1", "1: wrong number of fields"),
    ("preferred 1 18446744073709551616 0 0 1", "1: bad number"),
    ("import 1 4294967296 1 0 1", "1: bad number"),
    ("free 4294967296", "1: bad number"),
    ("map 1 0 -1", "1: bad number"),
    ("unmap -", "1: bad number"),
    ("read 1 x 1", "1: bad number"),
    ("get 1 0 0x1", "1: bad number"),
    ("remaining 4294967296", "1: bad number"),
    ("ranges none", "1: bad number"),
    ("counts 1", "1: wrong number of fields"),
    ("cleanup all", "1: wrong number of fields"),
    ("Counts", "1: unknown word"),
    ("allocate 1 1 0 0 1", "1: unknown word"),
    ("write 1 0 00\nput 1 0\nheap 1", "2: wrong number of fields"),
    // Fields that are not bytes.
    ("write 1 0 abc", "1: bad bytes"),
    ("write 1 0 0", "1: bad bytes"),
    ("write 1 0 0g", "1: bad bytes"),
    ("write 1 0 0x00", "1: bad bytes"),
    ("put 1 0 --", "1: bad bytes"),
    ("put 1 0 -00", "1: bad bytes"),
    ("put 1 0 +1", "1: bad bytes"),
    ("put 1 0 é", "1: bad bytes"),
    ("put 4294967296 x abc", "1: bad number"),
    ("put 1 x abc", "1: bad number"),
    ("write 1 0 00\r \n", "1: bad bytes"),
    ("write 1 0 -\r\r\n", "1: bad bytes"),
    // Characters that are not the language's, and a blank before the end of a line.
    ("\0", "1: unknown word"),
    ("heap 1\n\u{ff}\n", "2: unknown word"),
    ("heap \u{661}", "1: bad number"),
    ("\u{b}counts", "1: unknown word"),
    ("\u{feff}counts", "1: unknown word"),
    ("counts\r \n", "1: unknown word"),
    ("counts\r\r\n", "1: unknown word"),
];

#[test]
fn bad_lines_are_told_by_their_number(rt: HostRuntime) -> Result<(), Fail> {
    for (script, wrong) in &BAD {
        let printed = format!(in rt.alloc(); "line {wrong}\n")?;
        compare(&rt, rt.alloc(), &[(script, printed.as_str(), 2)]);
    }
    Ok(())
}

/// Scripts with a refusal that is never met, with bytes as pairs of digits, with blank lines, blanks around fields,
/// ends of lines or repeated setup lines, and what they print before the end.
const GOOD: [(&str, &str); 14] = [
    ("refuse map 1 failed", ""),
    ("write 1 0 -", UNKNOWN),
    ("put 1 0 0aAF", UNKNOWN),
    ("write 1 0 00\r\n", UNKNOWN),
    ("write 1 0 - \r", UNKNOWN),
    ("", ""),
    ("\n\n\n", ""),
    ("counts\r\n", NOTHING),
    ("counts \r\n", NOTHING),
    (" \t counts\t ", NOTHING),
    ("#\n \t\n\r\n  # heap\n", ""),
    ("heap\t 0007 \ntype 0 1\ncounts", ONE_HEAP),
    (
        "config 1 2 3 4 5 6 7\nconfig prototyping\nconfig potato",
        "",
    ),
    (
        "limits 1 1\nlimits 2 2\natom 3\natom 4\naddress\naddress\ncounts",
        "counts remaining 2 held 0 used\n",
    ),
];

#[test]
fn blanks_and_bytes_are_read(rt: HostRuntime) -> Result<(), Fail> {
    for (script, printed) in &GOOD {
        let printed = format!(in rt.alloc(); "{printed}end objects 0 allocations 0\n")?;
        compare(&rt, rt.alloc(), &[(script, printed.as_str(), 0)]);
    }
    Ok(())
}
