//! Whole scripts. Each command stands with the line that is printed for it.

use super::scripts::{compare, halves};
use std::alloc::Global;
use std::process::Abort;
use std::test::Fail;

/// Runs each script, and compares what it prints.
fn compare_rows(rt: &impl Abort, alloc: Global, rows: &[&str]) -> Result<(), Fail> {
    for row in rows {
        let (script, printed) = halves(alloc, row)?;
        compare(rt, alloc, &[(script.as_str(), printed.as_str(), 0)]);
    }
    Ok(())
}

/// Blocks come and go: objects of their own, buddies, tails of free lists.
pub(super) const OBJECTS: [&str; 4] = [
    "\
heap 1048576
type 0 1
required 1 100 0 0 1 = block type 0 object 1 offset 0 size 100
required 2 32768 0 0 1 = block type 0 object 2 offset 0 size 32768
free 1 = ok
counts = counts remaining 4095 held 1 used 32768
free 2 = ok
counts = counts remaining 4096 held 0 used 0
 = end objects 0 allocations 2
",
    "\
heap 1048576
type 0 1
limits 1 1000
required 1 1000 0 0 1 = block type 0 object 1 offset 0 size 1000
required 2 1 0 0 0 = refused: Reached limit on allocated memory objects count
required 3 1001 0 0 0 = refused: Device memory exhausted
free 1 = ok
required 2 1 0 0 0 = refused: No compatible memory types from requested types support requested usage
counts = counts remaining 1 held 0 used 0
 = end objects 0 allocations 1
",
    "\
heap 1048576
type 0 1
alloc 1 100 0 0 1 = block type 0 object 1 offset 0 size 128
alloc 2 100 0 0 1 = block type 0 object 1 offset 128 size 128
alloc 3 200 0 0 1 = block type 0 object 1 offset 256 size 256
ranges 0 = ranges 1:512-1024 1:1024-2048 1:2048-4096 1:4096-8192
free 2 = ok
free 1 = ok
ranges 0 = ranges 1:0-256 1:512-1024 1:1024-2048 1:2048-4096 1:4096-8192
free 3 = ok
counts = counts remaining 4096 held 0 used 0
 = end objects 0 allocations 1
",
    "\
heap 1048576
type 0 1
alloc 1 100 0 16 1 = block type 0 object 1 offset 8092 size 100
alloc 2 100 255 16 1 = block type 0 object 1 offset 7936 size 156
ranges 0 = ranges 1:0-7936
free 1 = ok
free 2 = ok
counts = counts remaining 4095 held 1 used 8192
alloc 3 10000 0 16 1 = block type 0 object 2 offset 6384 size 10000
counts = counts remaining 4094 held 2 used 24576
free 3 = ok
counts = counts remaining 4095 held 1 used 16384
cleanup = ok
counts = counts remaining 4096 held 0 used 0
 = end objects 0 allocations 2
",
];

#[test]
fn chunks_split_join_and_go_back(rt: HostRuntime) -> Result<(), Fail> {
    compare_rows(&rt, rt.alloc(), &OBJECTS)
}

/// Bytes of non-coherent memory, of neighbours in one atom and of imports.
pub(super) const BYTES: [&str; 4] = [
    "\
heap 1048576
type 0 2
atom 64
refuse flush 2 host
refuse invalidate 1 device
alloc 1 64 0 2 1 = block type 0 object 1 offset 0 size 64
alloc 2 64 0 2 1 = block type 0 object 1 offset 64 size 64
write 1 3 616263 = ok
write 2 0 ffff = refused: Host memory exhausted
read 2 0 2 = refused: Device memory exhausted
read 1 3 3 = bytes 616263
 = end objects 0 allocations 1
",
    "\
heap 1048576
type 0 2
atom 64
alloc 1 64 0 2 1 = block type 0 object 1 offset 0 size 64
alloc 2 64 0 2 1 = block type 0 object 1 offset 64 size 64
write 1 0 aa = ok
map 2 0 1 = mapped 64 1
put 2 0 ff = ok
unmap 2 = unmapped yes
write 1 1 bb = ok
read 2 0 1 = bytes 00
read 1 0 2 = bytes aabb
 = end objects 0 allocations 1
",
    "\
heap 1048576
type 0 2
atom 64
limits 1 1073741824
import 1 0 128 32 60 = fault 10 BadImportEnd
import 1 0 128 32 96 = block type 0 object 1 offset 32 size 96
import 2 0 64 0 64 = fault 8 NoRemaining
write 1 0 01020304 = ok
read 1 0 5 = bytes 01020304ee
counts = counts remaining 0 held 1 used 96
free 1 = ok
counts = counts remaining 1 held 0 used 0
 = end objects 0 allocations 1
",
    "\
heap 1048576
heap 1048576
type 0 2
type 1 2
atom 64
alloc 1 100 0 2 3 = block type 0 object 1 offset 0 size 128
alloc 2 100 0 18 3 = block type 0 object 2 offset 8064 size 128
required 3 100 0 2 1 = block type 0 object 3 offset 0 size 100
write 1 0 0102 = ok
write 2 0 0304 = ok
read 1 0 2 = bytes 0102
read 2 0 2 = bytes 0304
free 2 = ok
import 4 0 128 64 64 = block type 0 object 4 offset 64 size 64
cleanup = ok
free 1 = ok
free 3 = ok
free 4 = ok
counts = counts remaining 4096 held 0 used 0 0
 = end objects 0 allocations 4
",
];

#[test]
fn bytes_stay_in_their_blocks(rt: HostRuntime) -> Result<(), Fail> {
    compare_rows(&rt, rt.alloc(), &BYTES)
}

/// Commands that miss a condition, and a candidate that is passed over.
const CONDITIONS: [&str; 3] = [
    "\
heap 1048576
type 0 1
alloc 1 0 0 0 1 = fault 3 BadSize
alloc 1 8 6 0 1 = fault 4 BadAlignment
alloc 1 8 0 32 1 = fault 5 NoDeviceAddress
free 9 = fault 2 UnknownName
alloc 1 8 0 0 1 = block type 0 object 1 offset 0 size 8
alloc 1 8 0 0 1 = fault 1 NameInUse
map 1 0 8 = refused: Impossible to map non-host-visible memory
map 1 4 8 = fault 6 BadRange
put 1 0 00 = fault 11 NotMapped
ranges 1 = fault 7 BadType
remaining 4294967295 = fault 9 TooManyRemaining
remaining 4294967294 = ok
counts = counts remaining 4294967294 held 1 used 8192
 = end objects 0 allocations 1
",
    "\
heap 1048576
type 0 1
limits 0 1073741824
import 1 9 0 0 0 = fault 7 BadType
import 1 0 0 0 1 = fault 3 BadSize
import 1 0 128 18446744073709551615 2 = fault 6 BadRange
import 1 0 128 0 128 = fault 8 NoRemaining
remaining 1 = ok
alloc 1 8 0 0 1 = block type 0 object 1 offset 0 size 8
read 1 18446744073709551615 0 = fault 6 BadRange
read 1 8 0 = refused: Impossible to map non-host-visible memory
write 1 9 - = fault 6 BadRange
unmap 1 = unmapped no
get 1 0 0 = fault 11 NotMapped
remaining 4294967295 = fault 9 TooManyRemaining
counts = counts remaining 0 held 1 used 8192
 = end objects 0 allocations 1
",
    "\
heap 1048576
heap 1048576
type 0 2
type 1 2
atom 64
refuse map 1 device
refuse map 2 failed
alloc 1 100 0 2 3 = refused: Host memory exhausted
counts = counts remaining 4096 held 0 used 0 0
alloc 2 100 0 2 1 = block type 0 object 3 offset 0 size 128
counts = counts remaining 4095 held 1 used 8192 0
 = end objects 0 allocations 3
",
];

#[test]
fn what_is_not_served_changes_nothing(rt: HostRuntime) -> Result<(), Fail> {
    compare_rows(&rt, rt.alloc(), &CONDITIONS)
}
