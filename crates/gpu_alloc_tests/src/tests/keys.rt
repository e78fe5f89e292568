//! Blocks that come back to an allocator that has them under other keys, since another one made them.

use super::bench::Bench;
use super::offers::LOCAL;
use super::same::{same, same_at};
use gpu_alloc::{Dedicated, Request, UsageFlags};
use std::alloc::Global;
use std::process::Abort;
use std::test::Fail;

/// The usage and the hint of blocks, and the same ones made by two allocators: the second returned others before, so
/// each key is another block's there. A number is the size of a block that is allocated or, below 4, the place of one
/// that is returned: the latest takes its place.
type Row = (
    UsageFlags,
    Option<Dedicated>,
    &'static [u64],
    &'static [u64],
);

const BUDDIES: Row = (
    UsageFlags::FAST_DEVICE_ACCESS,
    None,
    &[2000, 2000, 2000, 2000],
    &[4000, 2000, 2000, 0, 2000, 2000],
);

const TAILS: Row = (
    UsageFlags::TRANSIENT,
    None,
    &[1000, 1000],
    &[1000, 1000, 0, 0, 1000, 1000],
);

const OWN: Row = (
    UsageFlags::FAST_DEVICE_ACCESS,
    Some(Dedicated::Required),
    &[100, 100, 100, 100, 0, 1],
    &[100, 100, 0, 0, 100, 100],
);

/// Makes the steps of one of the allocators.
fn take_steps(rt: &impl Abort, bench: &mut Bench, (usage, hint, _, _): Row, steps: &[u64]) {
    for step in steps {
        if *step < 4 {
            bench.dealloc_at(rt, *step as usize);
        } else {
            let request = Request {
                size: *step,
                align_mask: 0,
                usage,
                memory_types: 1,
            };
            let came = bench.take(rt, request, hint);
            same(rt, "a block is taken", &came, &Ok(()));
        }
    }
}

/// Two allocators with the blocks of a row.
fn open(rt: &impl Abort, alloc: Global, row: Row) -> Result<(Bench, Bench), Fail> {
    let mut first = Bench::new(rt, alloc, LOCAL, 1)?;
    let opened = Bench::new(rt, alloc, LOCAL, 1);
    let Ok(mut second) = opened else {
        panic!(rt; "no second allocator");
    };
    take_steps(rt, &mut first, row, row.2);
    take_steps(rt, &mut second, row, row.3);
    Ok((first, second))
}

/// Ends two allocators with their blocks. They hold nothing then.
fn end(rt: &impl Abort, mut first: Bench, mut second: Bench) {
    first.give_all_back(rt);
    second.give_all_back(rt);
    first.end(rt, 4096);
    second.end(rt, 4096);
}

/// A block that came back is owned no longer, whatever its key. If not, it could come back once more.
#[test]
fn a_block_that_came_back_is_not_owned(rt: HostRuntime) -> Result<(), Fail> {
    let (mut first, second) = open(&rt, rt.alloc(), BUDDIES)?;
    first.dealloc_at(&rt, 3);
    let owned = (first.owns_all_of(&second), second.owns_all_of(&first));
    same(&rt, "whether all are owned", &owned, &(false, true));
    end(&rt, first, second);
    Ok(())
}

/// Each allocator owns the other's blocks and takes them back, and holds nothing then. If not, it would free another
/// block in the place of that which comes back.
#[test]
fn blocks_under_other_keys_come_back(rt: HostRuntime) -> Result<(), Fail> {
    for (at, row) in [BUDDIES, TAILS, OWN].iter().enumerate() {
        let (mut first, mut second) = open(&rt, rt.alloc(), *row)?;
        let owned = (first.owns_all_of(&second), second.owns_all_of(&first));
        same_at(&rt, "row", &at, &owned, &(true, true));
        first.swap_blocks(&mut second);
        end(&rt, first, second);
    }
    Ok(())
}
