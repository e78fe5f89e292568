//! Each request for host memory of a whole run refused in turn, by calls of the allocator alone: what is held is then
//! as before. The calls of blocks, the returns, the cleanup and the end take no memory.

use super::bench::{Bench, Held, close, leave_nothing};
use super::drawn::count;
use super::offers::{are_usable, offer};
use super::same::{holds, same};
use gpu_alloc::{
    AllocationError, Config, Dedicated, GpuAllocator, MemoryPropertyFlags, MemoryType, Request,
    UsageFlags,
};
use gpu_sim::{HostMemory, ScarceMemory, SimMemory};
use std::alloc::{Allocator, Global};
use std::process::Abort;
use std::test::Fail;

/// A memory type that is host-visible and must be flushed.
const NON_COHERENT: MemoryType = MemoryType {
    heap: 0,
    props: MemoryPropertyFlags::HOST_VISIBLE,
};

/// An allocator over memory that runs out.
type ScarceAllocator<'a> = GpuAllocator<SimMemory<HostMemory<'a>>, HostMemory<'a>>;

/// What is refused in turn, the last one first: blocks, an import, and the device's object for it.
const REFUSED: [Option<&str>; 6] = [
    None,
    Some("a block of a free list's chunk"),
    Some("a block of a buddy chunk"),
    Some("a block with an object of its own"),
    Some("an import"),
    Some("an object"),
];

/// A request for 100 bytes of the first type.
fn request(usage: UsageFlags) -> Request {
    Request {
        size: 100,
        align_mask: 0,
        usage,
        memory_types: 1,
    }
}

/// A block of each kind, and how it is asked for.
fn kinds() -> [(&'static str, Request, Dedicated); 3] {
    [
        (
            "a block with an object of its own",
            request(UsageFlags::HOST_ACCESS),
            Dedicated::Required,
        ),
        (
            "a block of a buddy chunk",
            request(UsageFlags::HOST_ACCESS),
            Dedicated::Preferred,
        ),
        (
            "a block of a free list's chunk",
            request(UsageFlags::TRANSIENT),
            Dedicated::Preferred,
        ),
    ]
}

/// Allocates a block, and once more with ample memory where memory is missing: then what is held is as before. Returns
/// whether it was served at once.
fn take_or_again<A: Allocator + Copy>(
    rt: &impl Abort,
    memory: &ScarceMemory,
    bench: &mut Bench<A>,
    request: Request,
    hint: Dedicated,
) -> bool {
    let before = bench.held();
    match bench.take(rt, request, Some(hint)) {
        Ok(()) => true,
        Err(error) => {
            compare_kept(rt, error, bench.held(), before);
            memory.lift();
            let again = bench.take(rt, request, Some(hint));
            same(rt, "with ample memory", &again, &Ok(()));
            false
        }
    }
}

/// Compares a refusal for want of host memory, and what is held after it.
fn compare_kept(rt: &impl Abort, error: AllocationError, after: Held, before: Held) {
    same(rt, "a refusal", &error, &AllocationError::OutOfHostMemory);
    same(rt, "what is held after a refusal", &after, &before);
}

/// Allocates a block of each kind, an import first. Returns what first lacked memory, and is served with ample memory
/// then.
fn take_each<A: Allocator + Copy>(
    rt: &impl Abort,
    memory: &ScarceMemory,
    bench: &mut Bench<A>,
) -> Option<&'static str> {
    let mut refused = bench.import_or_again(rt, memory);
    for (kind, request, hint) in kinds() {
        if !take_or_again(rt, memory, bench, request, hint) {
            same(rt, "what was refused before", &refused, &None);
            refused = Some(kind);
        }
    }
    refused
}

/// Allocates a further block of each kind, and calls it where no memory is left.
fn call_each<A: Allocator + Copy>(rt: &impl Abort, memory: &ScarceMemory, bench: &mut Bench<A>) {
    for (_, request, hint) in kinds() {
        bench.take_and_call(rt, memory, request, hint);
    }
    bench.import_and_call(rt, memory);
}

/// Allocates blocks where this many bytes are left, calls them, returns all and ends the allocator where none is left.
/// Returns what was refused first, and how many bytes may be left next.
fn run_in(
    rt: &impl Abort,
    alloc: Global,
    room: usize,
) -> Result<(Option<&'static str>, Option<usize>), Fail> {
    let memory = ScarceMemory::new(alloc)?;
    let mut bench = Bench::new(rt, memory.host(), NON_COHERENT, 64)?;
    holds(rt, memory.leave(room).is_ok(), "the host lacks memory");
    let refused = take_each(rt, &memory, &mut bench);
    memory.lift();
    let less = memory.less_room(room);
    call_each(rt, &memory, &mut bench);
    leave_nothing(rt, &memory);
    let ranges = bench.free_ranges(rt, 0).err();
    let refusal = Some(AllocationError::OutOfHostMemory);
    same(rt, "the free ranges", &ranges, &refusal);
    bench.give_all_back(rt);
    bench.end(rt, 4096);
    Ok((refused, less))
}

/// No request is refused at first, and then each request for memory is, the last one first: each kind of block is
/// refused for want of it.
#[test]
fn each_growth_of_an_allocator_is_refused_in_turn(rt: HostRuntime) -> Result<(), Fail> {
    let mut met = Vec::new(rt.alloc());
    let mut room = 1 << 17;
    for _ in 0..4096 {
        let (refused, less) = run_in(&rt, rt.alloc(), room)?;
        if met.last() != Some(&refused) {
            met.push(refused)?;
        }
        match less {
            Some(less) => room = less,
            None => break,
        }
    }
    same(
        &rt,
        "what was refused in turn",
        &met.as_slice(),
        &REFUSED.as_slice(),
    );
    Ok(())
}

/// An allocator that takes its memory here, if there is enough.
fn open<'a>(
    rt: &impl Abort,
    memory: HostMemory<'a>,
) -> Result<ScarceAllocator<'a>, AllocationError> {
    let types = [NON_COHERENT];
    let offered = offer(&types, 64);
    are_usable(rt, &offered);
    GpuAllocator::new(memory, Config::i_am_potato(), offered)
}

/// Whether an allocator can be opened where this many bytes are left. It is then ended. Returns how many bytes may be
/// left next, too.
fn is_opened_in(
    rt: &impl Abort,
    alloc: Global,
    room: usize,
) -> Result<(bool, Option<usize>), Fail> {
    let memory = ScarceMemory::new(alloc)?;
    memory.leave(room)?;
    let opened = open(rt, memory.host());
    memory.lift();
    let less = memory.less_room(room);
    match opened {
        Ok(allocator) => {
            close(rt, allocator);
            Ok((true, less))
        }
        Err(error) => {
            same(rt, "a refusal", &error, &AllocationError::OutOfHostMemory);
            Ok((false, less))
        }
    }
}

/// None is refused at first, and then each request is, the last one first.
#[test]
fn each_growth_of_an_opening_is_refused_in_turn(rt: HostRuntime) -> Result<(), Fail> {
    let (mut opened, mut refused) = (0, 0);
    let mut room = 1 << 17;
    for _ in 0..4096 {
        let (is_opened, less) = is_opened_in(&rt, rt.alloc(), room)?;
        if is_opened {
            same(&rt, "refused in more bytes", &refused, &0);
            count(&mut opened);
        } else {
            count(&mut refused);
        }
        match less {
            Some(less) => room = less,
            None => {
                let came = (opened > 0, refused > 0);
                same(&rt, "opened and refused", &came, &(true, true));
                return Ok(());
            }
        }
    }
    Err(Fail::from("requests without end"))
}
