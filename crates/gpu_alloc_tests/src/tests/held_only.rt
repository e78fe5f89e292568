//! Requests that ask the device for nothing: which memory type serves them from what is held. Nothing is asked and no
//! object is made, whatever the answer.

use super::bench::Bench;
use super::offers::LOCAL;
use super::same::{same, same_at};
use AllocationError::{NoCompatibleMemoryTypes, OutOfDeviceMemory, TooManyObjects};
use Asked::{Alone, Brief, Of, Paged, Preferred, Sized};
use gpu_alloc::{AllocationError, Dedicated, Request, UsageFlags};
use gpu_sim::Question;
use std::process::Abort;
use std::test::Fail;

/// How a request differs from one for 100 bytes of either memory type.
#[derive(Clone, Copy)]
enum Asked {
    /// It is of these memory types.
    Of(u32),

    /// The same, and it is `TRANSIENT`.
    Brief(u32),

    /// It has this many bytes.
    Sized(u64),

    /// Its memory is whole pages of this many bytes.
    Paged(u64),

    /// It would gain from an object of its own.
    Preferred,

    /// It needs an object of its own, with this many bytes of these memory types.
    Alone(u64, u32),
}

/// A request, and the memory type and the offset at which it is served from what is held, if it is.
type Row = (
    &'static str,
    Asked,
    Result<Option<(u32, u64)>, AllocationError>,
);

/// More bytes than any object may have.
const HUGE: u64 = (1 << 30) + 1;

/// Where nothing is held, each would ask, or is refused before any memory type is tried.
const NOTHING_HELD: [Row; 4] = [
    ("any", Of(3), Ok(None)),
    ("for a moment", Brief(3), Ok(None)),
    ("too large", Alone(HUGE, 3), Err(OutOfDeviceMemory)),
    ("of no type", Alone(100, 0), Err(NoCompatibleMemoryTypes)),
];

/// A buddy chunk of the second type is held, whose first 128 bytes are a block's.
const BUDDY_CHUNK: [Row; 8] = [
    ("of a type with a place", Of(3), Ok(Some((1, 128)))),
    ("of a type with no place", Of(1), Ok(None)),
    ("alone, though there is a place", Alone(100, 3), Ok(None)),
    ("better alone", Preferred, Ok(Some((1, 256)))),
    ("in whole pages", Paged(1024), Ok(Some((1, 1024)))),
    ("in pages larger than a chunk", Paged(1 << 20), Ok(None)),
    ("larger than any place", Sized(5000), Ok(None)),
    ("of types without a free list", Brief(3), Ok(None)),
];

/// A free-list chunk of the first type is held too, whose last 100 bytes are a block's.
const BOTH_CHUNKS: [Row; 2] = [
    ("for a moment", Brief(3), Ok(Some((0, 7992)))),
    ("for a moment, of the other type", Brief(2), Ok(None)),
];

/// A request for this many bytes of some memory types.
fn request(size: u64, usage: UsageFlags, memory_types: u32) -> Request {
    Request {
        size,
        align_mask: 0,
        usage,
        memory_types,
    }
}

/// The request, its hint and its granularity.
fn parts(asked: Asked) -> (Request, Option<Dedicated>, Option<u64>) {
    let any = UsageFlags::empty();
    match asked {
        Of(types) => (request(100, any, types), None, None),
        Brief(types) => (request(100, UsageFlags::TRANSIENT, types), None, None),
        Sized(size) => (request(size, any, 3), None, None),
        Paged(page) => (request(100, any, 3), None, Some(page)),
        Preferred => (request(100, any, 3), Some(Dedicated::Preferred), None),
        Alone(size, types) => (request(size, any, types), Some(Dedicated::Required), None),
    }
}

/// Makes each request in turn. Compares the answer, and checks that the device was asked for nothing and that as much
/// is held as before.
fn ask_in_turn(rt: &impl Abort, bench: &mut Bench, rows: &[Row]) {
    for (what, asked, wanted) in rows {
        let before = (bench.held(), bench.device.asked(Question::Allocate));
        let (request, hint, granularity) = parts(*asked);
        let came = bench.take_held(rt, request, hint, granularity);
        same_at(rt, "answered is", what, &came, wanted);
        let after = (bench.held(), bench.device.asked(Question::Allocate));
        same_at(rt, "held and asked is", what, &after, &before);
    }
}

/// Makes a request in the usual way, for which an object may be made.
fn take(rt: &impl Abort, bench: &mut Bench, asked: Asked) -> Result<(), AllocationError> {
    let (request, hint, _) = parts(asked);
    bench.take(rt, request, hint)
}

/// If not, a request that may ask nothing would ask, or miss a place, or be refused where no more objects may be held.
#[test]
fn only_a_place_in_what_is_held_serves_who_asks_for_nothing(rt: HostRuntime) -> Result<(), Fail> {
    let mut bench = Bench::new(&rt, rt.alloc(), LOCAL, 1)?;
    ask_in_turn(&rt, &mut bench, &NOTHING_HELD);
    let chunk = take(&rt, &mut bench, Of(2));
    same(&rt, "a block of a buddy chunk", &chunk, &Ok(()));
    bench.allow(&rt, 0);
    ask_in_turn(&rt, &mut bench, &BUDDY_CHUNK);
    let none = Err(TooManyObjects);
    same(
        &rt,
        "with nothing remaining",
        &take(&rt, &mut bench, Of(1)),
        &none,
    );
    bench.allow(&rt, 1);
    let chunk = take(&rt, &mut bench, Brief(1));
    same(&rt, "a block of a free list", &chunk, &Ok(()));
    ask_in_turn(&rt, &mut bench, &BOTH_CHUNKS);
    bench.give_all_back(&rt);
    bench.end(&rt, 2);
    Ok(())
}
