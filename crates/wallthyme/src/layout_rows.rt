//! Sizes, offsets and constants as the library has them, for the test that compares the header with them.

use crate::handle::Handle;
use crate::layout::{
    ALLOCATE, ALLOCATE_OWN, BUDDY, Block, Config, Counts, DEVICE_MAP_FAILED, FIT, GRANTED,
    HELD_ONLY, HeapCounts, KindStatistics, Limits, MAP, MAP_MADE, MemoryType, NO_DEVICE_MEMORY,
    NO_HOST_MEMORY, OPTIMAL, PREFERRED, Question, REQUIRED, Range, Request, SHARED, TypeStatistics,
};
use crate::opening::VERSION;
use crate::status;
use gpu_alloc_types::AllocationFlags;
use gpu_desk::{MemoryPropertyFlags, UsageFlags};

/// The most questions that one call asks: two for each of 32 memory types, for an object and for its mapping.
const MAX_QUESTIONS: u32 = 64;

/// The answer for a number that is not a row's.
const END: u32 = u32::MAX;

/// The numbers of the header, in the order of `c/layout.h`.
static NUMBERS: [u32; 40] = [
    VERSION,
    MAX_QUESTIONS,
    status::OK,
    status::ASK,
    status::OUT_OF_DEVICE_MEMORY,
    status::OUT_OF_HOST_MEMORY,
    status::NO_COMPATIBLE_MEMORY_TYPES,
    status::TOO_MANY_OBJECTS,
    status::NON_HOST_VISIBLE,
    status::ALREADY_MAPPED,
    status::MAP_FAILED,
    status::NOT_OPEN,
    status::ALREADY_OPEN,
    status::BAD_PROPERTIES,
    status::UNKNOWN_KEY,
    status::OTHER_QUESTION,
    status::BAD_ANSWER,
    status::BAD_SIZE,
    status::BAD_ALIGNMENT,
    status::BAD_USAGE,
    status::BAD_DEDICATED,
    status::NO_DEVICE_ADDRESS,
    status::BAD_RANGE,
    status::BAD_MEMORY_TYPE,
    status::BAD_HEAP,
    status::BAD_IMPORT_END,
    status::NO_REMAINING,
    status::TOO_MANY_REMAINING,
    status::STILL_HELD,
    status::UNREAD_NAMES,
    GRANTED,
    NO_DEVICE_MEMORY,
    NO_HOST_MEMORY,
    DEVICE_MAP_FAILED,
    ALLOCATE,
    MAP_MADE,
    MAP,
    SHARED,
    PREFERRED,
    REQUIRED,
];

/// The size of each struct, and the offsets of its fields. There is no `offset_of` here: an offset is the sum of the
/// sizes before it. Fields lie in order without a gap, except the one in `Handle`, as C lays them out.
#[rattlefmt::skip]
static PLACES: [u32; 53] = [
    size_of::<Handle>() as u32, 0, 8,
    size_of::<MemoryType>() as u32, 0, 4,
    size_of::<Limits>() as u32, 0, 8, 16, 20,
    size_of::<Config>() as u32, 0, 8, 16, 24, 32, 40, 48,
    size_of::<Request>() as u32, 0, 8, 16, 20, 24,
    size_of::<Question>() as u32, 0, 8, 16, 24, 28, 32, 36,
    size_of::<Block>() as u32, 0, 8, 16, 24, 32, 36,
    size_of::<Range>() as u32, 0, 8, 16,
    size_of::<Counts>() as u32, 0, 8, 16, 20,
    size_of::<HeapCounts>() as u32, 0, 8, 16,
];

/// What came later: statuses, flags, the ways to share objects, the offsets of the last fields of `Limits`, `Config`,
/// `Request`, `Block` and `HeapCounts`. Then the size of each struct of statistics, with the offsets of its fields, and
/// last those of the bytes asked for and of the scattered share.
static LATER: [u32; 33] = [
    status::BAD_FLAGS,
    ALLOCATE_OWN,
    OPTIMAL,
    24,
    28,
    32,
    40,
    48,
    56,
    60,
    24,
    size_of::<KindStatistics>() as u32,
    0,
    8,
    16,
    24,
    48,
    56,
    64,
    size_of::<TypeStatistics>() as u32,
    0,
    80,
    160,
    240,
    status::WOULD_ASK,
    HELD_ONLY,
    BUDDY as u32,
    FIT as u32,
    56,
    320,
    32,
    40,
    72,
];

/// The bits of flags. They stand between the numbers and the places.
fn flags() -> [u8; 13] {
    [
        AllocationFlags::DEVICE_ADDRESS.bits(),
        UsageFlags::FAST_DEVICE_ACCESS.bits(),
        UsageFlags::HOST_ACCESS.bits(),
        UsageFlags::DOWNLOAD.bits(),
        UsageFlags::UPLOAD.bits(),
        UsageFlags::TRANSIENT.bits(),
        UsageFlags::DEVICE_ADDRESS.bits(),
        MemoryPropertyFlags::DEVICE_LOCAL.bits(),
        MemoryPropertyFlags::HOST_VISIBLE.bits(),
        MemoryPropertyFlags::HOST_COHERENT.bits(),
        MemoryPropertyFlags::HOST_CACHED.bits(),
        MemoryPropertyFlags::LAZILY_ALLOCATED.bits(),
        MemoryPropertyFlags::PROTECTED.bits(),
    ]
}

/// The value of a row of `c/layout.h`.
#[unsafe(no_mangle)]
pub extern "C" fn wt_layout(row: u32) -> u32 {
    let row = row as usize;
    let flags = flags();
    if row < NUMBERS.len() {
        return NUMBERS[row];
    }
    let row = row - NUMBERS.len();
    if row < flags.len() {
        return u32::from(flags[row]);
    }
    let row = row - flags.len();
    if row < PLACES.len() {
        return PLACES[row];
    }
    LATER.get(row - PLACES.len()).copied().unwrap_or(END)
}
