//! What a call returns: the numbers of `c/wallthyme.h`, which explains each.

ghost use Rattle.std.specs.Prelude.{◌≡◌, ◌≢◌};
ghost use Rattle.wallthyme.specs.Status.{status_of, status_of_fault, status_of_map_refusal, status_of_opening, status_of_refusal};

use gpu_desk::{AllocationError, Denial, Fault, MapError, OpenError};

pub(crate) const OK: u32 = 0;

pub(crate) const ASK: u32 = 1;

pub(crate) const OUT_OF_DEVICE_MEMORY: u32 = 2;

pub(crate) const OUT_OF_HOST_MEMORY: u32 = 3;

pub(crate) const NO_COMPATIBLE_MEMORY_TYPES: u32 = 4;

pub(crate) const TOO_MANY_OBJECTS: u32 = 5;

pub(crate) const NON_HOST_VISIBLE: u32 = 6;

pub(crate) const ALREADY_MAPPED: u32 = 7;

pub(crate) const MAP_FAILED: u32 = 8;

pub(crate) const NOT_OPEN: u32 = 9;

pub(crate) const ALREADY_OPEN: u32 = 10;

pub(crate) const BAD_PROPERTIES: u32 = 11;

pub(crate) const UNKNOWN_KEY: u32 = 12;

pub(crate) const OTHER_QUESTION: u32 = 13;

pub(crate) const BAD_ANSWER: u32 = 14;

pub(crate) const BAD_SIZE: u32 = 15;

pub(crate) const BAD_ALIGNMENT: u32 = 16;

pub(crate) const BAD_USAGE: u32 = 17;

pub(crate) const BAD_DEDICATED: u32 = 18;

pub(crate) const NO_DEVICE_ADDRESS: u32 = 19;

pub(crate) const BAD_RANGE: u32 = 20;

pub(crate) const BAD_MEMORY_TYPE: u32 = 21;

pub(crate) const BAD_HEAP: u32 = 22;

pub(crate) const BAD_IMPORT_END: u32 = 23;

pub(crate) const NO_REMAINING: u32 = 24;

pub(crate) const TOO_MANY_REMAINING: u32 = 25;

pub(crate) const STILL_HELD: u32 = 26;

pub(crate) const UNREAD_NAMES: u32 = 27;

pub(crate) const BAD_FLAGS: u32 = 28;

pub(crate) const WOULD_ASK: u32 = 29;

/// The status of a desk's denial.
pub(crate) fn denied(denial: Denial) -> u32
    ensures status { result ≡ status_of denial }
    ensures failed { result ≢ OK }
    ensures is_open { result ≢ NOT_OPEN }
{
    match denial {
        Denial::Open { .. } => ASK,
        Denial::Strayed => OTHER_QUESTION,
        Denial::WouldAsk => WOULD_ASK,
        Denial::Refused(refusal) => refused(refusal),
        Denial::MapRefused(refusal) => map_refused(refusal),
        Denial::Fault(fault) => misused(fault),
    }
}

fn refused(refusal: AllocationError) -> u32
    ensures status { result ≡ status_of_refusal refusal }
    ensures failed { result ≢ OK }
    ensures unasked { result ≢ ASK }
    ensures is_open { result ≢ NOT_OPEN }
{
    match refusal {
        AllocationError::OutOfDeviceMemory => OUT_OF_DEVICE_MEMORY,
        AllocationError::OutOfHostMemory => OUT_OF_HOST_MEMORY,
        AllocationError::NoCompatibleMemoryTypes => NO_COMPATIBLE_MEMORY_TYPES,
        AllocationError::TooManyObjects => TOO_MANY_OBJECTS,
    }
}

fn map_refused(refusal: MapError) -> u32
    ensures status { result ≡ status_of_map_refusal refusal }
    ensures failed { result ≢ OK }
    ensures unasked { result ≢ ASK }
    ensures is_open { result ≢ NOT_OPEN }
{
    match refusal {
        MapError::OutOfDeviceMemory => OUT_OF_DEVICE_MEMORY,
        MapError::OutOfHostMemory => OUT_OF_HOST_MEMORY,
        MapError::NonHostVisible => NON_HOST_VISIBLE,
        MapError::MapFailed => MAP_FAILED,
        MapError::AlreadyMapped => ALREADY_MAPPED,
    }
}

/// The status of a fault. The desk chooses the keys and moves no bytes, so `NameInUse` and `NotMapped` never occur:
/// they count as `UnknownName`.
pub(crate) fn misused(fault: Fault) -> u32
    ensures status { result ≡ status_of_fault fault }
    ensures failed { result ≢ OK }
    ensures unasked { result ≢ ASK }
    ensures is_open { result ≢ NOT_OPEN }
{
    match fault {
        Fault::UnknownName | Fault::NameInUse | Fault::NotMapped => UNKNOWN_KEY,
        Fault::BadSize => BAD_SIZE,
        Fault::BadAlignment => BAD_ALIGNMENT,
        Fault::NoDeviceAddress => NO_DEVICE_ADDRESS,
        Fault::BadRange => BAD_RANGE,
        Fault::BadType => BAD_MEMORY_TYPE,
        Fault::NoRemaining => NO_REMAINING,
        Fault::TooManyRemaining => TOO_MANY_REMAINING,
        Fault::BadImportEnd => BAD_IMPORT_END,
        Fault::NoMemory => OUT_OF_HOST_MEMORY,
    }
}

/// The status for an allocator that can't be opened.
pub(crate) fn not_opened(error: OpenError) -> u32
    ensures status { result ≡ status_of_opening error }
    ensures failed { result ≢ OK }
    ensures closed { result ≢ ALREADY_OPEN }
{
    match error {
        OpenError::BadProperties => BAD_PROPERTIES,
        OpenError::OutOfHostMemory => OUT_OF_HOST_MEMORY,
    }
}
