//! Bytes: which of them are copied, and where to.

ghost use Rattle.std.specs.Prelude.{◌≡◌, ◌+◌, ◌≤◌, cond, length, take, drop, replicate, IfOk};
ghost use Rattle.gpu_sim.specs.Bytes.{bytes_written, size_of_part, with_range};

use std::alloc::{AllocError, Allocator};

/// Which way bytes are copied.
#[derive(Clone, Copy, Debug, PartialEq, Eq)]
pub(super) enum Direction {
    /// From the host's to the device's, as a flush does.
    ToDevice,

    /// From the device's to the host's, as an invalidate does.
    ToHost,
}

/// How much of a range is copied.
#[derive(Clone, Copy, Debug, PartialEq, Eq)]
pub(super) enum Part {
    /// All of it.
    Whole,

    /// The first half of its bytes, rounded down.
    FirstHalf,
}

impl Part {
    /// How many bytes of a range of this size are copied.
    pub(super) fn of(self, size: u64) -> u64
        ensures value { result ≡ size_of_part self size }
        ensures within { result ≤ size }
    {
        match self {
            Part::Whole => size,
            Part::FirstHalf => size / 2,
        }
    }
}

/// The byte that fills the host's list of a new object. It isn't 00 where the memory isn't coherent, so that a missing
/// flush or invalidate shows.
pub(super) fn first_byte(coherent: bool) -> u8
    ensures { result ≡ cond coherent 0 238 }
{
    if coherent { 0 } else { 0xee }
}

/// `size` bytes, each of them `byte`. Fails for want of memory, as it does for 2^63 or more.
pub(super) fn filled<A: Allocator>(alloc: A, size: u64, byte: u8) -> Result<Vec<u8, A>, AllocError>
    ensures { IfOk result (λ bytes. bytes.items ≡ replicate size byte) }
{
    let mut bytes = Vec::new(alloc);
    bytes.resize(size as usize, byte)?;
    Ok(bytes)
}

/// Copies the bytes of a range from one list to another.
pub(super) fn copy_range(to: &mut [u8], from: &[u8], offset: u64, size: u64)
    requires inside { offset + size ≤ length to.old }
    requires inside_from { offset + size ≤ length from.now }
    ensures { to.new ≡ with_range offset size from.now to.old }
{
    let start = offset as usize;
    let end = start + size as usize;
    to[start..end].copy_from_slice(&from[start..end]);
}

/// Writes bytes over others from an offset on.
pub(super) fn write_bytes(to: &mut [u8], offset: u64, bytes: &[u8])
    requires { offset + length bytes.now ≤ length to.old }
    ensures { to.new ≡ bytes_written offset bytes.now to.old }
{
    let start = offset as usize;
    let end = start + bytes.len();
    to[start..end].copy_from_slice(bytes);
}

/// Reads bytes from an offset on.
pub(super) fn read_bytes(to: &mut [u8], from: &[u8], offset: u64)
    requires { offset + length to.old ≤ length from.now }
    ensures { to.new ≡ take (length to.old) (drop offset from.now) }
{
    let start = offset as usize;
    let end = start + to.len();
    to.copy_from_slice(&from[start..end]);
}
