//! Flags as generic code and sets see them.

use super::same::{holds, same};
use bitflags::Flags;
use gpu_alloc_types::{AllocationFlags, MemoryPropertyFlags, UsageFlags};
use std::alloc::{AllocError, Global};
use std::collections::HashSet;
use std::hash::{DefaultHasher, Hash, Hasher};
use std::process::Abort;
use std::test::Fail;

// What the trait's own calls make of a number: all named bits, its own named bits, those that it lacks, and those that
// it gains by the lowest bit.
fn numbers<F: Flags<Bits = u8> + Copy>(bits: u8) -> [u8; 4] {
    let flags = F::from_bits_retain(bits);
    let lowest = F::from_bits_retain(1);
    [
        F::all().bits(),
        F::from_bits_truncate(bits).bits(),
        flags.complement().bits(),
        flags.union(lowest).bits(),
    ]
}

#[test]
fn generic_code_calls_the_same(rt: HostRuntime) {
    let usage = numbers::<UsageFlags>(0xd2);
    same(&rt, "of a usage", &usage, &[0x3f, 0x12, 0x2d, 0xd3]);
    let properties = numbers::<MemoryPropertyFlags>(0xd2);
    same(&rt, "of properties", &properties, &[0x3f, 0x12, 0x2d, 0xd3]);
    let allocation = numbers::<AllocationFlags>(0xd2);
    same(&rt, "of an allocation", &allocation, &[1, 0, 1, 0xd3]);
}

fn hash_of<T: Hash>(value: &T) -> u64 {
    let mut state = DefaultHasher::new();
    value.hash(&mut state);
    state.finish()
}

// How many members a set has that was given the flags of each number twice.
fn members<F: Flags<Bits = u8> + Hash>(alloc: Global) -> Result<usize, AllocError> {
    let mut set = HashSet::new(alloc);
    for bits in 0..=255 {
        set.insert(F::from_bits_retain(bits))?;
        set.insert(F::from_bits_retain(bits))?;
    }
    Ok(set.len())
}

#[test]
fn flags_are_hashed_by_their_numbers(rt: HostRuntime) -> Result<(), Fail> {
    let alloc = rt.alloc();
    let sizes = [
        members::<UsageFlags>(alloc)?,
        members::<MemoryPropertyFlags>(alloc)?,
        members::<AllocationFlags>(alloc)?,
    ];
    same(&rt, "members", &sizes, &[256; 3]);
    compare_hashes(&rt);
    Ok(())
}

// Flags of one number have the same hash, whatever their type, and others do not.
fn compare_hashes(rt: &impl Abort) {
    let upload = hash_of(&UsageFlags::UPLOAD);
    let others = [
        hash_of(&UsageFlags::from_bits_retain(8)),
        hash_of(&MemoryPropertyFlags::HOST_CACHED),
        hash_of(&AllocationFlags::from_bits_retain(8)),
    ];
    same(rt, "hashes of 8", &others, &[upload; 3]);
    let differs = upload != hash_of(&UsageFlags::DOWNLOAD);
    holds(rt, differs, "one hash for two usages");
}
