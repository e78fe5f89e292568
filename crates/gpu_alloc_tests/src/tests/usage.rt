//! Rankings worked out by hand.

use super::same::{same, same_at};
use gpu_alloc::{MemoryForUsage, MemoryPropertyFlags, MemoryType, UsageFlags};
use std::process::Abort;

fn memory_type(props: u8) -> MemoryType {
    MemoryType {
        heap: 0,
        props: MemoryPropertyFlags::from_bits_retain(props),
    }
}

/// The tables of three devices. The first has a type that is DEVICE_LOCAL, one that is HOST_VISIBLE and HOST_COHERENT,
/// and one that is also HOST_CACHED. The second has eight types as a discrete graphics card offers them: one without
/// properties, DEVICE_LOCAL, one that is LAZILY_ALLOCATED, one that is PROTECTED, the two that are host-visible, one
/// that is both, and DEVICE_LOCAL again. The third has eight host-visible types, five of them non-coherent, with two
/// pairs that are alike.
fn tables() -> [MemoryForUsage; 3] {
    let few = [1, 6, 14].map(memory_type);
    let card = [0, 1, 17, 33, 6, 14, 7, 1].map(memory_type);
    let shared = [2, 10, 3, 15, 11, 2, 7, 10].map(memory_type);
    [
        MemoryForUsage::new(&few),
        MemoryForUsage::new(&card),
        MemoryForUsage::new(&shared),
    ]
}

/// For each usage from 0 to 15, a digit for each type in rank, for each of the tables. The two higher flags change nothing
/// there, except in a usage that has no other. Bits that are no flags change nothing.
const RANKED: [&str; 16] = [
    "012 176045 26430517",
    "012 176045 26430517",
    "12 456 05172643",
    "12 645 26430517",
    "21 546 17053462",
    "21 654 34621705",
    "21 546 17053462",
    "21 654 34621705",
    "12 456 05176234",
    "12 645 62340517",
    "12 456 05176234",
    "12 645 62340517",
    "21 546 17053462",
    "21 654 34621705",
    "21 546 17053462",
    "21 654 34621705",
];

/// The same for the three usages that have only higher flags.
const HIGH: &str = "120 045176 05172643";

#[test]
fn each_usage_ranks_the_types_of_three_devices(rt: HostRuntime) {
    let tables = tables();
    for usage in 0..=255u8 {
        let flags = usage % 64;
        let row = if flags > 0 && flags % 16 == 0 {
            HIGH
        } else {
            RANKED[flags as usize % 16]
        };
        for (table, digits) in tables.iter().zip(row.split(' ')) {
            are_ranked(&rt, table, usage, digits.as_bytes());
        }
    }
}

/// Compares how a table ranks the types for a usage, and its mask of them, with a digit for each type.
fn are_ranked(rt: &impl Abort, table: &MemoryForUsage, usage: u8, digits: &[u8]) {
    let flags = UsageFlags::from_bits_retain(usage);
    let types = table.types(flags);
    let mut mask = 0;
    same_at(rt, "how many for", &usage, &types.len(), &digits.len());
    for (place, digit) in digits.iter().enumerate() {
        let wanted = u32::from(digit.wrapping_sub(b'0'));
        let at = (usage, place);
        let came = types.get(place).copied();
        same_at(rt, "usage and place", &at, &came, &Some(wanted));
        mask |= 1u32 << (wanted % 32);
    }
    same_at(rt, "mask of usage", &usage, &table.mask(flags), &mask);
}

#[test]
fn from_none_to_32_types_are_ranked(rt: HostRuntime) {
    are_ranked(&rt, &MemoryForUsage::new(&[]), 1, &[]);
    let table = MemoryForUsage::new(&[memory_type(1); 32]);
    are_ranked(&rt, &table, 2, &[]);
    let usage = UsageFlags::TRANSIENT;
    let all = table.types(usage);
    same(&rt, "how many", &all.len(), &32);
    for place in 0..32 {
        same(&rt, "a type", &all.get(place as usize), &Some(&place));
    }
    same(&rt, "mask", &table.mask(usage), &u32::MAX);
}
