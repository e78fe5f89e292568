//! The text of a report of a living program: the report that `serde_json` reads from it is the same, field by field.

use super::same::{holds, never, never_with, same};
use gpu_alloc::{
    Config, DeviceProperties, MemoryHeap, MemoryPropertyFlags, MemoryType, Request, UsageFlags,
};
use gpu_desk::{Answer, Answered, Denial, Desk, Grant, Wish};
use gpu_report::{KindReport, ObjectKind, ObjectReport, Place, Report, Statistics, write_report};
use serde_json::{Value, json};
use std::alloc::{AllocError, Global};
use std::process::Abort;
use std::test::Fail;

const TYPES: [MemoryType; 2] = [
    MemoryType {
        heap: 0,
        props: MemoryPropertyFlags::DEVICE_LOCAL,
    },
    MemoryType {
        heap: 1,
        props: MemoryPropertyFlags::HOST_VISIBLE,
    },
];

const HEAPS: [MemoryHeap; 2] = [MemoryHeap { size: 1 << 24 }, MemoryHeap { size: 1 << 22 }];

/// What is asked for: sizes, usages and types, some of which share an object, and one that has its own.
const REQUESTS: [(u64, UsageFlags, u32); 6] = [
    (1000, UsageFlags::FAST_DEVICE_ACCESS, 1),
    (500, UsageFlags::FAST_DEVICE_ACCESS, 1),
    (9_000_000, UsageFlags::FAST_DEVICE_ACCESS, 1),
    (700, UsageFlags::TRANSIENT, 2),
    (1500, UsageFlags::TRANSIENT, 2),
    (64, UsageFlags::UPLOAD, 2),
];

fn opened(rt: &impl Abort, alloc: Global) -> Desk {
    let props = DeviceProperties {
        memory_types: &TYPES,
        memory_heaps: &HEAPS,
        max_memory_allocation_count: 4096,
        max_memory_allocation_size: u64::MAX,
        non_coherent_atom_size: 64,
        buffer_device_address: false,
    };
    match Desk::new(alloc, Config::i_am_prototyping(), props, 1) {
        Ok(desk) => desk,
        Err(e) => never_with(rt, "no desk:", &e),
    }
}

/// Allocates a block; each question for it is granted.
fn granted(
    rt: &impl Abort,
    alloc: Global,
    desk: &mut Desk,
    row: (u64, UsageFlags, u32),
    user: u64,
) -> Grant {
    let (size, usage, memory_types) = row;
    let request = Request {
        size,
        align_mask: 0,
        usage,
        memory_types,
    };
    let wish = Wish {
        dedicated: None,
        optimal: false,
        user,
    };
    let mut answers = Vec::new(alloc);
    for _ in 0..64 {
        match desk.alloc(request, wish, answers.as_slice()) {
            Ok(grant) => return grant,
            Err(Denial::Open { question, .. }) => {
                let answer = Answered {
                    question,
                    answer: Answer::Granted,
                };
                holds(rt, answers.push(answer).is_ok(), "no memory for answers");
            }
            Err(e) => return never_with(rt, "no block:", &e),
        }
    }
    never(rt, "too many questions")
}

/// A place's members, with the value of its block and the bytes asked for.
fn place_of(
    rt: &impl Abort,
    alloc: Global,
    desk: &Desk,
    place: &Place,
) -> Result<Value, AllocError> {
    let grant = match place.block {
        Some(key) => Some(grant_of(rt, desk, key)),
        None => None,
    };
    let user = grant.map(|grant| grant.user);
    let asked = grant.map(|grant| grant.asked);
    json!(in alloc; {
        "key": place.block, "user": user, "asked": asked, "offset": place.offset, "size": place.size
    })
}

/// The desk's grant of a live block.
fn grant_of(rt: &impl Abort, desk: &Desk, key: u64) -> Grant {
    match desk.block(key) {
        Ok(grant) => grant,
        Err(e) => never_with(rt, "no block of the key:", &e),
    }
}

/// How many bytes were requested for the blocks in the objects of a memory type and kind, by the desk's grants.
fn asked_of(rt: &impl Abort, desk: &Desk, report: &Report, kind: &KindReport) -> u128 {
    let mut asked = 0u128;
    for object in &report.objects {
        if object.memory_type == kind.memory_type && object.kind == kind.kind {
            for place in &object.places {
                if let Some(key) = place.block {
                    let grant = grant_of(rt, desk, key);
                    asked = asked.saturating_add(u128::from(grant.asked));
                }
            }
        }
    }
    asked
}

/// An object's members.
fn object_of(
    rt: &impl Abort,
    alloc: Global,
    desk: &Desk,
    object: &ObjectReport,
) -> Result<Value, Fail> {
    let mut places = Vec::new(alloc);
    for place in &object.places {
        places.push(place_of(rt, alloc, desk, place)?)?;
    }
    let kind = serde_json::to_value(alloc, &object.kind)?;
    Ok(json!(in alloc; {
        "object": object.object, "memory_type": object.memory_type, "kind": kind, "size": object.size, "places": places
    })?)
}

/// The members of the text of a report of the desk, as documented.
fn wanted(rt: &impl Abort, alloc: Global, desk: &Desk, report: &Report) -> Result<Value, Fail> {
    let mut objects = Vec::new(alloc);
    for object in &report.objects {
        objects.push(object_of(rt, alloc, desk, object)?)?;
    }
    let heaps = serde_json::to_value(alloc, &report.heaps)?;
    let kinds = serde_json::to_value(alloc, &report.kinds)?;
    let types = json!(in alloc; [{"heap": 0, "properties": 1}, {"heap": 1, "properties": 2}])?;
    Ok(json!(in alloc; {"heaps": heaps, "types": types, "kinds": kinds, "objects": objects})?)
}

/// Ends a desk: its blocks are freed, and the names of its objects are read.
fn ended(rt: &impl Abort, mut desk: Desk) {
    for _ in 0..1000 {
        let Some(grant) = desk.block_after(0) else {
            break;
        };
        holds(rt, desk.free(grant.key).is_ok(), "a block comes back");
    }
    desk.cleanup();
    for _ in 0..1000 {
        if desk.next_gone().is_none() {
            break;
        }
    }
    let counts = desk.counts();
    holds(rt, counts.blocks == 0, "no block is left");
    holds(rt, counts.held == 0, "no object is left");
    holds(rt, counts.unread == 0, "no name is left");
    desk.close();
}

/// Whether the text and the sums are those of the report.
fn compare(rt: &impl Abort, alloc: Global, desk: &Desk) -> Result<(), Fail> {
    let report = Report::of_desk(alloc, desk)?;
    let length = write_report(desk, &report, &mut []);
    let mut text = vec![in alloc; 0u8; length as usize]?;
    let again = write_report(desk, &report, &mut text);
    same(rt, "its length again", &again, &length);
    same(rt, "a byte of 0", &text.contains(&0), &false);
    let read = Value::from_slice(alloc, text.as_slice())?;
    same(rt, "its text", &read, &wanted(rt, alloc, desk, &report)?);
    for kind in &report.kinds {
        let Some(all) = Statistics::of_desk(alloc, desk, kind.memory_type)? else {
            return Err(Fail::from("no such type"));
        };
        let told = match kind.kind {
            ObjectKind::Dedicated => all.dedicated,
            ObjectKind::Imported => all.imported,
            ObjectKind::BuddyChunk => all.buddy,
            ObjectKind::FreeListChunk => all.free_list,
            ObjectKind::FitChunk => all.fit,
        };
        same(rt, "the same sums alone", &told, kind);
        let asked = asked_of(rt, desk, &report, kind);
        same(rt, "the bytes asked for", &kind.asked_bytes, &asked);
    }
    same(rt, "no type", &Statistics::of_desk(alloc, desk, 2)?, &None);
    Ok(())
}

#[test]
fn the_text_of_a_report_is_read_back_as_the_report(rt: HostRuntime) -> Result<(), Fail> {
    let alloc = rt.alloc();
    let mut desk = opened(&rt, alloc);
    let mut keys = [0; 6];
    for (index, key) in keys.iter_mut().enumerate() {
        let user = u64::MAX - index as u64;
        *key = granted(&rt, alloc, &mut desk, REQUESTS[index], user).key;
    }
    holds(&rt, desk.free(keys[1]).is_ok(), "a block comes back");
    holds(&rt, desk.import(1, 65536, 4096, 32768).is_ok(), "an import");
    holds(&rt, desk.set_heap_limit(1, 1 << 21).is_some(), "a limit");
    let compared = compare(&rt, alloc, &desk);
    ended(&rt, desk);
    compared
}
