//! The text of a report of a living program, as JSON, with one row per line. It is this library's own, so that a
//! library for C callers needs no other crate for it.

ghost use Rattle.std.specs.Prelude.{◌≡◌};
ghost use Rattle.gpu_report.specs.DeskReport.{user_of};
ghost use Rattle.gpu_report.specs.Text.{heap_text, key_text, kind_text, kind_words, lead, object_text, part_text};
ghost use Rattle.gpu_report.specs.Text.{place_text, report_text, rows, type_text};
ghost use Rattle.gpu_report.specs.Writing.{GoesOn, IsTextWritten};

use crate::desk::user_of;
use crate::writing::{put_member, put_words};
use crate::{HeapReport, KindReport, ObjectKind, ObjectReport, Place, Report};
use gpu_alloc_types::MemoryType;
use gpu_desk::Desk;

/// Writes a report of a desk into `text` as JSON, as much of it as there is room for, and returns the length of the
/// whole text in bytes. The rest of `text` is unchanged.
///
/// The members are those of a [`Report`], in that order, and `types`, the memory types, with `heap` and `properties`.
/// In place of a block's name there are its `key`, its `user` and its `asked`, all null for free bytes. Each row is a
/// line. The text has no 0 byte. `report` must be that of the desk as it is: for a key that has no live block the
/// `user` is 0.
pub fn write_report(desk: &Desk, report: &Report, text: &mut [u8]) -> u64
    ensures { IsTextWritten (report_text (user_of desk.now) (desk.now.allocator.properties).memory_types report.now)
        text.old text.new result }
{
    let heaps = put_words(text, 0, "{\"heaps\":[");
    let heaps = put_heaps(text, heaps, report.heaps.as_slice());
    let types = put_words(text, heaps, "\n],\"types\":[");
    let types = put_types(text, types, desk.memory_types());
    let kinds = put_words(text, types, "\n],\"kinds\":[");
    let kinds = put_kinds(text, kinds, report.kinds.as_slice());
    let objects = put_words(text, kinds, "\n],\"objects\":[");
    let objects = put_objects(desk, text, objects, report.objects.as_slice());
    put_words(text, objects, "\n]}\n")
}

fn put_heaps(text: &mut [u8], at: u64, heaps: &[HeapReport]) -> u64
    ensures { GoesOn text.old at (rows heap_text heaps.now) text.new result }
{
    let mut end = at;
    for (index, heap) in heaps.iter().enumerate() {
        end = put_words(text, end, lead(index));
        end = put_heap(text, end, heap);
    }
    end
}

fn put_types(text: &mut [u8], at: u64, types: &[MemoryType]) -> u64
    ensures { GoesOn text.old at (rows type_text types.now) text.new result }
{
    let mut end = at;
    for (index, memory_type) in types.iter().enumerate() {
        end = put_words(text, end, lead(index));
        end = put_type(text, end, memory_type);
    }
    end
}

fn put_kinds(text: &mut [u8], at: u64, kinds: &[KindReport]) -> u64
    ensures { GoesOn text.old at (rows kind_text kinds.now) text.new result }
{
    let mut end = at;
    for (index, kind) in kinds.iter().enumerate() {
        end = put_words(text, end, lead(index));
        end = put_kind(text, end, kind);
    }
    end
}

fn put_objects(desk: &Desk, text: &mut [u8], at: u64, objects: &[ObjectReport]) -> u64
    ensures { GoesOn text.old at (rows (object_text (user_of desk.now)) objects.now) text.new result }
{
    let mut end = at;
    for (index, object) in objects.iter().enumerate() {
        end = put_words(text, end, lead(index));
        end = put_object(desk, text, end, object);
    }
    end
}

fn put_places(desk: &Desk, text: &mut [u8], at: u64, places: &[Place]) -> u64
    ensures { GoesOn text.old at (rows (place_text (user_of desk.now)) places.now) text.new result }
{
    let mut end = at;
    for (index, place) in places.iter().enumerate() {
        end = put_words(text, end, lead(index));
        end = put_place(desk, text, end, place);
    }
    end
}

/// What begins a row after `count` others.
fn lead(count: usize) -> &'static str
    ensures { result.now ≡ lead count }
{
    if count == 0 { "\n" } else { ",\n" }
}

fn put_heap(text: &mut [u8], at: u64, heap: &HeapReport) -> u64
    ensures { GoesOn text.old at (heap_text heap.now) text.new result }
{
    let size = put_member(text, at, "{\"size\":", u128::from(heap.size));
    let limit = put_member(text, size, ",\"limit\":", u128::from(heap.limit));
    let used = put_member(text, limit, ",\"used\":", heap.used);
    let budget = put_member(text, used, ",\"budget\":", u128::from(heap.budget));
    put_words(text, budget, "}")
}

fn put_type(text: &mut [u8], at: u64, memory_type: &MemoryType) -> u64
    ensures { GoesOn text.old at (type_text memory_type.now) text.new result }
{
    let heap = put_member(text, at, "{\"heap\":", u128::from(memory_type.heap));
    let bits = u128::from(memory_type.props.bits());
    let properties = put_member(text, heap, ",\"properties\":", bits);
    put_words(text, properties, "}")
}

fn put_kind(text: &mut [u8], at: u64, kind: &KindReport) -> u64
    ensures { GoesOn text.old at (kind_text kind.now) text.new result }
{
    let part = put_words(text, at, "{");
    let part = put_part(text, part, kind.memory_type, kind.kind);
    let objects = put_member(text, part, ",\"objects\":", u128::from(kind.objects));
    let blocks = u128::from(kind.live_blocks);
    let blocks = put_member(text, objects, ",\"live_blocks\":", blocks);
    let live = put_member(text, blocks, ",\"live_bytes\":", kind.live_bytes);
    let asked = put_member(text, live, ",\"asked_bytes\":", kind.asked_bytes);
    let free = put_member(text, asked, ",\"free_bytes\":", kind.free_bytes);
    let largest = u128::from(kind.largest_free);
    let largest = put_member(text, free, ",\"largest_free\":", largest);
    let scattered = u128::from(kind.scattered);
    let scattered = put_member(text, largest, ",\"scattered\":", scattered);
    put_words(text, scattered, "}")
}

/// A memory type, and what objects of it are held for.
fn put_part(text: &mut [u8], at: u64, memory_type: u32, kind: ObjectKind) -> u64
    ensures { GoesOn text.old at (part_text memory_type kind) text.new result }
{
    let number = put_member(text, at, "\"memory_type\":", u128::from(memory_type));
    let open = put_words(text, number, ",\"kind\":\"");
    let words = put_words(text, open, kind_words(kind));
    put_words(text, words, "\"")
}

fn kind_words(kind: ObjectKind) -> &'static str
    ensures { result.now ≡ kind_words kind }
{
    match kind {
        ObjectKind::Dedicated => "Dedicated",
        ObjectKind::Imported => "Imported",
        ObjectKind::BuddyChunk => "BuddyChunk",
        ObjectKind::FreeListChunk => "FreeListChunk",
        ObjectKind::FitChunk => "FitChunk",
    }
}

fn put_object(desk: &Desk, text: &mut [u8], at: u64, object: &ObjectReport) -> u64
    ensures { GoesOn text.old at (object_text (user_of desk.now) object.now) text.new result }
{
    let name = put_member(text, at, "{\"object\":", u128::from(object.object));
    let comma = put_words(text, name, ",");
    let part = put_part(text, comma, object.memory_type, object.kind);
    let size = put_member(text, part, ",\"size\":", u128::from(object.size));
    let open = put_words(text, size, ",\"places\":[");
    let places = put_places(desk, text, open, object.places.as_slice());
    put_words(text, places, "\n]}")
}

fn put_place(desk: &Desk, text: &mut [u8], at: u64, place: &Place) -> u64
    ensures { GoesOn text.old at (place_text (user_of desk.now) place.now) text.new result }
{
    let key = put_key(desk, text, at, place.block, place.asked);
    let offset = put_member(text, key, ",\"offset\":", u128::from(place.offset));
    let size = put_member(text, offset, ",\"size\":", u128::from(place.size));
    put_words(text, size, "}")
}

/// The key of a block, its caller's own value and how many bytes were asked for; null for free bytes.
fn put_key(desk: &Desk, text: &mut [u8], at: u64, key: Option<u64>, asked: u64) -> u64
    ensures { GoesOn text.old at (key_text (user_of desk.now) key asked) text.new result }
{
    match key {
        Some(key) => {
            let end = put_member(text, at, "{\"key\":", u128::from(key));
            let end = put_member(text, end, ",\"user\":", u128::from(user_of(desk, key)));
            put_member(text, end, ",\"asked\":", u128::from(asked))
        }
        None => put_words(text, at, "{\"key\":null,\"user\":null,\"asked\":null"),
    }
}
