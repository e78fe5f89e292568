//! The picture: the heaps one below another, with their memory types, and what each type holds.
//!
//! It contains only words of this crate, numbers and the names of blocks, which alone need escaping.

ghost use Rattle.std.specs.Prelude.{◌<◌, ◌^◌};

use crate::drawing::{Drawing, LEFT, LINE, MARGIN, Set};
use crate::names::Names;
use crate::words::{Amount, Count, FREE, NOTE, PROPERTIES, Share, Title, fill, ink, name};
use gpu_alloc::MemoryType;
use gpu_report::strips::{ROW, Span, Strip, start_of};
use gpu_report::{HeapReport, KindReport, ObjectKind, ObjectReport, Report};
use std::alloc::{AllocError, Global};

/// How many rows the objects of a kind and type take to scale, at most. What the least lengths add comes on top.
const ROWS: u128 = 6;

/// The picture of a report under a heading, as an SVG. `types` are the device's memory types, and `names` those of the
/// blocks that have one. The only error is want of memory.
pub(crate) fn picture(
    alloc: Global,
    report: &Report,
    types: &[MemoryType],
    names: &Names,
    heading: &str,
) -> Result<String, AllocError> {
    let drawing = Drawing::new(alloc);
    let mut page = Page {
        drawing,
        alloc,
        report,
        types,
        names,
    };
    page.drawing.head(heading)?;
    for (index, heap) in report.heaps.iter().enumerate() {
        page.draw_heap(index as u64, heap)?;
    }
    page.drawing.leave(26);
    page.drawing.write(LEFT + ROW, Set::Before, NOTE)?;
    let Page { drawing, .. } = page;
    drawing.finish(alloc)
}

/// What is drawn so far, and of which report.
#[derive(Drop)]
struct Page<'r, 't, 'n> {
    drawing: Drawing,
    alloc: Global,
    report: &'r Report,
    types: &'t [MemoryType],
    names: &'n Names,
}

impl Page<'_, '_, '_> {
    /// A heap, with its memory types.
    fn draw_heap(&mut self, index: u64, heap: &HeapReport) -> Result<(), AllocError> {
        self.drawing.leave(14);
        self.drawing.divide()?;
        self.drawing.leave(26);
        let heading = format!(in self.alloc; "Heap {index}")?;
        self.drawing.write(MARGIN, Set::Heading, heading.as_str())?;
        let size = Amount(u128::from(heap.size));
        let used = Amount(heap.used);
        let budget = Amount(u128::from(heap.budget));
        let mut told = format!(in self.alloc; "{used} of {size} held, budget left {budget}")?;
        if heap.limit < heap.size {
            write!(told, ", limit {}", Amount(u128::from(heap.limit)))?;
        }
        self.drawing.write(LEFT, Set::Plain, told.as_str())?;
        self.drawing.leave(8);
        self.draw_ledger(index, heap)?;
        self.drawing.leave(LINE);
        for (number, memory_type) in self.types.iter().enumerate() {
            if u64::from(memory_type.heap) == index {
                self.draw_type(number as u64, memory_type)?;
            }
        }
        Ok(())
    }

    /// A heap's bar: what the objects of each type and kind count, and what is left.
    fn draw_ledger(&mut self, index: u64, heap: &HeapReport) -> Result<(), AllocError> {
        let report = self.report;
        let whole = as_u64(heap.used.max(u128::from(heap.size)));
        let strip = Strip::new(whole, ranges_of(report, self.types, index, heap), whole);
        let mut at = 0u128;
        let mut count = 0u64;
        for kind in &report.kinds {
            if heap_of(self.types, kind.memory_type) == Some(index) && count < strip.count {
                let bytes = kind.live_bytes.saturating_add(kind.free_bytes);
                let span = strip.span(count, as_u64(at), as_u64(bytes));
                let title = Title::Held(kind.kind, kind.memory_type, bytes);
                self.drawing.range(span, fill(kind.kind), title)?;
                at = at.saturating_add(bytes);
                count += 1;
            }
        }
        let start = strip.edge(count, as_u64(at));
        let end = if heap.budget > 0 { strip.length } else { start };
        self.drawing
            .range(Span { start, end }, FREE, Title::Budget(heap.budget))
    }

    /// A memory type, with what it holds.
    fn draw_type(&mut self, number: u64, memory_type: &MemoryType) -> Result<(), AllocError> {
        self.drawing.leave(24);
        let heading = format!(in self.alloc; "Type {number}")?;
        self.drawing.write(MARGIN, Set::Name, heading.as_str())?;
        let mut told = String::new(self.alloc);
        for (property, word) in PROPERTIES {
            if memory_type.props.contains(property) {
                told.push_str(if told.is_empty() { "" } else { ", " })?;
                told.push_str(word)?;
            }
        }
        self.drawing.write(LEFT, Set::Plain, told.as_str())?;
        let report = self.report;
        for kind in &report.kinds {
            if u64::from(kind.memory_type) == number {
                self.draw_kind(kind)?;
            }
        }
        Ok(())
    }

    /// The sums of a kind's objects of a type, and the objects.
    fn draw_kind(&mut self, kind: &KindReport) -> Result<(), AllocError> {
        self.drawing.leave(20);
        self.drawing.sample(LEFT, fill(kind.kind))?;
        let objects = Count(kind.objects, "object");
        let blocks = Count(kind.live_blocks, "block");
        let live = Amount(kind.live_bytes);
        let name = name(kind.kind);
        let mut told = format!(in self.alloc; "{name}: {objects}, {blocks}, {live} live")?;
        if kind.asked_bytes != kind.live_bytes {
            write!(told, " ({} asked)", Amount(kind.asked_bytes))?;
        }
        if kind.free_bytes > 0 {
            let free = Amount(kind.free_bytes);
            let largest = Amount(u128::from(kind.largest_free));
            let scattered = Share(kind.scattered);
            write!(
                told,
                ", {free} free (largest {largest}, scattered {scattered})"
            )?;
        }
        self.drawing.write(LEFT + 16, Set::Plain, told.as_str())?;
        let full = full_row(self.report, kind);
        let scale = format!(in self.alloc; "a row is {}", Amount(u128::from(full)))?;
        self.drawing.write(LEFT + ROW, Set::Before, scale.as_str())?;
        self.drawing.leave(7);
        self.draw_objects(kind, full)
    }

    /// The objects of a kind and type, as strips in rows.
    fn draw_objects(&mut self, kind: &KindReport, full: u64) -> Result<(), AllocError> {
        let report = self.report;
        let mut at = 0u64;
        let mut label = Label::default();
        for object in &report.objects {
            if is_of(object, kind) {
                let strip = Strip::new(object.size, count_of(object.places.len()), full);
                let start = start_of(at, strip.length);
                if start / ROW != label.row {
                    self.draw_label(label)?;
                    label = Label {
                        row: start / ROW,
                        ..Label::default()
                    };
                }
                label.take(object);
                self.draw_places(object, strip, start)?;
                at = start.saturating_add(strip.length);
            }
        }
        self.draw_label(label)?;
        self.drawing.leave(at.div_ceil(ROW).saturating_mul(LINE));
        Ok(())
    }

    /// The blocks and free ranges of an object, on its strip.
    fn draw_places(
        &mut self,
        object: &ObjectReport,
        strip: Strip,
        start: u64,
    ) -> Result<(), AllocError> {
        // An import counts from its block on.
        let base = object.places.first().map_or(0, |place| place.offset);
        let names = self.names;
        for (index, place) in object.places.iter().enumerate() {
            let index = index as u64;
            if index < strip.count {
                let offset = place.offset.saturating_sub(base);
                let span = strip.span(index, offset, place.size).moved(start);
                let Some(key) = place.block else {
                    let title = Title::Place(*place, None, object.memory_type);
                    self.drawing.range(span, FREE, title)?;
                    continue;
                };
                let name = names.of(key);
                let title = Title::Place(*place, name, object.memory_type);
                self.drawing.range(span, fill(object.kind), title)?;
                self.draw_name(span, object.kind, key, name)?;
            }
        }
        Ok(())
    }

    /// The name of a block on its range, or its key where it has no name or there is no room for that.
    fn draw_name(
        &mut self,
        span: Span,
        kind: ObjectKind,
        key: u64,
        name: Option<&str>,
    ) -> Result<(), AllocError> {
        if let Some(name) = name {
            if self.drawing.within(span, ink(kind), name)? {
                return Ok(());
            }
        }
        let key = format!(in self.alloc; "{key}")?;
        self.drawing.within(span, ink(kind), key.as_str())?;
        Ok(())
    }

    /// The text next to a row.
    fn draw_label(&mut self, label: Label) -> Result<(), AllocError> {
        let Label {
            row,
            first,
            last,
            size,
        } = label;
        let text = match (first, last) {
            (Some(first), Some(last)) => format!(in self.alloc; "objects {first} to {last}")?,
            (Some(first), None) => format!(in self.alloc; "object {first}, {size}")?,
            _ => return Ok(()),
        };
        self.drawing.aside(row, text.as_str())
    }
}

/// Which objects start in a row.
#[derive(Clone, Copy, Default)]
struct Label {
    row: u64,
    first: Option<u64>,
    last: Option<u64>,
    size: Amount,
}

impl Label {
    /// Adds this object to those that start in the row.
    fn take(&mut self, object: &ObjectReport) {
        match self.first {
            Some(_) => self.last = Some(object.object),
            None => self.first = Some(object.object),
        }
        self.size = Amount(u128::from(object.size));
    }
}

/// How many bytes a row stands for where the objects of a kind and type are drawn: as many as the largest of them has,
/// or more, where they would take too many rows.
fn full_row(report: &Report, kind: &KindReport) -> u64 {
    let mut largest = 1u64;
    let mut total = 0u128;
    for object in &report.objects {
        if is_of(object, kind) {
            largest = largest.max(object.size);
            total = total.saturating_add(u128::from(object.size));
        }
    }
    largest.max(as_u64(total / ROWS))
}

/// Whether an object is one of those of a kind and type.
fn is_of(object: &ObjectReport, kind: &KindReport) -> bool {
    object.memory_type == kind.memory_type && object.kind == kind.kind
}

/// The heap of a memory type, if there is that type.
fn heap_of(types: &[MemoryType], number: u32) -> Option<u64> {
    Some(u64::from(types.get(number as usize)?.heap))
}

/// How many ranges a heap's bar has: one for each type and kind that it holds, and one for what is left, if anything
/// is.
fn ranges_of(report: &Report, types: &[MemoryType], index: u64, heap: &HeapReport) -> u64
    ensures { result < 2 ^ 32 }
{
    let mut ranges = usize::from(heap.budget > 0);
    for kind in &report.kinds {
        if heap_of(types, kind.memory_type) == Some(index) {
            ranges = ranges.saturating_add(1);
        }
    }
    count_of(ranges)
}

/// A number, at most the greatest `u64`.
fn as_u64(number: u128) -> u64 {
    u64::try_from(number).unwrap_or(u64::MAX)
}

/// A count of ranges as a `u64`.
fn count_of(ranges: usize) -> u64
    ensures { result < 2 ^ 32 }
{
    (ranges as u64).min(u64::from(u32::MAX))
}
