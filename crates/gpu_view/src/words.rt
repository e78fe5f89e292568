//! The picture's texts and colours.

use crate::names::Escaped;
use gpu_alloc::MemoryPropertyFlags;
use gpu_report::{ObjectKind, Place};
use std::fmt;

/// The kinds, in the order of the legend.
pub const KINDS: [ObjectKind; 5] = [
    ObjectKind::Dedicated,
    ObjectKind::Imported,
    ObjectKind::BuddyChunk,
    ObjectKind::FreeListChunk,
    ObjectKind::FitChunk,
];

/// The properties of memory types that are shown, by name.
pub const PROPERTIES: [(MemoryPropertyFlags, &str); 6] = [
    (MemoryPropertyFlags::DEVICE_LOCAL, "device-local"),
    (MemoryPropertyFlags::HOST_VISIBLE, "host-visible"),
    (MemoryPropertyFlags::HOST_COHERENT, "coherent"),
    (MemoryPropertyFlags::HOST_CACHED, "cached"),
    (MemoryPropertyFlags::LAZILY_ALLOCATED, "lazily allocated"),
    (MemoryPropertyFlags::PROTECTED, "protected"),
];

/// The hatching of imported blocks, the dots of blocks of free lists and the stripes of blocks of fit chunks. They lie
/// over colours that the colour-blind can tell apart, such as dark blue and orange; so each kind differs in print too.
pub const PATTERNS: &str = "\
<defs>\
<pattern id=\"imported\" width=\"6\" height=\"6\" patternUnits=\"userSpaceOnUse\" patternTransform=\"rotate(45)\">\
<rect width=\"6\" height=\"6\" fill=\"#cc79a7\"/><rect width=\"2\" height=\"6\" fill=\"#f6e4ee\"/></pattern>\
<pattern id=\"listed\" width=\"5\" height=\"5\" patternUnits=\"userSpaceOnUse\">\
<rect width=\"5\" height=\"5\" fill=\"#009e73\"/><circle cx=\"2.5\" cy=\"2.5\" r=\"1\" fill=\"#d5f2e8\"/></pattern>\
<pattern id=\"fitted\" width=\"4\" height=\"4\" patternUnits=\"userSpaceOnUse\">\
<rect width=\"4\" height=\"4\" fill=\"#56b4e9\"/><rect width=\"4\" height=\"1\" fill=\"#e3f3fc\"/></pattern>\
</defs>\n";

/// The note below the picture.
pub const NOTE: &str = "Rows are to scale, but each range is long enough to be seen. \
On hovering a block tells its name, offset, size, bytes asked for and type.";

/// The colour of free bytes.
pub const FREE: &str = "#e6e6e6";

/// The colour of a kind's blocks.
pub(crate) fn fill(kind: ObjectKind) -> &'static str {
    match kind {
        ObjectKind::Dedicated => "#0072b2",
        ObjectKind::Imported => "url(#imported)",
        ObjectKind::BuddyChunk => "#e69f00",
        ObjectKind::FreeListChunk => "url(#listed)",
        ObjectKind::FitChunk => "url(#fitted)",
    }
}

/// How a block's name is written on it, so that it can be read on the pattern too.
pub(crate) fn ink(kind: ObjectKind) -> &'static str {
    match kind {
        ObjectKind::Dedicated => "fill=\"#fff\"",
        ObjectKind::BuddyChunk => "fill=\"#000\"",
        ObjectKind::Imported | ObjectKind::FreeListChunk | ObjectKind::FitChunk => {
            "fill=\"#000\" stroke=\"#fff\" stroke-width=\"3\" paint-order=\"stroke\""
        }
    }
}

/// The name of a kind's objects.
pub(crate) fn name(kind: ObjectKind) -> &'static str {
    match kind {
        ObjectKind::Dedicated => "dedicated",
        ObjectKind::Imported => "imported",
        ObjectKind::BuddyChunk => "buddy chunks",
        ObjectKind::FreeListChunk => "free-list chunks",
        ObjectKind::FitChunk => "fit chunks",
    }
}

/// A count of something.
#[derive(Clone, Copy)]
pub struct Count(pub u64, pub &'static str);

impl fmt::Display for Count {
    fn fmt<W: fmt::Write>(&self, f: &mut fmt::Formatter<W>) -> fmt::Result {
        let Count(count, what) = *self;
        if count == 1 {
            write!(f, "1 {what}")
        } else {
            write!(f, "{count} {what}s")
        }
    }
}

/// A number of bytes, in the largest unit that fits, with one decimal where it isn't whole.
#[derive(Clone, Copy, Default)]
pub struct Amount(pub u128);

impl fmt::Display for Amount {
    fn fmt<W: fmt::Write>(&self, f: &mut fmt::Formatter<W>) -> fmt::Result {
        let mut whole = self.0;
        let mut tenths = 0;
        let mut is_whole = true;
        let mut unit = "B";
        for next in ["KiB", "MiB", "GiB", "TiB", "PiB", "EiB"] {
            if whole < 1024 {
                break;
            }
            is_whole = is_whole && whole % 1024 == 0;
            tenths = whole % 1024 * 10 / 1024;
            whole /= 1024;
            unit = next;
        }
        if is_whole {
            write!(f, "{whole} {unit}")
        } else {
            write!(f, "{whole}.{tenths} {unit}")
        }
    }
}

/// A share in thousandths, as a percentage.
#[derive(Clone, Copy)]
pub struct Share(pub u64);

impl fmt::Display for Share {
    fn fmt<W: fmt::Write>(&self, f: &mut fmt::Formatter<W>) -> fmt::Result {
        write!(f, "{}.{} %", self.0 / 10, self.0 % 10)
    }
}

/// The title of a range on hovering.
#[derive(Clone, Copy)]
pub enum Title<'n> {
    /// A live block, with its name if it has one, or free bytes, in an object of this memory type.
    Place(Place, Option<&'n str>, u32),

    /// How many bytes a kind's objects of a memory type count.
    Held(ObjectKind, u32, u128),

    /// How many bytes are left of a heap.
    Budget(u64),
}

impl fmt::Display for Title<'_> {
    fn fmt<W: fmt::Write>(&self, f: &mut fmt::Formatter<W>) -> fmt::Result {
        match *self {
            Title::Place(place, name, memory_type) => {
                let Place {
                    offset,
                    size,
                    asked,
                    ..
                } = place;
                let Some(block) = place.block else {
                    return write!(f, "free: offset {offset}, size {size}, type {memory_type}");
                };
                write!(f, "block {block}")?;
                if let Some(name) = name {
                    let name = Escaped(name);
                    write!(f, " \"{name}\"")?;
                }
                write!(
                    f,
                    ": offset {offset}, size {size}, asked {asked}, type {memory_type}"
                )
            }
            Title::Held(kind, memory_type, bytes) => {
                write!(f, "{}, type {memory_type}: {bytes} bytes", name(kind))
            }
            Title::Budget(bytes) => write!(f, "budget left: {bytes} bytes"),
        }
    }
}
