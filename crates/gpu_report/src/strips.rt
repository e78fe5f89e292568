//! Where the ranges of a report lie in a picture of it, in the picture's units. Objects are drawn as strips in rows of
//! equal length, one below another. A strip that passes the end of its row goes on in the next one.

ghost use Rattle.std.specs.Prelude.{◌≡◌, ◌+◌, ◌*◌, ◌^◌, ◌%◌, ◌<◌, ◌≤◌};
ghost use Rattle.gpu_report.specs.OnLine.{on_line};
ghost use Rattle.gpu_report.specs.declared.strips.TheConstants.{LEAST, ROW};

/// How long a row is.
pub const ROW: u64 = 790;

/// The least length of a range on its strip.
pub const LEAST: u64 = 3;

/// The least length of a strip for each of its ranges, so that a part of it is to scale.
pub const EACH: u64 = 5;

/// How far two strips lie apart.
pub const GAP: u64 = 6;

/// How far into a line of `length` a point lies that is `part` into `whole`, rounded down. A point past the whole lies
/// at the line's end; where the whole is 0, every point lies at its start.
pub fn on_line(part: u64, whole: u64, length: u64) -> u64
    ensures place { result ≡ on_line part whole length }
    ensures within { result ≤ length }
{
    if whole == 0 {
        return 0;
    }
    let part = if part < whole { part } else { whole };
    (u128::from(part) * u128::from(length) / u128::from(whole)) as u64
}

/// The strip on which an object is drawn. Each of its ranges has [`LEAST`], and the rest of the strip is to scale.
#[derive(Clone, Copy)]
pub struct Strip {
    /// How many bytes it stands for.
    pub size: u64,

    /// How many ranges it has.
    pub count: u64,

    /// How long it is.
    pub length: u64,
    ghost has_room: { LEAST * count ≤ length },
}

/// From where to where a range is drawn.
#[derive(Clone, Copy)]
pub struct Span {
    /// Where it starts.
    pub start: u64,

    /// Where it ends.
    pub end: u64,
}

impl Span {
    /// The same span where what it lies in starts at `start`.
    pub fn moved(self, start: u64) -> Span
        ensures { start + self.end < 2 ^ 64 → self.start ≤ self.end
            → (result.start ≡ start + self.start) × (result.end ≡ start + self.end) }
    {
        Span {
            start: start.saturating_add(self.start),
            end: start.saturating_add(self.end),
        }
    }
}

impl Strip {
    ghost use Rattle.gpu_report.specs.Strips.{edge_of};

    /// The strip of an object of `size` bytes in `count` ranges, where a row stands for `full` bytes.
    pub fn new(size: u64, count: u64, full: u64) -> Strip
        requires { count < 2 ^ 32 }
        ensures size { result.size ≡ size }
        ensures count { result.count ≡ count }
        ensures to_scale { on_line size full ROW ≤ result.length }
    {
        let length = on_line(size, full, ROW).max(count * EACH);
        Strip {
            size,
            count,
            length,
        }
    }

    /// Where the range at `index` starts that lies `offset` bytes into the object, or where the one before it ends.
    pub fn edge(&self, index: u64, offset: u64) -> u64
        requires { index ≤ self.now.count }
        ensures place { result ≡ edge_of self.now index offset }
        ensures within { result ≤ self.now.length }
    {
        let scaled = self.length - self.count * LEAST;
        index * LEAST + on_line(offset, self.size, scaled)
    }

    /// From where to where the range at `index` is drawn, of `size` bytes from `offset` on.
    pub fn span(&self, index: u64, offset: u64, size: u64) -> Span
        requires { index < self.now.count }
        ensures start { result.start ≡ edge_of self.now index offset }
        ensures end { result.end ≡ edge_of self.now (index + 1) (offset + size) }
        ensures seen { result.start + LEAST ≤ result.end }
        ensures within { result.end ≤ self.now.length }
    {
        Span {
            start: self.edge(index, offset),
            end: self.edge(index + 1, offset.saturating_add(size)),
        }
    }
}

/// Where a strip of this length starts, if the one before it ends at `at`: after it, or in the next row if it would
/// pass the end of this one.
pub fn start_of(at: u64, length: u64) -> u64
    ensures after { at ≤ result }
    ensures in_one_row { length ≤ ROW → at + ROW < 2 ^ 64 → result % ROW + length ≤ ROW }
{
    let left = ROW - at % ROW;
    if left == ROW {
        at
    } else if length <= left.saturating_sub(GAP) {
        at.saturating_add(GAP)
    } else {
        at.saturating_add(left)
    }
}

/// The part in one row of a range that goes on from `from` to `end`: how far into the row it starts, and its width.
pub fn piece(from: u64, end: u64) -> (u64, u64)
    requires { from < end }
    ensures seen { 0 < result.1 }
    ensures within_the_row { result.0 + result.1 ≤ ROW }
    ensures within_the_range { from + result.1 ≤ end }
{
    let into_row = from % ROW;
    (into_row, (end - from).min(ROW - into_row))
}
