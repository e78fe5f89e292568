//! The fields of a line.

ghost use Rattle.std.specs.Prelude.{◌≤◌, length};

/// Whether a byte separates fields.
fn is_blank(byte: u8) -> bool {
    byte == b' ' || byte == b'\t'
}

/// The fields that are left of a line. Spaces and tabs separate them.
#[derive(Drop)]
pub(crate) struct Fields<'a> {
    rest: &'a [u8],
}

impl<'a> Fields<'a> {
    /// The fields of a line. A carriage return at its end does not belong to it.
    pub(crate) fn of(line: &'a [u8]) -> Fields<'a> {
        match line {
            [rest @ .., b'\r'] => Fields { rest },
            _ => Fields { rest: line },
        }
    }

    /// The next field, of at least one byte.
    pub(crate) fn next(&mut self) -> Option<&'a [u8]> {
        let start = self.rest.iter().position(|byte| !is_blank(*byte))?;
        let rest = &self.rest[start..];
        let end = match rest.iter().position(|byte| is_blank(*byte)) {
            Some(end) => end,
            None => rest.len(),
        };
        let (field, after) = rest.split_at(end);
        self.rest = after;
        Some(field)
    }

    /// How many fields are left.
    pub(crate) fn count(&self) -> usize {
        let mut others = Fields { rest: self.rest };
        let mut count = 0usize;
        for _ in 0..self.rest.len() {
            if others.next().is_none() {
                break;
            }
            count = count.saturating_add(1);
        }
        count
    }
}
