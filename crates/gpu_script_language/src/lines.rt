//! The lines of a text.

ghost use Rattle.std.specs.Prelude.{◌<◌, length, OnSome};

/// The lines that are left of a text. Each ends with a line feed, which the last one may lack.
#[derive(Drop)]
pub(crate) struct Lines<'a> {
    rest: &'a [u8],
}

impl<'a> Lines<'a> {
    /// The lines of a text.
    pub(crate) fn of(text: &'a [u8]) -> Lines<'a> {
        Lines { rest: text }
    }

    /// The next line, without its line feed.
    pub(crate) fn next(&mut self) -> Option<&'a [u8]>
        ensures { OnSome result (length self.new.rest.now < length self.old.rest.now) }
    {
        if self.rest.is_empty() {
            return None;
        }
        match self.rest.iter().position(|byte| *byte == b'\n') {
            Some(end) => {
                let line = &self.rest[..end];
                self.rest = &self.rest[end + 1..];
                Some(line)
            }
            None => {
                let line = self.rest;
                self.rest = &self.rest[line.len()..];
                Some(line)
            }
        }
    }
}
