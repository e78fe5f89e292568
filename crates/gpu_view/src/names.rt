//! The names that a program gave its blocks.

use std::alloc::{AllocError, Global};
use std::collections::BTreeMap;
use std::fmt;

/// How wide a letter of ASCII is drawn at most, and another one, in the picture's units.
const NARROW: u64 = 7;

const WIDE: u64 = 12;

/// What stands for a character that XML does not have.
const REPLACEMENT: char = '\u{fffd}';

/// The names of blocks, by key.
#[derive(Drop)]
pub struct Names {
    by_key: BTreeMap<u64, String>,
}

impl Names {
    /// No names.
    pub(crate) fn new(alloc: Global) -> Names {
        Names {
            by_key: BTreeMap::new(alloc),
        }
    }

    /// Adds a block's name, in place of an earlier one. The only error is want of memory.
    pub(crate) fn add(&mut self, key: u64, name: String) -> Result<(), AllocError> {
        match self.by_key.insert(key, name) {
            Ok(_earlier) => Ok(()),
            Err(_) => Err(AllocError),
        }
    }

    /// The name of the block of a key, if it has one.
    pub(crate) fn of(&self, key: u64) -> Option<&str> {
        Some(self.by_key.get(&key)?.as_str())
    }
}

/// A name as XML, where `&`, `<`, `>` and quotes have a meaning of their own. A character that XML does not have
/// becomes U+FFFD.
#[derive(Clone, Copy)]
pub struct Escaped<'n>(pub &'n str);

impl fmt::Display for Escaped<'_> {
    fn fmt<W: fmt::Write>(&self, f: &mut fmt::Formatter<W>) -> fmt::Result {
        for c in self.0.chars() {
            match c {
                '&' => f.write_str("&amp;")?,
                '<' => f.write_str("&lt;")?,
                '>' => f.write_str("&gt;")?,
                '"' => f.write_str("&quot;")?,
                '\'' => f.write_str("&apos;")?,
                _ if is_of_xml(c) => f.write_char(c)?,
                _ => f.write_char(REPLACEMENT)?,
            }
        }
        Ok(())
    }
}

/// Whether XML 1.0 has a character.
fn is_of_xml(c: char) -> bool {
    match c {
        '\t' | '\n' | '\r' => true,
        '\0'..='\u{1f}' | '\u{fffe}' | '\u{ffff}' => false,
        _ => true,
    }
}

/// How wide a text is drawn at most.
pub(crate) fn width_of(text: &str) -> u64 {
    let mut width = 0u64;
    for c in text.chars() {
        width = width.saturating_add(if c.is_ascii() { NARROW } else { WIDE });
    }
    width
}
