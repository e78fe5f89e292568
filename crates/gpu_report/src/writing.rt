//! A text that is written into bytes that may be too few for it, and whose whole length is counted.
//!
//! `at` is the length of the text so far, and a call returns its length afterwards. What exceeds the room is only
//! counted.

ghost use Rattle.std.specs.Prelude.{◌++◌, decimal};
ghost use Rattle.gpu_report.specs.Text.{member};
ghost use Rattle.gpu_report.specs.Writing.{GoesOn};

use itoa::Buffer;

/// Appends these bytes.
pub(crate) fn put(text: &mut [u8], at: u64, bytes: &[u8]) -> u64
    ensures { GoesOn text.old at bytes.now text.new result }
{
    let mut end = at;
    for byte in bytes {
        if end < text.len() as u64 {
            text[end as usize] = *byte;
        }
        end = end.saturating_add(1);
    }
    end
}

/// Appends these words.
pub(crate) fn put_words(text: &mut [u8], at: u64, words: &str) -> u64
    ensures { GoesOn text.old at words.now text.new result }
{
    put(text, at, words.as_bytes())
}

/// Appends a number, in decimal digits.
fn put_number(text: &mut [u8], at: u64, number: u128) -> u64
    ensures { GoesOn text.old at (decimal number) text.new result }
{
    let mut digits = Buffer::new();
    put(text, at, digits.format(number).as_bytes())
}

/// Appends these words and a number.
pub(crate) fn put_member(text: &mut [u8], at: u64, words: &str, number: u128) -> u64
    ensures { GoesOn text.old at (member words.now number) text.new result }
{
    let end = put_words(text, at, words);
    put_number(text, end, number)
}
