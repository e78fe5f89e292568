//! What is wrong with a line, and the numbers and bytes in it.

ghost use Rattle.std.specs.Prelude.{IfOk};
ghost use Rattle.gpu_script_language.specs.Bytes.{StandsForBytes};

use crate::fields::Fields;
use gpu_session::Bytes;
use hex::FromHexError;
use std::alloc::{AllocError, AllocFailed, Allocator};
use std::fmt;

/// What is wrong with a line.
#[derive(Clone, Copy, Debug, PartialEq, Eq)]
pub enum LineError {
    /// Its first field is not a word of the language, or a later one not a word that is allowed there.
    UnknownWord,

    /// A setup line after a command line.
    SetupAfterCommands,

    /// Too few or too many fields.
    WrongNumberOfFields,

    /// A field that is not a number of its type or range.
    BadNumber,

    /// A field that is not a list of bytes.
    BadBytes,

    /// After all lines: the properties cannot be used.
    BadProperties,
}

impl fmt::Display for LineError {
    fn fmt<W: fmt::Write>(&self, f: &mut fmt::Formatter<W>) -> fmt::Result {
        match self {
            LineError::UnknownWord => write!(f, "unknown word"),
            LineError::SetupAfterCommands => write!(f, "setup after commands"),
            LineError::WrongNumberOfFields => write!(f, "wrong number of fields"),
            LineError::BadNumber => write!(f, "bad number"),
            LineError::BadBytes => write!(f, "bad bytes"),
            LineError::BadProperties => write!(f, "bad properties"),
        }
    }
}

/// Why a line was not accepted.
#[derive(Clone, Copy)]
pub(crate) enum LineStop {
    /// It is bad.
    Bad(LineError),

    /// Host memory is missing.
    Memory,
}

impl From<LineError> for LineStop {
    fn from(error: LineError) -> LineStop {
        LineStop::Bad(error)
    }
}

impl From<AllocError> for LineStop {
    fn from(_e: AllocError) -> LineStop {
        LineStop::Memory
    }
}

impl<T: Drop> From<AllocFailed<T>> for LineStop {
    fn from(_e: AllocFailed<T>) -> LineStop {
        LineStop::Memory
    }
}

/// The number in a field: one or more decimal digits with a value that fits a `u64`.
fn number(field: &[u8]) -> Option<u64> {
    let mut value = 0u64;
    for digit in field {
        if !digit.is_ascii_digit() {
            return None;
        }
        value = value
            .checked_mul(10)?
            .checked_add(u64::from(*digit - b'0'))?;
    }
    if field.is_empty() { None } else { Some(value) }
}

/// The bytes in a field: two hexadecimal digits for each, or `-` for none.
fn bytes<A: Allocator>(alloc: A, field: &[u8]) -> Result<Bytes<A>, LineStop>
    ensures { IfOk result (StandsForBytes field.now) }
{
    if let [b'-'] = field {
        return Ok(Bytes::from_vec(Vec::new(alloc)));
    }
    match hex::decode(alloc, field) {
        Ok(bytes) => Ok(Bytes::from_vec(bytes)),
        Err(FromHexError::OutOfMemory) => Err(LineStop::Memory),
        Err(_) => Err(LineStop::Bad(LineError::BadBytes)),
    }
}

/// The meaning of a field that is one of these words.
pub(crate) fn meaning_of<T: Copy>(
    words: &[(&str, T)],
    field: Option<&[u8]>,
) -> Result<T, LineError> {
    if let Some(field) = field {
        for (word, meaning) in words {
            if word.as_bytes() == field {
                return Ok(*meaning);
            }
        }
    }
    Err(LineError::UnknownWord)
}

impl Fields<'_> {
    /// The next field as a number.
    pub(crate) fn next_u64(&mut self) -> Result<u64, LineError> {
        let field = self.next().ok_or(LineError::WrongNumberOfFields)?;
        number(field).ok_or(LineError::BadNumber)
    }

    /// The next field as a number below 2^32.
    pub(crate) fn next_u32(&mut self) -> Result<u32, LineError> {
        match u32::try_from(self.next_u64()?) {
            Ok(value) => Ok(value),
            Err(_) => Err(LineError::BadNumber),
        }
    }

    /// The next field as a number of at most `most`.
    pub(crate) fn next_u8(&mut self, most: u8) -> Result<u8, LineError> {
        match u8::try_from(self.next_u64()?) {
            Ok(value) if value <= most => Ok(value),
            _ => Err(LineError::BadNumber),
        }
    }

    /// The next field as bytes.
    pub(crate) fn next_bytes<A: Allocator>(&mut self, alloc: A) -> Result<Bytes<A>, LineStop> {
        let field = self.next().ok_or(LineError::WrongNumberOfFields)?;
        bytes(alloc, field)
    }
}
