//! Command lines, each of which is one command of a session.

use crate::fields::Fields;
use crate::line::{LineError, LineStop};
use gpu_alloc::{Dedicated, Request, UsageFlags};
use gpu_session::Command;
use std::alloc::Allocator;

/// The first words of command lines, by what follows them.
#[derive(Clone, Copy)]
pub(crate) enum CommandWord {
    /// A name and a request; the word may give a hint.
    Request(Option<Dedicated>),

    /// A name, a memory type, and the sizes of an object and of a span in it.
    Import,

    /// A name, an offset and a number of bytes.
    Span(SpanWord),

    /// A name, an offset and bytes.
    Bytes(BytesWord),

    /// One number.
    Number(NumberWord),

    /// Nothing.
    Plain(PlainWord),
}

/// Words before a name, an offset and a number of bytes.
#[derive(Clone, Copy)]
pub(crate) enum SpanWord {
    Map,
    Read,
    Get,
}

/// Words before a name, an offset and bytes.
#[derive(Clone, Copy)]
pub(crate) enum BytesWord {
    Write,
    Put,
}

/// Words before one number.
#[derive(Clone, Copy)]
pub(crate) enum NumberWord {
    Free,
    Unmap,
    Remaining,
    Ranges,
}

/// Words with nothing after them.
#[derive(Clone, Copy)]
pub(crate) enum PlainWord {
    Cleanup,
    Counts,
}

/// The meanings of the words of command lines.
pub(crate) const COMMAND_WORDS: [(&str, CommandWord); 15] = [
    ("alloc", CommandWord::Request(None)),
    ("required", CommandWord::Request(Some(Dedicated::Required))),
    (
        "preferred",
        CommandWord::Request(Some(Dedicated::Preferred)),
    ),
    ("import", CommandWord::Import),
    ("free", CommandWord::Number(NumberWord::Free)),
    ("map", CommandWord::Span(SpanWord::Map)),
    ("unmap", CommandWord::Number(NumberWord::Unmap)),
    ("write", CommandWord::Bytes(BytesWord::Write)),
    ("read", CommandWord::Span(SpanWord::Read)),
    ("put", CommandWord::Bytes(BytesWord::Put)),
    ("get", CommandWord::Span(SpanWord::Get)),
    ("remaining", CommandWord::Number(NumberWord::Remaining)),
    ("cleanup", CommandWord::Plain(PlainWord::Cleanup)),
    ("ranges", CommandWord::Number(NumberWord::Ranges)),
    ("counts", CommandWord::Plain(PlainWord::Counts)),
];

impl CommandWord {
    /// How many fields follow the word.
    fn wanted(self) -> usize {
        match self {
            CommandWord::Request(_) | CommandWord::Import => 5,
            CommandWord::Span(_) | CommandWord::Bytes(_) => 3,
            CommandWord::Number(_) => 1,
            CommandWord::Plain(_) => 0,
        }
    }

    /// The command of a line that begins with this word and has these other fields.
    pub(crate) fn read<A: Allocator>(
        self,
        alloc: A,
        mut fields: Fields<'_>,
    ) -> Result<Command<A>, LineStop> {
        if fields.count() != self.wanted() {
            return Err(LineStop::Bad(LineError::WrongNumberOfFields));
        }
        let command = match self {
            CommandWord::Request(hint) => request(hint, &mut fields)?,
            CommandWord::Import => import(&mut fields)?,
            CommandWord::Span(word) => of_span(word, &mut fields)?,
            CommandWord::Bytes(word) => return of_bytes(alloc, word, &mut fields),
            CommandWord::Number(word) => of_number(word, fields.next_u32()?),
            CommandWord::Plain(PlainWord::Cleanup) => Command::Cleanup,
            CommandWord::Plain(PlainWord::Counts) => Command::Counts,
        };
        Ok(command)
    }
}

/// Reads a name, and a request as its size, alignment mask, usage and memory types.
fn request<A: Allocator>(
    hint: Option<Dedicated>,
    fields: &mut Fields<'_>,
) -> Result<Command<A>, LineError> {
    let name = fields.next_u32()?;
    let request = Request {
        size: fields.next_u64()?,
        align_mask: fields.next_u64()?,
        usage: UsageFlags::from_bits_retain(fields.next_u8(u8::MAX)?),
        memory_types: fields.next_u32()?,
    };
    Ok(match hint {
        Some(dedicated) => Command::Dedicated {
            name,
            request,
            dedicated,
        },
        None => Command::Alloc { name, request },
    })
}

/// Reads a name, a memory type, an object's size, and a span of it as an offset and a size.
fn import<A: Allocator>(fields: &mut Fields<'_>) -> Result<Command<A>, LineError> {
    Ok(Command::Import {
        name: fields.next_u32()?,
        memory_type: fields.next_u32()?,
        object_size: fields.next_u64()?,
        offset: fields.next_u64()?,
        size: fields.next_u64()?,
    })
}

/// Reads a name, an offset, and a number of bytes.
fn of_span<A: Allocator>(word: SpanWord, fields: &mut Fields<'_>) -> Result<Command<A>, LineError> {
    let name = fields.next_u32()?;
    let offset = fields.next_u64()?;
    let size = fields.next_u64()?;
    Ok(match word {
        SpanWord::Map => Command::Map { name, offset, size },
        SpanWord::Read => Command::Read {
            name,
            offset,
            len: size,
        },
        SpanWord::Get => Command::Get {
            name,
            offset,
            len: size,
        },
    })
}

/// Reads a name, an offset, and the bytes that go there.
fn of_bytes<A: Allocator>(
    alloc: A,
    word: BytesWord,
    fields: &mut Fields<'_>,
) -> Result<Command<A>, LineStop> {
    let name = fields.next_u32()?;
    let offset = fields.next_u64()?;
    let bytes = fields.next_bytes(alloc)?;
    Ok(match word {
        BytesWord::Write => Command::Write {
            name,
            offset,
            bytes,
        },
        BytesWord::Put => Command::Put {
            name,
            offset,
            bytes,
        },
    })
}

/// The meaning of one number: a name, a count or a memory type.
fn of_number<A: Allocator>(word: NumberWord, number: u32) -> Command<A> {
    match word {
        NumberWord::Free => Command::Free { name: number },
        NumberWord::Unmap => Command::Unmap { name: number },
        NumberWord::Remaining => Command::SetRemaining { remaining: number },
        NumberWord::Ranges => Command::FreeRanges {
            memory_type: number,
        },
    }
}
