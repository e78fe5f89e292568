//! A report of a living program, read from the JSON that the C library writes.

use crate::picture::picture;
use crate::rows::Dump;
use gpu_script_language::{Stop, read_all, write_answer};
use std::alloc::{AllocError, Global};
use std::io::{Read, Write};

/// The status where the text is not a report.
const NO_REPORT: u8 = 2;

/// Why a report cannot be drawn.
#[derive(Drop)]
pub enum NoPicture {
    /// The text was not read, or host memory is missing.
    Stop(Stop),

    /// The text is not a report. The error says why, with the line and the column.
    NoReport(serde_json::Error),
}

impl From<Stop> for NoPicture {
    fn from(stop: Stop) -> NoPicture {
        NoPicture::Stop(stop)
    }
}

impl From<AllocError> for NoPicture {
    fn from(_e: AllocError) -> NoPicture {
        NoPicture::Stop(Stop::Memory)
    }
}

impl From<serde_json::Error> for NoPicture {
    fn from(error: serde_json::Error) -> NoPicture {
        if error.is_memory() {
            NoPicture::Stop(Stop::Memory)
        } else {
            NoPicture::NoReport(error)
        }
    }
}

/// The picture of the report that a reader gives.
pub(crate) fn draw_dump<R: Read>(alloc: Global, input: &mut R) -> Result<String, NoPicture> {
    let text = read_all(alloc, input)?;
    let dump: Dump = serde_json::from_slice(alloc, text.as_slice())?;
    let heading = "GPU memory of a program";
    let Dump {
        report,
        types,
        names,
    } = dump;
    Ok(picture(alloc, &report, types.as_slice(), &names, heading)?)
}

/// Writes the picture, or why there is none: `no report:`, what is wrong, and at which line and column. The status is
/// that of a script's replies, or 2 where the text is not a report.
pub(crate) fn write_drawn<W: Write>(output: &mut W, drawn: Result<String, NoPicture>) -> u8 {
    let written = match drawn {
        Ok(text) => return write_answer(output, Ok(text)),
        Err(NoPicture::Stop(stop)) => return write_stop(output, stop),
        Err(NoPicture::NoReport(error)) => writeln!(output, "no report: {error}"),
    };
    if written.is_err() || output.flush().is_err() {
        return 1;
    }
    NO_REPORT
}

/// Writes why a text was not read.
fn write_stop<W: Write>(output: &mut W, stop: Stop) -> u8 {
    let answer: Result<String, Stop> = Err(stop);
    write_answer(output, answer)
}
