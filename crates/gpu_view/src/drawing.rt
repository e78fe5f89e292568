//! An SVG that is drawn from the top down.

ghost use Rattle.std.specs.Prelude.{◌<◌, ◌≤◌};

use crate::names::{Escaped, width_of};
use crate::words::{FREE, KINDS, PATTERNS, Title, fill, name};
use gpu_report::strips::{ROW, Span, piece};
use std::alloc::{AllocError, Global};

/// Where the picture's left column starts, with the texts next to the rows, and where the rows start.
pub const MARGIN: u64 = 20;

pub const LEFT: u64 = 150;

/// The picture's width.
const WIDTH: u64 = LEFT + ROW + MARGIN;

/// How high a row is, and a bar in it.
pub const LINE: u64 = 22;

const BAR: u64 = 16;

/// The style of a text.
#[derive(Clone, Copy)]
pub enum Set {
    /// A heading.
    Heading,

    /// The name of what follows.
    Name,

    /// A plain text.
    Plain,

    /// A remark that ends where it is put.
    Before,
}

/// What is drawn so far, and how far down it comes.
#[derive(Drop)]
pub struct Drawing {
    body: String,
    bottom: u64,
}

impl Drawing {
    /// An empty drawing.
    pub(crate) fn new(alloc: Global) -> Drawing {
        Drawing {
            body: String::new(alloc),
            bottom: 0,
        }
    }

    /// Leaves `room` units free below what is drawn.
    pub(crate) fn leave(&mut self, room: u64) {
        self.bottom = self.bottom.saturating_add(room);
    }

    /// Writes the heading, and below it the legend.
    pub(crate) fn head(&mut self, heading: &str) -> Result<(), AllocError> {
        self.leave(32);
        self.write(MARGIN, Set::Heading, heading)?;
        self.leave(26);
        let mut x = MARGIN;
        for kind in KINDS {
            self.sample(x, fill(kind))?;
            self.write(x.saturating_add(16), Set::Plain, name(kind))?;
            x = x.saturating_add(140);
        }
        self.sample(x, FREE)?;
        self.write(x.saturating_add(16), Set::Plain, "free")?;
        self.leave(12);
        Ok(())
    }

    /// Writes a text from `x` on, on the line at the bottom.
    pub(crate) fn write(&mut self, x: u64, set: Set, text: &str) -> Result<(), AllocError> {
        let how = match set {
            Set::Heading => " font-size=\"16\" font-weight=\"bold\"",
            Set::Name => " font-weight=\"bold\"",
            Set::Plain => "",
            Set::Before => " text-anchor=\"end\" fill=\"#555\" font-size=\"11\"",
        };
        let y = self.bottom;
        writeln!(self.body, "<text x=\"{x}\" y=\"{y}\"{how}>{text}</text>")
    }

    /// Draws a line over the whole width, at the bottom.
    pub(crate) fn divide(&mut self) -> Result<(), AllocError> {
        let y = self.bottom;
        let width = WIDTH - 2 * MARGIN;
        writeln!(
            self.body,
            "<rect x=\"{MARGIN}\" y=\"{y}\" width=\"{width}\" height=\"1\" fill=\"#bbb\"/>"
        )
    }

    /// Draws a small square of a colour from `x` on, on the line at the bottom.
    pub(crate) fn sample(&mut self, x: u64, colour: &str) -> Result<(), AllocError> {
        let y = self.bottom.saturating_sub(10);
        writeln!(
            self.body,
            "<rect x=\"{x}\" y=\"{y}\" width=\"11\" height=\"11\" fill=\"{colour}\"/>"
        )
    }

    /// How far down the row is in which a range starts.
    fn row_at(&self, from: u64) -> u64 {
        self.bottom
            .saturating_add((from / ROW).saturating_mul(LINE))
    }

    /// Draws a range of rows that begin at the bottom, in as many pieces as it has rows, with a title that shows on
    /// hovering.
    pub(crate) fn range(
        &mut self,
        span: Span,
        colour: &str,
        title: Title<'_>,
    ) -> Result<(), AllocError> {
        let Span { mut start, end } = span;
        while start < end {
            let (into_row, width) = piece(start, end);
            let x = LEFT + into_row;
            let y = self.row_at(start);
            // The last unit is left out, so that the next range stands apart.
            let drawn = (width - 1).max(1);
            write!(
                self.body,
                "<rect x=\"{x}\" y=\"{y}\" width=\"{drawn}\" height=\"{BAR}\" fill=\"{colour}\">"
            )?;
            writeln!(self.body, "<title>{title}</title></rect>")?;
            start += width;
        }
        Ok(())
    }

    /// Writes a text to the left of a row.
    pub(crate) fn aside(&mut self, row: u64, text: &str) -> Result<(), AllocError> {
        let x = LEFT - 10;
        let y = self.row_at(row.saturating_mul(ROW)).saturating_add(12);
        writeln!(
            self.body,
            "<text x=\"{x}\" y=\"{y}\" font-size=\"11\" text-anchor=\"end\">{text}</text>"
        )
    }

    /// Writes a text in the middle of a block's range, and returns whether there is room for it in one row. Where there
    /// is not, nothing is written.
    pub(crate) fn within(&mut self, span: Span, ink: &str, text: &str) -> Result<bool, AllocError> {
        let width = span.end.saturating_sub(span.start);
        let into_row = span.start % ROW;
        if into_row.saturating_add(width) > ROW || width < width_of(text).saturating_add(6) {
            return Ok(false);
        }
        let x = LEFT + into_row + width / 2;
        let y = self.row_at(span.start).saturating_add(12);
        let text = Escaped(text);
        writeln!(
            self.body,
            "<text x=\"{x}\" y=\"{y}\" font-size=\"11\" text-anchor=\"middle\" {ink} pointer-events=\"none\">{text}</text>"
        )?;
        Ok(true)
    }

    /// The whole picture as a text.
    pub(crate) fn finish(mut self, alloc: Global) -> Result<String, AllocError> {
        self.leave(MARGIN);
        let Drawing { body, bottom } = self;
        let mut text = String::new(alloc);
        writeln!(
            text,
            "<svg xmlns=\"http://www.w3.org/2000/svg\" width=\"{WIDTH}\" height=\"{bottom}\" viewBox=\"0 0 {WIDTH} {bottom}\" font-family=\"sans-serif\" font-size=\"12\" fill=\"#222\">"
        )?;
        text.push_str(PATTERNS)?;
        writeln!(
            text,
            "<rect width=\"{WIDTH}\" height=\"{bottom}\" fill=\"#fff\"/>"
        )?;
        text.push_str(body.as_str())?;
        text.push_str("</svg>\n")?;
        Ok(text)
    }
}
