// The place on the page and its moves. A place is a value: each move takes it and hands the moved
// place back, and writes nothing.
// Kept: `Modest` with its bound in each contract. It is no invariant of a place, since each move
// adds to the numbers, so each contract has a margin of its own.

ghost use Rattle.std.specs.Prelude.{◌≡◌, ◌<◌, ◌^◌};
ghost use Rattle.pages.specs.Place.{start, after_line, after_line_end, after_empty_line, after_paragraph, after_page_end, opening_blanks, after_cells, after_word};
ghost use Rattle.pages.specs.inside.Gather.{Modest, after_flush, after_format};

use crate::ending::{Format, NoFormat};
use crate::{Place, Sheet};

impl Place {
    // The place where a volume starts.
    pub(crate) fn first() -> Place
        ensures { result ≡ start }
    {
        Place {
            column: 0,
            line: 0,
            opening: false,
            written: 0,
            lines: 0,
            pages: 0,
        }
    }

    // The line ends, whatever it holds; the page ends by itself after P lines.
    pub(crate) fn line_done(self, sheet: Sheet) -> Place
        requires { Modest (2 ^ 33) self }
        ensures { result ≡ after_line sheet self }
    {
        if self.line + 1 == sheet.length {
            Place {
                column: 0,
                line: 0,
                written: self.written + 2,
                lines: self.lines + 1,
                pages: self.pages + 1,
                ..self
            }
        } else {
            Place {
                column: 0,
                line: self.line + 1,
                written: self.written + 1,
                lines: self.lines + 1,
                ..self
            }
        }
    }

    // Sign 70: the line ends if it holds a cell.
    pub(crate) fn line_end(self, sheet: Sheet) -> Place
        requires { Modest (2 ^ 33) self }
        ensures { result ≡ after_line_end sheet self }
    {
        if 0 < self.column {
            self.line_done(sheet)
        } else {
            self
        }
    }

    // The cells of a word of `n`, after some blanks, are on the line.
    pub(crate) fn cells(self, blanks: usize, n: usize) -> Place
        requires { (Modest (2 ^ 33) self) × (blanks < 2 ^ 32) × (n < 2 ^ 32) }
        ensures { result ≡ after_cells self blanks n }
    {
        Place {
            column: self.column + blanks + n,
            opening: false,
            written: self.written + blanks + n,
            ..self
        }
    }

    // The blanks before a word of `n` cells on an empty line.
    pub(crate) fn opening_blanks(self, sheet: Sheet, n: usize) -> usize
        requires { n < 2 ^ 32 }
        ensures { result ≡ opening_blanks sheet self n }
    {
        if self.opening && 2 + n <= sheet.width {
            2
        } else {
            0
        }
    }

    // A word of `n` cells: on a line with cells it joins if it fits, otherwise the line ends and it
    // starts the next.
    pub(crate) fn word(self, sheet: Sheet, n: usize) -> Place
        requires { (Modest (2 ^ 32) self) × (n < 2 ^ 32) }
        ensures { result ≡ after_word sheet self n }
    {
        if self.column == 0 {
            return self.cells(self.opening_blanks(sheet, n), n);
        }
        if self.column + 1 + n <= sheet.width {
            return self.cells(1, n);
        }
        let next = self.line_done(sheet);
        next.cells(next.opening_blanks(sheet, n), n)
    }

    // The `n` cells that wait are placed as a word, if there are any.
    pub(crate) fn flushed(self, sheet: Sheet, n: usize) -> Place
        requires { (Modest (2 ^ 32) self) × (n < 2 ^ 32) }
        ensures { result ≡ after_flush sheet self n }
    {
        if 0 < n { self.word(sheet, n) } else { self }
    }

    // Sign 71: as 70, then an empty line unless the page has no line yet.
    pub(crate) fn empty_line(self, sheet: Sheet) -> Place
        requires { Modest (2 ^ 32) self }
        ensures { result ≡ after_empty_line sheet self }
    {
        let ended = self.line_end(sheet);
        if 0 < ended.line {
            ended.line_done(sheet)
        } else {
            ended
        }
    }

    // Sign 72: as 70, and the next word opens a paragraph.
    pub(crate) fn paragraph(self, sheet: Sheet) -> Place
        requires { Modest (2 ^ 32) self }
        ensures { result ≡ after_paragraph sheet self }
    {
        let ended = self.line_end(sheet);
        Place {
            opening: true,
            ..ended
        }
    }

    // Sign 73, and the end of the text: as 70, then the page ends if it has a line.
    pub(crate) fn page_end(self, sheet: Sheet) -> Place
        requires { Modest (2 ^ 32) self }
        ensures { result ≡ after_page_end sheet self }
    {
        let ended = self.line_end(sheet);
        if 0 < ended.line {
            Place {
                column: 0,
                line: 0,
                written: ended.written + 1,
                pages: ended.pages + 1,
                ..ended
            }
        } else {
            ended
        }
    }

    // A format sign, as its own move; any other sign, and so the blank, moves nothing.
    pub(crate) fn format(self, sheet: Sheet, sign: u8) -> Place
        requires { Modest (2 ^ 32) self }
        ensures { result ≡ after_format sheet self sign }
    {
        match Format::try_from(sign) {
            Ok(Format::LineEnd) => self.line_end(sheet),
            Ok(Format::EmptyLine) => self.empty_line(sheet),
            Ok(Format::Paragraph) => self.paragraph(sheet),
            Ok(Format::PageEnd) => self.page_end(sheet),
            Err(NoFormat) => self,
        }
    }
}
