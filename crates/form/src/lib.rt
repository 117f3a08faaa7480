// The readable form of a table, for the crates that write it and that read it: what a word, a field and
// a line of it are, in definitions (specs/, and for a keeper of tables docs/TABLES.md), and the small
// functions that both sides share. Each is over any place of any line.

#![tactic(auto)]

mod answering;
mod listing;
mod wording;

pub use listing::{field_at, field_count, record_size, size_of};
use table::Refusal;
pub use wording::{ends_line, ends_word, gap_end, is_escaped, is_word, symbol};

// The word that begins a line.
#[derive(Clone, Copy, Debug, PartialEq, Eq)]
pub enum Keyword {
    Dated,
    Classes,
    Variables,
    Letter,
    Entry,
    Context,
    Transition,
    Decision,
}

// What is expected where a text isn't of the form: a line that may stand after the stage that was
// reached, no more of such a line, a number, a symbol, what may stand after a backslash, a word's
// end, so many symbols, the colon, the line's end, a letter at least, a transition for each
// variable. The stage is the number that the draft has.
#[derive(Clone, Copy, Debug, PartialEq, Eq)]
pub enum Expected {
    Line(u8),
    Fewer,
    Number(u16, u16),
    Symbol,
    Escaped,
    WordEnd,
    Row(u16),
    Colon,
    LineEnd,
    Letter,
    Transition,
}

// A part of a line after its first word: a number from the one to the other, a symbol, so many
// symbols, a string, a class with its right context, a shift, the signs and in a dated table the
// years.
#[derive(Clone, Copy, Debug, PartialEq, Eq)]
pub enum Field {
    Number(u8, u8),
    Symbol,
    Row(u16),
    String,
    Classed,
    Shift,
    Tail(bool),
}

// What the lines so far say: how far they have come, and the numbers of the trailer and of the
// records.
#[derive(Clone, Copy, Debug, PartialEq, Eq)]
pub struct Draft {
    // Kept a number, the rank of the last line: `field_count`, `field_at`, `record_size` and
    // `fields::fill` take a draft of any stage, and a type of nine stages would ask more of them.
    pub stage: u8,
    pub dated: bool,
    pub classes: u16,
    pub variables: u16,
    pub letters: u16,
    pub entries: u16,
    pub contexts: u16,
    pub transitions: u16,
    pub decisions: u16,
}

// What was expected where a line isn't of the form, and that place of the line.
#[derive(Clone, Copy, Debug, PartialEq, Eq)]
pub struct Unlike {
    pub expected: Expected,
    pub at: usize,
}

// Why `show` and `make` are refused, which answer otherwise how many bytes they wrote. A text that
// isn't of the form is told with the place of the first byte that isn't, its line and column, and
// what was expected.
#[derive(Clone, Copy, Debug, PartialEq, Eq)]
pub enum Undrawn {
    Refused(Refusal),
    Unlike {
        at: usize,
        line: usize,
        column: usize,
        expected: Expected,
    },
}
