// Inkprint as people have it, UTF-8, to the marked text that the tables want: letters in capitals, a
// sign before those that were capitals and before accented ones, typographic signs by the
// conventions, a code for each blank line. What each type and call means is said in specs/, and for
// an editor in docs/ENGLISH.md; here are the types that the definitions and the calls share. The
// calls themselves are in ink.

#![tactic(auto)]

mod answering;

// A character of the text: its code, and how many bytes it has.
#[derive(Clone, Copy, Debug, PartialEq, Eq)]
pub struct Character {
    pub code: u32,
    pub size: usize,
}

// What a character is to the marks: a letter, which is a capital or isn't, with an accent or without;
// a sign, itself or as the convention has it; a sign of the convention's own, with what stands after
// the code sign; a gap, nothing, a line's end, a page's end, a long dash, three dots, a left single
// quote, a right one; or none that has a mark.
#[derive(Clone, Copy, Debug, PartialEq, Eq)]
pub enum Glyph {
    Letter(u8, bool, bool),
    Plain(u8),
    Literal(u8),
    Gap,
    Nothing,
    Feed,
    Page,
    LongDash,
    Dots,
    Opens,
    Closes,
    Unmarked,
}

// The bytes that a character becomes, at most four: as many of these as are counted. Kept: an array and
// a count. There is no heap for a Vec, and no text that lasts for a slice of it to be lent.
#[derive(Clone, Copy, Debug, PartialEq, Eq)]
pub struct Signs {
    pub count: usize,
    pub bytes: [u8; 4],
}

// Of the line: it starts here, it is known to be blank, or it has something.
#[derive(Clone, Copy, Debug, PartialEq, Eq)]
pub enum Line {
    Starts,
    Blank,
    Filled,
}

// Of the word: there is none, it is of capitals alone, or it is another.
#[derive(Clone, Copy, Debug, PartialEq, Eq)]
pub enum Word {
    Outside,
    Capitals,
    Mixed,
}

// Where the marking stands: in the line, in the word, and whether a single quote is open.
#[derive(Clone, Copy, Debug, PartialEq, Eq)]
pub struct State {
    pub line: Line,
    pub word: Word,
    pub single: bool,
}

// A character's mark, and the state after it.
#[derive(Clone, Copy, Debug, PartialEq, Eq)]
pub struct Step {
    pub mark: Signs,
    pub next: State,
}

// Why `mark` refuses: a character that has no mark, at its place; an output too short for so many
// bytes; a text too long.
#[derive(Clone, Copy, Debug, PartialEq, Eq)]
pub enum Uninked {
    Unmarked(usize),
    Room(usize),
    Long,
}
