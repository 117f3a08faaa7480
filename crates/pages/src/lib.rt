// Signs to words, and words to lines and pages: the place on the page, its moves, and the pages
// that are written. What each type means is said in specs/; this file has the types that the
// definitions and the calls share.

#![tactic(auto)]

mod ending;
mod filling;
mod measuring;
mod moving;
mod sizing;
mod word;
mod writing;

pub use filling::fill;

// A sheet: how many cells a line holds, and how many lines a page.
#[derive(Clone, Copy, Debug, PartialEq, Eq)]
pub struct Sheet {
    pub width: usize,
    pub length: usize,
}

// A place on the page: the cells of the line that is being filled, the lines that the page has,
// whether the next word opens a paragraph, and what has been written so far, in bytes, lines and
// pages.
#[derive(Clone, Copy)]
pub struct Place {
    pub column: usize,
    pub line: usize,
    pub opening: bool,
    pub written: usize,
    pub lines: usize,
    pub pages: usize,
}

// How far the gathering of signs has come: the place, and how many cells of a word wait to be
// placed.
#[derive(Clone, Copy)]
struct Gathering {
    place: Place,
    cells: usize,
}

// What a text takes that is laid out: how many bytes, lines and pages there are.
#[derive(Clone, Copy, Debug, PartialEq, Eq)]
pub struct Filled {
    pub written: usize,
    pub lines: usize,
    pub pages: usize,
}
