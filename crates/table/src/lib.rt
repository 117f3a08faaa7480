// A contraction table's stored image, with years on its entries or without: its five sections and
// its years as values, the verdicts on it, and the refusals of every call, with their numbers and
// places. What an image means, and what is wrong with one, is said in specs/ for all the crates
// above, and the laws about that are in proofs/. `framing` reads images, and `judge` judges them.

#![tactic(auto)]

mod refusing;

pub use refusing::{Numbered, number_of, place_of};

// One section of the image: the offset of its first byte, the bytes of one record, and how many
// records it has.
#[derive(Clone, Copy, Debug, PartialEq, Eq)]
pub struct Section {
    pub start: u16,
    pub size: u16,
    pub records: u16,
}

// The five sections of an image, in the order in which they lie, and the two numbers of the
// trailer.
#[derive(Clone, Copy, Debug, PartialEq, Eq)]
pub struct Sections {
    pub alphabet: Section,
    pub contractions: Section,
    pub contexts: Section,
    pub transitions: Section,
    pub decisions: Section,
    pub classes: u16,
    pub variables: u16,
}

// The five sections by name, in image order.
#[derive(Clone, Copy, Debug, PartialEq, Eq)]
pub enum SectionName {
    Alphabet,
    Contractions,
    Contexts,
    Transitions,
    Decisions,
}

// The years in which an entry is in force, both counted in.
#[derive(Clone, Copy, Debug, PartialEq, Eq)]
pub struct Years {
    pub first: u16,
    pub last: u16,
}

// Why a call is refused, whichever it is: the paper's table of refusals, each with its place where
// that isn't fixed.
#[derive(Clone, Copy, Debug, PartialEq, Eq)]
pub enum Refusal {
    Frame,
    Alphabet(usize),
    Contraction(usize),
    Context(usize),
    Transition(usize),
    Decision(usize),
    NoBlank,
    Grouping(usize),
    Size,
    LongText,
    Unknown(usize),
    Following,
    File(usize),
    Dated(usize),
    Room(usize),
}
