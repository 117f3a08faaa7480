// Translation of a text by a table: collapsing, the choice of entry, the states, the pieces and
// their signs. What each type means is said in specs/; this file has the types that the definitions
// and the calls share.

#![tactic(auto)]

mod alphabet;
mod choosing;
mod collapsing;
mod deciding;
mod piecing;
mod translating;
mod translator;
mod variables;

use table::Refusal;
pub use translating::translate;

// What a translation is told besides the table and the text: the symbol that follows the end of the
// text, which is looked at and never consumed, and the year by whose entries the text is printed.
#[derive(Clone, Copy, Debug, PartialEq, Eq)]
pub struct Setting {
    pub following: u8,
    pub year: u16,
}

// On which terms a text is translated: its setting, and what the caller's own checks say, which
// come after the table's and before the text's.
#[derive(Clone, Copy, Debug, PartialEq, Eq)]
pub struct Terms {
    pub setting: Setting,
    pub also: Result<(), Refusal>,
}

// What a translation answers: how many pieces and how many signs.
#[derive(Clone, Copy, Debug, PartialEq, Eq)]
pub struct Counts {
    pub pieces: usize,
    pub signs: usize,
}
