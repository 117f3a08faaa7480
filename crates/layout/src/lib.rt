// The whole call: a text is translated by a table, and its signs are laid out on sheets. What each
// type means is said in specs/; this file has the types that the definitions and the calls share.

#![tactic(auto)]

mod embossing;

pub use embossing::emboss;

// What a text takes that is embossed: how many bytes, pieces, lines and pages there are.
#[derive(Clone, Copy, Debug, PartialEq, Eq)]
pub struct Laid {
    pub written: usize,
    pub pieces: usize,
    pub lines: usize,
    pub pages: usize,
}
