// Inkprint marked: `mark` writes the marked text, and `source` finds where a byte of it comes from.
// Any text and any room get their answer. What each call means is said in specs/ of ink.

#![tactic(auto)]

mod decoding;
mod looking;
mod marking;
mod sorting;
mod stepping;

pub use marking::{mark, source};
