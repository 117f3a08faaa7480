// Readable tables, written: `show` writes an accepted image as a text that people read and keep, a
// record to a line. What it writes is said in the definitions of crate `form`.

#![tactic(auto)]

mod putting;
mod showing;

pub use showing::show;
