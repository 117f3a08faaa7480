// Readable tables: `show` writes an accepted image as a text that people read and keep, a record to
// a line, and `make` makes the image of such a text, or says where it isn't of the form and what was
// expected there. Making what was shown gives the image again, byte for byte. What each type and call
// means is said in the definitions of crate `form`, and for a keeper of tables in docs/TABLES.md.

#![tactic(auto)]

mod lining;
mod making;
mod modest;
mod walking;

pub use form::{Expected, Keyword, Undrawn};
pub use making::make;
pub use writing::show;
