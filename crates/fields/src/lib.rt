// The fields of a line of a readable table: `fill` reads them, as the definitions of crate `form` say,
// into a record of the image, or says what was expected and where.

#![tactic(auto)]

mod cursor;
mod fielding;
mod filling;
mod wording;

pub use filling::fill;
