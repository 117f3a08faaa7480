// The movers between the two forms of a table: `date` gives every entry its years, from 0 to 65,535,
// which is always; `undate` takes such years away again. What each call means is said in specs/ of
// dates.

#![tactic(auto)]

mod moving;
mod putting;

pub use moving::{date, undate};
