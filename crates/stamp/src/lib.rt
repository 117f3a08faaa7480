// The stamp of a table: two 32-bit numbers over the bytes of its image, to tell tables apart by. A
// refused image has none: its numbers are 0 and 0. What the type and the calls mean is said in specs/.

#![tactic(auto)]

mod stamping;

pub use stamping::{numbers_of, stamp};

// The two numbers.
#[derive(Clone, Copy, Debug, PartialEq, Eq)]
pub struct Stamped {
    pub first: u32,
    pub second: u32,
}
