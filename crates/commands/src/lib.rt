// The commands of the press room: each reads a table and a text or a file, calls the proved crates,
// writes what they made and explains what they refuse. Everything that decides stands in those
// crates. A run that isn't done answers why, and that has been said: it was refused, its usage was
// wrong, or a file couldn't be opened, read or written. No contract can say what files hold, so the
// functions promise only that they are safe and end; the runs of the program press are compared
// (tests/press).

#![tactic(auto)]

mod inking;
mod running;

pub use running::run;

// Room for a table file: no right image has more than 28,301 bytes.
const IMAGE: usize = 32769;

// Room for a readable table, with one byte more than it may have.
const READABLE: usize = 262145;

// Room for a text, with one byte more than it may have.
const TEXT: usize = 16385;

// Room for inkprint, with one byte more than it may have.
const INKPRINT: usize = 262145;

// Room for its marked text: no character of n bytes has a mark of more than 3 n.
const MARKED: usize = 786435;

// Room for a layout, of which no text needs more than 147,500 bytes, and for its file.
const LAYOUT: usize = 163840;

// Room for a file that is read.
const FILE: usize = 524289;

// So many bytes of room.
fn room<const N: usize>() -> [u8; N] {
    [0u8; N]
}

// A text as a table has it, and the inkprint that it was marked from, if it was.
#[derive(Clone, Copy)]
struct Text<'a> {
    marked: &'a [u8],
    written: Option<&'a [u8]>,
}
