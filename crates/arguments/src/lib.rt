// The arguments of the program press: the command, its options and the names that it is about, and
// the page of help of each command. No contract can say what the arguments are, so the functions
// promise only that they are safe and end; the runs of press are compared (tests/press).

#![tactic(auto)]

mod asking;
mod helping;

pub use asking::{take_command, take_first, take_rest};
pub use helping::{help, version};

// What is asked for.
#[derive(Clone, Copy, Debug, PartialEq, Eq)]
pub enum Command {
    Emboss,
    Preview,
    Read,
    Check,
    Stamp,
    Date,
    Undate,
    Make,
    Show,
    Mark,
    Help,
    Version,
}

// The options, and what they are about: `first` and `second` are the numbers of the arguments that
// are no options, `output` that of the file after -o. `ink` is whether the text is inkprint.
#[derive(Clone, Copy, Debug, PartialEq, Eq)]
pub struct Asked {
    pub ink: bool,
    pub first: Option<usize>,
    pub second: Option<usize>,
    pub output: Option<usize>,
    pub width: usize,
    pub page: usize,
    pub year: u16,
    pub following: u8,
}
