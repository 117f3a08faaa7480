// Tables as people name them and hear of them: the image or the readable table that an argument
// names, what an accepted table has, and what is wrong with a refused one, in words and with the line
// that the wrong byte comes from. What is right is decided in the crates below. No contract can say
// what files hold, so the functions promise only that they are safe and end; the runs of the program
// press are compared (tests/press).

#![tactic(auto)]

mod lining;
mod loading;
mod tabling;

pub use loading::{load, load_readable};
pub use tabling::{print_stamp, print_table, refused_table};

// A table in memory: its image, and the readable table that the image was made of, if it was.
#[derive(Clone, Copy)]
pub struct Table<'a> {
    pub image: &'a [u8],
    pub text: Option<&'a [u8]>,
}
