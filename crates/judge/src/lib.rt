// The verdict on an image: accepted, or the first thing that is wrong with it, and where; and a
// reader, by which an image is opened once. No function has to be asked with care: each answers for
// every image. What each answer means is said in specs/, by the definitions of `table`.

#![tactic(auto)]

mod groups;
mod judging;
mod opening;

pub use judging::check;
pub use opening::open;
use table::{Refusal, Sections};

// An opened image: the image as it was lent, its sections, and the verdict on it.
#[derive(Clone, Copy)]
pub struct Reader<'a> {
    pub image: &'a [u8],
    pub sections: Sections,
    pub verdict: Result<(), Refusal>,
}
