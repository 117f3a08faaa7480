// An image is opened once: its sections are found, it is judged by them, and a reader holds both
// beside the image as it was lent. What goes through a reader is straight; the work is done by
// functions on the image and its sections.

ghost use Rattle.judge.specs.Promises.{Reads, ReaderVerdict};

use crate::Reader;
use crate::judging::verdict_on;
use framing::{NO_SECTIONS, framed};
use table::Refusal;

// Opens any image, whatever the verdict on it is.
pub fn open<'a>(image: &'a [u8]) -> Reader<'a>
    ensures { Reads image.entry result }
{
    let found = framed(image);
    Reader {
        image,
        sections: found.unwrap_or(NO_SECTIONS),
        verdict: verdict_on(image, found),
    }
}

impl<'a> Reader<'a> {
    // The verdict that the image was opened with.
    pub fn verdict(self) -> Result<(), Refusal>
        ensures { ReaderVerdict self.entry result }
    {
        self.verdict
    }
}
