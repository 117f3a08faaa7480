// The stamping of an image. Any image gets its answer: the stamp of an accepted one, and otherwise
// the refusal that a check of the table gives.

ghost use Rattle.stamp.specs.Stamping.{first, second};
ghost use Rattle.stamp.specs.Promises.{Stamps, Tells};

use crate::Stamped;
use judge::check;
use table::Refusal;

// The two sums over an accepted image, each going past the top back to 0: for each byte the first
// grows by the byte, and the second by the first as it is then.
pub fn stamp(image: &[u8]) -> Result<Stamped, Refusal>
    ensures { Stamps image.now result }
{
    check(image)?;
    let mut first: u32 = 0;
    let mut second: u32 = 0;
    for &byte in image {
        first = first.wrapping_add(u32::from(byte));
        second = second.wrapping_add(first);
    }
    Ok(Stamped { first, second })
}

// The two numbers of an answer: 0 and 0 of a refused image.
pub fn numbers_of(answer: Result<Stamped, Refusal>) -> Stamped
    ensures first { Tells first answer result.first }
    ensures second { Tells second answer result.second }
{
    answer.unwrap_or(Stamped {
        first: 0,
        second: 0,
    })
}
