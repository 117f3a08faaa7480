// The stamp of a table for programs in other languages.

ghost use Rattle.calls.specs.Promises.{Marked};

use stamp::{Stamped, stamp};
use table::Numbered;

// Stamps a table image, of either form, and stores the answer's four values: number, place, and the
// two numbers of the stamp, each of 32 bits; a refused image has the stamp 0 and 0. It needs 1,700
// bytes of stack, whatever it is asked (bench/stack).
pub fn tlopahuexi_stamp(image: &[u8], answer: &mut [u64; 4])
    ensures { Marked image.now answer.new }
{
    *answer = match stamp(image) {
        Ok(Stamped { first, second }) => [0, 0, u64::from(first), u64::from(second)],
        Err(refusal) => [u64::from(refusal.number()), refusal.place() as u64, 0, 0],
    };
}
