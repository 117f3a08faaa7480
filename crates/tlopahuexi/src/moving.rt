// The movers between the two forms of a table for programs in other languages.

ghost use Rattle.dates.specs.Moving.{dating, undating};
ghost use Rattle.calls.specs.Promises.{Recast};

use crate::telling::three_values;
use movers::{date, undate};

// Writes a table without years in the form with years, each entry in force always, and stores the
// answer's three values: number, place, bytes written. A refused call changes no byte of `out`, and
// a done one none beyond the bytes written. It needs 1,800 bytes of stack, whatever it is asked
// (bench/stack).
pub fn tlopahuexi_date(image: &[u8], out: &mut [u8], answer: &mut [u64; 3])
    ensures { Recast (dating image.now out.old) out.new answer.new }
{
    *answer = three_values(date(image, out));
}

// Writes a table with years, whose entries are all in force always, in the form without, as
// `tlopahuexi_date` writes the other.
pub fn tlopahuexi_undate(image: &[u8], out: &mut [u8], answer: &mut [u64; 3])
    ensures { Recast (undating image.now out.old) out.new answer.new }
{
    *answer = three_values(undate(image, out));
}
