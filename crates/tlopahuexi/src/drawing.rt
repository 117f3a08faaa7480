// Readable tables for programs in other languages.

ghost use Rattle.form.specs.Calls.{showing, making};
ghost use Rattle.calls.specs.Promises.{Redrawn};

use crate::telling::five_values;
use tables::{make, show};

// Writes an accepted table image in readable form, and stores the answer's five values: number,
// place, bytes written, and line and column, which are 0. A refused call changes no byte of `out`,
// and a done one none beyond the bytes written.
pub fn tlopahuexi_show(image: &[u8], out: &mut [u8], answer: &mut [u64; 5])
    ensures { Redrawn (showing image.now out.old) out.new answer.new }
{
    *answer = five_values(show(image, out));
}

// Writes the image of a readable table, and stores the answer's five values: line and column are
// those of the first byte that isn't of the form (22), and else 0.
pub fn tlopahuexi_make(text: &[u8], out: &mut [u8], answer: &mut [u64; 5])
    ensures { Redrawn (making text.now out.old) out.new answer.new }
{
    *answer = five_values(make(text, out));
}
