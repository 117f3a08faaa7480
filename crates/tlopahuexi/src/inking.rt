// Inkprint for programs in other languages.

ghost use Rattle.calls.specs.Promises.{Inkprinted};

use crate::telling::three_values;
use ink::mark;

// Marks inkprint, and stores the answer's three values: number, place, bytes written. A refused call
// changes no byte of `out`, and a done one none beyond the bytes written.
pub fn tlopahuexi_mark(text: &[u8], out: &mut [u8], answer: &mut [u64; 3])
    ensures { Inkprinted text.now out.old out.new answer.new }
{
    *answer = three_values(mark(text, out));
}
