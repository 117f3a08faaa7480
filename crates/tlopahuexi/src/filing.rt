// Embosser files for programs in other languages.

ghost use Rattle.embosser.specs.declared.Kind.TheVariants.{Layout, File};
ghost use Rattle.calls.specs.Promises.{Converted};

use crate::telling::three_values;
use files::{read_file, write_file};
use pages::Sheet;

// Writes the embosser file of a layout, which is judged first, and stores the answer's three
// values: number, place, bytes written. A refused call changes no byte of `out`, and a done one none
// beyond the bytes written. It needs 600 bytes of stack, whatever it is asked (bench/stack).
pub fn tlopahuexi_write_file(
    layout: &[u8],
    width: usize,
    length: usize,
    out: &mut [u8],
    answer: &mut [u64; 3],
)
    ensures { Converted Layout layout.now width length out.old out.new answer.new }
{
    *answer = three_values(write_file(layout, Sheet { width, length }, out));
}

// Reads an embosser file as the layout that it was written from, as `tlopahuexi_write_file` writes
// one.
pub fn tlopahuexi_read_file(
    file: &[u8],
    width: usize,
    length: usize,
    out: &mut [u8],
    answer: &mut [u64; 3],
)
    ensures { Converted File file.now width length out.old out.new answer.new }
{
    *answer = three_values(read_file(file, Sheet { width, length }, out));
}
