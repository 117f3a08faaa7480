// Embosser files for programs in other languages.

ghost use Rattle.embosser.specs.declared.Kind.TheVariants.{Layout, File};
ghost use Rattle.calls.specs.Promises.{Converted};

// Writes the embosser file of a layout, which is judged first, and stores the answer's three
// values: number, place, bytes written. A refused call changes no byte of `out`, and a done one none
// beyond the bytes written. It needs 600 bytes of stack, whatever it is asked (bench/stack).
#[unsafe(no_mangle)]
pub extern "C" fn tlopahuexi_write_file(
    layout: &[u8],
    width: usize,
    length: usize,
    out: &mut [u8],
    answer: &mut [u64; 3],
)
    ensures { Converted Layout layout.now width length out.old out.new answer.new }
{
    tlopahuexi::tlopahuexi_write_file(layout, width, length, out, answer);
}

// Reads an embosser file as the layout that it was written from, as `tlopahuexi_write_file` writes
// one.
#[unsafe(no_mangle)]
pub extern "C" fn tlopahuexi_read_file(
    file: &[u8],
    width: usize,
    length: usize,
    out: &mut [u8],
    answer: &mut [u64; 3],
)
    ensures { Converted File file.now width length out.old out.new answer.new }
{
    tlopahuexi::tlopahuexi_read_file(file, width, length, out, answer);
}
