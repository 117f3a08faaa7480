// The calls for programs in other languages: the archive that `bin/build archive tlopahuexi` writes
// defines them under their plain names, and include/tlopahuexi.h declares them. Each is the function
// of `tlopahuexi` with the same clauses. A slice crosses as its address, never null, and its length;
// bytes that are lent as `out` or `answer` are lent as nothing else in the same call.

#![tactic(auto)]

ghost use Rattle.calls.specs.Promises.{Pressed};

mod checking;
mod drawing;
mod filing;
mod inking;
mod moving;
mod stamping;

pub use checking::tlopahuexi_check;
pub use drawing::{tlopahuexi_make, tlopahuexi_show};
pub use filing::{tlopahuexi_read_file, tlopahuexi_write_file};
pub use inking::tlopahuexi_mark;
pub use moving::{tlopahuexi_date, tlopahuexi_undate};
pub use stamping::tlopahuexi_stamp;

// Embosses a text that is followed by the symbol `following`, which is only looked at, by the
// entries in force in `year`, and stores the answer's six values: number, place, bytes written,
// pieces, lines, pages. A refused call changes no byte of `out`, and a done one none beyond the
// bytes written. It needs 84,000 bytes of stack, whatever it is asked (bench/stack): a thread that
// calls it wants 96 KiB at least.
#[unsafe(no_mangle)]
pub extern "C" fn tlopahuexi_emboss(
    image: &[u8],
    text: &[u8],
    following: u8,
    year: u16,
    width: usize,
    length: usize,
    out: &mut [u8],
    answer: &mut [u64; 6],
)
    ensures { Pressed image.now text.now following year width length out.old out.new answer.new }
{
    tlopahuexi::tlopahuexi_emboss(image, text, following, year, width, length, out, answer);
}
