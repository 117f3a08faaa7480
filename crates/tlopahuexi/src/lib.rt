// The calls for programs in other languages, as functions of Rattle: each takes numbers and lent
// bytes alone, and stores its answer's values in an array. `tlopahuexi_c` exports them.

#![tactic(auto)]

ghost use Rattle.calls.specs.Promises.{Pressed};

mod checking;
mod drawing;
mod filing;
mod inking;
mod moving;
mod stamping;
mod telling;

pub use checking::tlopahuexi_check;
pub use drawing::{tlopahuexi_make, tlopahuexi_show};
pub use filing::{tlopahuexi_read_file, tlopahuexi_write_file};
pub use inking::tlopahuexi_mark;
use layout::{Laid, emboss};
pub use moving::{tlopahuexi_date, tlopahuexi_undate};
use pages::Sheet;
pub use stamping::tlopahuexi_stamp;
use table::Numbered;
use translation::Setting;

// Embosses a text that is followed by the symbol `following`, which is only looked at, by the
// entries in force in `year`, and stores the answer's six values: number, place, bytes written,
// pieces, lines, pages. A refused call changes no byte of `out`, and a done one none beyond the
// bytes written. It needs 84,000 bytes of stack, whatever it is asked (bench/stack): a thread that
// calls it wants 96 KiB at least.
pub fn tlopahuexi_emboss(
    image: &[u8],
    text: &[u8],
    following: u8,
    year: u16,
    width: usize,
    length: usize,
    out: &mut [u8],
    answer: &mut [u64; 6],
)
    ensures { Pressed image.now text.now following year width length out.old out.new answer.new }
{
    let setting = Setting { following, year };
    let sheet = Sheet { width, length };
    *answer = match emboss(setting, image, text, sheet, out) {
        Ok(
            Laid {
                written,
                pieces,
                lines,
                pages,
            },
        ) => [
            0,
            0,
            written as u64,
            pieces as u64,
            lines as u64,
            pages as u64,
        ],
        Err(refusal) => [
            u64::from(refusal.number()),
            refusal.place() as u64,
            0,
            0,
            0,
            0,
        ],
    };
}
