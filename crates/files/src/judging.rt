// The judging of a file or a layout, byte by byte: it ends at the first byte at which no good one
// could continue.

ghost use Rattle.std.specs.Prelude.{◌≡◌, ◌<◌};
ghost use Rattle.embosser.specs.Judging.{start, cells_from, stepped, wrong_at};
ghost use Rattle.embosser.specs.inside.Tables.{Small, Judgeable};

use crate::charting::stands_for;
use embosser::{Kind, Spot};
use pages::Sheet;

// Between two pages.
const START: Spot = Spot {
    column: 0,
    blank: false,
    line: 0,
};

// The cells that a line must hold from this one on.
#[tactic(auto, unfolding(embosser::specs::Judging::cells_from))]
fn cells_from(cell: u8) -> usize
    ensures { result ≡ cells_from cell }
{
    if cell == 0 { 2 } else { 1 }
}

// One output byte further, a cell, the line's end or the page's: the next spot, where its test
// passes.
#[tactic(auto, using(embosser::proofs::Steps::stepping), unfolding(embosser::specs::inside::Computing::stepping_tests))]
fn step(sheet: Sheet, spot: Spot, byte: u8) -> Option<Spot>
    requires { Small spot }
    ensures { result ≡ stepped sheet spot byte }
{
    let room = spot.line < sheet.length;
    // Kept: a byte and no enum of cells and ends, since making one would be this match once more.
    match byte {
        0..=63 if room & (spot.column + cells_from(byte) <= sheet.width) => Some(Spot {
            column: spot.column + 1,
            blank: byte == 0,
            ..spot
        }),
        64 if room & !spot.blank => Some(Spot {
            line: spot.line + 1,
            ..START
        }),
        65 if (spot.column == 0) & (0 < spot.line) => Some(START),
        _ => None,
    }
}

// The place of what is wrong with these bytes, on a sheet within the limits.
pub(crate) fn first_wrong(kind: Kind, sheet: Sheet, bytes: &[u8]) -> Option<usize>
    requires { Judgeable sheet }
    ensures { result ≡ wrong_at kind sheet bytes.now }
{
    let table = stands_for(kind);
    let mut spot = START;
    for (i, &byte) in bytes.iter().enumerate() {
        let Some(next) = step(sheet, spot, table[usize::from(byte)]) else {
            return Some(i);
        };
        spot = next;
    }
    if (spot.column == 0) & (spot.line == 0) {
        return None;
    }
    Some(bytes.len())
}
