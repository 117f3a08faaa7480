// The pass that writes. What a move writes follows from the place before it, the place after it and
// the cells of the word that it places; so the moves of the place alone decide, and one function
// writes them all. What is written stands from the place's own number on, and everything else stays
// as it was.

ghost use Rattle.std.specs.Prelude.{◌≡◌, ◌+◌, ◌≤◌, ◌^◌, length, replicate};
ghost use Rattle.table.specs.inside.Wrote.{Wrote};
ghost use Rattle.pages.specs.Numbers.{most_width};
ghost use Rattle.pages.specs.Words.{items_of};
ghost use Rattle.pages.specs.Place.{standing, move_bytes, volume};
ghost use Rattle.pages.specs.inside.Gather.{step_bytes};
ghost use Rattle.pages.specs.inside.Writing.{Goes, Moved, Room, Signed, Writable};

use crate::ending::{BLANK, ends_word};
use crate::word::Word;
use crate::{Place, Sheet};

// What stands after each line.
const LINE_MARK: u8 = 64;

// What stands after each page's last line.
const PAGE_MARK: u8 = 65;

// The same byte `n` times from `at` on. Answers the place after them.
fn put_same(out: &mut [u8], at: usize, n: usize, byte: u8) -> usize
    requires { at + n ≤ length out.old }
    ensures { (result ≡ at + n) × Wrote out.old at (replicate n byte) out.new }
{
    out[at..at + n].fill(byte);
    at + n
}

// The cells that stand on the line before those of a move from `p` to `q`.
fn standing(p: Place, q: Place) -> usize
    ensures { result ≡ standing p q }
{
    if q.lines == p.lines { p.column } else { 0 }
}

// A move from `p` to `q`: a 64 for each line that ended, a 65 for each page, the blanks and the
// cells. Answers the moved place.
fn put_move(out: &mut [u8], p: Place, q: Place, cells: &[u8]) -> Place
    requires { Goes p q (length cells.now) × (p.written + length (move_bytes p q cells.now) ≤ length out.old) }
    ensures { Moved out.old p cells.now out.new q result }
{
    let lined = put_same(out, p.written, q.lines - p.lines, LINE_MARK);
    let paged = put_same(out, lined, q.pages - p.pages, PAGE_MARK);
    let blanks = q.column - standing(p, q) - cells.len();
    let at = put_same(out, paged, blanks, BLANK);
    out[at..at + cells.len()].copy_from_slice(cells);
    q
}

// One sign: a blank or a format sign places the cells that wait; a cell waits with them. Where they
// are as many as the width it tells that the word is cut: all but the last of them and the hyphen
// are placed, and the last waits on with the one that came.
fn put_sign(out: &mut [u8], p: Place, word: &mut Word, sign: u8, sheet: Sheet) -> Place
    requires { (Room (2 ^ 31) out.old p (step_bytes sheet p word.old sign)) × (length word.old ≤ sheet.width) × (2 ≤ sheet.width) × (sheet.width ≤ most_width) }
    ensures { Signed sheet out.old p word.old sign out.new word.new result }
{
    if ends_word(sign) {
        let q = put_move(out, p, p.flushed(sheet, word.len()), word.cells());
        word.clear();
        return put_move(out, q, q.format(sheet, sign), &[]);
    }
    if word.len() == sheet.width {
        let held = word.hyphenate();
        let q = put_move(out, p, p.word(sheet, word.len()), word.cells());
        word.clear();
        word.push(held);
        word.push(sign);
        return q;
    }
    word.push(sign);
    p
}

// All signs are written, and the end of the text.
pub(crate) fn write(signs: &[u8], sheet: Sheet, out: &mut [u8])
    requires { Writable sheet signs.now out.old }
    ensures { Wrote out.old 0 (volume sheet (items_of sheet.width signs.now)) out.new }
{
    let mut word = Word::new();
    let mut p = Place::first();
    for &sign in signs {
        p = put_sign(out, p, &mut word, sign, sheet);
    }
    let q = put_move(out, p, p.flushed(sheet, word.len()), word.cells());
    put_move(out, q, q.page_end(sheet), &[]);
}
