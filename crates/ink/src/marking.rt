// The whole text: it is judged, or measured where there may be no room for it, and then written, so a
// refused call changes no byte.

ghost use Rattle.std.specs.Prelude.{List, ◌≡◌, ℕ, ◌+◌, ◌*◌, ◌≤◌, ◌<◌, length};
ghost use Rattle.table.specs.inside.Wrote.{Wrote};
ghost use Rattle.inkprint.specs.Glyphs.{glyph_of, is_marked};
ghost use Rattle.inkprint.specs.Marks.{bytes_of, start, marked, marking};
ghost use Rattle.inkprint.specs.Promises.{Inks, Sources};
ghost use Rattle.inkprint.specs.inside.Steps.{walked_to, judged_as, Small, Puts};

use crate::decoding::next;
use crate::sorting::{glyph, is_marked};
use crate::stepping::step_of;
use inkprint::{Line, Signs, State, Uninked, Word};

// The longest text that is marked.
const LONGEST: usize = 1073741824;

// The state before any character.
const START: State = State {
    line: Line::Starts,
    word: Word::Outside,
    single: false,
};

// The bytes of a mark from `at` on, where there is room for them all.
fn put(out: &mut [u8], at: usize, mark: Signs)
    requires place { at < 4611686018427387904 }
    requires small { Small mark }
    ensures { Puts out.old at (bytes_of mark) out.new }
{
    let Signs { count, bytes } = mark;
    if count == 0 || out.len() < at + count {
        return;
    }
    // Kept: a store for each byte. `copy_from_slice`, or a loop over them, is compiled to a call of the C
    // library for each character, and marking then takes more than half as long again.
    out[at] = bytes[0];
    if count == 1 {
        return;
    }
    out[at + 1] = bytes[1];
    if count == 2 {
        return;
    }
    out[at + 2] = bytes[2];
    if count == 3 {
        return;
    }
    out[at + 3] = bytes[3];
}

// What the text comes to: the bytes of its marked text, which goes to the front of the output where
// there is room for it; or the first character that has no mark.
fn walk(text: &[u8], out: &mut [u8]) -> Result<usize, Uninked>
    requires { length text.now ≤ 1073741824 }
    ensures comes { result ≡ walked_to (marking text.now) }
    ensures writes { (bytes : List ℕ) → marking text.now ≡ marked bytes → length bytes ≤ length out.old → Wrote out.old 0 bytes out.new }
{
    let mut s = START;
    let mut left = text;
    let mut to = 0;
    while let Some((c, rest)) = next(left) {
        let g = glyph(c.code);
        if !is_marked(g) {
            return Err(Uninked::Unmarked(text.len() - left.len()));
        }
        let stepped = step_of(s, g, rest);
        put(out, to, stepped.mark);
        to += stepped.mark.count;
        s = stepped.next;
        left = rest;
    }
    Ok(to)
}

// Whether a character has a mark, as each of ASCII has from the blank to the tilde.
#[tactic(auto, using(inkprint::proofs::Walk::ascii_marked))]
fn has_mark(code: u32) -> bool
    ensures { result ≡ is_marked (glyph_of code) }
{
    matches!(code, 32..=126) || is_marked(glyph(code))
}

// Whether each character has a mark, or the first that has none.
fn judge(text: &[u8]) -> Result<(), Uninked>
    ensures { result ≡ judged_as (marking text.now) }
{
    let mut left = text;
    while let Some((c, rest)) = next(left) {
        if !has_mark(c.code) {
            return Err(Uninked::Unmarked(text.len() - left.len()));
        }
        left = rest;
    }
    Ok(())
}

// The text where there is room for any of its length: it is judged, and then written.
fn mark_roomy(text: &[u8], out: &mut [u8]) -> Result<usize, Uninked>
    requires long { length text.now ≤ 1073741824 }
    requires room { 4 * length text.now ≤ length out.old }
    ensures { Inks text.now out.old result out.new }
{
    judge(text)?;
    walk(text, out)
}

// The text where there may be no room for it: it is measured, and then written.
fn mark_measured(text: &[u8], out: &mut [u8]) -> Result<usize, Uninked>
    requires { length text.now ≤ 1073741824 }
    ensures { Inks text.now out.old result out.new }
{
    let needed = walk(text, &mut [])?;
    if out.len() < needed {
        return Err(Uninked::Room(needed));
    }
    walk(text, out)
}

// Marks inkprint: the marked text goes to the front of `out`. A text of more than 1,073,741,824
// bytes is refused, then a character that has no mark, and a byte that is no UTF-8, at its place, and
// last the room is checked. No mark has more than four bytes for one of the text, so with four times
// the text's length of room nothing has to be measured.
pub fn mark(text: &[u8], out: &mut [u8]) -> Result<usize, Uninked>
    ensures { Inks text.now out.old result out.new }
{
    if LONGEST < text.len() {
        return Err(Uninked::Long);
    }
    if text.len() <= out.len() / 4 {
        return mark_roomy(text, out);
    }
    mark_measured(text, out)
}

// The place in the ink text of the character that byte `n` of its marked text comes from; its length
// where it is past all.
pub fn source(text: &[u8], n: usize) -> usize
    ensures { Sources text.now n result }
{
    let mut s = START;
    let mut left = text;
    let mut ahead = n;
    while let Some((c, rest)) = next(left) {
        let stepped = step_of(s, glyph(c.code), rest);
        if ahead < stepped.mark.count {
            break;
        }
        ahead -= stepped.mark.count;
        s = stepped.next;
        left = rest;
    }
    text.len() - left.len()
}
