// The whole text, line by line: the draft that it comes to, or the first byte that isn't of the form;
// the bytes of its records go to the front of the output where there is room for them all.

ghost use Rattle.std.specs.Prelude.{◌≡◌, ℕ, ◌+◌, ◌≤◌, ◌<◌, length};
ghost use Rattle.table.specs.inside.Wrote.{Wrote};
ghost use Rattle.form.specs.Reading.{what_is_missing, read_line, reading};
ghost use Rattle.tables.specs.inside.Lines.{line_end, line_bytes, taken, Drafted};
ghost use Rattle.writing.specs.inside.Puts.{Puts};
ghost use Rattle.tables.specs.inside.Steps.{walked_to, body_of};
ghost use Rattle.tables.specs.inside.Modests.{walked_in, taken_in};
ghost use Rattle.form.specs.declared.Draft.{Draft as DraftOf};

use crate::lining::rank;
use crate::modest::ModestDraft;
use form::{Draft, Expected, Unlike, record_size};

// The place of the line feed that ends the line, or of the text's end.
fn line_end(text: &[u8], at: usize) -> usize
    requires { at ≤ length text.now }
    ensures { (at ≤ result) × (result ≤ length text.now) × (result ≡ line_end text.now at) }
{
    for i in at..text.len() {
        if text[i] == b'\n' {
            return i;
        }
    }
    text.len()
}

// These bytes from `at` on, where there is room for them.
fn put_record(out: &mut [u8], at: usize, bytes: &[u8]) -> usize
    requires { (at < 1000000) × (length bytes.now ≤ 64) }
    ensures { Puts out.old at bytes.now result out.new }
{
    let next = at + bytes.len();
    if next <= out.len() {
        out[at..next].copy_from_slice(bytes);
    }
    next
}

// What is missing at the text's end.
fn missing(draft: Draft) -> Option<Expected>
    ensures { result ≡ what_is_missing draft }
{
    if draft.stage < 3 {
        return Some(Expected::Line(draft.stage));
    }
    if draft.letters < 1 {
        return Some(Expected::Letter);
    }
    if draft.transitions < draft.variables {
        return Some(Expected::Transition);
    }
    None
}

impl ModestDraft {
    // One line more: the draft with it, and where the next record goes, after this one's bytes.
    fn take_line(self, line: &[u8], out: &mut [u8], to: usize) -> Result<(Self, usize), Unlike>
        requires { to < 1000000 }
        ensures { (taken_in result ≡ taken self.draft line.now to (read_line self.draft line.now)) × Puts out.old to (line_bytes (read_line self.draft line.now)) (to + length (line_bytes (read_line self.draft line.now))) out.new }
    {
        let mut rec = [0u8; 64];
        let Some(keyword) = self.read_line(line, &mut rec)? else {
            return Ok((self, to));
        };
        let next = ModestDraft {
            draft: self.with_line(keyword, rec[0]),
        };
        if 3 < rank(keyword) {
            let size = record_size(self.draft, keyword);
            return Ok((next, put_record(out, to, &rec[..size])));
        }
        Ok((next, to))
    }
}

// What the text comes to, and the bytes of its records.
pub(crate) fn walk(text: &[u8], out: &mut [u8]) -> Result<ModestDraft, Unlike>
    ensures { (walked_in result ≡ walked_to (reading text.now)) × ((d : DraftOf) → Drafted text.now d → length (body_of (reading text.now)) ≤ length out.old → Wrote out.old 0 (body_of (reading text.now)) out.new) }
{
    let mut so_far = ModestDraft::first();
    let mut at = 0;
    let mut to = 0;

    // Kept a `while`: what isn't of the form is told by its place, and `split` doesn't tell where a
    // line starts.
    while at <= text.len() {
        let end = line_end(text, at);
        match so_far.take_line(&text[at..end], out, to) {
            Ok((next, further)) => {
                so_far = next;
                to = further;
                at = end + 1;
            }
            Err(
                Unlike {
                    expected,
                    at: place,
                },
            ) => {
                return Err(Unlike {
                    expected,
                    at: at + place,
                });
            }
        }
    }
    match missing(so_far.draft) {
        None => Ok(so_far),
        Some(expected) => Err(Unlike {
            expected,
            at: text.len(),
        }),
    }
}
