// The image of a readable table. The text is read once to judge it and to measure the image, and once
// more to write it, so a refused call changes no byte.

ghost use Rattle.std.specs.Prelude.{◌≡◌, ℕ, ◌+◌, ◌≤◌, ◌<◌, length};
ghost use Rattle.table.specs.inside.Wrote.{Wrote};
ghost use Rattle.form.specs.Fields.{number_bytes};
ghost use Rattle.form.specs.Reading.{good, reading, image_of, line_at, column_at, entry_size_for, decisions_for, transitions_for, contexts_for, entries_for, letters_for, trailer_for};
ghost use Rattle.form.specs.Calls.{roomed, making};
ghost use Rattle.form.specs.Promises.{Ends};
ghost use Rattle.tables.specs.inside.Lines.{Drafted};
ghost use Rattle.tables.specs.inside.Steps.{body_of};

use crate::modest::ModestDraft;
use crate::walking::walk;
use form::{Undrawn, Unlike};
use table::Refusal;

// The line of a place of the text, counted from 1.
fn line_at(text: &[u8], at: usize) -> usize
    ensures { result ≡ line_at text.now at }
{
    let mut n = 1;
    for c in &text[..at.min(text.len())] {
        if *c == b'\n' {
            n += 1;
        }
    }
    n
}

// Its column, counted from 1.
fn column_at(text: &[u8], at: usize) -> usize
    ensures { result ≡ column_at text.now at }
{
    let mut n = 1;
    for c in &text[..at.min(text.len())] {
        n = if *c == b'\n' { 1 } else { n + 1 };
    }
    n
}

// A two-byte number, low byte first.
fn put_number(out: &mut [u8], at: usize, n: usize)
    requires { (at + 2 ≤ length out.old) × (n < 65536) }
    ensures { Wrote out.old at (number_bytes n) out.new }
{
    out[at..at + 2].copy_from_slice(&(n as u16).to_le_bytes());
}

impl ModestDraft {
    // The distances of the trailer, from the last section's to the first's.
    fn decisions_for(self) -> usize
        ensures { result ≡ decisions_for self.draft }
    {
        let draft = self.draft;
        let row = usize::from(draft.classes) + usize::from(draft.variables);
        row * usize::from(draft.decisions)
    }

    fn transitions_for(self) -> usize
        ensures { result ≡ transitions_for self.draft }
    {
        let draft = self.draft;
        usize::from(draft.classes) * usize::from(draft.transitions) + self.decisions_for()
    }

    fn contexts_for(self) -> usize
        ensures { result ≡ contexts_for self.draft }
    {
        4 * usize::from(self.draft.contexts) + self.transitions_for()
    }

    fn entries_for(self) -> usize
        ensures { result ≡ entries_for self.draft }
    {
        let size = if self.draft.dated { 22 } else { 18 };
        size * usize::from(self.draft.entries) + self.contexts_for()
    }

    fn letters_for(self) -> usize
        ensures { result ≡ letters_for self.draft }
    {
        3 * usize::from(self.draft.letters) + self.entries_for()
    }

    // The trailer.
    fn put_trailer(self, out: &mut [u8], at: usize)
        requires { at + 14 ≤ length out.old }
        ensures { Wrote out.old at (trailer_for self.draft) out.new }
    {
        put_number(out, at, self.letters_for());
        put_number(out, at + 2, self.entries_for());
        put_number(out, at + 4, self.contexts_for());
        put_number(out, at + 6, self.transitions_for());
        put_number(out, at + 8, self.decisions_for());
        let draft = self.draft;
        let last = if draft.dated { 52 } else { 51 };
        let rest = [draft.classes as u8, draft.variables as u8, 66, last];
        out[at + 10..at + 14].copy_from_slice(&rest);
    }
}

// The image of a text of the form, which came to this draft, where there is room for it.
fn make_drafted(text: &[u8], drafted: ModestDraft, out: &mut [u8]) -> Result<usize, Undrawn>
    requires { Drafted text.now drafted.draft }
    ensures { Ends (roomed out.old (image_of drafted.draft (body_of (reading text.now)))) result out.new }
{
    let body = drafted.letters_for();
    let needed = body + 14;
    if out.len() < needed {
        return Err(Undrawn::Refused(Refusal::Room(needed)));
    }
    let _ = walk(text, out);
    drafted.put_trailer(out, body);
    Ok(needed)
}

// Makes the image of a readable table, and answers how many bytes it wrote. A text that isn't of the
// form is refused at the first byte that isn't, and last the room is checked.
pub fn make(text: &[u8], out: &mut [u8]) -> Result<usize, Undrawn>
    ensures { Ends (making text.now out.old) result out.new }
{
    match walk(text, &mut [0u8; 1]) {
        Ok(drafted) => make_drafted(text, drafted, out),
        Err(Unlike { expected, at }) => Err(Undrawn::Unlike {
            at,
            line: line_at(text, at),
            column: column_at(text, at),
            expected,
        }),
    }
}
