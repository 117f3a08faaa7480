// The readable form of an accepted image. It is measured first, by the functions that write it, so a
// refused call changes no byte.

ghost use Rattle.std.specs.Prelude.{◌≡◌, ◌+◌, ◌≤◌, ◌<◌};
ghost use Rattle.form.specs.Showing.{head_of, shown_head, shown_section, shown_in};
ghost use Rattle.form.specs.Calls.{showing};
ghost use Rattle.form.specs.Promises.{Ends};
ghost use Rattle.writing.specs.inside.Puts.{Puts, Sectioned, Showable};
ghost use Rattle.writing.specs.inside.Penned.{Penned};
ghost use Rattle.form.specs.inside.Steps.{Modest};

use crate::putting::Pen;
use form::{Draft, Keyword, Undrawn};
use framing::{locate, record_part};
use judge::check;
use table::{Refusal, Section, Sections};

// What the first lines say.
fn head_of(s: Sections) -> Draft
    ensures { result ≡ head_of s }
{
    Draft {
        stage: 3,
        dated: s.contractions.size == 22,
        classes: s.classes,
        variables: s.variables,
        letters: 0,
        entries: 0,
        contexts: 0,
        transitions: 0,
        decisions: 0,
    }
}

// The lines before the records.
fn put_head(pen: &mut Pen<'_>, draft: Draft)
    requires { (pen.old.at < 1000000) × Modest draft }
    ensures { Penned pen.old (shown_head draft) pen.new × (pen.new.at ≤ pen.old.at + 2100) }
{
    if draft.dated {
        pen.put_line(draft, Keyword::Dated, &[]);
    }
    pen.put_line(draft, Keyword::Classes, &[draft.classes as u8]);
    pen.put_line(draft, Keyword::Variables, &[draft.variables as u8]);
}

// An empty line and the lines of a section's records, or nothing where it has none.
fn put_section(pen: &mut Pen<'_>, draft: Draft, keyword: Keyword, image: &[u8], s: Section)
    requires { (pen.old.at < 100000000) × Modest draft × Sectioned draft keyword image.now s }
    ensures { Penned pen.old (shown_section draft keyword image.now s) pen.new × (pen.new.at ≤ pen.old.at + 1000000) }
{
    if s.records == 0 {
        return;
    }
    pen.put(b'\n');
    for k in 0..s.records {
        pen.put_line(draft, keyword, record_part(image, s, k, 0, s.size));
    }
}

// The whole text, and how many bytes it has.
fn put_all(out: &mut [u8], draft: Draft, image: &[u8], s: Sections) -> usize
    requires { Showable draft image.now s }
    ensures { Puts out.old 0 (shown_in image.now draft s) result out.new }
{
    let mut pen = Pen::new(out);
    put_head(&mut pen, draft);
    put_section(&mut pen, draft, Keyword::Letter, image, s.alphabet);
    put_section(&mut pen, draft, Keyword::Entry, image, s.contractions);
    put_section(&mut pen, draft, Keyword::Context, image, s.contexts);
    put_section(&mut pen, draft, Keyword::Transition, image, s.transitions);
    put_section(&mut pen, draft, Keyword::Decision, image, s.decisions);
    pen.at
}

// Writes the readable form of an accepted image, and answers how many bytes it wrote. An image that
// isn't accepted is refused as by `check`, and last the room is checked.
pub fn show(image: &[u8], out: &mut [u8]) -> Result<usize, Undrawn>
    ensures { Ends (showing image.now out.old) result out.new }
{
    check(image)?;
    let s = locate(image);
    let draft = head_of(s);
    let needed = put_all(&mut [0; 1], draft, image, s);
    if out.len() < needed {
        return Err(Undrawn::Refused(Refusal::Room(needed)));
    }
    Ok(put_all(out, draft, image, s))
}
