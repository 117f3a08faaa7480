// The two movers. Any image and any output get their answer; a refused call changes no byte, and a
// done one none beyond the bytes that it writes.

ghost use Rattle.std.specs.Prelude.{◌≡◌};
ghost use Rattle.table.specs.Sections.{is_dated};
ghost use Rattle.table.specs.inside.Found.{found};
ghost use Rattle.dates.specs.Forms.{is_always, first_dated_of, image_in};
ghost use Rattle.dates.specs.Moving.{roomed, dating, undating};
ghost use Rattle.dates.specs.Promises.{Ends};
ghost use Rattle.dates.specs.inside.Putting.{Accepts};

use crate::putting::{put_image, years};
use dates::Form;
use framing::{locate, offset_of, years_of};
use judge::check;
use table::{Refusal, Section, Sections, Years};

// The years of an entry that is in force always.
const ALWAYS: Years = Years {
    first: 0,
    last: 65535,
};

// Whether the trailer says that contraction records have years.
#[tactic(auto, unfolding(table::specs::Sections::is_dated, table::specs::Sections::byte_at, table::specs::Sections::trailer_at))]
fn is_dated(image: &[u8]) -> bool
    ensures { result ≡ is_dated image.now }
{
    let n = image.len();
    14 <= n && image[n - 1] == 52
}

// Whether the years of record `k` are from 0 to 65,535.
#[tactic(auto, unfolding(dates::specs::Forms::is_always))]
fn is_always(image: &[u8], entries: Section, k: u16) -> bool
    ensures { result ≡ is_always image.now entries k }
{
    years_of(image, entries, k) == ALWAYS
}

// The first contraction record whose years aren't from 0 to 65,535.
fn first_dated(image: &[u8], entries: Section) -> Option<u16>
    ensures { result ≡ found (first_dated_of image.now entries) }
{
    (0..entries.records).find(|&k| !is_always(image, entries, k))
}

// An accepted image is written in this form, if there is room for it.
#[tactic(auto, using(dates::proofs::Room::roomy))]
fn move_image(image: &[u8], s: Sections, form: Form, out: &mut [u8]) -> Result<usize, Refusal>
    requires { Accepts image.now s }
    ensures { Ends (roomed out.old (image_in form image.now)) result out.new }
{
    let records = usize::from(s.contractions.records);
    let size = usize::from(s.contractions.size);
    let needed = image.len() - size * records + (18 + years(form).len()) * records;
    if out.len() < needed {
        return Err(Refusal::Room(needed));
    }
    put_image(out, image, s, form);
    Ok(needed)
}

// Moves a table without years to the form with years: each entry is in force always. A table with
// years is refused as a wrong trailer; then the table is checked, and last the room. The answer is
// how many bytes the moved table has, or the refusal.
pub fn date(image: &[u8], out: &mut [u8]) -> Result<usize, Refusal>
    ensures { Ends (dating image.now out.old) result out.new }
{
    if is_dated(image) {
        return Err(Refusal::Frame);
    }
    check(image)?;
    move_image(image, locate(image), Form::Dated, out)
}

// Moves a table with years, whose entries are all in force always, to the form without. A table
// without years is refused as a wrong trailer; then the table is checked, an entry with other years
// is refused, and last the room is checked. The answer is as for `date`.
pub fn undate(image: &[u8], out: &mut [u8]) -> Result<usize, Refusal>
    ensures { Ends (undating image.now out.old) result out.new }
{
    if !is_dated(image) {
        return Err(Refusal::Frame);
    }
    check(image)?;
    let s = locate(image);
    let entries = s.contractions;
    if let Some(k) = first_dated(image, entries) {
        return Err(Refusal::Dated(offset_of(entries, k)));
    }
    move_image(image, s, Form::Undated, out)
}
