// What a mover writes: the parts of an image that stay, one after the other, with the contraction
// records and the trailer of the form that it moves to. What comes next is written where the pen
// has come to, and everything else stays as it was.

ghost use Rattle.std.specs.Prelude.{◌≡◌, ℕ, ◌+◌, ◌*◌, ◌<◌, ◌≤◌, [], ◌∷◌, length};
ghost use Rattle.table.specs.Numbers.{entry_size, trailer_size};
ghost use Rattle.table.specs.Sections.{offset};
ghost use Rattle.table.specs.inside.Wrote.{Wrote};
ghost use Rattle.dates.specs.Forms.{number_bytes, years_in, mark_in, moved_entries, image_in};
ghost use Rattle.dates.specs.inside.Putting.{Movable, Puts, trailer_bytes};

use dates::Form;
use framing::record_part;
use table::{Section, Sections};

// An output, and the place in it where the next bytes go.
#[derive(Drop)]
struct Pen<'a> {
    out: &'a mut [u8],
    at: usize,
}

// The bytes of a part from `at` on.
// Kept: a store for each byte. `copy_from_slice` is compiled to `memmove`, which the archive for C would
// then need of the C library too.
fn put_part(out: &mut [u8], at: usize, bytes: &[u8])
    requires { at + length bytes.now ≤ length out.old }
    ensures { Wrote out.old at bytes.now out.new }
{
    for (j, &byte) in bytes.iter().enumerate() {
        out[at + j] = byte;
    }
}

impl Pen<'_> {
    // The bytes of a part.
    fn part(&mut self, bytes: &[u8])
        requires { self.old.at + length bytes.now ≤ length self.old.out.now }
        ensures same_output { self.new.out.ghost_name ≡ self.old.out.ghost_name }
        ensures puts { Puts self.old.out.now self.old.at bytes.now self.new.out.now self.new.at }
    {
        put_part(self.out, self.at, bytes);
        self.at += bytes.len();
    }

    // A two-byte number, low byte first.
    #[tactic(auto, unfolding(dates::specs::Forms::number_bytes))]
    fn number(&mut self, n: u16)
        requires { self.old.at + 2 ≤ length self.old.out.now }
        ensures same_output { self.new.out.ghost_name ≡ self.old.out.ghost_name }
        ensures puts { Puts self.old.out.now self.old.at (number_bytes n) self.new.out.now self.new.at }
    {
        self.part(&n.to_le_bytes());
    }

    // Each contraction record up to its signs, followed by these years.
    fn entries(&mut self, image: &[u8], entries: Section, years: &[u8])
        requires room { self.old.at + (entry_size + length years.now) * entries.records ≤ length self.old.out.now }
        requires lie { (k : ℕ) → k < entries.records → offset entries k + entry_size ≤ length image.now }
        ensures same_output { self.new.out.ghost_name ≡ self.old.out.ghost_name }
        ensures puts { Puts self.old.out.now self.old.at (moved_entries years.now image.now entries) self.new.out.now self.new.at }
    {
        for k in 0..entries.records {
            self.part(record_part(image, entries, k, 0, 18));
            self.part(years);
        }
    }

    // The trailer, with this mark for its last byte. It stands where all five sections end, so its
    // place is the first distance; the second is less by the alphabet.
    fn trailer(&mut self, alphabet: u16, image: &[u8], mark: u8)
        requires room { self.old.at + trailer_size ≤ length self.old.out.now }
        requires from { trailer_size ≤ length image.now }
        requires sections { (alphabet ≤ self.old.at) × (self.old.at < 65536) }
        ensures same_output { self.new.out.ghost_name ≡ self.old.out.ghost_name }
        ensures puts { Puts self.old.out.now self.old.at (trailer_bytes self.old.at alphabet image.now mark) self.new.out.now self.new.at }
    {
        // Kept: `as`, proved to lose nothing, since `try_from` would have an error that never comes.
        let sections = self.at as u16;
        let from = image.len() - 10;
        let end = image.len() - 1;
        self.number(sections);
        self.number(sections - alphabet);
        self.part(&image[from..end]);
        self.part(&[mark]);
    }
}

// The years that each entry gets in this form: none, or those that stand for always.
#[tactic(auto, unfolding(dates::specs::Forms::number_bytes))]
pub(crate) fn years(form: Form) -> &'static [u8]
    ensures { result.now ≡ years_in form }
{
    match form {
        Form::Undated => &[],
        Form::Dated => &[0, 0, 255, 255],
    }
}

// The last byte of a trailer in this form.
fn mark(form: Form) -> u8
    ensures { result ≡ mark_in form }
{
    match form {
        Form::Undated => 51,
        Form::Dated => 52,
    }
}

// The whole image in the other form.
pub(crate) fn put_image(out: &mut [u8], image: &[u8], s: Sections, form: Form)
    requires { Movable image.now s form out.old }
    ensures { Wrote out.old 0 (image_in form image.now) out.new }
{
    let entries = s.contractions;
    let alphabet = usize::from(entries.start);
    let contexts = usize::from(s.contexts.start);
    let end = image.len() - 14;
    let mut pen = Pen { out, at: 0 };
    pen.part(&image[..alphabet]);
    pen.entries(image, entries, years(form));
    pen.part(&image[contexts..end]);
    pen.trailer(entries.start, image, mark(form));
}
