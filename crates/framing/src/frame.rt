// The frame of an image: its trailer, the five distances, and the sections that they give. An image
// whose frame is wrong is not framed, and has no sections.

ghost use Rattle.std.specs.Prelude.{◌≡◌, true, ◌+◌, ◌-◌, ◌/◌, ◌<◌, ◌≤◌, length};
ghost use Rattle.table.specs.Numbers.{trailer_size};
ghost use Rattle.table.specs.Sections.{byte_at, trailer_at, distance, classes_in, variables_in, entry_size_in, trailer_right, distances_right, whole_records, lengths_right, sections_in};
ghost use Rattle.framing.specs.Promises.{Framed, Located};

use table::{Section, Sections};

const TRAILER: usize = 14;

const NO_SECTION: Section = Section {
    start: 0,
    size: 0,
    records: 0,
};

// What stands for the sections of an image whose frame is wrong.
pub const NO_SECTIONS: Sections = Sections {
    alphabet: NO_SECTION,
    contractions: NO_SECTION,
    contexts: NO_SECTION,
    transitions: NO_SECTION,
    decisions: NO_SECTION,
    classes: 0,
    variables: 0,
};

// From the trailer back to each section.
#[derive(Clone, Copy)]
struct Distances {
    alphabet: u16,
    contractions: u16,
    contexts: u16,
    transitions: u16,
    decisions: u16,
}

// The trailer of an image that is long enough to have one, read where it lies.
#[derive(Clone, Copy)]
struct Trailer<'a> {
    image: &'a [u8],
    ghost there: { trailer_size ≤ length image.now },
}

impl<'a> Trailer<'a> {
    // Byte `i` of the trailer.
    fn byte(self, i: usize) -> u8
        requires { i < 14 }
        ensures { result ≡ byte_at self.entry.image.now (trailer_at self.entry.image.now + i) }
    {
        self.image[self.image.len() - TRAILER + i]
    }

    // From the trailer back to section `k`, a two-byte number, low byte first.
    fn distance(self, k: usize) -> u16
        requires { k < 5 }
        ensures { result ≡ distance self.entry.image.now k }
    {
        u16::from_le_bytes([self.byte(2 * k), self.byte(2 * k + 1)])
    }

    fn distances(self) -> Distances
        ensures { let image = self.entry.image.now in
            result ≡ record {
              alphabet = distance image 0;
              contractions = distance image 1;
              contexts = distance image 2;
              transitions = distance image 3;
              decisions = distance image 4;
            } }
    {
        Distances {
            alphabet: self.distance(0),
            contractions: self.distance(1),
            contexts: self.distance(2),
            transitions: self.distance(3),
            decisions: self.distance(4),
        }
    }

    // The numbers of classes and variables.
    fn classes(self) -> u16
        ensures { result ≡ classes_in self.entry.image.now }
    {
        u16::from(self.byte(10))
    }

    fn variables(self) -> u16
        ensures { result ≡ variables_in self.entry.image.now }
    {
        u16::from(self.byte(11))
    }

    // The bytes of a contraction record: with its years where the trailer's last byte is 52.
    fn entry_size(self) -> u16
        ensures { result ≡ entry_size_in self.entry.image.now }
    {
        if self.byte(13) == 52 { 22 } else { 18 }
    }

    // The marks, and the numbers of classes and variables.
    fn is_right(self) -> bool
        ensures { result ≡ trailer_right self.entry.image.now }
    {
        let classes = self.byte(10);
        let mark = self.byte(13);
        self.byte(12) == 66
            && (mark == 51 || mark == 52)
            && 1 <= classes
            && classes <= 40
            && self.byte(11) <= 15
    }

    // The first distance is the length of all five sections, and distances never rise.
    fn distances_right(self) -> bool
        ensures { result ≡ distances_right self.entry.image.now }
    {
        let d = self.distances();
        usize::from(d.alphabet) == self.image.len() - TRAILER
            && d.contractions <= d.alphabet
            && d.contexts <= d.contractions
            && d.transitions <= d.contexts
            && d.decisions <= d.transitions
    }

    // The sections that the trailer gives, where it and the distances are right.
    #[tactic(auto, using(table::proofs::Distances::distances_fall, table::proofs::Distances::trailer_numbers, table::proofs::Forms::entry_long))]
    fn sections(self) -> Sections
        requires trailer { trailer_right self.image.now ≡ true }
        requires distances { distances_right self.image.now ≡ true }
        ensures { result ≡ sections_in self.entry.image.now }
    {
        let d = self.distances();
        let classes = self.classes();
        let variables = self.variables();
        let all = d.alphabet;
        Sections {
            alphabet: section_of(all, d.alphabet, d.contractions, 3),
            contractions: section_of(all, d.contractions, d.contexts, self.entry_size()),
            contexts: section_of(all, d.contexts, d.transitions, 4),
            transitions: section_of(all, d.transitions, d.decisions, classes),
            decisions: section_of(all, d.decisions, 0, classes + variables),
            classes,
            variables,
        }
    }

    // Each section is whole records, in the allowed number.
    #[tactic(auto, using(table::proofs::Distances::distances_fall))]
    fn lengths_right(self, s: Sections) -> bool
        requires { distances_right self.image.now ≡ true }
        ensures { result ≡ lengths_right self.entry.image.now s }
    {
        let d = self.distances();
        whole_records(s.alphabet, d.alphabet - d.contractions, 1, 63)
            && whole_records(s.contractions, d.contractions - d.contexts, 0, 1199)
            && whole_records(s.contexts, d.contexts - d.transitions, 0, 5)
            && whole_records(
                s.transitions,
                d.transitions - d.decisions,
                s.variables,
                s.variables,
            )
            && whole_records(s.decisions, d.decisions, 0, 20)
    }
}

// The section from distance `d` to distance `e` before the trailer, of sections that are `all` bytes
// long, in records of `size` bytes.
fn section_of(all: u16, d: u16, e: u16, size: u16) -> Section
    requires falling { (e ≤ d) × (d ≤ all) }
    requires filled { 0 < size }
    ensures { result ≡ record { start = all - d; size = size; records = (d - e) / size } }
{
    Section {
        start: all - d,
        size,
        records: (d - e) / size,
    }
}

// The section is whole records, in the allowed number.
fn whole_records(s: Section, bytes: u16, least: u16, most: u16) -> bool
    ensures { result ≡ whole_records s bytes least most }
{
    u32::from(s.size) * u32::from(s.records) == u32::from(bytes)
        && least <= s.records
        && s.records <= most
}

// The sections of an image whose frame is right.
pub fn framed(image: &[u8]) -> Option<Sections>
    ensures { Framed image.now result }
{
    if image.len() < TRAILER {
        return None;
    }
    let trailer = Trailer { image };
    if !(trailer.is_right() && trailer.distances_right()) {
        return None;
    }
    let s = trailer.sections();
    if !trailer.lengths_right(s) {
        return None;
    }
    Some(s)
}

// The sections of any image: where its frame is wrong all of their numbers are 0, so that a caller
// reads an image without records.
// Kept: its promise, Located, gives sections for every image, and it can't fail; `framed` can.
pub fn locate(image: &[u8]) -> Sections
    ensures { Located image.now result }
{
    framed(image).unwrap_or(NO_SECTIONS)
}
