// The first contraction record that breaks the grouping. From a record the walk goes back only
// through the records that share as much with it as the one just before it: where no earlier record
// breaks the grouping, none beyond them shares more. The strings are read where they lie, without
// their padding.

ghost use Rattle.std.specs.Prelude.{false, ◌≡◌, ℕ, ◌<◌};
ghost use Rattle.table.specs.Table.{entry_at};
ghost use Rattle.table.specs.Grouping.{agreement, breaks_at, first_break};
ghost use Rattle.table.specs.inside.Found.{found};
ghost use Rattle.judge.specs.inside.Groups.{strings_by};

use framing::{offset_of, record_byte};
use table::Sections;

// The strings of an image's contraction records.
#[derive(Clone, Copy)]
pub(crate) struct Strings<'a> {
    pub(crate) image: &'a [u8],
    pub(crate) sections: Sections,
}

// In how many of their first characters two strings agree.
fn agreement_of(a: &[u8], b: &[u8]) -> usize
    ensures { result ≡ agreement a.now b.now }
{
    let mut shared = 0;
    for (x, y) in a.iter().zip(b) {
        if x != y {
            return shared;
        }
        shared += 1;
    }
    shared
}

impl<'a> Strings<'a> {
    // The string of contraction record `k`. The record's first byte says how many characters follow
    // it; where the image ends sooner, so does the string.
    fn string_of(&self, k: u16) -> &'a [u8]
        ensures { result.now ≡ (entry_at self.now.image.now self.now.sections k).string }
    {
        let contractions = self.sections.contractions;
        let n = usize::from(record_byte(self.image, contractions, k, 0));
        let at = offset_of(contractions, k) + 1;
        let rest = self.image.get(at..).unwrap_or(&[]);
        rest.get(..n).unwrap_or(rest)
    }

    // Whether record `r` breaks the grouping, where no record before it does: whether one on the
    // walk back shares more with it than the one just before it.
    fn breaks_at(&self, r: u16) -> bool
        requires { (0 < r) × (r < self.now.sections.contractions.records)
            × ((k : ℕ) → k < r → breaks_at (strings_by self.now) k ≡ false) }
        ensures { result ≡ breaks_at (strings_by self.now) r }
    {
        let string = self.string_of(r);
        let near = agreement_of(self.string_of(r - 1), string);
        if near == string.len() {
            return false;
        }
        for q in (0..r - 1).rev() {
            let shared = agreement_of(self.string_of(q), string);
            if near < shared {
                return true;
            }
            if shared < near {
                return false;
            }
        }
        false
    }

    // The first record that breaks the grouping.
    pub(crate) fn first_break(&self) -> Option<u16>
        ensures { result ≡ found (first_break (strings_by self.now)) }
    {
        for r in 1..self.sections.contractions.records {
            if self.breaks_at(r) {
                return Some(r);
            }
        }
        None
    }
}
