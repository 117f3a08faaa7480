// The verdict on an image: the frame, the records, the blank and the grouping, in this order.

ghost use Rattle.std.specs.Prelude.{◌≡◌, Err};
ghost use Rattle.table.specs.Verdict.{refusal_in, grouping_verdict};
ghost use Rattle.framing.specs.Promises.{Framed};
ghost use Rattle.judge.specs.Promises.{Checked};
ghost use Rattle.judge.specs.inside.Faults.{refusal_of};

use crate::groups::Strings;
use framing::{framed, offset_of, section_named};
use records::{Fault, judge_records};
use table::{Refusal, SectionName, Sections};

// The refusal of a wrong record of a section, at a byte of the image.
fn refusal_in(name: SectionName, at: usize) -> Refusal
    ensures { result ≡ refusal_in name at }
{
    match name {
        SectionName::Alphabet => Refusal::Alphabet(at),
        SectionName::Contractions => Refusal::Contraction(at),
        SectionName::Contexts => Refusal::Context(at),
        SectionName::Transitions => Refusal::Transition(at),
        SectionName::Decisions => Refusal::Decision(at),
    }
}

// The refusal of what is wrong with the records.
fn refusal_of(s: Sections, fault: Fault) -> Refusal
    ensures { result ≡ refusal_of s fault }
{
    match fault {
        Fault::Wrong(name, k, j) => {
            refusal_in(name, offset_of(section_named(s, name), k) + usize::from(j))
        }
        Fault::NoBlank => Refusal::NoBlank,
    }
}

// The verdict on the grouping of an image.
fn judge_grouping(image: &[u8], s: Sections) -> Result<(), Refusal>
    ensures { result ≡ grouping_verdict image.now s }
{
    let strings = Strings { image, sections: s };
    match strings.first_break() {
        Some(r) => Err(Refusal::Grouping(offset_of(s.contractions, r))),
        None => Ok(()),
    }
}

// The verdict on any image, by its sections where it has them: accepted, or the first thing that is
// wrong with it, and where.
pub(crate) fn verdict_on(image: &[u8], found: Option<Sections>) -> Result<(), Refusal>
    requires { Framed image.now found }
    ensures { Checked image.now result }
{
    let s = found.ok_or(Refusal::Frame)?;
    match judge_records(image) {
        Ok(()) => judge_grouping(image, s),
        Err(fault) => Err(refusal_of(s, fault)),
    }
}

// The verdict on any image.
pub fn check(image: &[u8]) -> Result<(), Refusal>
    ensures { Checked image.now result }
{
    verdict_on(image, framed(image))
}
