// The records of an image, which is lent alone: its sections are found, the letters are gathered by
// their symbols, and the records are gone through in image order.

ghost use Rattle.std.specs.Prelude.{◌≡◌};
ghost use Rattle.table.specs.Records.{wrong_in, first_wrong};
ghost use Rattle.records.specs.Promises.{RecordsJudged};
ghost use Rattle.records.specs.inside.Judging.{fault_of};

use crate::Fault;
use crate::judge::Judge;
use crate::rules::letters_by_symbol;
use framing::{locate, section_named};
use table::SectionName;

// In the order in which they lie.
const SECTIONS: [SectionName; 5] = [
    SectionName::Alphabet,
    SectionName::Contractions,
    SectionName::Contexts,
    SectionName::Transitions,
    SectionName::Decisions,
];

impl Judge<'_> {
    // The first wrong record of a section is its fault.
    fn judge_section(&self, name: SectionName) -> Result<(), Fault>
        ensures { result ≡ fault_of (wrong_in self.now.image.now self.now.sections name) }
    {
        for k in 0..section_named(self.sections, name).records {
            if let Some(j) = self.record_wrong(name, k) {
                return Err(Fault::Wrong(name, k, j));
            }
        }
        Ok(())
    }

    // And so is that of all sections.
    fn judge_sections(&self) -> Result<(), Fault>
        ensures { result ≡ fault_of (first_wrong self.now.image.now self.now.sections) }
    {
        for name in SECTIONS {
            self.judge_section(name)?;
        }
        Ok(())
    }
}

// What is wrong with the records of any image, first of all. Where its frame is wrong it has no
// records, and so no blank.
pub fn judge_records(image: &[u8]) -> Result<(), Fault>
    ensures { RecordsJudged image.now result }
{
    let sections = locate(image);
    let letters = letters_by_symbol(image, sections);
    let judge = Judge {
        image,
        sections,
        letters: &letters,
    };
    judge.judge_sections()?;
    if letters[32] == 0 {
        return Err(Fault::NoBlank);
    }
    Ok(())
}
