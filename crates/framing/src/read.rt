// Readers: a section by its name, the offset of a record, single bytes and parts of records, and
// the years of an entry, read out of the lent image by a section and the numbers of a record and a
// byte. The numbers are so narrow that no offset
// overflows; outside the image a byte is 0 and a part is empty.

ghost use Rattle.std.specs.Prelude.{◌≡◌, ◌+◌, ◌<◌};
ghost use Rattle.table.specs.Sections.{offset, number_at};
ghost use Rattle.framing.specs.Promises.{SectionNamed, SectionAt, OffsetOf, RecordByte, RecordPart, YearsOf};

use table::{Section, SectionName, Sections, Years};

// The section of this name.
#[tactic(auto, unfolding(table::specs::Records::section_named))]
pub fn section_named(s: Sections, name: SectionName) -> Section
    ensures { SectionNamed s name result }
{
    match name {
        SectionName::Alphabet => s.alphabet,
        SectionName::Contractions => s.contractions,
        SectionName::Contexts => s.contexts,
        SectionName::Transitions => s.transitions,
        SectionName::Decisions => s.decisions,
    }
}

// Section `i`, counted from 0 in image order: from 4 on the decisions.
// Kept: it is promised for every number (SectionAt), and a name would ask more of its caller.
#[tactic(auto, unfolding(table::specs::Records::section_named))]
pub fn section_at(s: Sections, i: u8) -> Section
    ensures { SectionAt s i result }
{
    match i {
        0 => s.alphabet,
        1 => s.contractions,
        2 => s.contexts,
        3 => s.transitions,
        _ => s.decisions,
    }
}

// The offset of record `k` of a section.
pub fn offset_of(s: Section, k: u16) -> usize
    ensures { OffsetOf s k result }
{
    usize::from(s.start) + usize::from(s.size) * usize::from(k)
}

// Byte `j` of record `k` of a section, or 0 outside the image.
pub fn record_byte(image: &[u8], s: Section, k: u16, j: u16) -> u8
    ensures { RecordByte image.now s k j result }
{
    let at = offset_of(s, k) + usize::from(j);
    image.get(at).copied().unwrap_or(0)
}

// The `n` bytes from byte `j` of record `k` of a section on, or nothing where they don't all lie
// within the image.
pub fn record_part(image: &[u8], s: Section, k: u16, j: u16, n: u16) -> &[u8]
    ensures { RecordPart image.now s k j n result.now }
{
    let at = offset_of(s, k) + usize::from(j);
    image.get(at..at + usize::from(n)).unwrap_or(&[])
}

// The two-byte number at byte `j` of record `k` of a section, low byte first.
fn record_number(image: &[u8], s: Section, k: u16, j: u16) -> u16
    requires { j < 65535 }
    ensures { result ≡ number_at image.now (offset s k + j) }
{
    let low = record_byte(image, s, k, j);
    let high = record_byte(image, s, k, j + 1);
    u16::from_le_bytes([low, high])
}

// The years of contraction record `k`; of records that have none, from 0 to 65,535, which is
// always.
pub fn years_of(image: &[u8], entries: Section, k: u16) -> Years
    ensures { YearsOf image.now entries k result }
{
    if entries.size == 22 {
        Years {
            first: record_number(image, entries, k, 18),
            last: record_number(image, entries, k, 20),
        }
    } else {
        Years {
            first: 0,
            last: 65535,
        }
    }
}
