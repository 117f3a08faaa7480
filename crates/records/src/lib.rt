// The records of an image, judged byte by byte: the first wrong byte of the first wrong record in
// image order, and whether the alphabet has the blank. Each image has its answer, whatever its frame
// is. What the answer means is said in specs/.

#![tactic(auto)]

mod judge;
mod rules;
mod searching;

pub use searching::judge_records;
use table::SectionName;

// What is wrong with the records of an image: a wrong byte, by its section, its record's number
// there and its own number in the record; or that no record of the alphabet has the blank.
#[derive(Clone, Copy, Debug, PartialEq, Eq)]
pub enum Fault {
    Wrong(SectionName, u16, u16),
    NoBlank,
}
