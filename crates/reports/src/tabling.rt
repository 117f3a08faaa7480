// A table in words: what an accepted one has, and of a refused one the section, the record, the byte,
// what it holds and what it may hold.

ghost use Rattle.std.specs.Prelude.{◌<◌, IfSome};

use crate::Table;
use crate::lining::line_of;
use desk::{Failure, say, say_refused};
use framing::{locate, record_byte, record_part, section_named, years_of};
use stamp::{Stamped, numbers_of};
use std::fmt;
use std::fmt::Display;
use std::io::Error;
use table::{Refusal, Section, SectionName, Sections, Years};
use tables::Keyword;

// A byte of a record of an image: the number of the record in its section, and of the byte in it, from
// 0.
#[derive(Clone, Copy)]
struct Byte<'a> {
    image: &'a [u8],
    sections: Sections,
    section: Section,
    index: u16,
    byte: u16,
}

impl Byte<'_> {
    // What it holds.
    fn held(self) -> u8 {
        record_byte(self.image, self.section, self.index, self.byte)
    }

    // What the record's first byte holds.
    fn first(self) -> u8 {
        record_byte(self.image, self.section, self.index, 0)
    }

    // The number of the record, counted from 1.
    fn record(self) -> u32 {
        u32::from(self.index) + 1
    }

    // The number of the byte in it, counted from 1.
    fn number(self) -> u32 {
        u32::from(self.byte) + 1
    }
}

// The byte that lies at this offset of the image in a record of this section, if one does.
fn byte_at(image: &[u8], name: SectionName, place: usize) -> Option<Byte<'_>> {
    let sections = locate(image);
    let section = section_named(sections, name);
    let size = usize::from(section.size);
    let past = place.checked_sub(usize::from(section.start))?;
    let index = u16::try_from(past.checked_div(size)?).ok()?;
    if section.records <= index {
        return None;
    }
    Some(Byte {
        image,
        sections,
        section,
        index,
        // Kept: the byte is below `size`, so `u16::try_from` would add a case that can't be.
        byte: (past % size) as u16,
    })
}

// What a refusal of a table is about: its frame, its missing blank, a wrong byte of a section, entries
// that aren't grouped, or an entry that isn't always in force.
#[derive(Clone, Copy, PartialEq, Eq)]
enum Wrong {
    Frame,
    NoBlank,
    Byte(SectionName),
    Grouping,
    Dated,
}

// By the refusal's number: the one place here that knows the numbers. Kept: `refused_table` takes
// any number, as it always did.
impl From<u8> for Wrong {
    fn from(number: u8) -> Wrong {
        match number {
            1 => Wrong::Frame,
            2 => Wrong::Byte(SectionName::Alphabet),
            3 => Wrong::NoBlank,
            4 => Wrong::Grouping,
            11 => Wrong::Byte(SectionName::Contractions),
            12 => Wrong::Byte(SectionName::Contexts),
            13 => Wrong::Byte(SectionName::Transitions),
            14 => Wrong::Byte(SectionName::Decisions),
            _ => Wrong::Dated,
        }
    }
}

impl Wrong {
    // The section that a place lies in.
    fn section(self) -> SectionName {
        match self {
            Wrong::Byte(name) => name,
            _ => SectionName::Contractions,
        }
    }
}

// A byte of an image as a character, where it is one that is seen.
#[derive(Clone, Copy)]
struct Shown(u8);

impl Display for Shown {
    fn fmt<W: fmt::Write>(&self, f: &mut fmt::Formatter<W>) -> fmt::Result {
        let byte = self.0;
        if matches!(byte, 32..=126) {
            f.write_char(char::from(byte))
        } else {
            f.write_str("?")
        }
    }
}

// The string of an entry, each byte so.
#[derive(Clone, Copy)]
struct Word<'a>(&'a [u8]);

impl Display for Word<'_> {
    fn fmt<W: fmt::Write>(&self, f: &mut fmt::Formatter<W>) -> fmt::Result {
        for byte in self.0 {
            write!(f, "{}", Shown(*byte))?;
        }
        Ok(())
    }
}

// What a class may be, of so many.
#[derive(Clone, Copy)]
struct Class(u16);

impl Display for Class {
    fn fmt<W: fmt::Write>(&self, f: &mut fmt::Formatter<W>) -> fmt::Result {
        let classes = self.0;
        write!(f, "a class, 1 to {classes}")
    }
}

// Which byte it is, what it holds and what it may hold.
fn say_holds<B: Display + Drop, M: Display + Drop>(rt: &HostRuntime, byte: B, held: u8, may: M) {
    let _ = eprintln!(rt; "{byte}): it holds {held} and may hold {may}");
}

fn tell_letter(rt: &HostRuntime, at: Byte) {
    let symbol = Shown(at.first());
    let held = at.held();
    let _ = eprint!(rt; " (letter {} '{symbol}'", at.record());
    match at.byte {
        0 => say_holds(
            rt,
            ", its symbol",
            held,
            "32 to 126, not 124, and no symbol of an earlier letter",
        ),
        1 => say_holds(rt, ", its class", held, Class(at.sections.classes)),
        _ => say_holds(rt, ", its sign", held, "0 to 64, or 99 for none"),
    }
}

fn say_entry(rt: &HostRuntime, at: Byte) {
    let length = u16::from(at.first()).min(10);
    let string = Word(record_part(at.image, at.section, at.index, 1, length));
    let _ = eprint!(rt; " (entry {} '{string}'", at.record());
}

fn tell_entry(rt: &HostRuntime, at: Byte) {
    let Sections {
        contexts,
        classes,
        ..
    } = at.sections;
    let held = at.held();
    say_entry(rt, at);
    match at.byte {
        0 => say_holds(rt, ", its length", held, "1 to 10"),
        character @ 1..=10 => say_holds(
            rt,
            format_args!(", character {character}"),
            held,
            "a symbol of the alphabet, or 0 past the length",
        ),
        11 => say_holds(
            rt,
            ", its right context",
            held,
            format_args!(
                "0 for none or 1 to {}, and 0 where the length is 10",
                contexts.records
            ),
        ),
        12 => say_holds(rt, ", its class", held, Class(classes)),
        13 => say_holds(
            rt,
            ", its shift",
            held,
            format_args!("1 to {}, its length", at.first()),
        ),
        byte @ 14..=17 => say_holds(
            rt,
            format_args!(", sign {}", byte - 13),
            held,
            "0 to 64, 70 to 73 or 99, and after a 99 only 99",
        ),
        _ => {
            let Years { first, last } = years_of(at.image, at.section, at.index);
            let _ = eprintln!(rt;
                ", its first year): it is {first} and may not be after the last, {last}"
            );
        }
    }
}

fn tell_context(rt: &HostRuntime, at: Byte) {
    let _ = eprint!(rt; " (right context {}", at.record());
    say_holds(
        rt,
        format_args!(", class {} of its four", at.number()),
        at.held(),
        Class(at.sections.classes),
    );
}

fn tell_transition(rt: &HostRuntime, at: Byte) {
    let _ = eprint!(rt; " (transition of variable {}", at.record());
    say_holds(
        rt,
        format_args!(", for class {}", at.number()),
        at.held(),
        "R, S, T or -, which are 82, 83, 84 and 45",
    );
}

fn tell_decision(rt: &HostRuntime, at: Byte) {
    let _ = eprint!(rt; " (decision column {}", at.record());
    match at.byte.checked_sub(at.sections.classes) {
        None => say_holds(
            rt,
            format_args!(", for class {}", at.number()),
            at.held(),
            "G, F, Y, N or -, which are 71, 70, 89, 78 and 45",
        ),
        Some(variable) => say_holds(
            rt,
            format_args!(", for variable {}", u32::from(variable) + 1),
            at.held(),
            "Y, N or -, which are 89, 78 and 45",
        ),
    }
}

fn tell_record(rt: &HostRuntime, wrong: Wrong, at: Byte) {
    match wrong {
        Wrong::Byte(SectionName::Alphabet) => tell_letter(rt, at),
        Wrong::Byte(SectionName::Contractions) => tell_entry(rt, at),
        Wrong::Byte(SectionName::Contexts) => tell_context(rt, at),
        Wrong::Byte(SectionName::Transitions) => tell_transition(rt, at),
        Wrong::Byte(SectionName::Decisions) => tell_decision(rt, at),
        Wrong::Grouping => {
            say_entry(rt, at);
            say(
                rt,
                b"): the entries aren't grouped; put those that begin alike side by side\n",
            );
        }
        _ => {
            say_entry(rt, at);
            say(
                rt,
                b"): it isn't always in force, and the old form has no years\n",
            );
        }
    }
}

// The lines of a section in a readable table.
fn lines_of(section: SectionName) -> Keyword {
    match section {
        SectionName::Alphabet => Keyword::Letter,
        SectionName::Contractions => Keyword::Entry,
        SectionName::Contexts => Keyword::Context,
        SectionName::Transitions => Keyword::Transition,
        SectionName::Decisions => Keyword::Decision,
    }
}

// The line of a readable table that the wrong byte comes from. A table without a blank has none.
fn say_line(rt: &HostRuntime, wrong: Wrong, at: Byte, text: &[u8]) {
    if wrong == Wrong::NoBlank {
        return;
    }
    let word = lines_of(wrong.section()).word();
    let line = line_of(text, word, usize::from(at.index)).unwrap_or(0);
    let _ = eprint!(rt; ", line {line} of the table");
}

// The refusals of a table: 1, 2, 11 to 14, 3, 4, and 17 of a mover.
pub fn refused_table(rt: &HostRuntime, number: u8, place: usize, table: Table) -> Failure {
    let wrong = Wrong::from(number);
    let at = byte_at(table.image, wrong.section(), place);
    say_refused(rt, number, place);
    if let (Some(at), Some(text)) = (at, table.text) {
        say_line(rt, wrong, at, text);
    }
    match wrong {
        Wrong::Frame => say(
            rt,
            b": this is no whole table image; its trailer or the lengths of its sections are wrong\n",
        ),
        Wrong::NoBlank => say(rt, b": the alphabet has no blank\n"),
        _ => match at {
            Some(at) => tell_record(rt, wrong, at),
            None => say(rt, b"\n"),
        },
    }
    Failure::Refused
}

// ---- An accepted table

// The first year after `year` in which an entry of these years comes into force or goes out of it, if
// there is one.
fn change_after(years: Years, year: u16) -> Option<u16>
    ensures { IfSome result (λ change. year < change) }
{
    if year < years.first {
        Some(years.first)
    } else if year <= years.last {
        years.last.checked_add(1)
    } else {
        None
    }
}

// The entries of an image.
#[derive(Clone, Copy)]
struct Entries<'a> {
    image: &'a [u8],
    section: Section,
}

impl Entries<'_> {
    fn years(self, k: u16) -> Years {
        years_of(self.image, self.section, k)
    }

    fn in_force(self, k: u16, year: u16) -> bool {
        let Years { first, last } = self.years(k);
        first <= year && year <= last
    }

    fn count_in_force(self, year: u16) -> usize {
        (0..self.section.records)
            .filter(|k| self.in_force(*k, year))
            .count()
    }

    // The first year after `year` that has other entries in force, if there is one.
    fn next_change(self, year: u16) -> Option<u16>
        ensures { IfSome result (λ change. year < change) }
    {
        (0..self.section.records)
            .filter_map(|k| change_after(self.years(k), year))
            .min()
    }
}

// How many entries are in force from the year `first` until the year `next`, if there is one.
fn print_span(rt: &HostRuntime, n: usize, first: u16, next: Option<u16>) -> Result<(), Error>
    requires { IfSome next (λ change. 0 < change) }
{
    match (first, next) {
        (0, None) => println!(rt; "in force   {n} in every year"),
        (0, Some(next)) => println!(rt; "in force   {n} until {}", next - 1),
        (_, None) => println!(rt; "in force   {n} from {first}"),
        (_, Some(next)) => println!(rt; "in force   {n} from {first} to {}", next - 1),
    }
}

// How many entries are in force in each year: a line for each run of years with the same ones.
fn print_years(rt: &HostRuntime, entries: Entries) -> Result<(), Error> {
    let mut from = Some(0);
    while let Some(year) = from {
        let next = entries.next_change(year);
        print_span(rt, entries.count_in_force(year), year, next)?;
        from = next;
    }
    Ok(())
}

// The year that was asked for. 65535 isn't: it is what has no end, and in the last line of the years.
fn print_asked(rt: &HostRuntime, entries: Entries, year: u16) -> Result<(), Error> {
    if year == 65535 {
        return Ok(());
    }
    let n = entries.count_in_force(year);
    println!(rt; "in force   {n} in {year}")
}

fn form_of(size: u16) -> &'static str {
    if size == 22 { "dated" } else { "old" }
}

// The stamp in hexadecimal, zeros where the image has none.
pub fn print_stamp(rt: &HostRuntime, stamped: Result<Stamped, Refusal>) -> Result<(), Error> {
    let Stamped { first, second } = numbers_of(stamped);
    println!(rt; "{first:08x} {second:08x}")
}

// What an accepted table has, and why it didn't go through where it didn't.
pub fn print_table(rt: &HostRuntime, image: &[u8], year: u16) -> Result<(), Error> {
    let s = locate(image);
    let section = s.contractions;
    let entries = Entries { image, section };
    println!(rt; "accepted, in the {} form", form_of(section.size))?;
    println!(rt; "letters    {}", s.alphabet.records)?;
    println!(rt; "entries    {}", section.records)?;
    print_years(rt, entries)?;
    print_asked(rt, entries, year)?;
    println!(rt; "contexts   {}", s.contexts.records)?;
    println!(rt; "variables  {}", s.variables)?;
    println!(rt; "columns    {}", s.decisions.records)?;
    print!(rt; "stamp      ")?;
    print_stamp(rt, stamp::stamp(image))
}
