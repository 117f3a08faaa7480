// Right records: each kind of record is judged byte by byte as specs/Records.antt of `table` has it,
// and the first wrong byte of the first wrong record is found in image order. The alphabet's symbols
// are gathered once, so that a character is looked up in one step.

#![tactic(auto, using(std::proofs::lemmas::Bool::Decides::nat_tests), unfolding(table::specs::Records::right_symbol, table::specs::Records::right_class, table::specs::Records::right_letter_sign, table::specs::Records::right_entry_sign, table::specs::Records::right_sign_after, table::specs::Records::right_transition, table::specs::Records::right_condition, table::specs::Records::right_decision, table::specs::Records::right_context_byte))]

ghost use Rattle.std.specs.Prelude.{◌≡◌, ◌+◌, ◌<◌, not};
ghost use Rattle.table.specs.Numbers.{string_byte, signs_byte, entry_signs, most_length};
ghost use Rattle.table.specs.Search.{first};
ghost use Rattle.table.specs.Sections.{record_byte};
ghost use Rattle.table.specs.Records.{symbols, right_class, right_string_byte, right_symbol, right_letter_sign, right_entry_sign, right_sign_after, right_transition, right_condition, right_decision, right_context_byte, letter_rule, entry_rule, context_rule, transition_rule, decision_rule, wrong_byte, section_named, rule_of};
ghost use Rattle.table.specs.inside.Found.{found};
ghost use Rattle.records.specs.inside.Judging.{LettersBySymbol, sign_before};

use crate::judge::Judge;
use framing::{record_byte, years_of};
use table::{SectionName, Sections};

// For each byte the number, from 1, of the first alphabet record that has it for its symbol, and 0
// where none has.
// Kept: an Option for each byte takes 512 bytes of stack more, and the calls for C would need more than
// their header says.
pub(crate) fn letters_by_symbol(image: &[u8], s: Sections) -> [u16; 256]
    ensures { LettersBySymbol image.now s.alphabet result }
{
    let mut letters = [0; 256];
    for k in 0..s.alphabet.records {
        let c = usize::from(record_byte(image, s.alphabet, k, 0));
        if letters[c] == 0 {
            letters[c] = k + 1;
        }
    }
    letters
}

// A symbol is 32 to 126, and not the bar.
fn symbol_right(c: u8) -> bool
    ensures { result ≡ right_symbol c }
{
    matches!(c, 32..=126) && c != b'|'
}

// An alphabet sign is 0 to 64 or 99.
fn letter_sign_right(g: u8) -> bool
    ensures { result ≡ right_letter_sign g }
{
    matches!(g, 0..=64 | 99)
}

// An entry sign is 0 to 64, 70 to 73 or 99.
fn entry_sign_right(g: u8) -> bool
    ensures { result ≡ right_entry_sign g }
{
    letter_sign_right(g) || matches!(g, 70..=73)
}

// A sign is right where `before` stands before it: after a 99 only 99.
fn sign_after_right(before: u8, g: u8) -> bool
    ensures { result ≡ right_sign_after before g }
{
    if before == 99 {
        g == 99
    } else {
        entry_sign_right(g)
    }
}

fn transition_right(b: u8) -> bool
    ensures { result ≡ right_transition b }
{
    matches!(b, b'R' | b'S' | b'T' | b'-')
}

fn condition_right(b: u8) -> bool
    ensures { result ≡ right_condition b }
{
    matches!(b, b'Y' | b'N' | b'-')
}

fn decision_right(b: u8) -> bool
    ensures { result ≡ right_decision b }
{
    matches!(b, b'G' | b'F') || condition_right(b)
}

impl Judge<'_> {
    // A class is from 1 to the number of classes.
    fn class_right(&self, c: u8) -> bool
        ensures { result ≡ right_class self.now.sections c }
    {
        1 <= c && u16::from(c) <= self.sections.classes
    }

    // Whether byte `i` of the ten string bytes is right, in a string of `len` characters.
    fn character_right(&self, len: u8, i: u16, c: u8) -> bool
        ensures { result ≡ right_string_byte (symbols self.now.image.now self.now.sections) len i c }
    {
        if i < u16::from(len) {
            self.letters[usize::from(c)] != 0
        } else {
            c == 0
        }
    }

    // The first wrong one of the ten string bytes of contraction record `k`, `len` characters long.
    fn string_wrong(&self, k: u16, len: u8) -> Option<u16>
        ensures { result ≡ found (first
            (λ i. not (right_string_byte (symbols self.now.image.now self.now.sections) len i
            (record_byte self.now.image.now self.now.sections.contractions k (string_byte + i))))
            most_length) }
    {
        (0..10).find(|&i| !self.character_right(
            len,
            i,
            record_byte(self.image, self.sections.contractions, k, 1 + i),
        ))
    }

    // Whether a context number is right where the string has `len` characters: it exists, and is 0
    // where the length is 10.
    fn context_right(&self, len: u8, context: u8) -> bool
        ensures { result ≡ right_context_byte self.now.sections len context }
    {
        u16::from(context) <= self.sections.contexts.records && (context == 0 || len != 10)
    }

    // The first wrong one of the four signs of contraction record `k`.
    fn signs_wrong(&self, k: u16) -> Option<u16>
        ensures { result ≡ found (first
            (λ i. not (right_sign_after
            (sign_before self.now.image.now self.now.sections.contractions k i)
            (record_byte self.now.image.now self.now.sections.contractions k (signs_byte + i))))
            entry_signs) }
    {
        let mut before = 0;
        for i in 0..4 {
            let sign = record_byte(self.image, self.sections.contractions, k, 14 + i);
            if !sign_after_right(before, sign) {
                return Some(i);
            }
            before = sign;
        }
        None
    }

    // The first wrong byte of alphabet record `k`. Its symbol is not that of an earlier record where
    // the number by its symbol is its own.
    fn letter_wrong(&self, k: u16) -> Option<u16>
        requires { k < self.now.sections.alphabet.records }
        ensures { result ≡ found (wrong_byte (letter_rule self.now.image.now self.now.sections k)) }
    {
        let alphabet = self.sections.alphabet;
        let symbol = record_byte(self.image, alphabet, k, 0);
        let new = self.letters[usize::from(symbol)] == k + 1;
        if !(symbol_right(symbol) && new) {
            return Some(0);
        }
        if !self.class_right(record_byte(self.image, alphabet, k, 1)) {
            return Some(1);
        }
        if !letter_sign_right(record_byte(self.image, alphabet, k, 2)) {
            return Some(2);
        }
        None
    }

    // The first wrong byte of contraction record `k`.
    fn entry_wrong(&self, k: u16) -> Option<u16>
        ensures { result ≡ found (wrong_byte (entry_rule self.now.image.now self.now.sections k)) }
    {
        let contractions = self.sections.contractions;
        let len = record_byte(self.image, contractions, k, 0);
        if !(1..=10).contains(&len) {
            return Some(0);
        }
        if let Some(i) = self.string_wrong(k, len) {
            return Some(1 + i);
        }
        if !self.context_right(len, record_byte(self.image, contractions, k, 11)) {
            return Some(11);
        }
        if !self.class_right(record_byte(self.image, contractions, k, 12)) {
            return Some(12);
        }
        let shift = record_byte(self.image, contractions, k, 13);
        if !(1..=len).contains(&shift) {
            return Some(13);
        }
        if let Some(i) = self.signs_wrong(k) {
            return Some(14 + i);
        }
        let years = years_of(self.image, contractions, k);
        if years.first > years.last {
            return Some(18);
        }
        None
    }

    // The first wrong byte of context `k`, which is four classes.
    fn context_wrong(&self, k: u16) -> Option<u16>
        ensures { result ≡ found (wrong_byte (context_rule self.now.image.now self.now.sections k)) }
    {
        (0..4).find(|&j| !self.class_right(record_byte(self.image, self.sections.contexts, k, j)))
    }

    // The first wrong byte of transition record `k`, which has one for each class.
    fn transition_wrong(&self, k: u16) -> Option<u16>
        ensures { result ≡ found (wrong_byte (transition_rule self.now.image.now self.now.sections k)) }
    {
        let s = self.sections;
        (0..s.classes).find(|&j| !transition_right(record_byte(self.image, s.transitions, k, j)))
    }

    // The first wrong byte of decision column `k`, which has one for each class, and after them a
    // condition for each variable.
    fn decision_wrong(&self, k: u16) -> Option<u16>
        ensures { result ≡ found (wrong_byte (decision_rule self.now.image.now self.now.sections k)) }
    {
        let s = self.sections;
        (0..s.classes + s.variables).find(|&j| {
            let b = record_byte(self.image, s.decisions, k, j);
            if j < s.classes {
                !decision_right(b)
            } else {
                !condition_right(b)
            }
        })
    }

    // The first wrong byte of record `k` of a section.
    #[tactic(auto, unfolding(table::specs::Records::rule_of, table::specs::Records::section_named))]
    pub(crate) fn record_wrong(&self, name: SectionName, k: u16) -> Option<u16>
        requires { k < (section_named self.now.sections name).records }
        ensures { result ≡ found (wrong_byte (rule_of self.now.image.now self.now.sections name k)) }
    {
        match name {
            SectionName::Alphabet => self.letter_wrong(k),
            SectionName::Contractions => self.entry_wrong(k),
            SectionName::Contexts => self.context_wrong(k),
            SectionName::Transitions => self.transition_wrong(k),
            SectionName::Decisions => self.decision_wrong(k),
        }
    }
}
