// The pieces of a collapsed text, front to back: each is made at the front of the rest, prints its
// signs, takes its characters and moves the states.

ghost use Rattle.std.specs.Prelude.{◌≡◌, cond, [], ◌∷◌, ◌+◌, ◌*◌, ◌≤◌, ◌<◌, eqb, length};
ghost use Rattle.table.specs.Numbers.{entry_signs, other_blank, blank_cell};
ghost use Rattle.translation.specs.Letters.{letter_for};
ghost use Rattle.translation.specs.Pieces.{printed, front_piece, pieces_in};
ghost use Rattle.translation.specs.inside.Making.{WroteUntil, MadeByEntry, MadeByLetter, MadeAs, Consumed};
ghost use Rattle.translation.specs.inside.Tables.{table_by, entry_by, states_by};

use crate::Counts;
use crate::translator::Translator;
use crate::variables::States;

// A piece that is made: how many characters it takes, its class, and how many signs it prints.
#[derive(Clone, Copy)]
struct Piece {
    shift: usize,
    class: u8,
    signs: usize,
}

// A sign as it is written: 64 as the blank.
fn cell_of(sign: u8) -> u8
    ensures { result ≡ cond (eqb sign other_blank) blank_cell sign }
{
    if sign == 64 { 0 } else { sign }
}

// Writes a sign at the front, unless it is 99, and answers how many that are.
fn print(sign: u8, signs: &mut [u8]) -> usize
    requires { 0 < length signs.old }
    ensures { WroteUntil signs.old 0 (printed (sign ∷ [])) signs.new result }
{
    if sign == 99 {
        return 0;
    }
    signs[0] = cell_of(sign);
    1
}

// Writes the signs of an entry one after another from the front, and answers how many that are.
fn print_all(list: &[u8], signs: &mut [u8]) -> usize
    requires { length list.now ≤ length signs.old }
    ensures { WroteUntil signs.old 0 (printed list.now) signs.new result }
{
    let mut n = 0;
    for sign in list {
        n += print(*sign, &mut signs[n..]);
    }
    n
}

impl Translator<'_> {
    // The piece of entry `k`: its shift, its class and its signs.
    fn by_entry(&self, k: u16, signs: &mut [u8]) -> Piece
        requires there { k < self.now.sections.contractions.records }
        requires room { entry_signs ≤ length signs.old }
        ensures { MadeByEntry (entry_by self.now k) signs.old signs.new result }
    {
        let entries = self.sections.contractions;
        Piece {
            shift: usize::from(framing::record_byte(self.image, entries, k, 13)),
            class: framing::record_byte(self.image, entries, k, 12),
            signs: print_all(framing::record_part(self.image, entries, k, 14, 4), signs),
        }
    }

    // The piece of a character alone: its class and its sign.
    fn by_letter(&self, c: u8, signs: &mut [u8]) -> Piece
        requires { 0 < length signs.old }
        ensures { MadeByLetter (letter_for (table_by self.now).letters c)
            signs.old signs.new result }
    {
        let letter = self.letter_for(c);
        Piece {
            shift: 1,
            class: letter.class,
            signs: print(letter.sign, signs),
        }
    }

    // The piece at the front of the rest: by the first admissible entry, or by the character alone
    // where there is none.
    fn front_piece(&self, states: &States, rest: &[u8], signs: &mut [u8]) -> Piece
        requires more { 0 < length rest.now }
        requires room { entry_signs ≤ length signs.old }
        ensures { MadeAs
            (front_piece (table_by self.now) self.now.setting
            (states_by self.now states.now) rest.now)
            signs.old signs.new result }
    {
        match self.search(states, rest) {
            Some(k) => self.by_entry(k, signs),
            None => self.by_letter(rest[0], signs),
        }
    }

    // All pieces of the text, their signs written from the front.
    pub(crate) fn consume(&self, text: &[u8], signs: &mut [u8]) -> Counts
        requires { entry_signs * length text.now ≤ length signs.old }
        ensures { Consumed (pieces_in (table_by self.now) self.now.setting text.now)
            signs.old signs.new result }
    {
        let mut states = States::start();
        let mut rest = text;
        let mut counts = Counts {
            pieces: 0,
            signs: 0,
        };
        while !rest.is_empty() {
            let made = self.front_piece(&states, rest, &mut signs[counts.signs..]);
            counts.pieces += 1;
            counts.signs += made.signs;
            rest = &rest[made.shift..];
            states = self.moved(states, made.class);
        }
        counts
    }
}
