// The alphabet: which record has a symbol, whether one has, what it says of the symbol, and the
// first character of a text that has no record.

ghost use Rattle.std.specs.Prelude.{◌≡◌};
ghost use Rattle.translation.specs.Letters.{letter_of, letter_for, class_of, is_known, is_unknown, first_unknown};
ghost use Rattle.translation.specs.inside.Tables.{table_by};
ghost use Rattle.table.specs.inside.Found.{found};

use crate::collapsing::unfed;
use crate::translator::Translator;

// What the record of a symbol says of it.
#[derive(Clone, Copy)]
pub(crate) struct Letter {
    pub(crate) class: u8,
    pub(crate) sign: u8,
}

impl Translator<'_> {
    // Which record of the alphabet has the symbol: `at` is where a record lies, its symbol first.
    // Kept: an offset counted along, as in `search`.
    fn letter_of(&self, c: u8) -> Option<u16>
        ensures { result ≡ found (letter_of (table_by self.now).letters c) }
    {
        let alphabet = self.sections.alphabet;
        let mut at = usize::from(alphabet.start);
        for k in 0..alphabet.records {
            if self.image[at] == c {
                return Some(k);
            }
            at += usize::from(alphabet.size);
        }
        None
    }

    // The class and the sign of a symbol, 0 and 99 where it has no record.
    pub(crate) fn letter_for(&self, c: u8) -> Letter
        ensures class { result.class ≡ class_of (table_by self.now).letters c }
        ensures sign { result.sign ≡ (letter_for (table_by self.now).letters c).sign }
    {
        let alphabet = self.sections.alphabet;
        match self.letter_of(c) {
            Some(k) => Letter {
                class: framing::record_byte(self.image, alphabet, k, 1),
                sign: framing::record_byte(self.image, alphabet, k, 2),
            },
            None => Letter { class: 0, sign: 99 },
        }
    }

    // Whether a symbol has a record.
    pub(crate) fn is_known(&self, c: u8) -> bool
        ensures { result ≡ is_known (table_by self.now).letters c }
    {
        self.letter_of(c).is_some()
    }

    // Whether a lent character is one that remains and has no record.
    #[tactic(auto, unfolding(crate::specs::Letters::is_known, crate::specs::Letters::is_unknown))]
    fn is_unknown(&self, c: u8) -> bool
        ensures { result ≡ is_unknown (table_by self.now).letters c }
    {
        c != b'|' && !self.is_known(unfed(c))
    }

    // The first character of the text as lent that has no record.
    pub(crate) fn first_unknown(&self, text: &[u8]) -> Option<usize>
        ensures { result ≡ found (first_unknown (table_by self.now).letters text.now) }
    {
        text.iter().position(|c| self.is_unknown(*c))
    }
}
