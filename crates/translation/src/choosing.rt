// The choice of entry at a place of the text. Every function here that looks at the text is handed
// the rest of it from that place on, and knows nothing of what lies before it. Entries are read
// where they lie, and of each its first character before anything else.

ghost use Rattle.std.specs.Prelude.{◌≡◌, ◌<◌, length};
ghost use Rattle.translation.specs.Choose.{begins, class_after, context_holds, in_force, admissible, choice};
ghost use Rattle.table.specs.inside.Found.{found};
ghost use Rattle.translation.specs.inside.Tables.{table_by, entry_by, states_by};

use crate::translator::Translator;
use crate::variables::States;

// Whether a string begins the rest.
// Kept: a loop. `starts_with` is a call for each entry that has the first character of the rest, and
// by a table with many such entries the whole call then takes up to half as long again.
fn starts(string: &[u8], rest: &[u8]) -> bool
    ensures { result ≡ begins string.now rest.now }
{
    if rest.len() < string.len() {
        return false;
    }
    for (i, &c) in string.iter().enumerate() {
        if c != rest[i] {
            return false;
        }
    }
    true
}

impl Translator<'_> {
    // Whether the whole string of entry `k` begins the rest.
    fn begins(&self, k: u16, rest: &[u8]) -> bool
        requires { k < self.now.sections.contractions.records }
        ensures { result ≡ begins (entry_by self.now k).string rest.now }
    {
        let entries = self.sections.contractions;
        let n = framing::record_byte(self.image, entries, k, 0);
        let string = framing::record_part(self.image, entries, k, 1, u16::from(n));
        starts(string, rest)
    }

    // Whether entry `k` is in force in the year.
    #[tactic(auto, unfolding(crate::specs::Choose::in_force, table::specs::Table::entry_at))]
    fn in_force(&self, k: u16) -> bool
        ensures { result ≡ in_force self.now.setting.year (entry_by self.now k) }
    {
        let year = self.setting.year;
        let years = framing::years_of(self.image, self.sections.contractions, k);
        years.first <= year && year <= years.last
    }

    // The class of the character after the first `n` of the rest; past the end of text, of the
    // symbol that follows it.
    fn class_after(&self, rest: &[u8], n: usize) -> u8
        ensures { result ≡ class_after (table_by self.now) self.now.setting rest.now n }
    {
        let c = rest.get(n).copied().unwrap_or(self.setting.following);
        self.letter_for(c).class
    }

    // Whether the right context of entry `k` is none or holds the class of the character after the
    // entry's string.
    fn context_holds(&self, k: u16, rest: &[u8]) -> bool
        requires { k < self.now.sections.contractions.records }
        ensures { result ≡ context_holds (table_by self.now) self.now.setting rest.now
            (entry_by self.now k) }
    {
        let entries = self.sections.contractions;
        let number = framing::record_byte(self.image, entries, k, 11);
        if number == 0 {
            return true;
        }
        let n = usize::from(framing::record_byte(self.image, entries, k, 0));
        let c = self.class_after(rest, n);
        let contexts = self.sections.contexts;
        framing::record_part(self.image, contexts, u16::from(number - 1), 0, 4).contains(&c)
    }

    // Whether entry `k` is admissible: its whole string begins the rest, the year is one of its
    // years, its right context holds, and the decision table accepts its class.
    #[tactic(auto, unfolding(crate::specs::Choose::admissible, table::specs::Table::entry_at))]
    fn admits(&self, states: &States, k: u16, rest: &[u8]) -> bool
        requires { k < self.now.sections.contractions.records }
        ensures { result ≡ admissible (table_by self.now) self.now.setting
            (states_by self.now states.now) rest.now (entry_by self.now k) }
    {
        let entries = self.sections.contractions;
        self.begins(k, rest)
            && self.in_force(k)
            && self.context_holds(k, rest)
            && self.decide(states, framing::record_byte(self.image, entries, k, 12))
    }

    // The first admissible entry in table order. Of each entry its first character is looked at
    // before anything else: `at` is where the entry lies.
    // Kept: an offset counted along. `record_byte` asks of each byte whether it lies within the
    // image, and by it the whole call misses its bar of speed (docs/DECISIONS.md, 'translation').
    pub(crate) fn search(&self, states: &States, rest: &[u8]) -> Option<u16>
        requires { 0 < length rest.now }
        ensures { result ≡ found (choice (table_by self.now) self.now.setting
            (states_by self.now states.now) rest.now) }
    {
        let entries = self.sections.contractions;
        let size = usize::from(entries.size);
        let first = rest[0];
        let mut at = usize::from(entries.start);
        for k in 0..entries.records {
            if self.image[at + 1] == first && self.admits(states, k, rest) {
                return Some(k);
            }
            at += size;
        }
        None
    }
}
