// Decisions: the columns of the decision table, read from the left with the states as they are.

ghost use Rattle.std.specs.List.{list_all};
ghost use Rattle.std.specs.Prelude.{◌≡◌, ℕ, ◌+◌, ◌≤◌, ◌<◌, Bool, length, zip};
ghost use Rattle.table.specs.Sections.{offset, record_part};
ghost use Rattle.translation.specs.Decide.{byte_of_class, condition_holds, conditions_hold, ruling, decided};
ghost use Rattle.translation.specs.inside.States.{said};
ghost use Rattle.translation.specs.inside.Tables.{table_by, column_by, states_by};

use crate::translator::Translator;
use crate::variables::States;
use table::Section;

// Whether a state meets a condition: Y yes, N no, - either.
#[tactic(auto, unfolding(crate::specs::Decide::condition_holds))]
fn meets(b: u8, was: bool) -> bool
    ensures { result ≡ condition_holds b was }
{
    match b {
        b'Y' => was,
        b'N' => !was,
        _ => true,
    }
}

// Whether the states of the first variables meet these conditions, one each.
fn all_meet(conditions: &[u8], yes: &[bool]) -> bool
    ensures { result ≡ list_all (λ (p : ℕ × Bool). condition_holds p.0 p.1)
        (zip conditions.now yes.now) }
{
    conditions.iter().zip(yes).all(|(b, was)| meets(*b, *was))
}

impl Translator<'_> {
    // The byte of a class, counted from 1, in a record that begins with a byte for each class, a
    // hyphen where it has none.
    pub(crate) fn byte_of_class(&self, section: Section, k: u16, c: u8) -> u8
        requires { offset section k + self.now.sections.classes ≤ length self.now.image.now }
        ensures { result ≡ byte_of_class
            (record_part self.now.image.now section k 0 self.now.sections.classes) c }
    {
        let j = u16::from(c.saturating_sub(1));
        if j < self.sections.classes {
            framing::record_byte(self.image, section, k, j)
        } else {
            b'-'
        }
    }

    // Whether a column's conditions all hold.
    fn conditions_hold(&self, states: &States, k: u16) -> bool
        requires { k < self.now.sections.decisions.records }
        ensures { result ≡ conditions_hold (column_by self.now k)
            (states_by self.now states.now) }
    {
        let s = self.sections;
        let conditions = framing::record_part(self.image, s.decisions, k, s.classes, s.variables);
        all_meet(conditions, &states.yes)
    }

    // What a column says of a class: that it is accepted or that it isn't, or nothing, and the next
    // column is asked.
    #[tactic(auto, unfolding(crate::specs::Decide::ruling, table::specs::Table::column_at))]
    fn rule(&self, states: &States, k: u16, c: u8) -> Option<bool>
        requires { k < self.now.sections.decisions.records }
        ensures { said result ≡ ruling (column_by self.now k)
            (states_by self.now states.now) c }
    {
        match self.byte_of_class(self.sections.decisions, k, c) {
            b'G' => Some(true),
            b'F' => Some(false),
            b'Y' if self.conditions_hold(states, k) => Some(true),
            b'N' if self.conditions_hold(states, k) => Some(false),
            _ => None,
        }
    }

    // Whether the decision table accepts a class.
    pub(crate) fn decide(&self, states: &States, c: u8) -> bool
        ensures { result ≡ decided (table_by self.now).decisions (states_by self.now states.now) c }
    {
        for k in 0..self.sections.decisions.records {
            if let Some(accepted) = self.rule(states, k, c) {
                return accepted;
            }
        }
        false
    }
}
