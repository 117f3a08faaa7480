// The state variables: all start at no, and each piece's class moves them. The states are a value
// that goes in and comes back.

ghost use Rattle.std.specs.Prelude.{◌≡◌, false, replicate};
ghost use Rattle.table.specs.Numbers.{most_variables};
ghost use Rattle.translation.specs.Decide.{turned, moved};
ghost use Rattle.translation.specs.inside.Tables.{table_by, states_by};

use crate::translator::Translator;

// The states of the variables, as a value: yes or no for each of at most fifteen.
#[derive(Clone, Copy)]
pub(crate) struct States {
    pub(crate) yes: [bool; 15],
}

impl States {
    // All state variables start at no.
    pub(crate) fn start() -> States
        ensures { result.yes ≡ replicate most_variables false }
    {
        States { yes: [false; 15] }
    }
}

// What a transition byte makes of a state: R no, S yes, T the other, - as it was.
#[tactic(auto, unfolding(crate::specs::Decide::turned))]
fn turned(b: u8, was: bool) -> bool
    ensures { result ≡ turned b was }
{
    match b {
        b'R' => false,
        b'S' => true,
        b'T' => !was,
        _ => was,
    }
}

impl Translator<'_> {
    // The states after a piece of class `c`.
    pub(crate) fn moved(&self, states: States, c: u8) -> States
        ensures { states_by self.now result
            ≡ moved (table_by self.now) c (states_by self.now states) }
    {
        let transitions = self.sections.transitions;
        let mut yes = states.yes;
        for v in 0..transitions.records {
            let i = usize::from(v);
            let b = self.byte_of_class(transitions, v, c);
            yes[i] = turned(b, yes[i]);
        }
        States { yes }
    }
}
