// The paper's table of refusals: the number and the place of each, and those of an answer, for the
// calls of every layer.

ghost use Rattle.std.specs.Prelude.{ℕ};
ghost use Rattle.table.specs.Answers.{refusal_number, refusal_place, number_in, place_in};
ghost use Rattle.table.specs.Promises.{Tells};

use crate::Refusal;

// What every refusal has: the paper's number of it, and its place.
pub trait Numbered {
    ghost number_of: { Self → ℕ };

    ghost place_of: { Self → ℕ };

    fn number(self) -> u8
        ensures { Tells number_of self result };

    fn place(self) -> usize
        ensures { Tells place_of self result };
}

impl Numbered for Refusal {
    ghost number_of = { refusal_number };

    ghost place_of = { refusal_place };

    fn number(self) -> u8 {
        match self {
            Refusal::Frame => 1,
            Refusal::Alphabet(_) => 2,
            Refusal::Contraction(_) => 11,
            Refusal::Context(_) => 12,
            Refusal::Transition(_) => 13,
            Refusal::Decision(_) => 14,
            Refusal::NoBlank => 3,
            Refusal::Grouping(_) => 4,
            Refusal::Size => 5,
            Refusal::LongText => 6,
            Refusal::Unknown(_) => 7,
            Refusal::Following => 15,
            Refusal::File(_) => 16,
            Refusal::Dated(_) => 17,
            Refusal::Room(_) => 8,
        }
    }

    fn place(self) -> usize {
        match self {
            Refusal::Frame => 0,
            Refusal::Alphabet(at) => at,
            Refusal::Contraction(at) => at,
            Refusal::Context(at) => at,
            Refusal::Transition(at) => at,
            Refusal::Decision(at) => at,
            Refusal::NoBlank => 0,
            Refusal::Grouping(at) => at,
            Refusal::Size => 0,
            Refusal::LongText => 16384,
            Refusal::Unknown(at) => at,
            Refusal::Following => 0,
            Refusal::File(at) => at,
            Refusal::Dated(at) => at,
            Refusal::Room(needed) => needed,
        }
    }
}

// The number of an answer: 0 where the call is done, and otherwise its refusal's.
pub fn number_of<T: Copy, R: Numbered + Copy>(answer: Result<T, R>) -> u8
    ensures { Tells (number_in R.number_of) answer result }
{
    match answer {
        Ok(_) => 0,
        Err(refusal) => refusal.number(),
    }
}

// The place of an answer: 0 where the call is done, and otherwise its refusal's.
pub fn place_of<T: Copy, R: Numbered + Copy>(answer: Result<T, R>) -> usize
    ensures { Tells (place_in R.place_of) answer result }
{
    match answer {
        Ok(_) => 0,
        Err(refusal) => refusal.place(),
    }
}
