// Why a table isn't shown or made: the number and the place of each refusal, and the line and the
// column of a text that isn't of the form, which are 0 otherwise.

ghost use Rattle.std.specs.Prelude.{◌≡◌};
ghost use Rattle.table.specs.Promises.{Tells};
ghost use Rattle.form.specs.Calls.{undrawn_number, undrawn_place, undrawn_line, undrawn_column};
ghost use Rattle.form.specs.declared.Undrawn.TheVariants.{Refused};

use crate::Undrawn;
use table::{Numbered, Refusal};

impl From<Refusal> for Undrawn {
    ghost from_gives = { λ refusal undrawn. undrawn ≡ Refused refusal };

    fn from(refusal: Refusal) -> Undrawn {
        Undrawn::Refused(refusal)
    }
}

impl Numbered for Undrawn {
    ghost number_of = { undrawn_number };

    ghost place_of = { undrawn_place };

    fn number(self) -> u8 {
        match self {
            Undrawn::Refused(refusal) => refusal.number(),
            Undrawn::Unlike { .. } => 22,
        }
    }

    fn place(self) -> usize {
        match self {
            Undrawn::Refused(refusal) => refusal.place(),
            Undrawn::Unlike { at, .. } => at,
        }
    }
}

impl Undrawn {
    pub fn line(self) -> usize
        ensures { Tells undrawn_line self result }
    {
        match self {
            Undrawn::Refused(_) => 0,
            Undrawn::Unlike { line, .. } => line,
        }
    }

    pub fn column(self) -> usize
        ensures { Tells undrawn_column self result }
    {
        match self {
            Undrawn::Refused(_) => 0,
            Undrawn::Unlike { column, .. } => column,
        }
    }
}
