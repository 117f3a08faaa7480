// The number and the place of a refusal.

ghost use Rattle.inkprint.specs.Calls.{uninked_number, uninked_place};

use crate::Uninked;
use table::Numbered;

impl Numbered for Uninked {
    ghost number_of = { uninked_number };

    ghost place_of = { uninked_place };

    fn number(self) -> u8 {
        match self {
            Uninked::Unmarked(_) => 21,
            Uninked::Room(_) => 8,
            Uninked::Long => 6,
        }
    }

    fn place(self) -> usize {
        match self {
            Uninked::Unmarked(at) => at,
            Uninked::Room(needed) => needed,
            Uninked::Long => 1073741824,
        }
    }
}
