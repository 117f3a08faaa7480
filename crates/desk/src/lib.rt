// The desk of the press room, where things come in and go out: words to people, refusals in words,
// files that are read and kept, and previews. Nothing here decides about a table or a text. No
// contract can say what files hold, so the functions promise only that they are safe and end, that
// what was read lies within the bytes lent, and which status each failure has; the runs of the
// program press are compared (tests/press).

#![tactic(auto)]

ghost use Rattle.std.specs.Prelude.{◌≡◌};
ghost use Rattle.desk.specs.Statuses.{status_of};

mod explaining;
mod keeping;
mod reading;
mod saying;
mod showing;

pub use explaining::{front, refused_file, refused_text, say_character, say_position, say_refused};
pub use keeping::{keep, print};
pub use reading::{read_argument, read_text};
pub use saying::{argument, failed, printed, say, say_argument, say_number};
pub use showing::show;

// Why a run ends without what was asked for, which has been said: a table, a text or a file is
// refused; the usage is wrong; a file can't be opened, read or written.
#[derive(Clone, Copy, Debug, PartialEq, Eq)]
pub enum Failure {
    Refused,
    Usage,
    System,
}

// The exit status. That of a run that is done is 0.
impl From<Failure> for u8 {
    ghost from_gives = { λ failure status. status ≡ status_of failure };

    fn from(failure: Failure) -> u8 {
        match failure {
            Failure::Refused => 1,
            Failure::Usage => 2,
            Failure::System => 3,
        }
    }
}
