// A place of a line, where what is read next begins. What is read is in the other modules of this
// crate, as its methods.

ghost use Rattle.std.specs.Prelude.{◌≡◌, ◌≤◌, length};

use form::{Expected, Unlike};

// A place that is within the line or at its end.
#[derive(Clone, Copy)]
pub(crate) struct Cursor<'a> {
    pub(crate) line: &'a [u8],
    pub(crate) at: usize,
    ghost within: { at ≤ length line.now },
}

impl<'a> Cursor<'a> {
    // Another place of the line.
    pub(crate) fn to(self, at: usize) -> Self
        requires { at ≤ length self.line.now }
        ensures place { result.at ≡ at }
        ensures line { result.line.now ≡ self.entry.line.now }
    {
        Cursor {
            line: self.line,
            at,
        }
    }

    // That something else was expected here.
    pub(crate) fn unlike(self, expected: Expected) -> Unlike
        ensures { result ≡ record { expected = expected; at = self.entry.at } }
    {
        Unlike {
            expected,
            at: self.at,
        }
    }
}
