// Words to standard error, and what failed with the system's reason. Where standard error itself
// takes nothing there is nobody to tell.

ghost use Rattle.io.specs.Counts.{IsPrefixLen};

use crate::Failure;
use console::fail;
pub use console::say;
use std::env::Env;
use std::io::Error;

pub fn say_number(rt: &HostRuntime, n: usize) {
    let _ = eprint!(rt; "{n}");
}

// Puts argument `i` at the start of the buffer: how long it is, and 0 where there is none or it is
// longer than the buffer. Kept: an Option would be no plainer, since all callers take no name for an
// empty one.
pub fn argument(rt: &HostRuntime, i: usize, word: &mut [u8]) -> usize
    ensures { IsPrefixLen result word.new }
{
    rt.arg(i, word).unwrap_or(0)
}

// The name of an argument, as it was given.
pub fn say_argument(rt: &HostRuntime, i: usize) {
    let mut word = io::buffer();
    let length = argument(rt, i, &mut word);
    say(rt, &word[..length]);
}

// What failed, a colon and the system's reason.
pub fn failed(rt: &HostRuntime, what: &[u8], error: Error) -> Failure {
    say(rt, b"press: ");
    fail(rt, what, error);
    Failure::System
}

// What printing came to. Where it didn't go through the reason is said.
pub fn printed(rt: &HostRuntime, done: Result<(), Error>) -> Result<(), Failure> {
    done.map_err(|error| failed(rt, b"standard output", error))
}
