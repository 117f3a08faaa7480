// What failed, said on standard error with the system's reason.

use arrayvec::ArrayString;
use std::fmt::Write as _;
use std::io::{Error, ErrorKind, Write};

// Room for a reason; the longest that the library gives has less than 110 bytes.
const ROOM: usize = 128;

// What failed has been said.
#[derive(Clone, Copy, Debug, PartialEq, Eq)]
pub struct Said;

// Words to standard error. Where standard error itself takes nothing there is nobody to tell.
pub fn say(rt: &HostRuntime, words: &[u8]) {
    let _ = rt.stderr().write_all(words);
}

// A line to standard error: what failed, a colon and the reason. A reason of the system's comes
// from the library with its number in brackets after it, which isn't said.
pub fn fail(rt: &HostRuntime, what: &[u8], error: Error) -> Said {
    let mut words: ArrayString<ROOM> = ArrayString::new();
    let _ = write!(words, "{error}");
    let mut reason = words.as_str();
    if error.raw_os_error().is_some()
        && let Some((before, _)) = reason.rsplit_once(" (")
    {
        reason = before;
    }
    say(rt, what);
    let _ = eprintln!(rt; ": {reason}");
    Said
}

// A name that no file can have here: the library's paths are text.
pub fn not_text() -> Error {
    Error::new(ErrorKind::InvalidFilename, "the name is not UTF-8")
}
