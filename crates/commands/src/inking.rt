// Inkprint: a text as people have it is marked first, and a refusal of the marked text is told where
// its character stands in the text as it was written.

use crate::{INKPRINT, MARKED, Text, room};
use arguments::Asked;
use desk::{
    Failure, argument, front, keep, read_text, say, say_character, say_position, say_refused,
};
use inkprint::Uninked;
use table::Numbered;

// 21: a character that has no mark.
fn not_marked(rt: &HostRuntime, uninked: Uninked, text: &[u8]) -> Failure {
    let place = uninked.place();
    say_refused(rt, uninked.number(), place);
    say_position(rt, text, place);
    say(rt, b": no mark for ");
    say_character(rt, text, place);
    say(rt, b"\n");
    Failure::Refused
}

fn ink_long(rt: &HostRuntime) -> Failure {
    say(
        rt,
        b"press: the text has more than 262,144 bytes, which is more than this program has room for\n",
    );
    Failure::System
}

// The text of argument `i`, or of standard input where there is none, is read and marked.
pub(crate) fn read_ink<'a>(
    rt: &HostRuntime,
    i: Option<usize>,
    text: &'a mut [u8],
    marked: &'a mut [u8],
) -> Result<Text<'a>, Failure> {
    let length = read_text(rt, i, text)?;
    if 262144 < length {
        return Err(ink_long(rt));
    }
    let written = &text[..length];
    let bytes = ink::mark(written, marked).map_err(|uninked| not_marked(rt, uninked, written))?;
    Ok(Text {
        marked: front(marked, bytes),
        written: Some(written),
    })
}

// Whether argument `i` names a file of inkprint.
fn is_named_ink(rt: &HostRuntime, i: usize) -> bool {
    let mut name = io::buffer();
    let length = argument(rt, i, &mut name);
    name[..length].ends_with(b".txt")
}

// Whether the text is inkprint: it is said to be, or its name ends in .txt.
pub(crate) fn is_ink(rt: &HostRuntime, asked: Asked) -> bool {
    asked.ink || asked.second.is_some_and(|i| is_named_ink(rt, i))
}

// The command mark.
pub(crate) fn mark_text(rt: &HostRuntime, asked: Asked) -> Result<(), Failure> {
    let mut text = room::<INKPRINT>();
    let mut marked = room::<MARKED>();
    let text = read_ink(rt, asked.first, &mut text, &mut marked)?;
    keep(rt, asked.output, text.marked)
}
