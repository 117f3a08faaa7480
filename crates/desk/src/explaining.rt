// Refusals in words, to standard error: the number and the place, where a person finds it, and the
// sentence of the number.

use crate::Failure;
use crate::saying::say;
use pages::Sheet;
use std::fmt;

const FORM_FEED: u8 = 12;

// A line and a column of a text or a file, both from 1. A byte that goes on with a character is no
// column of its own.
#[derive(Clone, Copy)]
struct Position {
    line: usize,
    column: usize,
}

impl fmt::Display for Position {
    fn fmt<W: fmt::Write>(&self, f: &mut fmt::Formatter<W>) -> fmt::Result {
        let Position { line, column } = *self;
        write!(f, "line {line}, column {column}")
    }
}

// Where the byte after these stands.
fn position_after(bytes: &[u8]) -> Position {
    let mut line = 1;
    let mut column = 1;
    for byte in bytes {
        match *byte {
            b'\n' => {
                line += 1;
                column = 1;
            }
            FORM_FEED => column = 1,
            128..=191 => {}
            _ => column += 1,
        }
    }
    Position { line, column }
}

// The front of some bytes.
pub fn front(bytes: &[u8], n: usize) -> &[u8] {
    &bytes[..n.min(bytes.len())]
}

// Kept: a number and a place, since those of any refusal are told, of a readable table and of
// inkprint too, and a place of a marked text is told as that in its inkprint.
pub fn say_refused(rt: &HostRuntime, number: u8, place: usize) {
    let _ = eprint!(rt; "press: refused {number} at {place}");
}

pub fn say_position(rt: &HostRuntime, bytes: &[u8], place: usize) {
    let position = position_after(front(bytes, place));
    let _ = eprint!(rt; " ({position})");
}

// The character at the front, if one is whole there and is seen: a printable one of ASCII, or the
// first byte of a longer one of UTF-8 with as many that go on as it wants.
fn character_seen(bytes: &[u8]) -> Option<&[u8]> {
    match bytes {
        [33..=126, ..] => Some(&bytes[..1]),
        [194..=223, 128..=191, ..] => Some(&bytes[..2]),
        [224..=239, 128..=191, 128..=191, ..] => Some(&bytes[..3]),
        [240..=244, 128..=191, 128..=191, 128..=191, ..] => Some(&bytes[..4]),
        _ => None,
    }
}

// A byte that is no character that is seen, by its name.
#[derive(Clone, Copy)]
struct Unseen(u8);

impl fmt::Display for Unseen {
    fn fmt<W: fmt::Write>(&self, f: &mut fmt::Formatter<W>) -> fmt::Result {
        match self.0 {
            b'\t' => f.write_str("a tab"),
            b'\n' => f.write_str("a line feed"),
            FORM_FEED => f.write_str("a form feed"),
            b'\r' => f.write_str("a carriage return"),
            b' ' => f.write_str("a blank"),
            byte => write!(f, "the byte {byte}"),
        }
    }
}

// The character at a place, whole where it has several bytes, or the byte there.
pub fn say_character(rt: &HostRuntime, bytes: &[u8], place: usize) {
    if bytes.len() <= place {
        return;
    }
    match character_seen(&bytes[place..]) {
        Some(character) => {
            say(rt, b"'");
            say(rt, character);
            say(rt, b"'");
        }
        None => {
            let unseen = Unseen(bytes[place]);
            let _ = eprint!(rt; "{unseen}");
        }
    }
}

// 5: the same of every call.
fn say_sizes(rt: &HostRuntime, sheet: Sheet) {
    let Sheet { width, length } = sheet;
    let _ = eprintln!(rt;
        ": a width of {width} and a page of {length}; the width is 8 to 60 cells, and the page 2 to 40 lines"
    );
}

fn say_room(rt: &HostRuntime) {
    say(
        rt,
        b": so many bytes of output are more than this program has room for\n",
    );
}

// The refusals of a text: 5, 6, 7, 15 and 8. Kept: the number and the place, as `say_refused` has
// them.
pub fn refused_text(
    rt: &HostRuntime,
    number: u8,
    place: usize,
    text: &[u8],
    following: u8,
    sheet: Sheet,
) -> Failure {
    say_refused(rt, number, place);
    match number {
        5 => say_sizes(rt, sheet),
        6 => {
            say_position(rt, text, place);
            say(rt, b": the text has more than 16,384 bytes; divide it\n");
        }
        7 => {
            say_position(rt, text, place);
            say(rt, b": no letter for ");
            say_character(rt, text, place);
            say(rt, b"\n");
        }
        15 => {
            say(rt, b": no letter for what follows the text, ");
            say_character(rt, &[following], 0);
            say(rt, b"\n");
        }
        _ => say_room(rt),
    }
    Failure::Refused
}

// Why no good file goes on with a character.
fn why_not(byte: u8) -> &'static [u8] {
    match byte {
        b'\n' => b": the line ends in a blank, or the page has its lines already\n",
        FORM_FEED => b": the page has no line, or its last line has no line feed\n",
        b' ' => {
            b": the line has no room for a cell after it, or the page has its lines already\n"
        }
        33..=95 => b": the line has its cells already, or the page its lines\n",
        _ => b", which has no cell\n",
    }
}

// The refusals of an embosser file: 5, 16 and 8. Kept: any number and place, as `refused_text`
// takes them.
pub fn refused_file(
    rt: &HostRuntime,
    number: u8,
    place: usize,
    file: &[u8],
    sheet: Sheet,
) -> Failure {
    say_refused(rt, number, place);
    match number {
        5 => say_sizes(rt, sheet),
        16 => {
            say_position(rt, file, place);
            if place < file.len() {
                say(rt, b": no good file on this sheet goes on with ");
                say_character(rt, file, place);
                say(rt, why_not(file[place]));
            } else {
                say(
                    rt,
                    b": the file stops short; a page ends in a line feed and a form feed\n",
                );
            }
        }
        _ => say_room(rt),
    }
    Failure::Refused
}
