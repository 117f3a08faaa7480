// Tables as arguments: an image, or a readable table, which is a file whose name ends in .table. Of a
// readable table the image is made in memory first.

use crate::Table;
use desk::{Failure, argument, front, read_argument, say, say_argument, say_refused};
use std::fmt;
use std::fmt::Display;
use table::Numbered;
use tables::{Expected, Undrawn};

// ---- An image

fn table_long(rt: &HostRuntime, i: usize) -> Failure {
    say(rt, b"press: refused 1 at 0: ");
    say_argument(rt, i);
    say(
        rt,
        b" has more than 32,768 bytes, and no right table image has more than 28,301\n",
    );
    Failure::Refused
}

fn load_image<'a>(rt: &HostRuntime, i: usize, image: &'a mut [u8]) -> Result<Table<'a>, Failure> {
    let length = read_argument(rt, i, image)?;
    if 32768 < length {
        return Err(table_long(rt, i));
    }
    Ok(Table {
        image: &image[..length],
        text: None,
    })
}

// ---- A readable table

// The lines that may stand after a stage.
fn lines_after(stage: u8) -> &'static str {
    match stage {
        0 => "dated or classes",
        1 => "classes",
        2 => "variables",
        3 | 4 => "letter, entry, context, transition or decision",
        5 => "entry, context, transition or decision",
        6 => "context, transition or decision",
        7 => "transition or decision",
        _ => "decision",
    }
}

// What was expected, in words.
#[derive(Clone, Copy)]
struct Wanted(Expected);

impl Display for Wanted {
    fn fmt<W: fmt::Write>(&self, f: &mut fmt::Formatter<W>) -> fmt::Result {
        match self.0 {
            Expected::Line(stage) => f.write_str(lines_after(stage)),
            Expected::Fewer => f.write_str("no more lines of this kind"),
            Expected::Number(least, most) => write!(f, "a number from {least} to {most}"),
            Expected::Symbol => f.write_str("a symbol, 33 to 126, or _ for the blank"),
            Expected::Escaped => f.write_str("#, _ or \\ after the backslash"),
            Expected::WordEnd => f.write_str("the end of the word"),
            Expected::Row(n) => write!(f, "{n} symbols in this row"),
            Expected::Colon => f.write_str("a colon, and then the signs"),
            Expected::LineEnd => f.write_str("the end of the line"),
            Expected::Letter => f.write_str("a letter"),
            Expected::Transition => f.write_str("a transition for each variable"),
        }
    }
}

// Why no image was made of a readable table: 22, or 8, which no text of the form comes to here.
fn not_made(rt: &HostRuntime, undrawn: Undrawn) -> Failure {
    say_refused(rt, undrawn.number(), undrawn.place());
    if let Undrawn::Unlike {
        line,
        column,
        expected,
        ..
    } = undrawn
    {
        let wanted = Wanted(expected);
        let _ = eprint!(rt; " (line {line}, column {column}): expected {wanted}");
    }
    say(rt, b"\n");
    Failure::Refused
}

fn text_long(rt: &HostRuntime, i: usize) -> Failure {
    say(rt, b"press: ");
    say_argument(rt, i);
    say(
        rt,
        b" has more than 262,144 bytes, which is more than this program has room for\n",
    );
    Failure::System
}

// The readable table that argument `i` names, whatever its name.
pub fn load_readable<'a>(
    rt: &HostRuntime,
    i: usize,
    text: &'a mut [u8],
    image: &'a mut [u8],
) -> Result<Table<'a>, Failure> {
    let length = read_argument(rt, i, text)?;
    if 262144 < length {
        return Err(text_long(rt, i));
    }
    let text = &text[..length];
    let written = tables::make(text, image).map_err(|undrawn| not_made(rt, undrawn))?;
    Ok(Table {
        image: front(image, written),
        text: Some(text),
    })
}

// ---- Either

// The table that argument `i` names.
pub fn load<'a>(
    rt: &HostRuntime,
    i: usize,
    text: &'a mut [u8],
    image: &'a mut [u8],
) -> Result<Table<'a>, Failure> {
    let mut name = io::buffer();
    let length = argument(rt, i, &mut name);
    if name[..length].ends_with(b".table") {
        load_readable(rt, i, text, image)
    } else {
        load_image(rt, i, image)
    }
}
