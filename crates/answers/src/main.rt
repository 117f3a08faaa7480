// Answers many cases in one run, for the comparison in tests/: reads cases from standard input, one
// after another until it ends, and writes to standard output what the call that is asked answers to
// each and every byte of the buffer that was lent. Numbers are low byte first.
//
// A case:     4 bytes  what is asked: 0 the whole call, 1 to date the table, 2 to undate it, 3 its
//                      stamp, 4 to write an embosser file, 5 to read one, 6 to show the table, 7 to
//                      make the table of the text, 8 to mark the text, 9 where byte W of the marked
//                      text comes from
//             4 bytes  length of the table image, at most 65,536
//             4 bytes  length of the text, at most 163,840
//             8 bytes  W, any 64-bit number
//             8 bytes  P, any 64-bit number
//             8 bytes  the symbol that follows the text, of which the first byte counts
//             8 bytes  the year, of which the first two bytes count
//             4 bytes  output room, at most 163,840
//             the image, then the text
// Its answer: 1 byte   number
//             8 bytes  each: place, bytes written, pieces, lines, pages
//             the whole buffer of `room` bytes after the call; before it byte i, counted from 0, was the low eight bits of 7 i + 13
//
// To date, to undate or to stamp a table, text, W, P, symbol and year are read and not looked at.
// To write or to read a file the text is the layout or the file that is lent, and image, symbol and
// year are not looked at. To show a table nothing but the image is looked at, to make one nothing
// but the text, and so it is with marking and its sources. For all of these pieces, lines and pages are 0; but the first number of a stamp stands
// in the place of the bytes written, and the second in that of the pieces, and where a text isn't of
// the form of a readable table its line, its column and what was expected stand in the place of
// pieces, lines and pages. A case over
// these limits, or one that the input cuts short, gets no answer, and the run ends there. The file
// stdin beside this folder has fifteen cases, and stdout their answers: by the paper's table COME
// with 8 bytes of room and `A|a` with 4, and to date it with 246; by the dated one, COM from 1932
// to 2015, COME in 2015 and in 2016, and to undate it, refused 17; with 4 bytes of room the stamps
// of the paper's table, of the dated one, and of the paper's with a class of 0 in its second
// letter, refused 2; and with 6 bytes of room the file of COME's layout written and read back, a
// layout with a line that ends in a blank and a file with a lower-case letter, each refused 16, the
// same file at W 7, refused 5, and COME's with 3 bytes of room, refused 8.

#![tactic(auto)]

ghost use Rattle.std.specs.Prelude.{◌+◌, ◌≤◌};

use console::{read_whole, write_whole};
use layout::Laid;
use pages::Sheet;
use stamp::{Stamped, numbers_of};
use std::io::Error;
use table::{Numbered, Refusal, number_of, place_of};
use tables::{Expected, Undrawn};
use translation::Setting;

// The run ends: the input is cut short, a case is over the limits, or an answer doesn't go through.
#[derive(Clone, Copy)]
struct Ended;

impl From<Error> for Ended {
    fn from(_: Error) -> Ended {
        Ended
    }
}

// ---- A case

// What a case asks.
#[derive(Clone, Copy)]
enum Asked {
    Emboss,
    Date,
    Undate,
    Stamp,
    WriteFile,
    ReadFile,
    Show,
    Make,
    Mark,
    Source,
}

impl TryFrom<u32> for Asked {
    type Error = Ended;

    fn try_from(number: u32) -> Result<Asked, Ended> {
        match number {
            0 => Ok(Asked::Emboss),
            1 => Ok(Asked::Date),
            2 => Ok(Asked::Undate),
            3 => Ok(Asked::Stamp),
            4 => Ok(Asked::WriteFile),
            5 => Ok(Asked::ReadFile),
            6 => Ok(Asked::Show),
            7 => Ok(Asked::Make),
            8 => Ok(Asked::Mark),
            9 => Ok(Asked::Source),
            _ => Err(Ended),
        }
    }
}

// What stands before the image and the text of a case: what it asks, and its sizes.
#[derive(Clone, Copy)]
struct Head {
    asked: u32,
    image: usize,
    text: usize,
    sheet: Sheet,
    setting: Setting,
    room: usize,
}

// A case, of which not all is looked at.
#[derive(Clone, Copy)]
struct Case<'a> {
    asked: Asked,
    setting: Setting,
    image: &'a [u8],
    text: &'a [u8],
    sheet: Sheet,
}

// The bytes from `at` on.
fn bytes_at<const N: usize>(head: &[u8; 48], at: usize) -> [u8; N]
    requires { at + N ≤ 48 }
{
    let mut bytes = [0u8; N];
    bytes.copy_from_slice(&head[at..at + N]);
    bytes
}

fn year_at(head: &[u8; 48], at: usize) -> u16
    requires { at + 2 ≤ 48 }
{
    u16::from_le_bytes(bytes_at::<2>(head, at))
}

fn four_at(head: &[u8; 48], at: usize) -> u32
    requires { at + 4 ≤ 48 }
{
    u32::from_le_bytes(bytes_at::<4>(head, at))
}

// Kept: here and in `told_stamp` it is `as`, since there is no `usize::from` of 32 bits.
fn length_at(head: &[u8; 48], at: usize) -> usize
    requires { at + 4 ≤ 48 }
{
    four_at(head, at) as usize
}

fn size_at(head: &[u8; 48], at: usize) -> usize
    requires { at + 8 ≤ 48 }
{
    usize::from_le_bytes(bytes_at::<8>(head, at))
}

fn read_head(head: &[u8; 48]) -> Head {
    Head {
        asked: four_at(head, 0),
        image: length_at(head, 4),
        text: length_at(head, 8),
        sheet: Sheet {
            width: size_at(head, 12),
            length: size_at(head, 20),
        },
        setting: Setting {
            following: head[28],
            year: year_at(head, 36),
        },
        room: length_at(head, 44),
    }
}

// ---- An answer

// The number of an answer and the five that follow it: its place, the bytes written, pieces, lines
// and pages, or what stands in their place.
#[derive(Clone, Copy)]
struct Answer {
    number: u8,
    after: [usize; 5],
}

// An answer that has no pieces, lines and pages.
fn told<R: Numbered + Copy>(answer: Result<usize, R>) -> Answer {
    Answer {
        number: number_of(answer),
        after: [place_of(answer), answer.unwrap_or(0), 0, 0, 0],
    }
}

// The answer of the whole call.
fn told_laid(answer: Result<Laid, Refusal>) -> Answer {
    match answer {
        Ok(
            Laid {
                written,
                pieces,
                lines,
                pages,
            },
        ) => Answer {
            number: 0,
            after: [0, written, pieces, lines, pages],
        },
        Err(refusal) => told(Err(refusal)),
    }
}

// The answer of a stamp: its two numbers in the place of bytes written and pieces.
fn told_stamp(answer: Result<Stamped, Refusal>) -> Answer {
    let Stamped { first, second } = numbers_of(answer);
    Answer {
        number: number_of(answer),
        after: [place_of(answer), first as usize, second as usize, 0, 0],
    }
}

// What was expected, as a number: the case, and its numbers above that.
fn expected_number(expected: Expected) -> usize {
    match expected {
        Expected::Line(stage) => usize::from(stage) << 4,
        Expected::Fewer => 1,
        Expected::Number(least, most) => {
            2 | (usize::from(least) << 4) | (usize::from(most) << 20)
        }
        Expected::Symbol => 3,
        Expected::Escaped => 4,
        Expected::WordEnd => 5,
        Expected::Row(n) => 6 | (usize::from(n) << 4),
        Expected::Colon => 7,
        Expected::LineEnd => 8,
        Expected::Letter => 9,
        Expected::Transition => 10,
    }
}

// The answer of a table shown or made: of a text that isn't of the form its line, its column and what
// was expected.
fn told_drawn(answer: Result<usize, Undrawn>) -> Answer {
    match answer {
        Err(
            Undrawn::Unlike {
                line,
                column,
                expected,
                ..
            },
        ) => Answer {
            number: number_of(answer),
            after: [place_of(answer), 0, line, column, expected_number(expected)],
        },
        _ => told(answer),
    }
}

// What the call that is asked answers, into a buffer or beside it.
fn answer_of(case: Case, out: &mut [u8]) -> Answer {
    let Case {
        asked,
        setting,
        image,
        text,
        sheet,
    } = case;
    match asked {
        Asked::Emboss => told_laid(layout::emboss(setting, image, text, sheet, out)),
        Asked::Date => told(movers::date(image, out)),
        Asked::Undate => told(movers::undate(image, out)),
        Asked::Stamp => told_stamp(stamp::stamp(image)),
        Asked::WriteFile => told(files::write_file(text, sheet, out)),
        Asked::ReadFile => told(files::read_file(text, sheet, out)),
        Asked::Show => told_drawn(tables::show(image, out)),
        Asked::Make => told_drawn(tables::make(text, out)),
        Asked::Mark => told(ink::mark(text, out)),
        Asked::Source => Answer {
            number: 0,
            after: [ink::source(text, sheet.width), 0, 0, 0, 0],
        },
    }
}

// ---- In and out

// Reads the next `n` bytes of the input into the front of the buffer, if it has the room and so many
// come.
fn read_front<'a>(rt: &HostRuntime, bytes: &'a mut [u8], n: usize) -> Result<&'a [u8], Ended> {
    let front = bytes.get_mut(..n).ok_or(Ended)?;
    if read_whole(&mut rt.stdin(), front)? != n {
        return Err(Ended);
    }
    Ok(front)
}

fn write_all(rt: &HostRuntime, bytes: &[u8]) -> Result<(), Error> {
    write_whole(&mut rt.stdout(), bytes)
}

// Writes an answer and the buffer. Each part of it is tried, also after one that didn't go through.
fn write_told(rt: &HostRuntime, answer: Answer, out: &[u8]) -> Result<(), Error> {
    let mut done = write_all(rt, &[answer.number]);
    for n in answer.after {
        done = done.and(write_all(rt, &n.to_le_bytes()));
    }
    done.and(write_all(rt, out))
}

// The buffer as it is lent.
fn prepare(out: &mut [u8]) {
    let mut b: u8 = 13;
    for byte in out {
        *byte = b;
        b = b.wrapping_add(7);
    }
}

// ---- The cases

// Room for a text, or for a layout or a file in its place; and for what is written.
fn large() -> [u8; 163840] {
    [0u8; 163840]
}

// Answers one case with so much room.
fn answer_case(rt: &HostRuntime, case: Case, room: usize) -> Result<(), Ended> {
    let mut buffer = large();
    let out = buffer.get_mut(..room).ok_or(Ended)?;
    prepare(out);
    let answer = answer_of(case, out);
    write_told(rt, answer, out)?;
    Ok(())
}

// Answers the case with this head, whose image and text follow.
fn answer_with(rt: &HostRuntime, head: Head) -> Result<(), Ended> {
    let mut image = [0u8; 65536];
    let held = read_front(rt, &mut image, head.image);
    let mut text = large();
    let words = read_front(rt, &mut text, head.text);
    let case = Case {
        asked: Asked::try_from(head.asked)?,
        setting: head.setting,
        image: held?,
        text: words?,
        sheet: head.sheet,
    };
    answer_case(rt, case, head.room)
}

// Answers the next case, if there is one.
fn answer_next(rt: &HostRuntime) -> Result<(), Ended> {
    let mut head = [0u8; 48];
    read_front(rt, &mut head, 48)?;
    answer_with(rt, read_head(&head))
}

// A proved loop has to end, and nothing says that the input does: the cases are counted by a number
// that no run comes to the end of.
fn main(rt: HostRuntime) {
    for _ in 0..u64::MAX {
        if answer_next(&rt).is_err() {
            return;
        }
    }
}
