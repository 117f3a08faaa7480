// What the programs read and print: the table file, the text, and to standard output an answer and
// the output's bytes in the paper's form, numbers in decimal parted by one blank. What fails is
// said on standard error with the system's reason. No contract can say which bytes the system reads
// or writes, so these promise only that they are safe and end, and that what was read lies within
// the bytes lent; the programs' runs are compared.

#![tactic(auto)]

ghost use Rattle.std.specs.Prelude.{IfOk};
ghost use Rattle.io.specs.Counts.{IsPrefixLen};

mod failing;

pub use failing::{Said, fail, not_text, say};
use layout::Laid;
use std::fs::File;
use std::io::{Error, ErrorKind, Read, Write};
use table::{Refusal, number_of, place_of};

// How often a call that a signal interrupts is made: a proved loop has to end.
const TRIES: usize = 1000;

// The system's number of an interrupted call.
const EINTR: i32 = 4;

// One read, made again where it is interrupted.
fn read_some<R: Read>(from: &mut R, bytes: &mut [u8]) -> Result<usize, Error>
    ensures { IfOk result (λ n. IsPrefixLen n bytes.new) }
{
    for _ in 0..TRIES {
        match from.read(bytes) {
            Err(error) if error.kind() == ErrorKind::Interrupted => {}
            read => return read,
        }
    }
    Err(Error::from_raw_os_error(EINTR))
}

// Reads until the buffer is full or the input ends: how many bytes lie at its front.
// Kept: the loop goes on by as many bytes as a read gives, so no `for` counts them.
pub fn read_whole<R: Read>(from: &mut R, bytes: &mut [u8]) -> Result<usize, Error>
    ensures { IfOk result (λ n. IsPrefixLen n bytes.new) }
{
    let mut done = 0;
    while done < bytes.len() {
        let more = read_some(from, &mut bytes[done..])?;
        if more == 0 {
            break;
        }
        done += more;
    }
    Ok(done)
}

// As `read_whole`. Where a read fails it says so, under the name.
fn read_named<R: Read>(
    rt: &HostRuntime,
    from: &mut R,
    name: &[u8],
    bytes: &mut [u8],
) -> Result<usize, Said>
    ensures { IfOk result (λ n. IsPrefixLen n bytes.new) }
{
    read_whole(from, bytes).map_err(|error| fail(rt, name, error))
}

// Opens a file for reading. A name has to be UTF-8, since the library's paths are text.
pub fn open_file(rt: &HostRuntime, name: &[u8]) -> Result<File, Error> {
    let path = std::str::from_utf8(name).map_err(|_| not_text())?;
    std::fs::open(rt, path)
}

// The first 32,768 bytes of the file `cases.tab` of the current folder. A file that can't be opened
// counts as empty.
pub fn read_table(rt: &HostRuntime, image: &mut [u8; 32768]) -> Result<usize, Said>
    ensures { IfOk result (λ n. IsPrefixLen n image.new) }
{
    match open_file(rt, b"cases.tab") {
        Ok(mut file) => read_named(rt, &mut file, b"cases.tab", image),
        Err(_) => Ok(0),
    }
}

// The first 16,385 bytes of standard input.
pub fn read_text(rt: &HostRuntime, text: &mut [u8; 16385]) -> Result<usize, Said>
    ensures { IfOk result (λ n. IsPrefixLen n text.new) }
{
    read_named(rt, &mut rt.stdin(), b"standard input", text)
}

// Writes all of the bytes, and answers why they didn't go through where they didn't.
pub fn write_whole<W: Write>(to: &mut W, bytes: &[u8]) -> Result<(), Error> {
    to.write_all(bytes)
}

// What printing came to. Where it didn't go through it says so.
fn printed(rt: &HostRuntime, done: Result<(), Error>) -> Result<(), Said> {
    done.map_err(|error| fail(rt, b"standard output", error))
}

// The first line: number, place, pieces, lines, pages.
pub fn print_answer(rt: &HostRuntime, answer: Result<Laid, Refusal>) -> Result<(), Said> {
    let number = number_of(answer);
    let place = place_of(answer);
    let (pieces, lines, pages) = match answer {
        Ok(laid) => (laid.pieces, laid.lines, laid.pages),
        Err(_) => (0, 0, 0),
    };
    let done = println!(rt; "{number} {place} {pieces} {lines} {pages}");
    printed(rt, done)
}

// One byte of the output, which may be the first of its line.
fn print_byte(rt: &HostRuntime, byte: u8, first: bool) -> Result<(), Error> {
    match byte {
        64 => println!(rt),
        65 => println!(rt; "--"),
        _ if first => print!(rt; "{byte}"),
        _ => print!(rt; " {byte}"),
    }
}

// Each line's cells, an empty line for a line without cells, and `--` after each page. It ends at
// the first byte that doesn't go through.
pub fn print_pages(rt: &HostRuntime, bytes: &[u8]) -> Result<(), Said> {
    let mut first = true;
    for byte in bytes {
        printed(rt, print_byte(rt, *byte, first))?;
        first = 63 < *byte;
    }
    Ok(())
}
