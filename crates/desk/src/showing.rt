// A preview: the cells as Unicode braille, line by line, and between pages a rule with the number of
// the next.

ghost use Rattle.std.specs.Prelude.{◌+◌, ◌*◌, ◌≤◌, length};
ghost use Rattle.io.specs.Counts.{IsPrefixLen};

use console::write_whole;
use std::io::Error;

// One output byte as people see it: a cell as its character, U+2800 and the cell; a line's end as a
// line feed.
fn shown(byte: u8) -> char {
    match byte {
        0..64 => char::from_u32(0x2800 + u32::from(byte)).unwrap_or(' '),
        _ => '\n',
    }
}

// The characters of these output bytes from the start of `out` on, and how many bytes they take.
// Kept: into bytes, and not by a `Display`, whose formatter takes each character on by calls, so that
// a file was read in twice the time.
fn put_bytes(bytes: &[u8], out: &mut [u8]) -> usize
    requires { 4 * length bytes.now ≤ length out.old }
    ensures { IsPrefixLen result out.new }
{
    let mut at = 0;
    for byte in bytes {
        at += shown(*byte).encode_utf8(&mut out[at..]).len();
    }
    at
}

// At most 1,024 output bytes are shown.
fn show_some(rt: &HostRuntime, bytes: &[u8]) -> Result<(), Error>
    requires { length bytes.now ≤ 1024 }
{
    let mut shown = [0; 4096];
    let length = put_bytes(bytes, &mut shown);
    write_whole(&mut rt.stdout(), &shown[..length])
}

// The pages of a layout, and why they didn't go through where they didn't.
pub fn show(rt: &HostRuntime, layout: &[u8]) -> Result<(), Error> {
    for (passed, page) in layout.split_inclusive(|byte| *byte == 65).enumerate() {
        if passed != 0 {
            let number = passed + 1;
            println!(rt; "--- page {number} ---")?;
        }
        let lines = page.strip_suffix(&[65]).unwrap_or(page);
        for some in lines.chunks(1024) {
            show_some(rt, some)?;
        }
    }
    Ok(())
}
