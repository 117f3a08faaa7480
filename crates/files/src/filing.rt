// The two calls: a file is written from a layout, and a layout is read from a file. What is lent is
// judged before anything is written; a refused call changes no byte of the output, and a done one
// none beyond the bytes written.

ghost use Rattle.std.specs.Prelude.{◌++◌, ◌≡◌, ◌≤◌, length, drop};
ghost use Rattle.embosser.specs.Filing.{turned_bytes};
ghost use Rattle.embosser.specs.Promises.{Files};
ghost use Rattle.embosser.specs.declared.Kind.TheVariants.{Layout, File};

use crate::charting::turned_by;
use crate::judging::first_wrong;
use embosser::Kind;
use pages::Sheet;
use table::Refusal;

// The bytes of the other kind, at the front of the output.
fn put_turned(kind: Kind, bytes: &[u8], out: &mut [u8])
    requires { length bytes.now ≤ length out.old }
    ensures { out.new ≡ turned_bytes kind bytes.now ++ drop (length bytes.now) out.old }
{
    let table = turned_by(kind);
    for (i, &byte) in bytes.iter().enumerate() {
        out[i] = table[usize::from(byte)];
    }
}

// Judges bytes of this kind, and writes those of the other.
// Kept: kind and bytes are two parameters, here and in what it calls; a struct of them would only be
// taken apart, the kind for a table and the bytes for the loop over it.
fn convert(kind: Kind, bytes: &[u8], sheet: Sheet, out: &mut [u8]) -> Result<usize, Refusal>
    ensures { Files kind sheet bytes.now out.old result out.new }
{
    sheet.verdict()?;
    if let Some(at) = first_wrong(kind, sheet, bytes) {
        return Err(Refusal::File(at));
    }
    let needed = bytes.len();
    if out.len() < needed {
        return Err(Refusal::Room(needed));
    }
    put_turned(kind, bytes, out);
    Ok(needed)
}

// Writes the embosser file of a layout, as `emboss` lays one out on this sheet: how many bytes it
// has, or the refusal.
pub fn write_file(layout: &[u8], sheet: Sheet, out: &mut [u8]) -> Result<usize, Refusal>
    ensures { Files Layout sheet layout.now out.old result out.new }
{
    convert(Kind::Layout, layout, sheet, out)
}

// Reads an embosser file as the layout that it was written from: how many bytes that has, or the
// refusal.
pub fn read_file(file: &[u8], sheet: Sheet, out: &mut [u8]) -> Result<usize, Refusal>
    ensures { Files File sheet file.now out.old result out.new }
{
    convert(Kind::File, file, sheet, out)
}
