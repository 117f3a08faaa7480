// The pages of signs: the place alone is moved through them first, which gives the bytes needed;
// only where these have room are they written.

ghost use Rattle.std.specs.Prelude.{◌≡◌};
ghost use Rattle.pages.specs.Fill.{roomed};
ghost use Rattle.pages.specs.Promises.{Fills};
ghost use Rattle.pages.specs.inside.Writing.{Fillable, Ends};

use crate::measuring::measure;
use crate::writing::write;
use crate::{Filled, Place, Sheet};
use table::Refusal;

// The pages of these signs where the sheet is accepted.
fn fill_accepted(signs: &[u8], sheet: Sheet, out: &mut [u8]) -> Result<Filled, Refusal>
    requires { Fillable sheet signs.now }
    ensures { Ends (roomed sheet signs.now out.old) result out.new }
{
    let Place {
        written,
        lines,
        pages,
        ..
    } = measure(signs, sheet);
    if out.len() < written {
        return Err(Refusal::Room(written));
    }
    write(signs, sheet, out);
    Ok(Filled {
        written,
        lines,
        pages,
    })
}

// Lays the first `n` signs out on sheets: the refusal, or how many bytes, lines and pages there
// are. The bytes stand at the front of `out`; what lies beyond them, and all of `out` where it is
// refused, is as it was.
// Kept: the array with its number of signs. `fill` requires nothing: whatever the number, the signs
// are few enough that no count overflows, where a slice's length would have to be bounded.
pub fn fill(signs: &[u8; 65536], n: usize, sheet: Sheet, out: &mut [u8]) -> Result<Filled, Refusal>
    ensures { Fills signs.now n sheet out.old result out.new }
{
    sheet.verdict()?;
    fill_accepted(&signs[..n.min(signs.len())], sheet, out)
}
