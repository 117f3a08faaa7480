// The whole of the paper in one call: a table image and a text in, cells in lines and pages out.
// Any setting, image, text, sheet and output get their answer; a refused call changes no byte, and
// a done one none beyond the bytes that it writes.

ghost use Rattle.layout.specs.Promises.{Embossed};

use crate::Laid;
use pages::{Filled, Sheet, fill};
use table::Refusal;
use translation::{Counts, Setting, Terms, translate};

// The checks are made in the paper's order: the table's, the sheet's, the text's, that of the
// symbol which follows it, and last the room's.
pub fn emboss(
    setting: Setting,
    image: &[u8],
    text: &[u8],
    sheet: Sheet,
    out: &mut [u8],
) -> Result<Laid, Refusal>
    ensures { Embossed setting image.now text.now sheet out.old result out.new }
{
    let mut buffer = [0u8; 65536];
    let also = sheet.verdict();
    let Counts { pieces, signs } = translate(Terms { setting, also }, image, text, &mut buffer)?;
    let Filled {
        written,
        lines,
        pages,
    } = fill(&buffer, signs, sheet, out)?;
    Ok(Laid {
        written,
        pieces,
        lines,
        pages,
    })
}
