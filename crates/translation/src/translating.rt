// A text by a table: the table is opened, once, and judged, then come the caller's own checks and
// the text's; then the text is collapsed and its pieces print their signs.

ghost use Rattle.std.specs.Prelude.{◌*◌, ◌≤◌, length};
ghost use Rattle.table.specs.Numbers.{entry_signs, most_text};
ghost use Rattle.judge.specs.Promises.{Reads};
ghost use Rattle.translation.specs.Translate.{translate_by, translate_on};
ghost use Rattle.translation.specs.Handed.{Ends, handed};
ghost use Rattle.translation.specs.Promises.{Translated};
ghost use Rattle.translation.specs.inside.Tables.{table_by};

use crate::collapsing::collapse;
use crate::translator::Translator;
use crate::{Counts, Terms};
use judge::Reader;
use table::Refusal;

const MOST_TEXT: usize = 16384;

impl Translator<'_> {
    // Refusals 6, 7 and 15, or the pieces of the text and their signs.
    fn translate(&self, text: &[u8], signs: &mut [u8]) -> Result<Counts, Refusal>
        requires { entry_signs * most_text ≤ length signs.old }
        ensures { Ends
            (handed signs.old (translate_by (table_by self.now) self.now.setting text.now))
            result signs.new }
    {
        if MOST_TEXT < text.len() {
            return Err(Refusal::LongText);
        }
        let mut buffer = [0; MOST_TEXT];
        let n = collapse(text, &mut buffer);
        let collapsed = &buffer[..n];
        if let Some(i) = self.first_unknown(text) {
            return Err(Refusal::Unknown(i));
        }
        if !self.is_known(self.setting.following) {
            return Err(Refusal::Following);
        }
        Ok(self.consume(collapsed, signs))
    }
}

// The refusals of a table, or the caller's own, or what the table makes of the text, by a reader of
// its image.
fn translate_read(r: Reader, terms: Terms, text: &[u8], signs: &mut [u8]) -> Result<Counts, Refusal>
    requires reads { Reads r.image r }
    requires room { entry_signs * most_text ≤ length signs.old }
    ensures { Ends (handed signs.old (translate_on terms r.entry.image.now text.now)) result signs.new }
{
    r.verdict?;
    terms.also?;
    let translator = Translator {
        image: r.image,
        sections: r.sections,
        setting: terms.setting,
    };
    translator.translate(text, signs)
}

// The same by the image, which is opened here.
fn translate_on(
    terms: Terms,
    image: &[u8],
    text: &[u8],
    signs: &mut [u8],
) -> Result<Counts, Refusal>
    requires { entry_signs * most_text ≤ length signs.old }
    ensures { Ends (handed signs.old (translate_on terms image.now text.now)) result signs.new }
{
    translate_read(judge::open(image), terms, text, signs)
}

// Translates a text by a table, on the caller's terms: the refusal, or how many pieces it has and
// how many signs, which stand at the front of `signs`. What lies beyond them, and all of `signs`
// where it is refused, is as it was. The terms say which symbol follows the text, the year to
// print by, and what the caller's own checks say: they come after the table's and before the
// text's.
pub fn translate(
    terms: Terms,
    image: &[u8],
    text: &[u8],
    signs: &mut [u8; 65536],
) -> Result<Counts, Refusal>
    ensures { Translated terms image.now text.now signs.old result signs.new }
{
    translate_on(terms, image, text, signs)
}
