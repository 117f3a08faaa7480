// The signs that are no cells of a word: the blank, which ends a word, and the format signs, which
// end one too and move the place.

ghost use Rattle.std.specs.Prelude.{◌≡◌};
ghost use Rattle.pages.specs.Signs.{ends_word};
ghost use Rattle.pages.specs.inside.Formats.{Names};

// The blank, as a sign and as a cell.
pub(crate) const BLANK: u8 = 0;

// A format sign, and what it ends or opens.
#[derive(Clone, Copy)]
pub(crate) enum Format {
    LineEnd,
    EmptyLine,
    Paragraph,
    PageEnd,
}

// A sign that is no format sign.
#[derive(Clone, Copy)]
pub(crate) struct NoFormat;

impl TryFrom<u8> for Format {
    type Error = NoFormat;

    ghost try_from_gives = { Names };

    fn try_from(sign: u8) -> Result<Self, NoFormat> {
        match sign {
            70 => Ok(Format::LineEnd),
            71 => Ok(Format::EmptyLine),
            72 => Ok(Format::Paragraph),
            73 => Ok(Format::PageEnd),
            _ => Err(NoFormat),
        }
    }
}

// Whether a sign ends a word: the blank, and the format signs.
pub(crate) fn ends_word(sign: u8) -> bool
    ensures { result ≡ ends_word sign }
{
    sign == BLANK || Format::try_from(sign).is_ok()
}
