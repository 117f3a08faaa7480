// What judges records: an image, with its sections and with its letters gathered by their symbols,
// so that a character is looked up in one step. Its methods are in the modules of this crate: those
// that judge a record in rules, those that go through the records in searching.

ghost use Rattle.std.specs.Prelude.{◌≡◌};
ghost use Rattle.table.specs.Sections.{sections_of};
ghost use Rattle.records.specs.inside.Judging.{LettersBySymbol};

use table::Sections;

// A judge. That its sections are the image's, and its letters those of the alphabet, goes with it.
#[derive(Clone, Copy)]
pub(crate) struct Judge<'a> {
    pub(crate) image: &'a [u8],
    pub(crate) sections: Sections,
    pub(crate) letters: &'a [u16; 256],
    ghost located: { sections ≡ sections_of image.now },
    ghost gathered: { LettersBySymbol image.now sections.alphabet letters.now },
}
