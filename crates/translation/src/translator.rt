// What translates: the image of an accepted table, with its sections, and the setting to translate
// in. Its methods are in the modules of this crate, each with what it is about; each reads the
// records where they lie.

ghost use Rattle.std.specs.Prelude.{◌≡◌, IsOk};
ghost use Rattle.table.specs.Sections.{sections_of};
ghost use Rattle.table.specs.Verdict.{verdict_of};

use crate::Setting;
use table::Sections;

// A translator. That its image is accepted and its sections are the image's goes with it: so all
// its records lie within the image, and they are right.
#[derive(Clone, Copy)]
pub(crate) struct Translator<'a> {
    pub(crate) image: &'a [u8],
    pub(crate) sections: Sections,
    pub(crate) setting: Setting,
    ghost accepted: { IsOk (verdict_of image.now) },
    ghost located: { sections ≡ sections_of image.now },
}
