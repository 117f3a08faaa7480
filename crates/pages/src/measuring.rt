// The pass of the place alone: sign by sign, without writing. It gives the place at the end of the
// text, and with it the bytes that are needed.

ghost use Rattle.std.specs.Prelude.{◌≡◌, ◌<◌, ◌≤◌, ◌^◌};
ghost use Rattle.pages.specs.Numbers.{most_width};
ghost use Rattle.pages.specs.Words.{items_of};
ghost use Rattle.pages.specs.Place.{volume_end};
ghost use Rattle.pages.specs.inside.Gather.{Modest, stepped};
ghost use Rattle.pages.specs.inside.Writing.{Fillable};

use crate::ending::ends_word;
use crate::{Gathering, Place, Sheet};

impl Gathering {
    // One sign. A cell that comes where as many wait as the width tells that the word is cut: a
    // part is placed, and the last of those that waited waits on with the one that came.
    fn step(self, sheet: Sheet, sign: u8) -> Gathering
        requires { (Modest (2 ^ 31) self.place) × (self.cells ≤ most_width) }
        ensures { result ≡ stepped sheet self.place self.cells sign }
    {
        let Gathering { place, cells } = self;
        if ends_word(sign) {
            let place = place.flushed(sheet, cells).format(sheet, sign);
            Gathering { place, cells: 0 }
        } else if cells == sheet.width {
            let place = place.word(sheet, cells);
            Gathering { place, cells: 2 }
        } else {
            Gathering {
                place,
                cells: cells + 1,
            }
        }
    }
}

// The place at the end of the signs.
pub(crate) fn measure(signs: &[u8], sheet: Sheet) -> Place
    requires { Fillable sheet signs.now }
    ensures { result ≡ volume_end sheet (items_of sheet.width signs.now) }
{
    let mut so_far = Gathering {
        place: Place::first(),
        cells: 0,
    };
    for &sign in signs {
        so_far = so_far.step(sheet, sign);
    }
    so_far.place.flushed(sheet, so_far.cells).page_end(sheet)
}
