// The limits of a sheet.

ghost use Rattle.pages.specs.Promises.{SheetVerdict};

use crate::Sheet;
use table::Refusal;

impl Sheet {
    // Accepted where the width and the page length are within their limits.
    pub fn verdict(self) -> Result<(), Refusal>
        ensures { SheetVerdict self result }
    {
        if (8..=60).contains(&self.width) && (2..=40).contains(&self.length) {
            Ok(())
        } else {
            Err(Refusal::Size)
        }
    }
}
