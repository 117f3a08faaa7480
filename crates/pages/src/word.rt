// The cells that wait to be placed as a word, or as a part of one.

ghost use Rattle.std.specs.Prelude.{◌≡◌, ◌-◌, ◌<◌, ◌≤◌, List, [], ◌∷◌, ◌++◌, ℕ, length, drop, take};
ghost use Rattle.pages.specs.Numbers.{most_width};
ghost use Rattle.pages.specs.Words.{part_of};

use std::marker::Model;

// The cell that ends each part of a cut word but the last.
const HYPHEN: u8 = 36;

// As many cells as the widest line holds, of which the first `count` wait.
#[derive(Drop)]
pub(crate) struct Word {
    held: [u8; 60],
    count: usize,
}

// Clauses see the cells that wait.
impl Model for Word {
    ghost Value = { List ℕ };

    ghost view = { λ w. take w.count w.held };

    ghost invariant = { λ w. w.count ≤ most_width };
}

impl Word {
    // No cell waits.
    pub(crate) fn new() -> Self
        ensures { result ≡ [] }
    {
        Word {
            held: [0; 60],
            count: 0,
        }
    }

    // The cells that wait.
    pub(crate) fn cells(&self) -> &[u8]
        ensures all { result.now ≡ self.now }
        ensures most { length self.now ≤ most_width }
    {
        &self.held[..self.count]
    }

    // How many wait.
    pub(crate) fn len(&self) -> usize
        ensures all { result ≡ length self.now }
        ensures most { length self.now ≤ most_width }
    {
        self.count
    }

    // One more cell waits.
    pub(crate) fn push(&mut self, cell: u8)
        requires { length self.old < most_width }
        ensures { self.new ≡ self.old ++ cell ∷ [] }
    {
        self.held[self.count] = cell;
        self.count += 1;
    }

    // No cell waits any longer.
    pub(crate) fn clear(&mut self)
        ensures { self.new ≡ [] }
    {
        self.count = 0;
    }

    // The hyphen takes the place of the last cell, which is handed back.
    pub(crate) fn hyphenate(&mut self) -> u8
        requires { 0 < length self.old }
        ensures part { self.new ≡ part_of (length self.old) self.old }
        ensures held { drop (length self.old - 1) self.old ≡ result ∷ [] }
    {
        let last = self.held[self.count - 1];
        self.held[self.count - 1] = HYPHEN;
        last
    }
}
