// What comes next in the text: a letter, a capital, a word of capitals alone, a blank line.

ghost use Rattle.std.specs.Prelude.{◌≡◌};
ghost use Rattle.inkprint.specs.Characters.{characters_of};
ghost use Rattle.inkprint.specs.Marks.{starts_letter, starts_capital, capital_next, capitals_on, all_capitals, is_blank};

use crate::decoding::next;
use crate::sorting::{glyph, is_apostrophe, is_capital, is_letter};
use inkprint::Glyph;

// Whether a letter comes next.
#[tactic(auto, unfolding(inkprint::specs::Marks::starts_letter))]
pub(crate) fn starts_letter(text: &[u8]) -> bool
    ensures { result ≡ starts_letter (characters_of text.now) }
{
    next(text).is_some_and(|(c, _)| is_letter(glyph(c.code)))
}

// Whether a capital comes next.
#[tactic(auto, unfolding(inkprint::specs::Marks::starts_capital))]
pub(crate) fn starts_capital(text: &[u8]) -> bool
    ensures { result ≡ starts_capital (characters_of text.now) }
{
    next(text).is_some_and(|(c, _)| is_capital(glyph(c.code)))
}

// Whether a capital comes next, also after an apostrophe.
#[tactic(auto, unfolding(inkprint::specs::Marks::capital_next))]
fn capital_next(text: &[u8]) -> bool
    ensures { result ≡ capital_next (characters_of text.now) }
{
    let Some((c, rest)) = next(text) else {
        return false;
    };
    let g = glyph(c.code);
    if is_apostrophe(g) {
        return starts_capital(rest);
    }
    is_capital(g)
}

// Whether the word that goes on here has capitals alone.
#[tactic(auto, unfolding(inkprint::specs::Marks::capitals_on))]
fn capitals_on(text: &[u8]) -> bool
    ensures { result ≡ capitals_on (characters_of text.now) }
{
    let mut left = text;
    while let Some((c, rest)) = next(left) {
        let g = glyph(c.code);
        if is_letter(g) {
            if !is_capital(g) {
                return false;
            }
        } else if !(is_apostrophe(g) && starts_capital(rest)) {
            return true;
        }
        left = rest;
    }
    true
}

// Whether a word that begins with a capital before these has two or more, and nothing else.
#[tactic(auto, unfolding(inkprint::specs::Marks::all_capitals))]
pub(crate) fn all_capitals(text: &[u8]) -> bool
    ensures { result ≡ all_capitals (characters_of text.now) }
{
    capital_next(text) && capitals_on(text)
}

// Whether the line goes on with gaps alone, and ends.
#[tactic(auto, unfolding(inkprint::specs::Marks::is_blank))]
pub(crate) fn is_blank(text: &[u8]) -> bool
    ensures { result ≡ is_blank (characters_of text.now) }
{
    let mut left = text;
    while let Some((c, rest)) = next(left) {
        match glyph(c.code) {
            Glyph::Gap | Glyph::Nothing => left = rest,
            g => return matches!(g, Glyph::Feed),
        }
    }
    false
}
