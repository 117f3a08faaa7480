// What each character is to the marks, by its code.

ghost use Rattle.std.specs.Prelude.{◌≡◌};
ghost use Rattle.inkprint.specs.Glyphs.{latin_glyph, typographic as typographic_of, ascii_sign, other_glyph, glyph_of, is_marked, is_letter, is_capital, is_apostrophe};

use inkprint::Glyph;

// The letters of U+00C0 to U+017F without their accents, small ones small, and 0 for what is no
// accented letter.
const LATIN: [u8; 192] = [
    65, 65, 65, 65, 65, 65, 0, 67, 69, 69, 69, 69, 73, 73, 73, 73, 0, 78, 79, 79, 79, 79, 79, 0,
    79, 85, 85, 85, 85, 89, 0, 0, 97, 97, 97, 97, 97, 97, 0, 99, 101, 101, 101, 101, 105, 105, 105,
    105, 0, 110, 111, 111, 111, 111, 111, 0, 111, 117, 117, 117, 117, 121, 0, 121, 65, 97, 65, 97,
    65, 97, 67, 99, 67, 99, 67, 99, 67, 99, 68, 100, 68, 100, 69, 101, 69, 101, 69, 101, 69, 101,
    69, 101, 71, 103, 71, 103, 71, 103, 71, 103, 72, 104, 72, 104, 73, 105, 73, 105, 73, 105, 73,
    105, 73, 105, 0, 0, 74, 106, 75, 107, 0, 76, 108, 76, 108, 76, 108, 0, 0, 76, 108, 78, 110, 78,
    110, 78, 110, 0, 0, 0, 79, 111, 79, 111, 79, 111, 0, 0, 82, 114, 82, 114, 82, 114, 83, 115, 83,
    115, 83, 115, 83, 115, 84, 116, 84, 116, 84, 116, 85, 117, 85, 117, 85, 117, 85, 117, 85, 117,
    85, 117, 87, 119, 89, 121, 89, 90, 122, 90, 122, 90, 122, 0,
];

// An accented letter, by the table.
#[tactic(auto, unfolding(inkprint::specs::Glyphs::latin_glyph))]
fn latin_glyph(l: u8) -> Glyph
    ensures { result ≡ latin_glyph l }
{
    match l {
        0 => Glyph::Unmarked,
        1..=90 => Glyph::Letter(l, true, true),
        _ => Glyph::Letter(l - 32, false, true),
    }
}

// A typographic sign.
#[tactic(auto, unfolding(inkprint::specs::Glyphs::typographic, inkprint::specs::Glyphs::is_dash, inkprint::specs::Glyphs::is_long_dash))]
fn typographic(c: u32) -> Glyph
    ensures { result ≡ typographic_of c }
{
    match c {
        8208..=8211 | 8722 => Glyph::Plain(b'-'),
        8212 | 8213 => Glyph::LongDash,
        8216 => Glyph::Opens,
        8217 => Glyph::Closes,
        8220 | 8221 => Glyph::Plain(b'"'),
        8230 => Glyph::Dots,
        _ => Glyph::Unmarked,
    }
}

// A sign of ASCII.
#[tactic(auto, unfolding(inkprint::specs::Glyphs::ascii_sign, inkprint::specs::Glyphs::is_own_sign, inkprint::specs::Glyphs::literal_of))]
fn ascii_sign(c: u8) -> Glyph
    ensures { result ≡ ascii_sign c }
{
    match c {
        b'$' | b'%' | b'+' | b'<' | b'=' | b'>' | b'_' => Glyph::Literal(c),
        b'|' => Glyph::Literal(b'I'),
        b'[' => Glyph::Plain(b'<'),
        b']' => Glyph::Plain(b'>'),
        _ => Glyph::Plain(c),
    }
}

// A character that is no letter of ASCII, no gap and no sign of it.
#[tactic(auto, unfolding(inkprint::specs::Glyphs::other_glyph, inkprint::specs::Glyphs::is_nothing))]
fn other_glyph(c: u32) -> Glyph
    ensures { result ≡ other_glyph c }
{
    match c {
        10 => Glyph::Feed,
        12 => Glyph::Page,
        13 | 173 | 65279 => Glyph::Nothing,
        192..=383 => latin_glyph(LATIN[(c - 192) as usize]),
        _ => typographic(c),
    }
}

// The glyph of a character. Most are letters, each told by one test before the rest.
#[tactic(auto, unfolding(inkprint::specs::Glyphs::glyph_of, inkprint::specs::Glyphs::is_gap))]
pub(crate) fn glyph(c: u32) -> Glyph
    ensures { result ≡ glyph_of c }
{
    // Kept: `as`, here and in the table's index. A code that is told by a pattern fits, and `try_from`
    // would add a case that can't be.
    if matches!(c, 97..=122) {
        return Glyph::Letter((c - 32) as u8, false, false);
    }
    if matches!(c, 65..=90) {
        return Glyph::Letter(c as u8, true, false);
    }
    match c {
        9 | 32 | 160 | 8192..=8202 | 8239 => Glyph::Gap,
        33..=126 => ascii_sign(c as u8),
        _ => other_glyph(c),
    }
}

pub(crate) fn is_marked(g: Glyph) -> bool
    ensures { result ≡ is_marked g }
{
    !matches!(g, Glyph::Unmarked)
}

pub(crate) fn is_letter(g: Glyph) -> bool
    ensures { result ≡ is_letter g }
{
    matches!(g, Glyph::Letter(..))
}

pub(crate) fn is_capital(g: Glyph) -> bool
    ensures { result ≡ is_capital g }
{
    matches!(g, Glyph::Letter(_, true, _))
}

pub(crate) fn is_apostrophe(g: Glyph) -> bool
    ensures { result ≡ is_apostrophe g }
{
    matches!(g, Glyph::Plain(b'\'') | Glyph::Closes)
}
