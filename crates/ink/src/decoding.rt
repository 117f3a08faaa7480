// UTF-8: the characters of the text, from its front. A byte that begins no whole character is one of
// its own, with a code that no character has.

ghost use Rattle.std.specs.Prelude.{◌≡◌, ℕ, ◌≤◌, length, slice_index, MatchOption};
ghost use Rattle.table.specs.Refusals.{Between};
ghost use Rattle.inkprint.specs.Characters.{of_three, of_four, next_of};
ghost use Rattle.inkprint.specs.inside.Steps.{Begins, Ends};

use inkprint::Character;

// A byte that begins no whole character: its code is past the last.
const BROKEN: Character = Character {
    code: 1114112,
    size: 1,
};

// What three bytes are together: a character, if no shorter form has it and it is no surrogate.
#[tactic(auto, unfolding(inkprint::specs::Characters::of_three, inkprint::specs::Characters::of_four, inkprint::specs::Characters::three_bytes))]
fn three(a: u8, b: u8, c: u8) -> Character
    requires first { Between 224 239 a }
    requires second { Between 128 191 b }
    requires third { Between 128 191 c }
    ensures { (d : ℕ) → result ≡ of_three a b c d }
{
    let code = 4096 * u32::from(a - 224) + 64 * u32::from(b - 128) + u32::from(c - 128);
    match code {
        0..=2047 | 55296..=57343 => BROKEN,
        _ => Character { code, size: 3 },
    }
}

// What four bytes are together: a character, if no shorter form has it and it isn't past the last.
#[tactic(auto, unfolding(inkprint::specs::Characters::of_four, inkprint::specs::Characters::four_bytes))]
fn four(a: u8, b: u8, c: u8, d: u8) -> Character
    requires first { Between 240 244 a }
    requires second { Between 128 191 b }
    requires third { Between 128 191 c }
    requires fourth { Between 128 191 d }
    ensures { result ≡ of_four a b c d }
{
    let code = 262144 * u32::from(a - 240)
        + 4096 * u32::from(b - 128)
        + 64 * u32::from(c - 128)
        + u32::from(d - 128);
    match code {
        65536..=1114111 => Character { code, size: 4 },
        _ => BROKEN,
    }
}

// The character at the front of the text, which begins with no byte of ASCII.
#[tactic(auto, unfolding(inkprint::specs::Characters::next_of, inkprint::specs::Characters::of_bytes, inkprint::specs::Characters::of_two, inkprint::specs::Characters::of_three, inkprint::specs::Characters::of_four, inkprint::specs::Characters::two_bytes))]
#[inline(never)]
fn longer(text: &[u8]) -> Character
    requires { 128 ≤ slice_index text.now 0 }
    ensures { result ≡ next_of text.now }
{
    match *text {
        [a @ 194..=223, b @ 128..=191, ..] => Character {
            code: 64 * u32::from(a - 192) + u32::from(b - 128),
            size: 2,
        },
        [a @ 224..=239, b @ 128..=191, c @ 128..=191, ..] => three(a, b, c),
        [
            a @ 240..=244,
            b @ 128..=191,
            c @ 128..=191,
            d @ 128..=191,
            ..
        ] => four(a, b, c, d),
        _ => BROKEN,
    }
}

// The character at the front of the text, and the rest of it. It is small, so that each loop has it
// in place.
#[inline]
pub(crate) fn next(text: &[u8]) -> Option<(Character, &[u8])>
    ensures { MatchOption result (Ends text.now) (λ p. Begins text.now p.0 p.1.now) }
{
    let [a, rest @ ..] = text else {
        return None;
    };
    if *a < 128 {
        let c = Character {
            code: u32::from(*a),
            size: 1,
        };
        return Some((c, rest));
    }
    let c = longer(text);
    Some((c, &text[c.size..]))
}
