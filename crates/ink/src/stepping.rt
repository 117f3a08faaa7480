// One character: its mark, and the state after it.

ghost use Rattle.std.specs.Prelude.{◌≡◌, ℕ, ◌≤◌, length};
ghost use Rattle.inkprint.specs.Characters.{characters_of};
ghost use Rattle.inkprint.specs.inside.Steps.{Small};
ghost use Rattle.inkprint.specs.Marks.{signs, state as state_of, step as step_to, word_of, capital_signs, letter_mark, letter_step, sign_step, close_step, gap_step, feed_step, step_of};

use crate::looking::{all_capitals, is_blank, starts_capital, starts_letter};
use inkprint::{Glyph, Line, Signs, State, Step, Word};

// The mark of these bytes.
fn signs(bytes: &[u8]) -> Signs
    requires { length bytes.now ≤ 4 }
    ensures { result ≡ signs bytes.now }
{
    let mut all = [0; 4];
    all[..bytes.len()].copy_from_slice(bytes);
    Signs {
        count: bytes.len(),
        bytes: all,
    }
}

fn step(mark: Signs, line: Line, word: Word, single: bool) -> Step
    ensures { result ≡ step_to mark (state_of line word single) }
{
    Step {
        mark,
        next: State { line, word, single },
    }
}

// Which kind of word a letter stands in.
#[tactic(auto, unfolding(inkprint::specs::Marks::word_of))]
fn word_of(s: State, capital: bool, rest: &[u8]) -> Word
    ensures { result ≡ word_of s capital (characters_of rest.now) }
{
    match s.word {
        Word::Outside if capital && all_capitals(rest) => Word::Capitals,
        Word::Outside => Word::Mixed,
        word => word,
    }
}

// How many signs of a capital stand before it.
#[tactic(auto, unfolding(inkprint::specs::Marks::capital_signs))]
fn capital_signs(s: State, capital: bool, word: Word) -> u8
    ensures is { result ≡ capital_signs s capital word }
    ensures most { result ≤ 2 }
{
    if !capital {
        return 0;
    }
    match (word, s.word) {
        (Word::Capitals, Word::Outside) => 2,
        (Word::Capitals, _) => 0,
        _ => 1,
    }
}

#[tactic(auto, unfolding(inkprint::specs::Marks::letter_mark))]
fn letter_mark(capitals: u8, accented: bool, letter: u8) -> Signs
    ensures { result ≡ letter_mark capitals accented letter }
{
    match (capitals, accented) {
        (0, false) => signs(&[letter]),
        (1, false) => signs(&[b'=', letter]),
        (_, false) => signs(&[b'=', b'=', letter]),
        (0, true) => signs(&[b'%', letter]),
        (1, true) => signs(&[b'=', b'%', letter]),
        (_, true) => signs(&[b'=', b'=', b'%', letter]),
    }
}

#[tactic(auto, unfolding(inkprint::specs::Marks::letter_step))]
fn letter_step(s: State, letter: u8, capital: bool, accented: bool, rest: &[u8]) -> Step
    ensures { result ≡ letter_step s letter capital accented (characters_of rest.now) }
{
    let word = word_of(s, capital, rest);
    let capitals = capital_signs(s, capital, word);
    step(
        letter_mark(capitals, accented, letter),
        Line::Filled,
        word,
        s.single,
    )
}

// A sign that stands for itself.
#[tactic(auto, unfolding(inkprint::specs::Marks::sign_step))]
fn sign_step(s: State, sign: u8, rest: &[u8]) -> Step
    ensures { result ≡ sign_step s sign (characters_of rest.now) }
{
    if sign == b'\'' && starts_capital(rest) {
        return step(signs(&[sign]), Line::Filled, s.word, s.single);
    }
    step(signs(&[sign]), Line::Filled, Word::Outside, s.single)
}

// A right single quote, or an apostrophe.
#[tactic(auto, unfolding(inkprint::specs::Marks::close_step))]
fn close_step(s: State, rest: &[u8]) -> Step
    ensures { result ≡ close_step s (characters_of rest.now) }
{
    if s.single && !starts_letter(rest) {
        return step(signs(b"$'R"), Line::Filled, Word::Outside, false);
    }
    sign_step(s, b'\'', rest)
}

// A gap.
#[tactic(auto, unfolding(inkprint::specs::Marks::gap_step))]
fn gap_step(s: State, rest: &[u8]) -> Step
    ensures { result ≡ gap_step s (characters_of rest.now) }
{
    match s.line {
        Line::Filled => step(signs(b" "), Line::Filled, Word::Outside, s.single),
        Line::Starts if !is_blank(rest) => step(signs(b" "), Line::Filled, Word::Outside, s.single),
        _ => step(signs(b""), Line::Blank, Word::Outside, s.single),
    }
}

// A line's end.
#[tactic(auto, unfolding(inkprint::specs::Marks::feed_step))]
fn feed_step(s: State) -> Step
    ensures { result ≡ feed_step s }
{
    match s.line {
        Line::Filled => step(signs(b"\n"), Line::Starts, Word::Outside, s.single),
        _ => step(signs(b"$P"), Line::Starts, Word::Outside, false),
    }
}

// A character of this glyph, before the rest of the text.
#[tactic(auto, using(inkprint::proofs::Walk::step_small))]
pub(crate) fn step_of(s: State, g: Glyph, rest: &[u8]) -> Step
    ensures is { result ≡ step_of s g (characters_of rest.now) }
    ensures small { Small result.mark }
{
    match g {
        Glyph::Letter(letter, capital, accented) => letter_step(s, letter, capital, accented, rest),
        Glyph::Plain(sign) => sign_step(s, sign, rest),
        Glyph::Literal(sign) => step(
            signs(&[b'$', b':', sign]),
            Line::Filled,
            Word::Outside,
            s.single,
        ),
        Glyph::Gap => gap_step(s, rest),
        Glyph::Nothing => step(signs(b""), s.line, Word::Outside, s.single),
        Glyph::Feed => feed_step(s),
        Glyph::Page => step(signs(b"$N"), Line::Filled, Word::Outside, s.single),
        Glyph::LongDash => step(signs(b"--"), Line::Filled, Word::Outside, s.single),
        Glyph::Dots => step(signs(b"..."), Line::Filled, Word::Outside, s.single),
        Glyph::Opens => step(signs(b"$'"), Line::Filled, Word::Outside, true),
        Glyph::Closes => close_step(s, rest),
        Glyph::Unmarked => step(signs(b""), s.line, s.word, s.single),
    }
}
