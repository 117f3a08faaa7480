// The words of a line: gaps, the word that stands there, and symbols, read from a place of the line on.
// A place past the line's end is its end.

ghost use Rattle.std.specs.Prelude.{◌≡◌, ◌≤◌, length, drop};
ghost use Rattle.form.specs.Words.{is_gap, after_gap, ends_word as word_ends, ends_line as line_ends, is_word, is_escaped, escaped, symbol as symbol_in};
ghost use Rattle.form.specs.inside.Steps.{value_read, ValueWithin};

use crate::{Expected, Unlike};

// Whether a character parts words: a blank, a tab or a carriage return.
#[tactic(auto, unfolding(crate::specs::Words::is_gap))]
fn is_gap(c: u8) -> bool
    ensures { result ≡ is_gap c }
{
    c == b' ' || c == b'\t' || c == b'\r'
}

// The place after the gap.
pub fn gap_end(line: &[u8], at: usize) -> usize
    ensures { (drop result line.now ≡ after_gap (drop at line.now)) × (result ≤ length line.now) }
{
    for i in at..line.len() {
        if !is_gap(line[i]) {
            return i;
        }
    }
    line.len()
}

// Whether a word ends there.
#[tactic(auto, unfolding(crate::specs::Words::ends_word))]
pub fn ends_word(line: &[u8], at: usize) -> bool
    ensures { result ≡ word_ends (drop at line.now) }
{
    line.get(at).is_none_or(|&c| is_gap(c))
}

// Whether the line ends there, or a remark begins.
#[tactic(auto, unfolding(crate::specs::Words::ends_line))]
pub fn ends_line(line: &[u8], at: usize) -> bool
    ensures { result ≡ line_ends (drop at line.now) }
{
    line.get(at).is_none_or(|&c| c == b'#')
}

// Whether the next word is this one.
pub fn is_word(line: &[u8], at: usize, word: &[u8]) -> bool
    ensures { result ≡ is_word word.now (drop at line.now) }
{
    let at = at.min(line.len());
    line[at..].starts_with(word) && ends_word(line, at + word.len())
}

// Whether a symbol is written after a backslash.
#[tactic(auto, unfolding(crate::specs::Words::is_escaped))]
pub fn is_escaped(c: u8) -> bool
    ensures { result ≡ is_escaped c }
{
    c == b'#' || c == b'_' || c == b'\\'
}

// The symbol after a backslash.
#[tactic(auto, unfolding(crate::specs::Words::escaped))]
fn after_backslash(line: &[u8], at: usize) -> Result<(u16, usize), Unlike>
    requires { at ≤ length line.now }
    ensures { (value_read line.now result ≡ escaped (drop at line.now)) × ValueWithin 255 line.now result }
{
    match line.get(at) {
        Some(&c) if is_escaped(c) => Ok((u16::from(c), at + 1)),
        _ => Err(Unlike {
            expected: Expected::Escaped,
            at,
        }),
    }
}

// A symbol, and where the line goes on.
#[tactic(auto, unfolding(crate::specs::Words::symbol))]
pub fn symbol(line: &[u8], at: usize) -> Result<(u16, usize), Unlike>
    ensures { (value_read line.now result ≡ symbol_in (drop at line.now)) × ValueWithin 255 line.now result }
{
    match line.get(at) {
        Some(b'_') => Ok((32, at + 1)),
        Some(b'\\') => after_backslash(line, at + 1),
        Some(&c) if b'!' <= c && c <= b'~' && c != b'#' => Ok((u16::from(c), at + 1)),
        _ => Err(Unlike {
            expected: Expected::Symbol,
            at: at.min(line.len()),
        }),
    }
}
