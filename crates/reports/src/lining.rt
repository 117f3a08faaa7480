// The lines of a readable table: the line that a record of the image comes from.

// Whether a character parts words.
fn is_gap(c: u8) -> bool {
    matches!(c, b' ' | b'\t' | b'\r')
}

// Whether a line of a readable table begins with this word: no word of the form begins another.
fn begins_with(line: &[u8], word: &[u8]) -> bool {
    let first = line.iter().position(|c| !is_gap(*c));
    first.is_some_and(|at| line[at..].starts_with(word))
}

// The number of the line that has record `index` of this word, counted from 0, if one has.
pub(crate) fn line_of(text: &[u8], word: &[u8], index: usize) -> Option<usize> {
    text.split(|c| *c == b'\n')
        .zip(1..)
        .filter(|(line, _)| begins_with(line, word))
        .nth(index)
        .map(|(_, number)| number)
}
