// Collapsing a text: bars go, line feeds become blanks, and of each run of blanks only the first is
// kept, or the first two after a period.

ghost use Rattle.std.specs.Prelude.{◌≡◌, ◌≤◌, length};
ghost use Rattle.translation.specs.Collapse.{unfed, kept_after, collapsed};
ghost use Rattle.translation.specs.inside.Making.{Thins, WroteUntil};

// The character, or a blank for a line feed.
#[tactic(auto, unfolding(crate::specs::Collapse::unfed))]
pub(crate) fn unfed(c: u8) -> u8
    ensures { result ≡ unfed c }
{
    if c == b'\n' { b' ' } else { c }
}

// How many blanks are kept of a run that follows this character.
#[tactic(auto, unfolding(crate::specs::Collapse::kept_after))]
fn kept_after(c: u8) -> u8
    ensures { result ≡ kept_after c }
{
    if c == b'.' { 2 } else { 1 }
}

// What is written for the next lent character, a blank for a line feed, or nothing where it is
// passed over. `kept` is how many blanks are kept of a run that stands here.
fn thin(c: u8, kept: &mut u8) -> Option<u8>
    ensures { Thins c kept.old result kept.new }
{
    if c == b'|' {
        return None;
    }
    let c = unfed(c);
    if c == b' ' {
        *kept = kept.checked_sub(1)?;
    } else {
        *kept = kept_after(c);
    }
    Some(c)
}

// Collapses the text into the front of `out` and answers how many characters that are.
pub(crate) fn collapse(text: &[u8], out: &mut [u8]) -> usize
    requires { length text.now ≤ length out.old }
    ensures { WroteUntil out.old 0 (collapsed text.now) out.new result }
{
    let mut kept = 1;
    let mut n = 0;
    for c in text {
        if let Some(c) = thin(*c, &mut kept) {
            out[n] = c;
            n += 1;
        }
    }
    n
}
