// The fields of a line into a record. They are read into bytes of its own first, so that a record is as
// it was where they aren't of the form.

ghost use Rattle.fields.specs.Promises.{Fills};

use crate::cursor::Cursor;
use form::{Draft, Expected, Keyword, Unlike, record_size};

// Reads the fields that follow a line's first word, from there on, into the front of the record, and
// gives where the line goes on. Where they aren't of the form the record is as it was, and so it is
// where it has no room for them.
pub fn fill(
    draft: Draft,
    keyword: Keyword,
    line: &[u8],
    at: usize,
    rec: &mut [u8; 64],
) -> Result<usize, Unlike>
    ensures { Fills draft keyword line.now at rec.old result rec.new }
{
    let at = at.min(line.len());
    let needed = record_size(draft, keyword);
    let mut own = [0u8; 64];
    if own.len() < needed {
        return Err(Unlike {
            expected: Expected::Fewer,
            at,
        });
    }
    let next = Cursor { line, at }.read_fields(draft, keyword, &mut own)?;
    rec[..needed].copy_from_slice(&own[..needed]);
    Ok(next.at)
}
