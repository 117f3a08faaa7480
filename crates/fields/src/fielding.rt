// How each field of a line is read into its bytes of a record, and where the line then goes on.

ghost use Rattle.std.specs.Prelude.{[], ◌≡◌, ◌≤◌, ◌<◌, length, take};
ghost use Rattle.form.specs.Words.{row as row_in, string as string_in};
ghost use Rattle.form.specs.Fields.{fields_of, size_of, sizes_of, classed as classed_in, signs as signs_in, year as year_in, years as years_in, tail as tail_in, read_field, read_fields};
ghost use Rattle.form.specs.declared.Field.TheVariants.{Tail};
ghost use Rattle.fields.specs.inside.Cursors.{rest_at, ReadsValue, ReadsField, ByteValue, byte_read};

use crate::cursor::Cursor;
use form::{Draft, Expected, Field, Keyword, Unlike, field_at, field_count, is_word, size_of};

// A value of one byte goes into the byte.
fn one_byte<'a>(
    value: Result<(u16, Cursor<'a>), Unlike>,
    bytes: &mut [u8],
) -> Result<Cursor<'a>, Unlike>
    requires { (length bytes.old ≡ 1) × ByteValue value }
    ensures { byte_read bytes.old value.entry result bytes.new }
{
    let (byte, next) = value?;
    bytes[0] = byte as u8;
    Ok(next)
}

impl<'a> Cursor<'a> {
    // Just so many symbols as there are bytes, which are a word.
    fn row(self, bytes: &mut [u8]) -> Result<Self, Unlike>
        requires { length bytes.old < 65536 }
        ensures { ReadsField self.entry (row_in (length bytes.old) (rest_at self.entry)) bytes.new result }
    {
        let (many, next) = self.symbols(bytes)?;
        if many < bytes.len() {
            return Err(next.unlike(Expected::Row(bytes.len() as u16)));
        }
        next.whole_word()?;
        Ok(next)
    }

    // A string: its length, its symbols, and 0 up to ten.
    fn string(self, bytes: &mut [u8]) -> Result<Self, Unlike>
        requires { length bytes.old ≡ 11 }
        ensures { ReadsField self.entry (string_in (rest_at self.entry)) bytes.new result }
    {
        let (length, string) = bytes.split_at_mut(1);
        let (many, next) = self.symbols(string)?;
        if many == 0 {
            return Err(next.unlike(Expected::Symbol));
        }
        next.whole_word()?;
        length[0] = many as u8;
        string[many..].fill(0);
        Ok(next)
    }

    // A class, and then a right context, which stands before it in the record.
    fn classed(self, bytes: &mut [u8]) -> Result<Self, Unlike>
        requires { length bytes.old ≡ 2 }
        ensures { ReadsField self.entry (classed_in (rest_at self.entry)) bytes.new result }
    {
        let (class, end) = self.number(0, 255)?;
        let (context, next) = end.after_gap().mark_or(b'-', 0)?;
        bytes[0] = context as u8;
        bytes[1] = class as u8;
        Ok(next)
    }

    // Up to four signs, and 99 for each that is missing.
    fn signs(self, bytes: &mut [u8]) -> Result<Self, Unlike>
        requires { length bytes.old ≡ 4 }
        ensures { ReadsField self.entry (signs_in (rest_at self.entry)) bytes.new result }
    {
        bytes.fill(99);
        let mut next = self;
        for byte in bytes {
            let start = next.after_gap();
            if !start.starts_number() {
                return Ok(next);
            }
            let (sign, end) = start.number(0, 255)?;
            *byte = sign as u8;
            next = end;
        }
        Ok(next)
    }

    // A year after its word, or what is meant where the word isn't there.
    fn year(self, word: &[u8], unsaid: u16) -> Result<(u16, Self), Unlike>
        ensures { ReadsValue 65535 self.entry (year_in word.now unsaid (rest_at self.entry)) result }
    {
        let start = self.after_gap();
        if !is_word(start.line, start.at, word) {
            return Ok((unsaid, self));
        }
        start.to(start.at + word.len()).after_gap().number(0, 65535)
    }

    // The first year and the last.
    fn years(self, bytes: &mut [u8]) -> Result<Self, Unlike>
        requires { length bytes.old ≡ 4 }
        ensures { ReadsField self.entry (years_in (rest_at self.entry)) bytes.new result }
    {
        let (first, end) = self.year(b"from", 0)?;
        let (last, next) = end.year(b"to", 65535)?;
        let (from, to) = bytes.split_at_mut(2);
        from.copy_from_slice(&first.to_le_bytes());
        to.copy_from_slice(&last.to_le_bytes());
        Ok(next)
    }

    // The colon and the signs, and in a dated table the years.
    fn tail(self, dated: bool, bytes: &mut [u8]) -> Result<Self, Unlike>
        requires { length bytes.old ≡ size_of (Tail dated) }
        ensures { ReadsField self.entry (tail_in dated (rest_at self.entry)) bytes.new result }
    {
        if !is_word(self.line, self.at, b":") {
            return Err(self.unlike(Expected::Colon));
        }
        let (written, when) = bytes.split_at_mut(4);
        let next = self.to(self.at + 1).signs(written)?;
        if dated { next.years(when) } else { Ok(next) }
    }

    // The field from there on, after those that have given `sofar`. A shift may say that it is the
    // string's length, which is the first of these bytes.
    fn read_field(self, field: Field, sofar: &[u8], bytes: &mut [u8]) -> Result<Self, Unlike>
        requires { (length bytes.old ≡ size_of field) × (size_of field < 65536) }
        ensures { ReadsField self.entry (read_field field sofar.now (rest_at self.entry)) bytes.new result }
    {
        match field {
            Field::Number(least, most) => {
                one_byte(self.number(u16::from(least), u16::from(most)), bytes)
            }
            Field::Symbol | Field::Row(_) => self.row(bytes),
            Field::String => self.string(bytes),
            Field::Classed => self.classed(bytes),
            Field::Shift => {
                let length = sofar.first().copied().unwrap_or(0);
                one_byte(self.mark_or(b'=', length), bytes)
            }
            Field::Tail(dated) => self.tail(dated, bytes),
        }
    }

    // All fields of a line, from the record's first byte on.
    pub(crate) fn read_fields(
        self,
        draft: Draft,
        keyword: Keyword,
        rec: &mut [u8],
    ) -> Result<Self, Unlike>
        requires { (sizes_of (fields_of draft keyword) ≤ length rec.old) × (length rec.old ≡ 64) }
        ensures { ReadsField self.entry (read_fields (fields_of draft keyword) [] (rest_at self.entry)) (take (sizes_of (fields_of draft keyword)) rec.new) result }
    {
        let mut next = self;
        let mut n = 0;
        for j in 0..field_count(draft, keyword) {
            let field = field_at(draft, keyword, j);
            let size = size_of(field);
            let (sofar, rest) = rec.split_at_mut(n);
            next = next
                .after_gap()
                .read_field(field, sofar, &mut rest[..size])?;
            n += size;
        }
        Ok(next)
    }
}
