// What `show` writes, piece by piece. A pen counts the bytes that are put and writes those for which
// the output has room, so that a text is measured by the functions that write it.

ghost use Rattle.std.specs.Prelude.{◌∷◌, [], ◌≡◌, ℕ, ◌+◌, ◌*◌, ◌≤◌, ◌<◌, length, get_or, replicate};
ghost use Rattle.form.specs.Fields.{spelled, size_of};
ghost use Rattle.form.specs.Showing.{decimal, rightward, shown_number, shown_mark_or, shown_symbol, shown_symbols, leftward, signs_before, shown_numbers, shown_year, shown_years, shown_signs, shown_tail, shown_field, shown_line};
ghost use Rattle.table.specs.Sections.{number_at};
ghost use Rattle.form.specs.declared.Field.TheVariants.{Tail};
ghost use Rattle.writing.specs.inside.Puts.{Puts, Stringed, Fitting};
ghost use Rattle.writing.specs.inside.Penned.{Penned};
ghost use Rattle.form.specs.inside.Steps.{Modest};

use form::{Draft, Field, Keyword, field_at, field_count, is_escaped, size_of};

// The output, and the place of the next byte.
#[derive(Drop)]
pub(crate) struct Pen<'a> {
    out: &'a mut [u8],
    pub(crate) at: usize,
}

impl<'a> Pen<'a> {
    pub(crate) fn new(out: &'a mut [u8]) -> Pen<'a>
        ensures { (result.out.ghost_name ≡ out.entry.ghost_name) × (result.out.now ≡ out.old) × (result.at ≡ 0) }
    {
        Pen { out, at: 0 }
    }

    // One byte.
    pub(crate) fn put(&mut self, byte: u8)
        requires { self.old.at < 4000000000 }
        ensures { Penned self.old (byte ∷ []) self.new }
    {
        if self.at < self.out.len() {
            self.out[self.at] = byte;
        }
        self.at += 1;
    }

    // The same byte so many times.
    fn put_same(&mut self, byte: u8, n: usize)
        requires { self.old.at + n < 4000000000 }
        ensures { Penned self.old (replicate n byte) self.new }
    {
        for _ in 0..n {
            self.put(byte);
        }
    }

    // These bytes.
    fn put_bytes(&mut self, bytes: &[u8])
        requires { self.old.at + length bytes.now < 4000000000 }
        ensures { Penned self.old bytes.now self.new }
    {
        for byte in bytes {
            self.put(*byte);
        }
    }

    // A number in decimal.
    fn put_decimal(&mut self, n: u16)
        requires { self.old.at < 3000000000 }
        ensures { Penned self.old (decimal n) self.new × (self.new.at ≤ self.old.at + 5) }
    {
        if n < 10 {
            self.put(b'0' + n as u8);
        } else {
            self.put_decimal(n / 10);
            self.put(b'0' + (n % 10) as u8);
        }
    }

    // A blank at least, and then a number that ends in the column `width`.
    fn put_number(&mut self, width: usize, n: u16)
        requires { (self.old.at < 2000000000) × (width ≤ 10) }
        ensures { Penned self.old (shown_number width n) self.new × (self.new.at ≤ self.old.at + 16) }
    {
        self.put_same(b' ', 1 + width.saturating_sub(digit_count(n)));
        self.put_decimal(n);
    }

    // A blank at least, and then a word that ends in the column `width`.
    fn put_word(&mut self, width: usize, word: &[u8])
        requires { (self.old.at < 2000000000) × (width ≤ 10) × (length word.now ≤ 10) }
        ensures { Penned self.old (rightward width word.now) self.new × (self.new.at ≤ self.old.at + 21) }
    {
        self.put_same(b' ', 1 + width.saturating_sub(word.len()));
        self.put_bytes(word);
    }

    // The mark where the number is the value that it stands for, and else the number.
    fn put_mark_or(&mut self, width: usize, mark: u8, value: u8, n: u8)
        requires { (self.old.at < 2000000000) × (width ≤ 10) }
        ensures { Penned self.old (shown_mark_or width mark value n) self.new × (self.new.at ≤ self.old.at + 21) }
    {
        if n == value {
            self.put_word(width, &[mark]);
        } else {
            self.put_number(width, u16::from(n));
        }
    }

    // A symbol as it is written.
    fn put_symbol(&mut self, c: u8)
        requires { self.old.at < 3000000000 }
        ensures { Penned self.old (shown_symbol c) self.new × (self.new.at ≤ self.old.at + 2) }
    {
        if c == b' ' {
            self.put(b'_');
        } else if is_escaped(c) {
            self.put_bytes(&[b'\\', c]);
        } else {
            self.put(c);
        }
    }

    // A blank, and the symbols, in `width` columns at least.
    fn put_symbols(&mut self, width: usize, symbols: &[u8])
        requires { (self.old.at < 2000000000) × (width ≤ 10) × (length symbols.now ≤ 64) }
        ensures { Penned self.old (leftward width (shown_symbols symbols.now 0 (length symbols.now))) self.new × (self.new.at ≤ self.old.at + 139) }
    {
        self.put(b' ');
        let begin = self.at;
        for c in symbols {
            self.put_symbol(*c);
        }
        self.put_same(b' ', width.saturating_sub(self.at - begin));
    }

    // The colon, and the signs before a 99 of the four from byte `from` on.
    fn put_signs(&mut self, bytes: &[u8], from: usize)
        requires { (self.old.at < 1900000000) × (from + 4 ≤ length bytes.now) }
        ensures { Penned self.old (shown_signs bytes.now from) self.new × (self.new.at ≤ self.old.at + 85) }
    {
        self.put_word(0, b":");
        for sign in &bytes[from..from + signs_before(bytes, from)] {
            self.put_number(2, u16::from(*sign));
        }
    }

    // A year after its word, or nothing where it needn't be said.
    fn put_year(&mut self, word: &[u8], unsaid: u16, year: u16)
        requires { (self.old.at < 1500000000) × (length word.now ≤ 10) }
        ensures { Penned self.old (shown_year word.now unsaid year) self.new × (self.new.at ≤ self.old.at + 37) }
    {
        if year != unsaid {
            self.put_word(0, word);
            self.put_number(4, year);
        }
    }

    // The years past so many signs that are missing, or nothing for always.
    fn put_years(&mut self, missing: usize, first: u16, last: u16)
        requires { (self.old.at < 1200000000) × (missing ≤ 4) }
        ensures { Penned self.old (shown_years missing first last) self.new × (self.new.at ≤ self.old.at + 86) }
    {
        if first == 0 && last == 65535 {
            return;
        }
        self.put_same(b' ', 3 * missing);
        self.put_year(b"from", 0, first);
        self.put_year(b"to", 65535, last);
    }

    // The signs, and in a dated table the years.
    fn put_tail(&mut self, dated: bool, bytes: &[u8], from: usize)
        requires { (self.old.at < 1100000000) × (from + size_of (Tail dated) ≤ length bytes.now) }
        ensures { Penned self.old (shown_tail dated bytes.now from) self.new × (self.new.at ≤ self.old.at + 171) }
    {
        self.put_signs(bytes, from);
        if dated {
            let missing = 4 - signs_before(bytes, from);
            self.put_years(
                missing,
                number_at(bytes, from + 4),
                number_at(bytes, from + 6),
            );
        }
    }

    // The field at byte `from` of a record.
    fn put_field(&mut self, field: Field, bytes: &[u8], from: usize)
        requires { (self.old.at < 1100000000) × (size_of field ≤ 64) × (from + size_of field ≤ length bytes.now) × Stringed field bytes.now from }
        ensures { Penned self.old (shown_field field bytes.now from) self.new × (self.new.at ≤ self.old.at + 171) }
    {
        match field {
            Field::Number(..) => self.put_number(2, u16::from(bytes[from])),
            Field::Symbol => self.put_symbols(2, &bytes[from..from + 1]),
            Field::Row(n) => self.put_symbols(0, &bytes[from..from + usize::from(n)]),
            Field::String => {
                let begin = from + 1;
                self.put_symbols(10, &bytes[begin..begin + usize::from(bytes[from])]);
            }
            Field::Classed => {
                self.put_number(2, u16::from(bytes[from + 1]));
                self.put_mark_or(1, b'-', 0, bytes[from]);
            }
            Field::Shift => self.put_mark_or(2, b'=', bytes[0], bytes[from]),
            Field::Tail(dated) => self.put_tail(dated, bytes, from),
        }
    }

    // A record's line.
    pub(crate) fn put_line(&mut self, draft: Draft, keyword: Keyword, bytes: &[u8])
        requires { (self.old.at < 1000000000) × Modest draft × Fitting draft keyword bytes.now }
        ensures { Penned self.old (shown_line draft keyword bytes.now) self.new × (self.new.at ≤ self.old.at + 700) }
    {
        self.put_bytes(keyword.word());
        let mut from = 0;
        for j in 0..field_count(draft, keyword) {
            let field = field_at(draft, keyword, j);
            self.put_field(field, bytes, from);
            from += size_of(field);
        }
        self.put(b'\n');
    }
}

// How many digits a number has.
fn digit_count(n: u16) -> usize
    ensures { (result ≡ length (decimal n)) × (result ≤ 5) }
{
    if n < 10 { 1 } else { digit_count(n / 10) + 1 }
}

// How many of the four signs from byte `from` on stand before a 99.
fn signs_before(bytes: &[u8], from: usize) -> usize
    requires { from + 4 ≤ length bytes.now }
    ensures { (result ≡ signs_before bytes.now from 4) × (result ≤ 4) }
{
    for (j, sign) in bytes[from..from + 4].iter().enumerate() {
        if *sign == 99 {
            return j;
        }
    }
    4
}

// The two-byte number at a place, low byte first.
fn number_at(bytes: &[u8], at: usize) -> u16
    requires { at + 2 ≤ length bytes.now }
    ensures { result ≡ number_at bytes.now at }
{
    u16::from_le_bytes([bytes[at], bytes[at + 1]])
}
