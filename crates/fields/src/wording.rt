// The words that fields are made of: numbers, marks and runs of symbols, read from a place of the line
// on.

ghost use Rattle.std.specs.Prelude.{◌≡◌, length, []};
ghost use Rattle.form.specs.Words.{after_gap, starts_number, digits_from, number as number_in, mark_or, symbols_from};
ghost use Rattle.fields.specs.inside.Cursors.{rest_at, ReadsValue, WordEnded, ReadsRun};

use crate::cursor::Cursor;
use form::{Expected, Unlike, ends_word, gap_end, symbol};

impl<'a> Cursor<'a> {
    // The place after the gap.
    pub(crate) fn after_gap(self) -> Self
        ensures rest { rest_at result ≡ after_gap (rest_at self.entry) }
        ensures line { result.line.now ≡ self.entry.line.now }
    {
        self.to(gap_end(self.line, self.at))
    }

    // Whether a number starts there.
    #[tactic(auto, unfolding(form::specs::Words::starts_number, form::specs::Words::is_digit))]
    pub(crate) fn starts_number(self) -> bool
        ensures { result ≡ starts_number (rest_at self.entry) }
    {
        self.line.get(self.at).is_some_and(|c| c.is_ascii_digit())
    }

    // The digits from there on, as a number that is at most `most`, and where the line goes on.
    fn digits(self, least: u16, most: u16) -> Result<(u16, Self), Unlike>
        ensures { ReadsValue most self.entry (digits_from least most 0 (rest_at self.entry)) result }
    {
        let line = self.line;
        let mut n: u16 = 0;
        for i in self.at..line.len() {
            let c = line[i];
            if !c.is_ascii_digit() {
                return Ok((n, self.to(i)));
            }
            let m = 10 * u32::from(n) + u32::from(c - b'0');
            if u32::from(most) < m {
                return Err(self.to(i).unlike(Expected::Number(least, most)));
            }
            n = m as u16;
        }
        Ok((n, self.to(line.len())))
    }

    // A number from `least` to `most`, which is a whole word.
    pub(crate) fn number(self, least: u16, most: u16) -> Result<(u16, Self), Unlike>
        ensures { ReadsValue most self.entry (number_in least most (rest_at self.entry)) result }
    {
        if !self.starts_number() {
            return Err(self.unlike(Expected::Number(least, most)));
        }
        let (n, next) = self.digits(least, most)?;
        if n < least {
            return Err(next.unlike(Expected::Number(least, most)));
        }
        next.whole_word()?;
        Ok((n, next))
    }

    // The mark, which stands for the value, or a number of a byte.
    pub(crate) fn mark_or(self, mark: u8, value: u8) -> Result<(u16, Self), Unlike>
        ensures { ReadsValue 255 self.entry (mark_or mark value (rest_at self.entry)) result }
    {
        match self.line.get(self.at) {
            Some(&c) if c == mark => {
                let next = self.to(self.at + 1);
                next.whole_word()?;
                Ok((u16::from(value), next))
            }
            _ => self.number(0, 255),
        }
    }

    // That a word ends there.
    pub(crate) fn whole_word(self) -> Result<(), Unlike>
        ensures { WordEnded self.entry result }
    {
        if ends_word(self.line, self.at) {
            Ok(())
        } else {
            Err(self.unlike(Expected::WordEnd))
        }
    }

    // At most so many symbols, to the end of the word, into the bytes: how many they are, and where
    // the line goes on.
    pub(crate) fn symbols(self, bytes: &mut [u8]) -> Result<(usize, Self), Unlike>
        ensures { ReadsRun (length bytes.old) self.entry (symbols_from (length bytes.old) [] (rest_at self.entry)) bytes.new result }
    {
        let mut next = self;
        for (many, byte) in bytes.iter_mut().enumerate() {
            if ends_word(next.line, next.at) {
                return Ok((many, next));
            }
            let (c, at) = symbol(next.line, next.at)?;
            *byte = c as u8;
            next = next.to(at);
        }
        Ok((bytes.len(), next))
    }
}
