// The reader's steps: a part up to a stop, a line, a word.
ghost use Rattle.std.specs.Prelude.{◌≡◌, ℕ, ◌+◌, ◌<◌, ◌≤◌, ◌∷◌, length, Some, None, Ok, Err, ◌≢◌, slice_index};
ghost use Rattle.sheet.specs.Parts.{ahead};
ghost use Rattle.sheet.specs.Reading.{NextLine, NextWord};

use super::{Place, RawLine, Reader, Word};

impl<'a> Reader<'a> {
    // A reader at the start of a sheet.
    pub(crate) fn over(bytes: &'a [u8]) -> Reader<'a>
        requires { length bytes.now ≤ 65536 }
        ensures { (result.bytes.now ≡ bytes.now) × (result.at ≡ 0) × (result.line ≡ 1) }
    {
        Reader {
            bytes,
            at: 0,
            line: 1,
            column: 1,
        }
    }

    // The bytes up to the next stop or the end; the cursor goes behind the stop.
    fn part(&mut self, stop: u8) -> &'a [u8]
        requires { self.old.at ≤ length self.old.bytes.now }
        ensures taken { ahead stop self.old.bytes.now self.old.at ≡ result.now ∷ ahead stop self.old.bytes.now self.new.at }
        ensures moved { self.new.at ≡ self.old.at + length result.now + 1 }
        ensures same { (self.new.bytes.now ≡ self.old.bytes.now) × ((self.new.line ≡ self.old.line) × (self.new.column ≡ self.old.column)) }
    {
        let rest = &self.bytes[self.at..];
        let end = rest.iter().position(|b| *b == stop).unwrap_or(rest.len());
        self.at += end + 1;
        &rest[..end]
    }

    // The next line, where one is left.
    pub(crate) fn next_line(&mut self) -> Option<RawLine<'a>>
        ensures taken { NextLine self.old self.new result }
        ensures same { self.new.bytes.now ≡ self.old.bytes.now }
        ensures low { self.old.line ≤ self.old.at + 1 → self.new.line ≤ self.new.at + 1 }
    {
        if self.at >= self.bytes.len() {
            return None;
        }
        let number = self.line;
        let bytes = self.part(b'\n');
        self.line = number + 1;
        self.column = 1;
        Some(RawLine {
            bytes,
            number,
            ended: self.at <= self.bytes.len(),
        })
    }

    // The next word, or the column where one is missing or empty.
    pub(crate) fn word(&mut self) -> Result<Word<'a>, usize>
        ensures taken { NextWord self.old self.new result }
    {
        if self.at > self.bytes.len() {
            return Err(self.column - 1);
        }
        let place = Place {
            line: self.line,
            column: self.column,
        };
        let part = self.part(b' ');
        self.column += part.len() + 1;
        match part {
            [] => Err(place.column),
            [b'0'..=b'9', ..] => Ok(Word::Number(part, place)),
            [b'*', ..] => Ok(Word::Drain(part, place)),
            _ => Ok(Word::Letter(part, place)),
        }
    }
}
