// The words behind a line's letter: numbers, the drain, and the line's end.
ghost use Rattle.std.specs.Prelude.{◌≡◌, ℕ, ◌<◌, ◌≤◌, List, [], ◌∷◌, length, slice_index_or, MatchOption, MatchResult};
ghost use Rattle.std.specs.Str.Parse.{digits_value};
ghost use Rattle.sheet.specs.Parts.{Number};
ghost use Rattle.sheet.specs.Letters.{far, amount, end_value};
ghost use Rattle.sheet.specs.Letters.{number as a_number};
ghost use Rattle.sheet.specs.Reading.{Took, Fails, WordsRead};

use super::reader::{Reader, Word};
use board::End;

// A number's value; none where the word is not 1 to 13 digits or has a leading 0.
fn decimal(word: &[u8]) -> Option<u64>
    ensures { MatchOption result (¬ Number word.now) (λ n. Number word.now × (n ≡ digits_value 10 word.now)) }
{
    match word {
        [b'0', _, ..] => None,
        [_, ..] if word.len() <= 13 => digits(word),
        _ => None,
    }
}

// The value of up to 13 digits; none where another byte stands among them. (Digit by digit: read as text by `str::from_utf8` and
// parsed, the check of a sheet took half as long again.)
fn digits(word: &[u8]) -> Option<u64>
    requires some { 0 < length word.now }
    requires short { length word.now ≤ 13 }
    requires plain { slice_index_or word.now 0 0 ≡ 48 → length word.now ≡ 1 }
    ensures { MatchOption result (¬ Number word.now) (λ n. Number word.now × (n ≡ digits_value 10 word.now)) }
{
    let mut n = 0;
    for b in word {
        let digit @ b'0'..=b'9' = *b else { return None };
        n = n * 10 + u64::from(digit - b'0');
    }
    Some(n)
}

impl Reader<'_> {
    // The next word as a number, or the column where it fails.
    fn number(&mut self) -> Result<u64, usize>
        ensures { MatchResult result (λ n. Took self.old self.new (amount n)) (Fails a_number self.old) }
    {
        match self.word()? {
            Word::Number(part, place) => decimal(part).ok_or(place.column),
            Word::Drain(_, place) | Word::Letter(_, place) => Err(place.column),
        }
    }

    // The next word as a link's far end, or the column where it fails.
    fn far_end(&mut self) -> Result<End, usize>
        ensures { MatchResult result (λ e. Took self.old self.new (end_value e)) (Fails far self.old) }
    {
        match self.word()? {
            Word::Number(part, place) => {
                let n = decimal(part).ok_or(place.column)?;
                // by as: a `u64` has no `From` into `usize`, and 13 digits fit
                Ok(End::Site(n as usize))
            }
            Word::Drain([_], _) => Ok(End::Drain),
            Word::Drain(_, place) | Word::Letter(_, place) => Err(place.column),
        }
    }

    // Nothing where no word is left, or the column of the surplus one.
    pub(crate) fn finish(&mut self) -> Result<(), usize>
        ensures { WordsRead self.old [] result (λ _. []) }
    {
        if self.at > self.bytes.len() {
            return Ok(());
        }
        Err(self.column)
    }

    // One number and the line's end, or the column where the words fail.
    pub(crate) fn one(&mut self) -> Result<u64, usize>
        ensures { WordsRead self.old (a_number ∷ []) result (λ n. amount n ∷ []) }
    {
        let n = self.number()?;
        self.finish()?;
        Ok(n)
    }

    // Two numbers and the line's end.
    pub(crate) fn two(&mut self) -> Result<(u64, u64), usize>
        ensures { WordsRead self.old (a_number ∷ a_number ∷ []) result (λ p. amount p.0 ∷ amount p.1 ∷ []) }
    {
        let a = self.number()?;
        let b = self.one()?;
        Ok((a, b))
    }

    // A site, a far end, a number of links and the line's end.
    pub(crate) fn link(&mut self) -> Result<(u64, End, u64), usize>
        ensures { WordsRead self.old (a_number ∷ far ∷ a_number ∷ []) result (λ p. amount p.0 ∷ end_value p.1 ∷ amount p.2 ∷ []) }
    {
        let site = self.number()?;
        let end = self.far_end()?;
        let links = self.one()?;
        Ok((site, end, links))
    }
}
