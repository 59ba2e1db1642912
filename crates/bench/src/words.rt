// Words: why a run stopped, their numbers and names.
ghost use Rattle.std.specs.Prelude.{◌≡◌, Some};
ghost use Rattle.bench.specs.Phases.{word_number, word_name};
ghost use Rattle.bench.specs.Waves.{WordFor};

use super::Word;
use std::fmt;

// Why a run stopped: still, else at the ceiling, else at the budget.
pub(crate) fn word_for(still: bool, full: bool) -> Word
    ensures { WordFor still full result }
{
    match (still, full) {
        (true, _) => Word::Still,
        (false, true) => Word::Ceiling,
        (false, false) => Word::Budget,
    }
}

// The word's number.
impl From<Word> for u8 {
    ghost from_gives = { λ word n. n ≡ word_number word };

    fn from(word: Word) -> u8 {
        word as u8
    }
}

impl Word {
    // The word's name. (Display writes it; the name itself cannot fail, as writing can.)
    pub fn name(self) -> &'static str
        ensures { result.now ≡ word_name self }
    {
        match self {
            Word::Still => "still",
            Word::Ceiling => "ceiling",
            Word::Budget => "budget",
        }
    }
}

// The word's name.
impl fmt::Display for Word {
    ghost output = { λ word. Some (word_name word) };

    fn fmt<W: fmt::Write>(&self, f: &mut fmt::Formatter<W>) -> fmt::Result {
        f.write_str(self.name())
    }
}
