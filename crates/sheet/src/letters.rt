// A line's letter: which it is, where it may stand, and the reader of the words behind it.
ghost use Rattle.std.specs.Prelude.{◌≡◌, ◌↔◌, IsTrue, Some};
ghost use Rattle.sheet.specs.Letters.{Known, stage, reached, behind, May};
ghost use Rattle.sheet.specs.Report.{unknown_letter};
ghost use Rattle.sheet.specs.Reading.{Apart, IsSpan, LineRead};

use super::reader::Reader;
use super::{Kind, Line, UnknownLetter};
use std::error::Error;
use std::fmt;
use std::ops::RangeInclusive;

// The letter that a character is.
impl TryFrom<char> for Kind {
    type Error = UnknownLetter;

    ghost try_from_gives = { Known };

    fn try_from(letter: char) -> Result<Kind, UnknownLetter> {
        match letter {
            'g' => Ok(Kind::Grid),
            'n' => Ok(Kind::Sites),
            'l' => Ok(Kind::Link),
            'e' => Ok(Kind::Earth),
            'm' => Ok(Kind::Merge),
            'c' => Ok(Kind::Cut),
            'h' => Ok(Kind::Height),
            'k' => Ok(Kind::Ceiling),
            'd' => Ok(Kind::Drop),
            'f' => Ok(Kind::Fire),
            'r' => Ok(Kind::Run),
            'w' => Ok(Kind::Wave),
            's' => Ok(Kind::Close),
            'p' => Ok(Kind::Shelve),
            'u' => Ok(Kind::Resume),
            _ => Err(UnknownLetter(letter)),
        }
    }
}

impl fmt::Display for UnknownLetter {
    ghost output = { λ e. Some (unknown_letter e) };

    fn fmt<W: fmt::Write>(&self, f: &mut fmt::Formatter<W>) -> fmt::Result {
        write!(f, "{} is no letter of a sheet", self.0)
    }
}

impl Error for UnknownLetter {}

// A line's letter and what stands behind the space after it; none where the first word is no known letter.
pub(crate) fn apart(line: &[u8]) -> Option<(Kind, Option<&[u8]>)>
    ensures { Apart line.now result }
{
    let (letter, rest) = match line {
        [letter, b' ', rest @ ..] => (*letter, Some(rest)),
        [letter] => (*letter, None),
        _ => return None,
    };
    let kind = Kind::try_from(char::from(letter)).ok()?;
    Some((kind, rest))
}

// How far a sheet has come: its start, then its letters in their order, the commands last.
#[derive(Clone, Copy, PartialEq, Eq, PartialOrd, Ord, Debug)]
pub(crate) enum Stage {
    Start,
    Sites,
    Link,
    Grid,
    Earth,
    Merge,
    Cut,
    Height,
    Ceiling,
    Command,
}

impl Kind {
    // Where the letter stands in a sheet.
    fn stage(self) -> Stage
        ensures { result ≡ stage self }
    {
        match self {
            Kind::Sites => Stage::Sites,
            Kind::Link => Stage::Link,
            Kind::Grid => Stage::Grid,
            Kind::Earth => Stage::Earth,
            Kind::Merge => Stage::Merge,
            Kind::Cut => Stage::Cut,
            Kind::Height => Stage::Height,
            Kind::Ceiling => Stage::Ceiling,
            Kind::Drop
            | Kind::Fire
            | Kind::Run
            | Kind::Wave
            | Kind::Close
            | Kind::Shelve
            | Kind::Resume => Stage::Command,
        }
    }

    // The stages that the letter may stand right behind.
    fn behind(self) -> RangeInclusive<Stage>
        ensures { IsSpan result (behind self) }
    {
        match self {
            Kind::Sites | Kind::Grid => Stage::Start..=Stage::Start,
            Kind::Link => Stage::Sites..=Stage::Link,
            Kind::Earth => Stage::Sites..=Stage::Grid,
            Kind::Merge => Stage::Sites..=Stage::Earth,
            Kind::Cut => Stage::Sites..=Stage::Cut,
            Kind::Height | Kind::Ceiling => Stage::Sites..=Stage::Height,
            Kind::Drop
            | Kind::Fire
            | Kind::Run
            | Kind::Wave
            | Kind::Close
            | Kind::Shelve
            | Kind::Resume => Stage::Ceiling..=Stage::Command,
        }
    }

    // Whether the letter may stand right behind the last one, or at the start.
    pub(crate) fn may_follow(self, last: Option<Kind>) -> bool
        ensures { IsTrue result ↔ May last self }
    {
        self.behind().contains(&reached(last))
    }
}

// The stage that a sheet has come to with its last letter.
pub(crate) fn reached(last: Option<Kind>) -> Stage
    ensures { result ≡ reached last }
{
    last.map_or(Stage::Start, Kind::stage)
}

// Hands the words behind a letter to that letter's reader.
pub(crate) fn read_words(kind: Kind, words: &mut Reader) -> Result<Line, usize>
    ensures { LineRead kind words.old result }
{
    match kind {
        Kind::Grid => words
            .two()
            .map(|(rows, columns)| Line::Grid { rows, columns }),
        Kind::Sites => words.one().map(|count| Line::Sites { count }),
        Kind::Link => words
            .link()
            .map(|(site, end, links)| Line::Link { site, end, links }),
        Kind::Earth => words.one().map(|site| Line::Earth { site }),
        Kind::Merge => words.two().map(|(from, into)| Line::Merge { from, into }),
        Kind::Cut => words
            .link()
            .map(|(site, end, links)| Line::Cut { site, end, links }),
        Kind::Height => words
            .two()
            .map(|(site, grains)| Line::Height { site, grains }),
        Kind::Ceiling => words.one().map(|firings| Line::Ceiling { firings }),
        Kind::Drop => words
            .two()
            .map(|(site, grains)| Line::Drop { site, grains }),
        Kind::Fire => words.one().map(|site| Line::Fire { site }),
        Kind::Run => words.one().map(|budget| Line::Run { budget }),
        Kind::Wave => words.finish().map(|()| Line::Wave),
        Kind::Close => words.finish().map(|()| Line::Close),
        Kind::Shelve => words.finish().map(|()| Line::Shelve),
        Kind::Resume => words.finish().map(|()| Line::Resume),
    }
}
