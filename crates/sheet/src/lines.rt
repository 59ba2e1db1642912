// One line: its bytes, its letter in its order, and the words behind it.
ghost use Rattle.std.specs.Prelude.{◌≡◌, ℕ, ◌≤◌, ◌↔◌, IsTrue, List, [], length, MatchOption};
ghost use Rattle.sheet.specs.Letters.{Head};
ghost use Rattle.sheet.specs.Reading.{raw, AllPlain, rest_words, Few, words_ahead, WordsSaid, LetterFirst, Verdict};
ghost use Rattle.sheet.specs.Form.{Plain, BadByte};

use super::letters::{apart, read_words};
use super::reader::{RawLine, Reader};
use super::{Kind, Line};
use refusal::{Part, Refusal, Row};

// Whether a line may hold the byte.
fn is_plain(b: u8) -> bool
    ensures { IsTrue result ↔ Plain b }
{
    matches!(b, b'a'..=b'z' | b'0'..=b'9' | b' ' | b'*')
}

// The column of the first byte that no line may hold, or where byte 10 is missing.
fn bad_byte(line: RawLine) -> Option<usize>
    requires { length line.bytes.now ≤ 65536 }
    ensures { MatchOption result (AllPlain (raw line.entry)) (BadByte (raw line.entry)) }
{
    match line.bytes.iter().position(|b| !is_plain(*b)) {
        Some(i) => Some(i + 1),
        None if line.ended => None,
        None => Some(line.bytes.len() + 1),
    }
}

impl<'a> Reader<'a> {
    // The reader of the words behind a line's letter: none where the line is its letter alone.
    fn behind_letter(rest: Option<&'a [u8]>, line: usize) -> Reader<'a>
        requires { (line ≤ 65537) × (Few rest 65536) }
        ensures { (words_ahead result ≡ rest_words rest.entry) × (result.column ≡ 3) }
    {
        let (bytes, at) = match rest {
            Some(bytes) => (bytes, 0),
            None => (&[][..], 1),
        };
        Reader {
            bytes,
            at,
            line,
            column: 3,
        }
    }
}

// What a line says, behind the last letter; or the first of its rows that comes.
pub(crate) fn read_line(last: Option<Kind>, line: RawLine) -> Result<Line, Refusal>
    requires { (length line.bytes.now ≤ 65536) × (line.number ≤ 65537) }
    ensures { Verdict last (raw line.entry) result }
{
    if let Some(column) = bad_byte(line) {
        return Err(Part::Sheet.refuse_at(Row::Byte, column));
    }
    let Some((kind, rest)) = apart(line.bytes) else {
        return Err(Part::Sheet.refuse_at(Row::Letter, 1));
    };
    letter_first(kind.may_follow(last), said(line, kind, rest))
}

// A letter out of order is refused before the words behind it.
fn letter_first(in_order: bool, said: Result<Line, usize>) -> Result<Line, Refusal>
    ensures { LetterFirst in_order said result }
{
    if !in_order {
        return Err(Part::Sheet.refuse_at(Row::Letter, 1));
    }
    said.map_err(|column| Part::Sheet.refuse_at(Row::Word, column))
}

// What the words behind a line's letter say, or the column where they fail.
fn said(line: RawLine, kind: Kind, rest: Option<&[u8]>) -> Result<Line, usize>
    requires head { Head line.bytes.now kind (rest_words rest) }
    requires few { (Few rest 65536) × (line.number ≤ 65537) }
    ensures { WordsSaid (raw line.entry) kind (rest_words rest.entry) result }
{
    let mut words = Reader::behind_letter(rest, line.number);
    read_words(kind, &mut words)
}
