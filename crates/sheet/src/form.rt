// The form of a whole sheet: its size, then its lines in turn up to the first bad one.
ghost use Rattle.std.specs.Prelude.{◌≡◌, ◌+◌, ◌≤◌, MatchResult};
ghost use Rattle.std.specs.Iterator.{at_most};
ghost use Rattle.sheet.specs.declared.Unread.TheVariants.{Form, Memory};
ghost use Rattle.sheet.specs.Form.{Good, Checked, Unreadable};
ghost use Rattle.sheet.specs.Laws.{NotBoth, OneReading, OneRefusal, RowsInOrder};
ghost use Rattle.sheet.specs.Reading.{NextSaid, LinesNext, lines_left, Opened};

use super::letters::{Stage, reached};
use super::lines::read_line;
use super::reader::{Lines, Reader};
use super::{Kind, Line, LineRefusal, Unread};
use refusal::Row;
use std::alloc::{AllocError, AllocFailed, Global};

const SIZE: usize = 65536;

impl<'a> Lines<'a> {
    // The lines of a sheet, or the refusal of its size.
    fn of(sheet: &'a [u8]) -> Result<Lines<'a>, LineRefusal>
        ensures { Opened sheet.now result }
    {
        if sheet.len() > SIZE {
            return Err(LineRefusal::at(0, Row::Limit, 0));
        }
        Ok(Lines {
            reader: Reader::over(sheet),
            last: None,
            refused: false,
        })
    }

    // What the next line says, behind the last letter; none at the end.
    fn next_said(&mut self) -> Result<Option<Line>, LineRefusal>
        ensures said { NextSaid self.old.reader self.new.reader self.old.last result }
        ensures same { (self.new.reader.bytes.now ≡ self.old.reader.bytes.now) × (self.new.last ≡ self.old.last) × (self.new.refused ≡ self.old.refused) }
    {
        let number = self.reader.line;
        let Some(line) = self.reader.next_line() else {
            if reached(self.last) < Stage::Ceiling {
                return Err(LineRefusal::at(number, Row::Letter, 1));
            }
            return Ok(None);
        };
        read_line(self.last, line)
            .map(Some)
            .map_err(|refusal| LineRefusal {
                line: number,
                refusal,
            })
    }
}

impl Iterator for Lines<'_> {
    type Item = Result<Line, LineRefusal>;

    ghost next_gives = { LinesNext };

    ghost remaining = { λ lines. at_most (lines_left lines) };

    fn next(&mut self) -> Option<Result<Line, LineRefusal>> {
        if self.refused {
            return None;
        }
        match self.next_said() {
            Ok(None) => None,
            Ok(Some(line)) => {
                self.last = Some(Kind::from(line));
                Some(Ok(line))
            }
            Err(refusal) => {
                self.refused = true;
                Some(Err(refusal))
            }
        }
    }
}

// Whether the bytes are a sheet of good form: the number of its lines, or the refusal.
pub fn check_form(sheet: &[u8]) -> Result<usize, LineRefusal>
    ensures { Checked sheet.now result }
{
    let mut walk = Lines::of(sheet)?;
    let mut count = 0;
    // line by line: through the iterator, sheets of short lines took a fifth longer
    while let Some(line) = walk.next_said()? {
        walk.last = Some(Kind::from(line));
        count += 1;
    }
    Ok(count)
}

// The lines that a sheet of good form says, in their order: line i of the sheet is entry i - 1.
pub fn read_sheet(heap: Global, sheet: &[u8]) -> Result<Vec<Line>, Unread>
    ensures { MatchResult result (λ v. Good sheet.now v.items) (Unreadable sheet.now) }
{
    let count = check_form(sheet)?;
    let mut said = Vec::with_capacity(heap, count)?;
    for line in Lines::of(sheet)? {
        said.push(line?)?;
    }
    Ok(said)
}

// The form check's answer is the only one: good form and refusal exclude each other, a sheet says one list of lines,
// is refused in one way, and a line's rows are checked in the table's order.
pub fn form_is_decided()
    ensures not_both { NotBoth }
    ensures one_reading { OneReading }
    ensures one_refusal { OneRefusal }
    ensures ordered { RowsInOrder }
{}

impl From<LineRefusal> for Unread {
    ghost from_gives = { λ f r. r ≡ Form f };

    fn from(f: LineRefusal) -> Unread {
        Unread::Form(f)
    }
}

impl From<AllocError> for Unread {
    ghost from_gives = { λ _ r. r ≡ Memory };

    fn from(_e: AllocError) -> Unread {
        Unread::Memory
    }
}

impl<T: Drop> From<AllocFailed<T>> for Unread {
    ghost from_gives = { λ _ r. r ≡ Memory };

    fn from(_e: AllocFailed<T>) -> Unread {
        Unread::Memory
    }
}
