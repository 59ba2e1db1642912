// Refusals: the one table of rows by which every call of the laboratory refuses.
#![tactic(auto)]

ghost use Rattle.std.specs.Prelude.{◌≡◌, Some};
ghost use Rattle.refusal.specs.Table.{number, name, said};

use std::error::Error;
use std::fmt;

// A row of the table; docs/REFUSALS.md says when each one comes.
#[derive(Clone, Copy, PartialEq, Eq, Debug)]
pub enum Row {
    Memory = 1,
    Limit = 2,
    Site = 3,
    NoDrain = 4,
    Phase = 5,
    CannotFire = 6,
    Ceiling = 7,
    Ticket = 8,
    NotStill = 9,
    Byte = 10,
    Letter = 11,
    Word = 12,
    NotFollowing = 13,
    EndFires = 14,
    TakenBack = 15,
    ListFull = 16,
    CutFull = 17,
    FewLinks = 18,
    LayerSet = 19,
    RecordsFull = 20,
    Budget = 21,
}

// The part of the laboratory that a refusal comes from.
#[derive(Clone, Copy, PartialEq, Eq, Debug)]
pub enum Part {
    Sheet,
    Board,
    Earth,
    Merge,
    Cut,
    Bench,
    Certificate,
    Group,
}

// Why a call was not carried out: the row, a place (0 where the row gives none) and the part.
#[derive(Clone, Copy, PartialEq, Eq, Debug)]
pub struct Refusal {
    pub row: Row,
    pub place: u64,
    pub part: Part,
}

// The row's number in the table.
impl From<Row> for u8 {
    ghost from_gives = { λ row n. n ≡ number row };

    fn from(row: Row) -> u8 {
        row as u8
    }
}

impl Part {
    // The part's name in reports and documents. (Display writes it; the name itself cannot fail, as writing can.)
    pub fn name(self) -> &'static str
        ensures { result.now ≡ name self }
    {
        match self {
            Part::Sheet => "sheet",
            Part::Board => "board",
            Part::Earth => "earth",
            Part::Merge => "merge",
            Part::Cut => "cut",
            Part::Bench => "bench",
            Part::Certificate => "certificate",
            Part::Group => "group",
        }
    }

    // The part's refusal by a row that gives no place.
    pub fn refuse(self, row: Row) -> Refusal
        ensures { result ≡ record { row = row; place = 0; part = self } }
    {
        self.refuse_at(row, 0)
    }

    // The part's refusal by a row, at a place. (A `usize` has no `From` into `u64`.)
    pub fn refuse_at(self, row: Row, place: usize) -> Refusal
        ensures { result ≡ record { row = row; place = place; part = self } }
    {
        Refusal {
            row,
            place: place as u64,
            part: self,
        }
    }
}

impl fmt::Display for Part {
    ghost output = { λ part. Some (name part) };

    fn fmt<W: fmt::Write>(&self, f: &mut fmt::Formatter<W>) -> fmt::Result {
        f.write_str(self.name())
    }
}

impl fmt::Display for Refusal {
    ghost output = { λ e. Some (said e) };

    fn fmt<W: fmt::Write>(&self, f: &mut fmt::Formatter<W>) -> fmt::Result {
        let row = u8::from(self.row);
        write!(f, "{} refuses by row {row} at {}", self.part, self.place)
    }
}

impl Error for Refusal {}
