// Sheets: the text by which the laboratory is driven, read in the caller's own bytes.
#![tactic(auto)]

ghost use Rattle.std.specs.Prelude.{◌≡◌};
ghost use Rattle.sheet.specs.Letters.{kind};

mod form;
mod letters;
mod lines;
mod reader;
mod refused;
mod words;

use board::End;
pub use form::{check_form, form_is_decided, read_sheet};
use refusal::Refusal;

// The letter that a line begins with.
#[derive(Clone, Copy, PartialEq, Eq, Debug)]
pub enum Kind {
    Grid,
    Sites,
    Link,
    Earth,
    Merge,
    Cut,
    Height,
    Ceiling,
    Drop,
    Fire,
    Run,
    Wave,
    Close,
    Shelve,
    Resume,
}

// What a line says.
#[derive(Clone, Copy, PartialEq, Eq, Debug)]
pub enum Line {
    Grid { rows: u64, columns: u64 },
    Sites { count: u64 },
    Link { site: u64, end: End, links: u64 },
    Earth { site: u64 },
    Merge { from: u64, into: u64 },
    Cut { site: u64, end: End, links: u64 },
    Height { site: u64, grains: u64 },
    Ceiling { firings: u64 },
    Drop { site: u64, grains: u64 },
    Fire { site: u64 },
    Run { budget: u64 },
    Wave,
    Close,
    Shelve,
    Resume,
}

// A refusal, with the line of the sheet that it belongs to: 0 for the sheet as a whole.
#[derive(Clone, Copy, PartialEq, Eq, Debug)]
pub struct LineRefusal {
    pub line: usize,
    pub refusal: Refusal,
}

// Why a sheet was not read: its form is bad, or memory for its lines is wanting.
#[derive(Clone, Copy, PartialEq, Eq, Debug)]
pub enum Unread {
    Form(LineRefusal),
    Memory,
}

// A character that is no letter of a sheet.
#[derive(Clone, Copy, PartialEq, Eq, Debug)]
pub struct UnknownLetter(pub char);

// The letter that a line begins with.
impl From<Line> for Kind {
    ghost from_gives = { λ line letter. letter ≡ kind line };

    fn from(line: Line) -> Kind {
        match line {
            Line::Grid { .. } => Kind::Grid,
            Line::Sites { .. } => Kind::Sites,
            Line::Link { .. } => Kind::Link,
            Line::Earth { .. } => Kind::Earth,
            Line::Merge { .. } => Kind::Merge,
            Line::Cut { .. } => Kind::Cut,
            Line::Height { .. } => Kind::Height,
            Line::Ceiling { .. } => Kind::Ceiling,
            Line::Drop { .. } => Kind::Drop,
            Line::Fire { .. } => Kind::Fire,
            Line::Run { .. } => Kind::Run,
            Line::Wave => Kind::Wave,
            Line::Close => Kind::Close,
            Line::Shelve => Kind::Shelve,
            Line::Resume => Kind::Resume,
        }
    }
}
