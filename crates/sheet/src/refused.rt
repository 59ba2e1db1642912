// A sheet's refusal at a line, and its report line.
ghost use Rattle.std.specs.Prelude.{◌≡◌, Some};
ghost use Rattle.sheet.specs.Form.{at};
ghost use Rattle.sheet.specs.Report.{refusal_line};

use super::LineRefusal;
use refusal::{Part, Row};
use std::fmt;

impl LineRefusal {
    // The sheet's refusal by a row, at a line and a column.
    pub(crate) fn at(line: usize, row: Row, column: usize) -> LineRefusal
        ensures { result ≡ at line row column }
    {
        LineRefusal {
            line,
            refusal: Part::Sheet.refuse_at(row, column),
        }
    }
}

impl fmt::Display for LineRefusal {
    ghost output = { λ f. Some (refusal_line f) };

    fn fmt<W: fmt::Write>(&self, f: &mut fmt::Formatter<W>) -> fmt::Result {
        let row = u8::from(self.refusal.row);
        let line = self.line;
        let place = self.refusal.place;
        write!(f, "! {row} {line} {place}")
    }
}
