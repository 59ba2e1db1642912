// The grid: a board of rows and columns.
ghost use Rattle.std.specs.Prelude.{◌≡◌, ℕ, ◌*◌, ◌<◌, ◌≤◌, Ok, Err};
ghost use Rattle.refusal.specs.declared.Part.TheVariants as parts;
ghost use Rattle.refusal.specs.Table.{Passed, Refused, InOrder, rows as rows_of};
ghost use Rattle.board.specs.Shape.{NextIs};
ghost use Rattle.board.specs.Grids.{grid_of, grid_checks, row_of, column_of, neighbours as near, Placed};
ghost use Rattle.board.specs.GridsLemmas.{grid_sound};

use crate::Board;
use refusal::{Part, Refusal, Row};

// A grid of 1 to 64 rows and 1 to 64 columns.
#[derive(Clone, Copy)]
pub struct Grid {
    rows: usize,
    columns: usize,
    ghost ok: { (1 ≤ rows) × (rows ≤ 64) × (1 ≤ columns) × (columns ≤ 64) },
}

impl Grid {
    // The grid of these sides.
    pub fn new(rows: usize, columns: usize) -> Result<Grid, Refusal>
        ensures { elim result [ Ok g ↦ Passed (grid_checks rows columns) × (g.rows ≡ rows) × (g.columns ≡ columns) × (grid_of g.rows g.columns ≡ grid_of rows columns) × Placed rows columns | Err e ↦ Refused (grid_checks rows columns) parts.Board e ] }
    {
        if !(1..=64).contains(&rows) || !(1..=64).contains(&columns) {
            return Err(Part::Board.refuse(Row::Limit));
        }
        Ok(Grid { rows, columns })
    }

    // The rows by which `new` refuses, in the order of its checks.
    pub fn checks() -> [Row; 1]
        ensures { (rows columns : ℕ) → (result ≡ rows_of (grid_checks rows columns)) × InOrder (grid_checks rows columns) }
    {
        [Row::Limit]
    }

    // The place of the site `v`, which is on the grid.
    fn place(&self, v: usize) -> Place
        requires { v < self.now.rows * self.now.columns }
        ensures { (result.row ≡ row_of self.now.columns v) × (result.column ≡ column_of self.now.columns v) × (result.row < self.now.rows) × (result.column < self.now.columns) }
    {
        Place {
            row: v / self.columns,
            column: v % self.columns,
        }
    }

    // The least neighbour from `j` on of the site `v`, which is on the grid. (By four tests: as an array of sites that may be
    // there, searched by `find`, the timed heap took 2.3 s and not 0.9.)
    fn next_neighbour(&self, v: usize, j: usize) -> Option<usize>
        requires { v < self.now.rows * self.now.columns }
        ensures { NextIs (grid_of self.now.rows self.now.columns) v j result }
    {
        let rows = self.rows;
        let columns = self.columns;
        if v >= columns && v - columns >= j {
            return Some(v - columns);
        }
        let column = v % columns;
        if column > 0 && v - 1 >= j {
            return Some(v - 1);
        }
        if column + 1 < columns && v + 1 >= j {
            return Some(v + 1);
        }
        if v + columns < rows * columns && v + columns >= j {
            return Some(v + columns);
        }
        None
    }
}

// A row and a column of a grid.
#[derive(Clone, Copy)]
struct Place {
    row: usize,
    column: usize,
}

impl Place {
    // Whether the two are neighbours: beside each other in a row, or in a column.
    fn is_beside(self, other: Place) -> bool
        ensures { result ≡ near self.row self.column other.row other.column }
    {
        self.row == other.row && self.column.abs_diff(other.column) == 1
            || self.column == other.column && self.row.abs_diff(other.row) == 1
    }
}

impl Board for Grid {
    ghost shape = { λ g. grid_of g.rows g.columns };

    ghost sound = { λ b. grid_sound b.rows b.columns b.ok.2 b.ok.0 b.ok.1 b.ok.3 };

    fn count(&self) -> usize {
        self.rows * self.columns
    }

    fn links(&self, u: usize, v: usize) -> u32 {
        let n = self.rows * self.columns;
        if u >= n || v >= n {
            return 0;
        }
        u32::from(self.place(u).is_beside(self.place(v)))
    }

    fn drain(&self, v: usize) -> u32 {
        if v >= self.rows * self.columns {
            return 0;
        }
        let Place { row, column } = self.place(v);
        u32::from(row == 0)
            + u32::from(row + 1 == self.rows)
            + u32::from(column == 0)
            + u32::from(column + 1 == self.columns)
    }

    fn next(&self, v: usize, j: usize) -> Option<usize> {
        if v >= self.rows * self.columns {
            return None;
        }
        self.next_neighbour(v, j)
    }

    fn degree(&self, v: usize) -> u32 {
        if v >= self.rows * self.columns {
            return 0;
        }
        4
    }
}
