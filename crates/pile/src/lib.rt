// Piles of layers on a board, built by the calls of `board` and known from their contracts alone.
#![tactic(auto)]

ghost use Rattle.std.specs.Prelude.{◌≡◌, ℕ, None as Nothing, Ok, Err};
ghost use Rattle.refusal.specs.declared.Part.TheVariants as parts;
ghost use Rattle.refusal.specs.Table.{Passed, Refused};
ghost use Rattle.layer.specs.Earths.{earth_of, earthed, earth_checks};
ghost use Rattle.layer.specs.Merges.{merge_of, merged, merge_checks};
ghost use Rattle.layer.specs.Cuts.{cut_of};
ghost use Rattle.board.specs.Grids.{grid_of};
ghost use Rattle.board.specs.Adding.{shape_of};
ghost use Rattle.pile.specs.Piles.{cut_once, first_cut_checks, Piled, OnGrid, row_of_three};

pub mod worked;

use board::grid::Grid;
use board::link::Link;
use board::list::LinkList;
use board::{Board, End};
use layer::cut::Cut;
use layer::earth::Earth;
use layer::merge::{Merge, Pair};
use refusal::Refusal;

// The board with `w` earthed. (Three functions, as the layers are three of their own.)
pub fn with_earth<B: Board + Drop>(board: B, w: usize) -> Result<Earth<B>, Refusal>
    ensures { elim result [ Ok e ↦ Passed (earth_checks (B.Board.shape board) Nothing w) × (earth_of (B.Board.shape e.below) e.site ≡ earthed w (B.Board.shape board)) | Err e ↦ Refused (earth_checks (B.Board.shape board) Nothing w) parts.Earth e ] }
{
    let mut earth = Earth::idle(board);
    earth.earth(w)?;
    Ok(earth)
}

// The board with `a` merged into `b`.
pub fn with_merge<B: Board + Drop>(board: B, a: usize, b: usize) -> Result<Merge<B>, Refusal>
    ensures { elim result [ Ok e ↦ Passed (merge_checks (B.Board.shape board) Nothing a b) × (merge_of (B.Board.shape e.below) e.pair ≡ merged a b (B.Board.shape board)) | Err e ↦ Refused (merge_checks (B.Board.shape board) Nothing a b) parts.Merge e ] }
{
    let mut merge = Merge::idle(board);
    merge.merge(a, b)?;
    Ok(merge)
}

// The board with `k` links of `a` and `b` cut.
pub fn with_cut<B: Board + Drop>(board: B, a: usize, b: End, k: u64) -> Result<Cut<B>, Refusal>
    ensures { elim result [ Ok e ↦ Passed (first_cut_checks (B.Board.shape board) a b k) × (cut_of (B.Board.shape e.below) e.entries.items ≡ cut_once (B.Board.shape board) a b k) | Err e ↦ Refused (first_cut_checks (B.Board.shape board) a b k) parts.Cut e ] }
{
    let mut cut = Cut::idle(board);
    cut.cut(a, b, k)?;
    Ok(cut)
}

// What a pile does to the board below it: the site that is earthed, the pair that is merged then, the links that are cut then.
#[derive(Clone, Copy)]
pub struct Plan {
    pub site: usize,
    pub pair: Pair,
    pub link: Link,
}

// Earth lowest, merge on it, cut on top.
pub fn pile_up<B: Board + Drop>(board: B, plan: Plan) -> Result<Cut<Merge<Earth<B>>>, Refusal>
    ensures { Piled (B.Board.shape board) plan.site plan.pair plan.link (λ e. cut_of (merge_of (earth_of (B.Board.shape e.below.below.below) e.below.below.site) e.below.pair) e.entries.items) result }
{
    let Plan { site, pair, link } = plan;
    let earth = with_earth(board, site)?;
    let merge = with_merge(earth, pair.a, pair.b)?;
    with_cut(merge, link.site, link.other, u64::from(link.count))
}

// The pile on a grid.
pub fn on_grid(rows: usize, columns: usize, plan: Plan) -> Result<Cut<Merge<Earth<Grid>>>, Refusal>
    ensures { OnGrid rows columns plan.site plan.pair plan.link (λ e. cut_of (merge_of (earth_of (grid_of e.below.below.below.rows e.below.below.below.columns) e.below.below.site) e.below.pair) e.entries.items) result }
{
    pile_up(Grid::new(rows, columns)?, plan)
}

// A list of three sites in a row, two links to each neighbour and one from each end to the drain.
pub fn row_of_three() -> Result<LinkList, Refusal>
    ensures { elim result [ Ok x ↦ shape_of x ≡ row_of_three | Err e ↦ ⊥ ] }
{
    let mut list = LinkList::new(3)?;
    list.add(0, End::Site(1), 2)?;
    list.add(2, End::Site(1), 2)?;
    list.add(0, End::Drain, 1)?;
    list.add(2, End::Drain, 1)?;
    Ok(list)
}

// The pile on that list.
pub fn on_list(plan: Plan) -> Result<Cut<Merge<Earth<LinkList>>>, Refusal>
    ensures { Piled row_of_three plan.site plan.pair plan.link (λ e. cut_of (merge_of (earth_of (shape_of e.below.below.below) e.below.below.site) e.below.pair) e.entries.items) result }
{
    pile_up(row_of_three()?, plan)
}
