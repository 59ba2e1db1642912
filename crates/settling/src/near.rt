// One firing that looks at the sites that take part in it, and at no other.
ghost use Rattle.std.specs.Prelude.{◌≡◌, ℕ, ◌<◌, ◌≤◌, List, MatchBool};
ghost use Rattle.refusal.specs.Table.{InOrder, rows};
ghost use Rattle.board.specs.Shape.{Shape};
ghost use Rattle.firing.specs.Firing.{at};
ghost use Rattle.settling.specs.Firings.{LightNear, near_checks, FiredNear};

use crate::fire::fire_light;
use board::Board;
use board::neighbours::Neighbours;
use refusal::{Part, Refusal, Row};

// Whether the height of `v`, 0 off the board, is at most 1,000,000.
fn is_light(heights: &[u64], v: usize) -> bool
    ensures { MatchBool result (at heights.now v ≤ 1000000) (1000000 < at heights.now v) }
{
    heights.get(v).copied().unwrap_or(0) <= 1_000_000
}

// Whether neither `v` nor a site linked to it is above 1,000,000; a heavy `v` asks the board nothing.
fn is_light_near<B: Board>(board: &B, heights: &[u64], v: usize) -> bool
    ensures { LightNear (B.Board.shape board.now) heights.now v result }
{
    if !is_light(heights, v) {
        return false;
    }
    // a loop: of `all` over these sites no proof was found, since what an iterator of our own gives does not unfold there
    for u in Neighbours::of(board, v) {
        if !is_light(heights, u) {
            return false;
        }
    }
    true
}

// Fires `v` once; looks at the sites that take part, and at no other. (Apart from `fire`: the two refuse by different limits,
// and share `fire_light`.)
pub fn fire_near<B: Board>(
    board: &B,
    heights: &mut [u64],
    v: usize,
    part: Part,
) -> Result<(), Refusal>
    ensures { FiredNear (B.Board.shape board.now) heights.old heights.new v part result }
{
    if heights.len() != board.count() {
        return Err(part.refuse(Row::Memory));
    }
    if !is_light_near(board, heights, v) {
        return Err(part.refuse(Row::Limit));
    }
    fire_light(board, heights, v, part)
}

// The rows by which `fire_near` refuses, in the order of its checks.
pub fn fire_near_rows() -> [Row; 4]
    ensures { (b : Shape) (xs : List ℕ) (v : ℕ) → (result ≡ rows (near_checks b xs v)) × InOrder (near_checks b xs v) }
{
    [Row::Memory, Row::Limit, Row::Site, Row::CannotFire]
}
