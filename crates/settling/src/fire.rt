// Firing: which sites can fire, and legal firings, over any board and heights that the caller lends.
ghost use Rattle.std.specs.Prelude.{◌≡◌, ℕ, ◌*◌, ◌<◌, ◌≤◌, true, List, length, MatchBool};
ghost use Rattle.refusal.specs.Table.{InOrder, rows};
ghost use Rattle.board.specs.Shape.{Shape, deg};
ghost use Rattle.firing.specs.Firing.{CanFire};
ghost use Rattle.firing.specs.Firing.{at};
ghost use Rattle.settling.specs.Firings.{Enough, Weighs, LowestReady, FiresTimes, LightNear, fire_checks, FiredLight, Fired};

use board::{Board, degree};
use refusal::{Part, Refusal, Row};

// Whether a site of this degree and height can fire.
pub(crate) fn is_enough(links: u64, height: u64) -> bool
    ensures { MatchBool result (Enough links height) (Enough links height → ⊥) }
{
    links >= 1 && height >= links
}

// Whether `v` can fire.
pub fn can_fire<B: Board>(board: &B, heights: &[u64], v: usize) -> bool
    ensures { MatchBool result (CanFire (B.Board.shape board.now) (at heights.now) v) (CanFire (B.Board.shape board.now) (at heights.now) v → ⊥) }
{
    v < heights.len() && is_enough(u64::from(degree(board, v)), heights[v])
}

// The lowest site that can fire.
pub fn lowest_ready<B: Board>(board: &B, heights: &[u64]) -> Option<usize>
    ensures { LowestReady (B.Board.shape board.now) (at heights.now) result }
{
    (0..board.count()).find(|v| can_fire(board, heights, *v))
}

// All grains, or none where they are more than `limit`.
pub fn all_grains(heights: &[u64], limit: u64) -> Option<u64>
    ensures { Weighs heights.now limit result }
{
    let mut sum = 0;
    for h in heights {
        if *h > limit - sum {
            return None;
        }
        sum += *h;
    }
    Some(sum)
}

// Fires `v` so often in a row; `lost` is what it gives in all. (Board, heights and site stay parameters, here and below: of
// heights that a struct's field lends, the caller knows only the length once the struct is gone.)
pub(crate) fn fire_times<B: Board>(board: &B, heights: &mut [u64], v: usize, times: u64, lost: u64)
    requires sized { length heights.old ≡ (B.Board.shape board.now).sites }
    requires on { v < (B.Board.shape board.now).sites }
    requires gives { lost ≡ deg (B.Board.shape board.now) v * times }
    requires has { lost ≤ at heights.old v }
    requires low { LightNear (B.Board.shape board.now) heights.old v true }
    ensures { FiresTimes (B.Board.shape board.now) v times (at heights.old) (at heights.new) }
{
    heights[v] -= lost;
    // the walk takes `next` apart here: a form that the project lays down for firing
    let mut j = 0;
    loop {
        let Some(u) = board.next(v, j) else { break };
        heights[u] += u64::from(board.links(v, u)) * times;
        j = u + 1;
    }
}

// Fires `v` once, where no site that takes part is above 1,000,000.
pub(crate) fn fire_light<B: Board>(
    board: &B,
    heights: &mut [u64],
    v: usize,
    part: Part,
) -> Result<(), Refusal>
    requires sized { length heights.old ≡ (B.Board.shape board.now).sites }
    requires low { LightNear (B.Board.shape board.now) heights.old v true }
    ensures { FiredLight (B.Board.shape board.now) heights.old heights.new v part result }
{
    if v >= heights.len() {
        return Err(part.refuse_at(Row::Site, v));
    }
    if !can_fire(board, heights, v) {
        return Err(part.refuse_at(Row::CannotFire, v));
    }
    fire_times(board, heights, v, 1, u64::from(degree(board, v)));
    Ok(())
}

// Fires `v` once.
pub fn fire<B: Board>(board: &B, heights: &mut [u64], v: usize, part: Part) -> Result<(), Refusal>
    ensures { Fired (B.Board.shape board.now) heights.old heights.new v part result }
{
    if heights.len() != board.count() {
        return Err(part.refuse(Row::Memory));
    }
    if all_grains(heights, 1_000_000).is_none() {
        return Err(part.refuse(Row::Limit));
    }
    fire_light(board, heights, v, part)
}

// The rows by which `fire` refuses, in the order of its checks.
pub fn fire_rows() -> [Row; 4]
    ensures { (b : Shape) (xs : List ℕ) (v : ℕ) → (result ≡ rows (fire_checks b xs v)) × InOrder (fire_checks b xs v) }
{
    [Row::Memory, Row::Limit, Row::Site, Row::CannotFire]
}
