// Firings over lent heights and counts: one, those of a wave, those of a run.
ghost use Rattle.std.specs.Prelude.{◌≡◌, ℕ, ◌+◌, ◌<◌, ◌≤◌, length, sum, slice_set};
ghost use Rattle.board.specs.Shape.{sum_below};
ghost use Rattle.firing.specs.Firing.{at, CanFire, Fires};
ghost use Rattle.settling.specs.Settlings.{Counted};
ghost use Rattle.bench.specs.Checks.{Ready};
ghost use Rattle.bench.specs.Waves.{Movable, WaveDone};

use board::Board;
use refusal::Part;
use settling::counting::settle_counting;
use settling::fire::{can_fire, lowest_ready};
use settling::near::fire_near;
use settling::settle::Outcome;

// All entries together.
pub(crate) fn total(xs: &[u64]) -> u64
    requires { sum xs.now ≤ 1000000000000 }
    ensures { result ≡ sum xs.now }
{
    xs.iter().sum()
}

// Fires a site that can fire, and counts it; the grains that it sends to the drain. Heights and counts stay two slices: a
// slice keeps its length by itself, and a struct of two vectors would have to promise it at each call.
pub(crate) fn fire_counted<B: Board>(
    board: &B,
    heights: &mut [u64],
    counts: &mut [u64],
    v: usize,
) -> u64
    requires fit { Movable (B.Board.shape board.now) heights.old counts.old }
    requires on { v < (B.Board.shape board.now).sites }
    requires can { CanFire (B.Board.shape board.now) (at heights.old) v }
    requires few { at counts.old v ≤ 1000000000000 }
    ensures fires { Fires (B.Board.shape board.now) v (at heights.old) (at heights.new) }
    ensures counts { counts.new ≡ slice_set counts.old v (at counts.old v + 1) }
    ensures drains { result ≡ (B.Board.shape board.now).s v }
{
    fire_near(board, heights, v, Part::Bench).unwrap();
    counts[v] += 1;
    u64::from(board.drain(v))
}

// Marks each site that can fire by 1, every other by 0; how many can.
pub(crate) fn mark_ready<B: Board>(board: &B, heights: &[u64], marks: &mut [u8]) -> u64
    requires { length marks.old ≡ (B.Board.shape board.now).sites }
    ensures ready { Ready (B.Board.shape board.now) (at heights.now) (at marks.new) }
    ensures number { result ≡ sum_below (B.Board.shape board.now).sites (at marks.new) }
{
    let mut ready = 0;
    for (v, mark) in marks.iter_mut().enumerate() {
        *mark = u8::from(can_fire(board, heights, v));
        ready += u64::from(*mark);
    }
    ready
}

// The mark of a site that can fire. (A number, since it stands in a byte that the caller lends.)
const READY: u8 = 1;

// Fires each marked site once, and counts it; the grains that go to the drain.
pub(crate) fn fire_marked<B: Board>(
    board: &B,
    heights: &mut [u64],
    counts: &mut [u64],
    marks: &[u8],
) -> u64
    requires fit { Movable (B.Board.shape board.now) heights.old counts.old }
    requires marks { length marks.now ≡ (B.Board.shape board.now).sites }
    requires ready { Ready (B.Board.shape board.now) (at heights.old) (at marks.now) }
    requires few { (u : ℕ) → at counts.old u ≤ 1000000000000 }
    ensures { WaveDone (B.Board.shape board.now) (at heights.old) (at heights.new) counts.old counts.new (at marks.now) result }
{
    let mut drained = 0;
    for (v, mark) in marks.iter().enumerate() {
        if *mark == READY {
            drained += fire_counted(board, heights, counts, v);
        }
    }
    drained
}

// Legal firings from a waiting list, each counted, until still or at `limit`.
pub(crate) fn run_within<B: Board>(
    board: &B,
    heights: &mut [u64],
    counts: &mut [u64],
    waiting: &mut [usize],
    bytes: &mut [u8],
    limit: u64,
) -> Outcome
    requires fit { Movable (B.Board.shape board.now) heights.old counts.old }
    requires list { (B.Board.shape board.now).sites ≤ length waiting.old }
    requires bytes { (B.Board.shape board.now).sites ≤ length bytes.old }
    requires few { (u : ℕ) → at counts.old u ≤ 1000000000000 }
    requires most { limit ≤ 1000000000 }
    ensures { Counted (B.Board.shape board.now) (at heights.old) (at heights.new) limit result counts.old counts.new }
{
    if limit == 0 {
        return Outcome {
            fired: 0,
            still: lowest_ready(board, heights).is_none(),
        };
    }
    settle_counting(board, heights, counts, waiting, bytes, limit, Part::Bench).unwrap()
}
