// Settling's formula: whether an end follows from a start by counts.
ghost use Rattle.std.specs.Prelude.{◌≡◌, ◌<◌, ◌≤◌, MatchBool};
ghost use Rattle.firing.specs.Firing.{at};
ghost use Rattle.firing.specs.Settling.{inflow, FollowsAt};
ghost use Rattle.certificate.specs.Formulas.{LowestApart};

use crate::limits::Certificate;
use board::neighbours::Neighbours;
use board::{Board, degree};

impl<'a, B: Board> Certificate<'a, B> {
    // The grains that come to `v` from its neighbours.
    fn comes_in(&self, v: usize) -> u64
        ensures is { result ≡ inflow (B.Board.shape self.now.board.now) (at self.now.counts.now) v }
        ensures fits { result ≤ 500000000000000000 }
    {
        let mut sum = 0;
        for u in Neighbours::of(self.board, v) {
            sum += u64::from(self.board.links(u, v)) * self.counts[u];
        }
        sum
    }

    // Whether the end follows at `v`.
    fn follows_at(&self, v: usize) -> bool
        requires { v < (B.Board.shape self.now.board.now).sites }
        ensures { MatchBool result (FollowsAt (B.Board.shape self.now.board.now) (at self.now.start.now) (at self.now.counts.now) (at self.now.end.now) v) (FollowsAt (B.Board.shape self.now.board.now) (at self.now.start.now) (at self.now.counts.now) (at self.now.end.now) v → ⊥) }
    {
        let given = u64::from(degree(self.board, v)) * self.counts[v];
        self.end[v] + given == self.start[v] + self.comes_in(v)
    }

    // The lowest site at which the end does not follow.
    pub(crate) fn lowest_apart(&self) -> Option<usize>
        ensures { LowestApart (B.Board.shape self.now.board.now) (at self.now.start.now) (at self.now.counts.now) (at self.now.end.now) result }
    {
        (0..self.board.count()).find(|v| !self.follows_at(*v))
    }
}
