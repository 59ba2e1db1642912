// Merge: a layer that makes one site of two.
ghost use Rattle.std.specs.Prelude.{◌≡◌, ℕ, ◌<◌, ◌≤◌, None as Nothing, Option as Maybe, ◌≢◌};
ghost use Rattle.refusal.specs.Table.{InOrder, rows as rows_of};
ghost use Rattle.board.specs.Shape.{Shape, LeastFrom};
ghost use Rattle.layer.specs.Layers.{but};
ghost use Rattle.layer.specs.Merges.{joined_m, joined_s, merge_active, merge_of, merge_checks, MergeOn, Merging, lesser};
ghost use Rattle.layer.specs.Merged.{merge_sound};

use crate::site::{lifted, lowered, next_but};
use board::Board;
use board::link::{End, misfit};
use refusal::{Part, Refusal, Row};

// Two sites of the board below: `a` is merged into `b`.
#[derive(Clone, Copy)]
pub struct Pair {
    pub a: usize,
    pub b: usize,
}

// The board below, and the pair that is merged once the layer is set.
#[derive(Drop)]
pub struct Merge<B> {
    below: B,
    pair: Option<Pair>,
}

impl<B: Board> Merge<B> {
    // An idle layer: it means the board below.
    pub fn idle(below: B) -> Self
        ensures below { result.below ≡ below }
        ensures unset { result.pair ≡ Nothing }
        ensures shape { merge_of (B.Board.shape result.below) result.pair ≡ B.Board.shape below }
    {
        Merge { below, pair: None }
    }

    // Merges `a` into `b`, once.
    pub fn merge(&mut self, a: usize, b: usize) -> Result<(), Refusal>
        ensures below { self.new.below ≡ self.old.below }
        ensures set { Merging (B.Board.shape self.old.below) self.old.pair self.new.pair a b result }
    {
        if let Some(site) = misfit(self.below.count(), a, End::Site(b)) {
            return Err(Part::Merge.refuse_at(Row::Site, site));
        }
        if self.pair.is_some() {
            return Err(Part::Merge.refuse(Row::LayerSet));
        }
        self.pair = Some(Pair { a, b });
        Ok(())
    }

    // Lifts the layer off and lays it on another board; gives back the board that it stood on.
    pub fn lay_on<C: Board>(self, board: C) -> (Merge<C>, B)
        ensures parts { (result.0.below ≡ board) × (result.0.pair ≡ self.pair) × (result.1 ≡ self.below) }
        ensures shape { merge_of (C.Board.shape result.0.below) result.0.pair ≡ merge_of (C.Board.shape board) self.pair }
    {
        let Merge { below, pair } = self;
        (Merge { below: board, pair }, below)
    }

    // The rows by which `merge` refuses, in the order of its checks.
    pub fn checks() -> [Row; 2]
        ensures { (x : Shape) (o : Maybe Pair) (a b : ℕ) → (result ≡ rows_of (merge_checks x o a b)) × InOrder (merge_checks x o a b) }
    {
        [Row::Site, Row::LayerSet]
    }

    // The pair that takes effect; an idle layer asks the board below nothing, as in earth.
    fn active(&self) -> Option<Pair>
        ensures is { merge_active (B.Board.shape self.now.below) self.now.pair ≡ result }
        ensures on { MergeOn (B.Board.shape self.now.below) result }
    {
        let pair = self.pair?;
        let n = self.below.count();
        (pair.a < n && pair.b < n && pair.a != pair.b).then_some(pair)
    }
}

// The lesser of two sites.
fn least(x: Option<usize>, y: Option<usize>) -> Option<usize>
    ensures { result ≡ lesser x y }
{
    x.into_iter().chain(y).min()
}

// The board below stays a parameter: a pair is kept, the board only asked.
impl Pair {
    // The least site from `j` on, other than `a`, that `p` is linked to once the pair is merged.
    fn next<B: Board>(self, below: &B, p: usize, j: usize) -> Option<usize>
        requires low { (self.a < 4096) × (self.b < 4096) }
        requires apart { self.a ≢ self.b }
        requires other { p ≢ self.a }
        ensures { LeastFrom (but self.a (joined_m self.a self.b (B.Board.shape below.now) p)) j result }
    {
        let Pair { a, b } = self;
        if p == b {
            return least(next_but(below, a, b, j), next_but(below, b, a, j));
        }
        let sole = (b >= j && below.links(p, a) > 0).then_some(b);
        least(next_but(below, a, p, j), sole)
    }

    // The links of `p` and `q` once the pair is merged.
    #[tactic(auto, using(board::specs::Walks::m_le))]
    fn links<B: Board>(self, below: &B, p: usize, q: usize) -> u32
        ensures { result ≡ joined_m self.a self.b (B.Board.shape below.now) p q }
    {
        if p == q {
            return 0;
        }
        if p == self.b {
            return below.links(p, q) + below.links(self.a, q);
        }
        if q == self.b {
            return below.links(p, q) + below.links(p, self.a);
        }
        below.links(p, q)
    }

    // The drain links of `p` once the pair is merged.
    #[tactic(auto, using(board::specs::Walks::s_le))]
    fn drain<B: Board>(self, below: &B, p: usize) -> u32
        ensures { result ≡ joined_s self.a self.b (B.Board.shape below.now) p }
    {
        if p == self.b {
            return below.drain(p) + below.drain(self.a);
        }
        below.drain(p)
    }
}

impl<B: Board> Board for Merge<B> {
    ghost shape = { λ e. merge_of (B.Board.shape e.below) e.pair };

    ghost sound = { λ e. merge_sound (B.Board.shape e.below) (B.Board.sound e.below) e.pair };

    #[tactic(auto, using(crate::specs::Merged::at_sites))]
    fn count(&self) -> usize {
        let n = self.below.count();
        if self.active().is_some() { n - 1 } else { n }
    }

    #[tactic(auto, using(crate::specs::Merged::at_m, crate::specs::Merged::off_zero))]
    fn links(&self, u: usize, v: usize) -> u32 {
        let Some(pair) = self.active() else {
            return self.below.links(u, v);
        };
        let n = self.below.count() - 1;
        if u >= n || v >= n {
            return 0;
        }
        pair.links(&self.below, lifted(pair.a, u), lifted(pair.a, v))
    }

    #[tactic(auto, using(crate::specs::Merged::at_s, crate::specs::Merged::at_sites, crate::specs::Merged::merge_sound))]
    fn drain(&self, v: usize) -> u32 {
        let Some(pair) = self.active() else {
            return self.below.drain(v);
        };
        if v >= self.below.count() - 1 {
            return 0;
        }
        pair.drain(&self.below, lifted(pair.a, v))
    }

    #[tactic(auto, using(crate::specs::Merged::off_zero))]
    fn next(&self, v: usize, j: usize) -> Option<usize> {
        let Some(pair) = self.active() else {
            return self.below.next(v, j);
        };
        let n = self.below.count() - 1;
        if v >= n || j >= n {
            return None;
        }
        let u = pair.next(&self.below, lifted(pair.a, v), lifted(pair.a, j))?;
        Some(lowered(pair.a, u))
    }
}
