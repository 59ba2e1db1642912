// Making a cut layer, and cutting.
ghost use Rattle.std.specs.Prelude.{◌≡◌, ℕ, List, [], position};
ghost use Rattle.refusal.specs.Table.{InOrder, rows as rows_of};
ghost use Rattle.board.specs.Shape.{Shape};
ghost use Rattle.board.specs.Links.{alike};
ghost use Rattle.board.specs.declared.link.End.{End as Ending};
ghost use Rattle.board.specs.declared.link.Link.{Link as Linking};
ghost use Rattle.layer.specs.Cuts.{lessened, cut_of, standing as stand, cut_checks, Cutting};

use super::Cut;
use arrayvec::ArrayVec;
use board::Board;
use board::link::{End, Link, is_alike, misfit};
use refusal::{Part, Refusal, Row};

impl<B: Board> Cut<B> {
    // An idle layer: it means the board below.
    pub fn idle(below: B) -> Self
        ensures below { result.below ≡ below }
        ensures unset { result.entries.items ≡ [] }
        ensures shape { cut_of (B.Board.shape result.below) result.entries.items ≡ B.Board.shape below }
    {
        Cut {
            below,
            entries: ArrayVec::new(),
        }
    }

    // Takes away `k` links between the site `a` and the end `b`.
    pub fn cut(&mut self, a: usize, b: End, k: u64) -> Result<(), Refusal>
        ensures below { self.new.below ≡ self.old.below }
        ensures made { Cutting (B.Board.shape self.old.below) self.old.entries.items self.new.entries.items a b k result }
    {
        if k < 1 {
            return Err(Part::Cut.refuse(Row::Limit));
        }
        if let Some(site) = misfit(self.below.count(), a, b) {
            return Err(Part::Cut.refuse_at(Row::Site, site));
        }
        let found = self.find(a, b);
        if found.is_none() && self.entries.is_full() {
            return Err(Part::Cut.refuse(Row::CutFull));
        }
        if k > u64::from(self.standing(a, b)) {
            return Err(Part::Cut.refuse(Row::FewLinks));
        }
        // by `as`, since `u32::try_from` could fail and this cannot: no more than 500,000 links stand
        let count = k as u32;
        match found {
            Some(i) => self.entries[i].count += count,
            None => self.entries.push(Link {
                site: a,
                other: b,
                count,
            }),
        }
        Ok(())
    }

    // Lifts the layer off and lays it on another board; gives back the board that it stood on.
    pub fn lay_on<C: Board>(self, board: C) -> (Cut<C>, B)
        ensures parts { (result.0.below ≡ board) × (result.0.entries ≡ self.entries) × (result.1 ≡ self.below) }
        ensures shape { cut_of (C.Board.shape result.0.below) result.0.entries.items ≡ cut_of (C.Board.shape board) self.entries.items }
    {
        let Cut { below, entries } = self;
        (
            Cut {
                below: board,
                entries,
            },
            below,
        )
    }

    // The rows by which `cut` refuses, in the order of its checks.
    pub fn checks() -> [Row; 4]
        ensures { (x : Shape) (xs : List Linking) (a : ℕ) (b : Ending) (k : ℕ) → (result ≡ rows_of (cut_checks x xs a b k)) × InOrder (cut_checks x xs a b k) }
    {
        [Row::Limit, Row::Site, Row::CutFull, Row::FewLinks]
    }

    // The place of the entry of the ends `a` and `b`.
    fn find(&self, a: usize, b: End) -> Option<usize>
        ensures { result ≡ position (λ l. alike l.site l.other a b) self.now.entries.items }
    {
        self.entries.iter().position(|l| is_alike(*l, a, b))
    }

    // The links between `a` and `b` that still stand after the cuts so far.
    fn standing(&self, a: usize, b: End) -> u32
        ensures { result ≡ stand (lessened (B.Board.shape self.now.below) self.now.entries.items) a b }
    {
        match b {
            End::Site(y) => self.links_left(a, y),
            End::Drain => self.drain_left(a),
        }
    }
}
