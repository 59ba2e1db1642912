// The sites that a site is linked to, in their order.
ghost use Rattle.std.specs.Prelude.{◌≡◌, ℕ, ◌-◌};
ghost use Rattle.std.specs.Iterator.{at_most};
ghost use Rattle.board.specs.Steps.{Stepped};

use crate::Board;

// The sites from `from` on that `site` is linked to, the lowest first.
#[derive(Drop)]
pub struct Neighbours<'a, B> {
    board: &'a B,
    site: usize,
    from: usize,
}

impl<'a, B: Board> Iterator for Neighbours<'a, B> {
    type Item = usize;

    ghost next_gives = { λ s r t. Stepped (B.Board.shape s.board.now) s.site s.from r t.from × (t.site ≡ s.site) × (t.board.now ≡ s.board.now) };

    ghost remaining = { λ s. at_most ((B.Board.shape s.board.now).sites - s.from) };

    fn next(&mut self) -> Option<usize> {
        let u = self.board.next(self.site, self.from)?;
        self.from = u + 1;
        Some(u)
    }
}

impl<'a, B: Board> Neighbours<'a, B> {
    // The sites that `v` is linked to, the lowest first.
    pub fn of(board: &'a B, v: usize) -> Neighbours<'a, B>
        ensures { (result.board.now ≡ board.now) × (result.site ≡ v) × (result.from ≡ 0) }
    {
        Neighbours::of_from(board, v, 0)
    }

    // The sites from `j` on that `v` is linked to, the lowest first.
    pub fn of_from(board: &'a B, v: usize, j: usize) -> Neighbours<'a, B>
        ensures { (result.board.now ≡ board.now) × (result.site ≡ v) × (result.from ≡ j) }
    {
        Neighbours {
            board,
            site: v,
            from: j,
        }
    }
}
