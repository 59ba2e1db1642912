// The questions to a cut layer.
ghost use Rattle.std.specs.Prelude.{◌≡◌, ℕ};
ghost use Rattle.board.specs.Links.{fits};
ghost use Rattle.layer.specs.Cuts.{all_on, lessened, cut_of};
ghost use Rattle.layer.specs.Cutting.{cut_sound};

use super::Cut;
use board::Board;
use board::link::{Link, drain_of, links_of, misfit};
use board::neighbours::Neighbours;

// Whether `l` is on a board of `sites` sites.
fn is_on(sites: usize, l: Link) -> bool
    ensures { result ≡ fits sites l.site l.other }
{
    misfit(sites, l.site, l.other).is_none()
}

impl<B: Board> Cut<B> {
    // Whether every entry is on the board below.
    fn takes(&self) -> bool
        ensures { result ≡ all_on (B.Board.shape self.now.below).sites self.now.entries.items }
    {
        let sites = self.below.count();
        self.entries.iter().all(|l| is_on(sites, *l))
    }

    // The links between `u` and `v` once the entries are taken away.
    pub(super) fn links_left(&self, u: usize, v: usize) -> u32
        ensures { result ≡ (lessened (B.Board.shape self.now.below) self.now.entries.items).m u v }
    {
        let taken = self.entries.iter().map(|l| links_of(*l, u, v)).sum();
        self.below.links(u, v).saturating_sub(taken)
    }

    // The links between `v` and the drain once the entries are taken away.
    pub(super) fn drain_left(&self, v: usize) -> u32
        ensures { result ≡ (lessened (B.Board.shape self.now.below) self.now.entries.items).s v }
    {
        let taken = self.entries.iter().map(|l| drain_of(*l, v)).sum();
        self.below.drain(v).saturating_sub(taken)
    }
}

impl<B: Board> Board for Cut<B> {
    ghost shape = { λ e. cut_of (B.Board.shape e.below) e.entries.items };

    ghost sound = { λ e. cut_sound (B.Board.shape e.below) (B.Board.sound e.below) e.entries.items };

    fn count(&self) -> usize {
        self.below.count()
    }

    fn links(&self, u: usize, v: usize) -> u32 {
        if self.takes() {
            self.links_left(u, v)
        } else {
            self.below.links(u, v)
        }
    }

    fn drain(&self, v: usize) -> u32 {
        if self.takes() {
            self.drain_left(v)
        } else {
            self.below.drain(v)
        }
    }

    fn next(&self, v: usize, j: usize) -> Option<usize> {
        for u in Neighbours::of_from(&self.below, v, j) {
            if self.links(v, u) > 0 {
                return Some(u);
            }
        }
        None
    }
}
