// Earth: a layer that makes a site part of the drain.
ghost use Rattle.std.specs.Prelude.{◌≡◌, ℕ, None as Nothing, Option as Maybe};
ghost use Rattle.refusal.specs.Table.{InOrder, rows as rows_of};
ghost use Rattle.board.specs.Shape.{Shape};
ghost use Rattle.layer.specs.Earths.{earth_active, earth_of, earth_checks, EarthOn, Earthing};
ghost use Rattle.layer.specs.Earthed.{earth_sound};

use crate::site::{lifted, lowered, next_but};
use board::Board;
use refusal::{Part, Refusal, Row};

// The board below, and the site that is earthed once the layer is set.
#[derive(Drop)]
pub struct Earth<B> {
    below: B,
    site: Option<usize>,
}

impl<B: Board> Earth<B> {
    // An idle layer: it means the board below.
    pub fn idle(below: B) -> Self
        ensures below { result.below ≡ below }
        ensures unset { result.site ≡ Nothing }
        ensures shape { earth_of (B.Board.shape result.below) result.site ≡ B.Board.shape below }
    {
        Earth { below, site: None }
    }

    // Earths `w`, once.
    pub fn earth(&mut self, w: usize) -> Result<(), Refusal>
        ensures below { self.new.below ≡ self.old.below }
        ensures set { Earthing (B.Board.shape self.old.below) self.old.site self.new.site w result }
    {
        let n = self.below.count();
        if w >= n {
            return Err(Part::Earth.refuse_at(Row::Site, w));
        }
        if self.site.is_some() || n == 1 {
            return Err(Part::Earth.refuse(Row::LayerSet));
        }
        self.site = Some(w);
        Ok(())
    }

    // Lifts the layer off and lays it on another board; gives back the board that it stood on.
    pub fn lay_on<C: Board>(self, board: C) -> (Earth<C>, B)
        ensures parts { (result.0.below ≡ board) × (result.0.site ≡ self.site) × (result.1 ≡ self.below) }
        ensures shape { earth_of (C.Board.shape result.0.below) result.0.site ≡ earth_of (C.Board.shape board) self.site }
    {
        let Earth { below, site } = self;
        (Earth { below: board, site }, below)
    }

    // The rows by which `earth` refuses, in the order of its checks.
    pub fn checks() -> [Row; 2]
        ensures { (b : Shape) (o : Maybe ℕ) (w : ℕ) → (result ≡ rows_of (earth_checks b o w)) × InOrder (earth_checks b o w) }
    {
        [Row::Site, Row::LayerSet]
    }

    // The site that takes effect. (An idle layer asks the board below nothing for it, so that idle layers cost a step each.)
    fn active(&self) -> Option<usize>
        ensures is { earth_active (B.Board.shape self.now.below) self.now.site ≡ result }
        ensures on { EarthOn (B.Board.shape self.now.below) result }
    {
        let w = self.site?;
        let n = self.below.count();
        (w < n && 1 < n).then_some(w)
    }
}

impl<B: Board> Board for Earth<B> {
    ghost shape = { λ e. earth_of (B.Board.shape e.below) e.site };

    ghost sound = { λ e. earth_sound (B.Board.shape e.below) (B.Board.sound e.below) e.site };

    #[tactic(auto, using(crate::specs::Earthed::at_sites))]
    fn count(&self) -> usize {
        let n = self.below.count();
        if self.active().is_some() { n - 1 } else { n }
    }

    #[tactic(auto, using(crate::specs::Earthed::at_m, crate::specs::Earthed::off_zero))]
    fn links(&self, u: usize, v: usize) -> u32 {
        let Some(w) = self.active() else {
            return self.below.links(u, v);
        };
        let n = self.below.count() - 1;
        if u >= n || v >= n {
            return 0;
        }
        self.below.links(lifted(w, u), lifted(w, v))
    }

    #[tactic(auto, using(crate::specs::Earthed::at_s, crate::specs::Earthed::at_sites, crate::specs::Earthed::earth_sound, board::specs::Walks::s_le, board::specs::Walks::m_le))]
    fn drain(&self, v: usize) -> u32 {
        let Some(w) = self.active() else {
            return self.below.drain(v);
        };
        if v >= self.below.count() - 1 {
            return 0;
        }
        let at = lifted(w, v);
        self.below.drain(at) + self.below.links(at, w)
    }

    #[tactic(auto, using(crate::specs::Earthed::off_zero))]
    fn next(&self, v: usize, j: usize) -> Option<usize> {
        let Some(w) = self.active() else {
            return self.below.next(v, j);
        };
        let n = self.below.count() - 1;
        if v >= n || j >= n {
            return None;
        }
        let u = next_but(&self.below, w, lifted(w, v), lifted(w, j))?;
        Some(lowered(w, u))
    }
}
