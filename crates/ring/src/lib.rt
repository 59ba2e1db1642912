// A ring of sites: a board made outside the crate of boards.
#![tactic(auto)]

ghost use Rattle.std.specs.Prelude.{◌≡◌, ℕ, ◌<◌, ◌≤◌, Ok, Err};
ghost use Rattle.refusal.specs.declared.Part.TheVariants as parts;
ghost use Rattle.refusal.specs.Table.{Passed, Refused, InOrder, rows as rows_of};
ghost use Rattle.ring.specs.Rings.{after, ring_of, ring_checks, Sides};
ghost use Rattle.ring.specs.Round.{ring_sound};

use board::Board;
use refusal::{Part, Refusal, Row};

// A ring of 3 to 4,096 sites.
#[derive(Clone, Copy)]
pub struct Ring {
    sites: usize,
    ghost ok: { (3 ≤ sites) × (sites ≤ 4096) },
}

impl Ring {
    // The ring of so many sites.
    pub fn new(sites: usize) -> Result<Ring, Refusal>
        ensures { elim result [ Ok x ↦ Passed (ring_checks sites) × (x.sites ≡ sites) | Err e ↦ Refused (ring_checks sites) parts.Board e ] }
    {
        if !(3..=4096).contains(&sites) {
            return Err(Part::Board.refuse(Row::Limit));
        }
        Ok(Ring { sites })
    }

    // The rows by which `new` refuses, in the order of its checks.
    pub fn checks() -> [Row; 1]
        ensures { (n : ℕ) → (result ≡ rows_of (ring_checks n)) × InOrder (ring_checks n) }
    {
        [Row::Limit]
    }

    // The site after `v`, which is on the ring.
    fn after(&self, v: usize) -> usize
        requires { v < self.now.sites }
        ensures { result ≡ after self.now.sites v }
    {
        (v + 1) % self.sites
    }

    // The two sites that `v`, which is on the ring, is linked to, the lesser first.
    fn sides(&self, v: usize) -> (usize, usize)
        requires { v < self.now.sites }
        ensures { Sides self.now.sites v result.0 result.1 }
    {
        let last = self.sites - 1;
        if v == 0 {
            (1, last)
        } else if v == last {
            (0, last - 1)
        } else {
            (v - 1, v + 1)
        }
    }
}

impl Board for Ring {
    ghost shape = { λ x. ring_of x.sites };

    ghost sound = { λ b. ring_sound b.sites b.ok.0 b.ok.1 };

    fn count(&self) -> usize {
        self.sites
    }

    fn links(&self, u: usize, v: usize) -> u32 {
        if u >= self.sites || v >= self.sites {
            return 0;
        }
        let a = self.after(u);
        let b = self.after(v);
        u32::from(a == v || b == u)
    }

    fn drain(&self, v: usize) -> u32 {
        u32::from(v == 0)
    }

    fn next(&self, v: usize, j: usize) -> Option<usize> {
        if v >= self.sites {
            return None;
        }
        let (low, high) = self.sides(v);
        // by two tests: the two as an array, searched by `find`, took half as many instructions again
        if low >= j {
            return Some(low);
        }
        (high >= j).then_some(high)
    }
}
