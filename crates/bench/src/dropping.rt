// Drop: grains fall on a resting bench and open an avalanche.
ghost use Rattle.std.specs.Prelude.{◌≡◌, ℕ, List};
ghost use Rattle.bench.specs.declared.GrainDrop.{GrainDrop as a_drop};
ghost use Rattle.bench.specs.States.{state, Conserved};
ghost use Rattle.bench.specs.Avalanches.{Law};
ghost use Rattle.bench.specs.Answers.{Dropped, with_drop};

use super::phases::Event;
use super::{Bench, GrainDrop, Ticket};
use board::Board;
use refusal::{Part, Refusal, Row};

impl Bench {
    // Drops grains on a site of a resting bench, and gives the ticket of the avalanche that this opens.
    pub fn drop_grains<B: Board>(&mut self, board: &B, drop: GrainDrop) -> Result<Ticket, Refusal>
        ensures answer { Dropped (B.Board.shape board.now) (state self.old) (state self.new) drop result }
        ensures conserved { Conserved (state self.new) }
        ensures law { (start : ℕ → ℕ) (ds : List a_drop) → Law (B.Board.shape board.now) start ds (state self.old) → Law (B.Board.shape board.now) start (with_drop result drop ds) (state self.new) }
    {
        self.fits(board)?;
        if drop.grains < 1 || drop.grains > 1_000_000 - self.grains {
            return Err(Part::Bench.refuse(Row::Limit));
        }
        if drop.site >= self.heights.len() {
            return Err(Part::Bench.refuse_at(Row::Site, drop.site));
        }
        let next = self.phase_after(Event::Drop)?;
        self.opened.copy_from_slice(&self.counts);
        self.heights[drop.site] += drop.grains;
        self.phase = next;
        self.number += 1;
        self.last = Some(drop);
        self.grains += drop.grains;
        self.drained_before = self.drained;
        Ok(Ticket {
            number: self.number,
        })
    }
}
