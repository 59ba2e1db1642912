// Fire, run and wave: legal firings on an open bench.
ghost use Rattle.std.specs.Prelude.{length};
ghost use Rattle.bench.specs.States.{state, Conserved};
ghost use Rattle.bench.specs.Avalanches.{KeepsLaw};
ghost use Rattle.bench.specs.Answers.{Fired, Ran, Waved};

use super::firings::{fire_counted, fire_marked, mark_ready, run_within, total};
use super::phases::Event;
use super::words::word_for;
use super::{Bench, RunOutcome};
use board::Board;
use refusal::{Part, Refusal, Row};
use settling::fire::can_fire;

impl Bench {
    // Fires a site of an open bench once.
    pub fn fire<B: Board>(&mut self, board: &B, site: usize) -> Result<(), Refusal>
        ensures answer { Fired (B.Board.shape board.now) (state self.old) (state self.new) site result }
        ensures conserved { Conserved (state self.new) }
        ensures law { KeepsLaw (B.Board.shape board.now) (state self.old) (state self.new) }
    {
        self.fits(board)?;
        if site >= self.heights.len() {
            return Err(Part::Bench.refuse_at(Row::Site, site));
        }
        let next = self.phase_after(Event::Fire)?;
        if !can_fire(board, &self.heights, site) {
            return Err(Part::Bench.refuse_at(Row::CannotFire, site));
        }
        if self.fired >= self.ceiling {
            return Err(Part::Bench.refuse(Row::Ceiling));
        }
        let drained = fire_counted(board, &mut self.heights, &mut self.counts, site);
        self.phase = next;
        self.fired += 1;
        self.drained += drained;
        Ok(())
    }

    // Legal firings on an open bench, until still, at the ceiling or at `budget`; how many, and why it stopped. The
    // waiting list and the bytes are for work, and read as they may afterwards.
    pub fn run<B: Board>(
        &mut self,
        board: &B,
        waiting: &mut [usize],
        bytes: &mut [u8],
        budget: u64,
    ) -> Result<RunOutcome, Refusal>
        ensures answer { Ran (B.Board.shape board.now) (state self.old) (state self.new) (length waiting.old) (length bytes.old) budget result }
        ensures conserved { Conserved (state self.new) }
        ensures law { KeepsLaw (B.Board.shape board.now) (state self.old) (state self.new) }
    {
        self.fits(board)?;
        let n = self.heights.len();
        if waiting.len() < n || bytes.len() < n {
            return Err(Part::Bench.refuse(Row::Memory));
        }
        if budget < 1 || budget > 1_000_000_000 {
            return Err(Part::Bench.refuse(Row::Limit));
        }
        let next = self.phase_after(Event::Fire)?;
        let limit = budget.min(self.ceiling - self.fired);
        let done = run_within(
            board,
            &mut self.heights,
            &mut self.counts,
            waiting,
            bytes,
            limit,
        );
        self.phase = next;
        self.fired += done.fired;
        self.drained = self.grains - total(&self.heights);
        Ok(RunOutcome {
            fired: done.fired,
            word: word_for(done.still, self.fired == self.ceiling),
        })
    }

    // Fires each site of an open bench that can fire, once each; how many. The bytes are for work.
    pub fn wave<B: Board>(&mut self, board: &B, bytes: &mut [u8]) -> Result<u64, Refusal>
        ensures answer { Waved (B.Board.shape board.now) (state self.old) (state self.new) (length bytes.old) result }
        ensures conserved { Conserved (state self.new) }
        ensures law { KeepsLaw (B.Board.shape board.now) (state self.old) (state self.new) }
    {
        self.fits(board)?;
        let n = self.heights.len();
        if bytes.len() < n {
            return Err(Part::Bench.refuse(Row::Memory));
        }
        let next = self.phase_after(Event::Fire)?;
        let marks = &mut bytes[..n];
        let ready = mark_ready(board, &self.heights, marks);
        if ready > self.ceiling - self.fired {
            return Err(Part::Bench.refuse(Row::Ceiling));
        }
        let drained = fire_marked(board, &mut self.heights, &mut self.counts, marks);
        self.phase = next;
        self.fired += ready;
        self.drained += drained;
        Ok(ready)
    }
}
