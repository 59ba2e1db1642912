// Phases: their numbers and names, which event a phase takes; resume and shelve.
ghost use Rattle.std.specs.Prelude.{◌≡◌, Some};
ghost use Rattle.bench.specs.Phases.{phase_number, phase_name};
ghost use Rattle.bench.specs.States.{state, ticket_number, Conserved};
ghost use Rattle.bench.specs.Avalanches.{KeepsLaw};
ghost use Rattle.bench.specs.Checks.{PhaseAfter, FitsBoard, OwnsTicket, MayShelve};
ghost use Rattle.bench.specs.Answers.{Resumed, PutBy};

use super::{Bench, Phase, Ticket};
use board::Board;
use refusal::{Part, Refusal, Row};
use std::fmt;

// What may happen to a bench; fire, run and wave are one event.
#[derive(Clone, Copy)]
pub(crate) enum Event {
    Resume,
    Drop,
    Fire,
    Close,
    Shelve,
}

// The phase's number.
impl From<Phase> for u8 {
    ghost from_gives = { λ phase n. n ≡ phase_number phase };

    fn from(phase: Phase) -> u8 {
        phase as u8
    }
}

impl Phase {
    // The phase's name. (Display writes it; the name itself cannot fail, as writing can.)
    pub fn name(self) -> &'static str
        ensures { result.now ≡ phase_name self }
    {
        match self {
            Phase::Resting => "resting",
            Phase::Open => "open",
            Phase::Shelved => "shelved",
        }
    }
}

// The phase's name.
impl fmt::Display for Phase {
    ghost output = { λ phase. Some (phase_name phase) };

    fn fmt<W: fmt::Write>(&self, f: &mut fmt::Formatter<W>) -> fmt::Result {
        f.write_str(self.name())
    }
}

impl Ticket {
    // The number of its avalanche.
    pub fn number(&self) -> u64
        ensures { result ≡ ticket_number self.now }
    {
        self.number
    }
}

impl Bench {
    // The phase after an event, or a refusal.
    pub(crate) fn phase_after(&self, event: Event) -> Result<Phase, Refusal>
        ensures { PhaseAfter self.now.phase event result }
    {
        match (self.phase, event) {
            (Phase::Shelved, Event::Resume) => Ok(Phase::Open),
            (Phase::Resting, Event::Drop) => Ok(Phase::Open),
            (Phase::Open, Event::Fire) => Ok(Phase::Open),
            (Phase::Open, Event::Close) => Ok(Phase::Resting),
            (Phase::Open, Event::Shelve) => Ok(Phase::Shelved),
            _ => Err(Part::Bench.refuse(Row::Phase)),
        }
    }

    // Refuses a board that has not as many sites as the bench.
    pub(crate) fn fits<B: Board>(&self, board: &B) -> Result<(), Refusal>
        ensures { FitsBoard (B.Board.shape board.now) (state self.now) result }
    {
        if self.heights.len() != board.count() {
            return Err(Part::Bench.refuse(Row::Memory));
        }
        Ok(())
    }

    // Refuses a ticket of another avalanche.
    pub(crate) fn owns(&self, ticket: &Ticket) -> Result<(), Refusal>
        ensures { OwnsTicket (state self.now) (ticket_number ticket.now) result }
    {
        if ticket.number != self.number {
            return Err(Part::Bench.refuse(Row::Ticket));
        }
        Ok(())
    }

    // The phase in which an avalanche is laid aside, if this ticket may do so.
    fn may_shelve<B: Board>(&self, board: &B, ticket: &Ticket) -> Result<Phase, Refusal>
        ensures { MayShelve (B.Board.shape board.now) (state self.now) (ticket_number ticket.now) result }
    {
        self.fits(board)?;
        let next = self.phase_after(Event::Shelve)?;
        self.owns(ticket)?;
        Ok(next)
    }

    // Opens a shelved avalanche again, and gives its ticket.
    pub fn resume<B: Board>(&mut self, board: &B) -> Result<Ticket, Refusal>
        ensures answer { Resumed (B.Board.shape board.now) (state self.old) (state self.new) result }
        ensures conserved { Conserved (state self.new) }
        ensures law { KeepsLaw (B.Board.shape board.now) (state self.old) (state self.new) }
    {
        self.fits(board)?;
        let next = self.phase_after(Event::Resume)?;
        self.phase = next;
        Ok(Ticket {
            number: self.number,
        })
    }

    // Lays an open avalanche aside, and ends its ticket; the avalanche's number. (By match: `map_err` would move the ticket
    // where all goes well, too.)
    pub fn shelve<B: Board>(&mut self, board: &B, ticket: Ticket) -> Result<u64, (Refusal, Ticket)>
        ensures answer { PutBy (B.Board.shape board.now) (state self.old) (state self.new) ticket result }
        ensures conserved { Conserved (state self.new) }
        ensures law { KeepsLaw (B.Board.shape board.now) (state self.old) (state self.new) }
    {
        match self.may_shelve(board, &ticket) {
            Ok(next) => {
                self.phase = next;
                let Ticket { number } = ticket;
                Ok(number)
            },
            Err(refusal) => Err((refusal, ticket)),
        }
    }
}
