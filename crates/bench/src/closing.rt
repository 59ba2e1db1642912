// Close: a still avalanche becomes a record.
ghost use Rattle.std.specs.Prelude.{◌≡◌, ◌+◌, ◌<◌, length, count_by, nat_lt, slice_set};
ghost use Rattle.std.specs.List.{zip};
ghost use Rattle.bench.specs.States.{state, ticket_number, Conserved, entries, held};
ghost use Rattle.bench.specs.Avalanches.{KeepsLaw};
ghost use Rattle.bench.specs.Checks.{MayClose};
ghost use Rattle.bench.specs.Answers.{Written, Closed, RecordLaw};

use super::firings::total;
use super::phases::Event;
use super::{Bench, Phase, Record, Records, Ticket};
use board::Board;
use refusal::{Part, Refusal, Row};
use settling::fire::lowest_ready;

impl<'a> Records<'a> {
    // Record memory over these entries; none is a record yet.
    pub fn new(slots: &'a mut [Record]) -> Records<'a>
        ensures entries { entries result ≡ slots.old }
        ensures none { held result ≡ 0 }
        ensures same { result.slots.ghost_name ≡ slots.entry.ghost_name }
    {
        Records { slots, held: 0 }
    }

    // How many entries are records.
    pub fn held(&self) -> usize
        ensures { result ≡ held self.now }
    {
        self.held
    }

    // Puts a record behind those that are held.
    fn file(&mut self, entry: Record)
        requires { held self.old < length (entries self.old) }
        ensures entries { entries self.new ≡ slice_set (entries self.old) (held self.old) entry }
        ensures held { held self.new ≡ held self.old + 1 }
        ensures same { self.new.slots.ghost_name ≡ self.old.slots.ghost_name }
    {
        self.slots[self.held] = entry;
        self.held += 1;
    }
}

// The sites that have fired since the opening. (A `usize` has no `From` into `u64`.)
fn area_since(counts: &[u64], opened: &[u64]) -> u64
    ensures { result ≡ count_by (λ p. nat_lt p.1 p.0) (zip counts.now opened.now) }
{
    let fired = counts.iter().zip(opened);
    fired.filter(|(count, before)| count > before).count() as u64
}

impl Bench {
    // The record of this avalanche, as it stands.
    fn record(&self) -> Record
        ensures { Written (state self.now) result }
    {
        Record {
            number: self.number,
            dropped: self.last,
            size: self.fired - total(&self.opened),
            area: area_since(&self.counts, &self.opened),
            drained: self.drained - self.drained_before,
        }
    }

    // The phase after the avalanche, if it is still, this ticket may close it and its record finds room.
    fn may_close<B: Board>(
        &self,
        board: &B,
        ticket: &Ticket,
        records: &Records,
    ) -> Result<Phase, Refusal>
        ensures { MayClose (B.Board.shape board.now) (state self.now) (ticket_number ticket.now) (length (entries records.now)) (held records.now) result }
    {
        self.fits(board)?;
        let next = self.phase_after(Event::Close)?;
        self.owns(ticket)?;
        if let Some(v) = lowest_ready(board, &self.heights) {
            return Err(Part::Bench.refuse_at(Row::NotStill, v));
        }
        if records.held >= records.slots.len() {
            return Err(Part::Bench.refuse(Row::RecordsFull));
        }
        Ok(next)
    }

    // Ends an open avalanche that is still, with its ticket, and writes its record. (By match: `map_err` would move the ticket
    // where all goes well, too.)
    pub fn close<B: Board>(
        &mut self,
        board: &B,
        ticket: Ticket,
        records: &mut Records,
    ) -> Result<Record, (Refusal, Ticket)>
        ensures answer { Closed (B.Board.shape board.now) (state self.old) (state self.new) ticket (entries records.old) (held records.old) (entries records.new) (held records.new) result }
        ensures conserved { Conserved (state self.new) }
        ensures law { KeepsLaw (B.Board.shape board.now) (state self.old) (state self.new) }
        ensures least { RecordLaw (B.Board.shape board.now) (state self.old) result }
        ensures same { records.new.slots.ghost_name ≡ records.old.slots.ghost_name }
    {
        match self.may_close(board, &ticket, records) {
            Ok(next) => {
                let record = self.record();
                records.file(record);
                self.phase = next;
                let Ticket { number: _ } = ticket;
                Ok(record)
            },
            Err(refusal) => Err((refusal, ticket)),
        }
    }
}
