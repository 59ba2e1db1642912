// The turns of a play, with the ticket held in between.
ghost use Rattle.std.specs.Prelude.{◌≡◌, length};
ghost use Rattle.bench.specs.States.{state, entries, held as held_in};
ghost use Rattle.bench.specs.Avalanches.{KeepsLaw};
ghost use Rattle.play.specs.Plays.{Turn, given, ticket_answer, laid_aside};
ghost use Rattle.play.specs.Turns.{Agree, GivesOne, Ended, place, Kept, Files};

use crate::{Answer, Call};
use bench::{Bench, Records, Ticket};
use board::Board;
use refusal::{Part, Refusal, Row};

// The ticket in hand after a call that gives one, and its answer.
fn opened(held: Option<Ticket>, reply: Result<Ticket, Refusal>) -> (Option<Ticket>, Answer)
    requires { GivesOne held reply }
    ensures { (result.0 ≡ given held reply) × (result.1 ≡ ticket_answer reply) }
{
    match reply {
        Ok(ticket) => match held {
            None => {
                let number = ticket.number();
                (Some(ticket), Answer::Opened(number))
            }
            Some(_) => unreachable(),
        },
        Err(e) => (held, Answer::Refused(e)),
    }
}

// The ticket in hand after a call that ends one, and its answer.
fn ended(reply: Result<Answer, (Refusal, Ticket)>) -> (Option<Ticket>, Answer)
    ensures { Ended reply result.0 result.1 }
{
    match reply {
        Ok(answer) => (None, answer),
        Err((e, ticket)) => (Some(ticket), Answer::Refused(e)),
    }
}

// One call, with the ticket in hand before and after it. (Bench and ticket stay two: the bench is the caller's, the ticket the
// play's own.)
pub(crate) fn turn<B: Board>(
    board: &B,
    bench: &mut Bench,
    records: &mut Records,
    waiting: &mut [usize],
    bytes: &mut [u8],
    held: Option<Ticket>,
    call: Call,
    part: Part,
) -> (Option<Ticket>, Answer)
    requires { Agree (state bench.old) held }
    ensures turn { Turn (B.Board.shape board.now) part (length waiting.old) (length bytes.old) (place (state bench.old) held (entries records.old) (held_in records.old)) call result.1 (place (state bench.new) result.0 (entries records.new) (held_in records.new)) }
    ensures agree { Agree (state bench.new) result.0 }
    ensures kept { Kept (B.Board.shape board.now) (state bench.old) call result.1 (state bench.new) }
    ensures filed { Files (entries records.old) (held_in records.old) result.1 (entries records.new) (held_in records.new) }
    ensures same { records.new.slots.ghost_name ≡ records.old.slots.ghost_name }
{
    match call {
        Call::Resume => opened(held, bench.resume(board)),
        Call::Drop(drop) => opened(held, bench.drop_grains(board, drop)),
        Call::Fire(site) => {
            let reply = bench.fire(board, site);
            (
                held,
                reply.map_or_else(Answer::Refused, |()| Answer::Fired(site)),
            )
        },
        Call::Run(budget) => {
            let reply = bench.run(board, waiting, bytes, budget);
            (held, reply.map_or_else(Answer::Refused, Answer::Ran))
        },
        Call::Wave => {
            let reply = bench.wave(board, bytes);
            (held, reply.map_or_else(Answer::Refused, Answer::Waved))
        },
        Call::Close => match held {
            None => (None, Answer::Refused(part.refuse(Row::Phase))),
            Some(ticket) => ended(bench.close(board, ticket, records).map(Answer::Closed)),
        },
        Call::Shelve => match held {
            None => (None, Answer::Refused(part.refuse(Row::Phase))),
            Some(ticket) => ended(bench.shelve(board, ticket).map(Answer::Put)),
        },
    }
}

// Ends a ticket that is still in hand.
pub(crate) fn lay_aside<B: Board>(board: &B, bench: &mut Bench, held: Option<Ticket>)
    requires sized { length (state bench.old).heights ≡ (B.Board.shape board.now).sites }
    requires agree { Agree (state bench.old) held }
    ensures aside { state bench.new ≡ laid_aside (state bench.old) held }
    ensures law { KeepsLaw (B.Board.shape board.now) (state bench.old) (state bench.new) }
{
    if let Some(ticket) = held {
        bench.shelve(board, ticket).unwrap();
    }
}
