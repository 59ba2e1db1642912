// A play on a fresh bench: it is created, the calls are carried out in order, and an open ticket is ended.
ghost use Rattle.std.specs.Prelude.{◌≡◌, ℕ, List, [], length};
ghost use Rattle.firing.specs.Firing.{at};
ghost use Rattle.bench.specs.States.{state, entries, held as held_in};
ghost use Rattle.bench.specs.Avalanches.{Law};
ghost use Rattle.play.specs.Turns.{Agree, none_held};
ghost use Rattle.play.specs.Whole.{PlayedOn, Played, LeastCounts};

use crate::turns::{lay_aside, turn};
use crate::{Answer, Call};
use bench::{Bench, Records, SiteMemory};
use board::Board;
use refusal::{Part, Refusal, Row};

// Carries the calls out on a bench that was just created, and ends a ticket that is left. (What is lent stays apart: of a
// list that a struct's field lends, the caller knows only the length once the struct is gone.)
fn play_on<B: Board>(
    board: &B,
    bench: &mut Bench,
    calls: &[Call],
    answers: &mut [Answer],
    records: &mut Records,
    waiting: &mut [usize],
    bytes: &mut [u8],
    part: Part,
)
    requires even { length answers.old ≡ length calls.now }
    requires agree { Agree (state bench.old) none_held }
    requires law { Law (B.Board.shape board.now) (at (state bench.old).heights) [] (state bench.old) }
    ensures played { PlayedOn (B.Board.shape board.now) part (length waiting.old) (length bytes.old) (state bench.old) (state bench.new) calls.now answers.new (entries records.old) (held_in records.old) (entries records.new) (held_in records.new) }
    ensures same { records.new.slots.ghost_name ≡ records.old.slots.ghost_name }
{
    let mut held = None;
    // By index: an invariant cannot speak of answers while they are lent to a `zip` with `iter_mut`.
    for (i, call) in calls.iter().enumerate() {
        let (after, answer) = turn(board, bench, records, waiting, bytes, held, *call, part);
        held = after;
        answers[i] = answer;
    }
    lay_aside(board, bench, held);
}

// Creates a bench over site memory whose heights are the start, carries the calls out in order, each with its answer,
// and ends a ticket that is left; the bench. A refusal hands the site memory back, and writes no answer and no record.
// Refusals of the play itself, for answers that are not as many as the calls and for want of a ticket, have this part.
// The waiting list and the bytes are for work, and read as they may afterwards.
pub fn play<B: Board>(
    board: &B,
    memory: SiteMemory,
    ceiling: u64,
    calls: &[Call],
    answers: &mut [Answer],
    records: &mut Records,
    waiting: &mut [usize],
    bytes: &mut [u8],
    part: Part,
) -> Result<Bench, (Refusal, SiteMemory)>
    ensures played { Played (B.Board.shape board.now) part (length waiting.old) (length bytes.old) memory ceiling calls.now answers.old answers.new (entries records.old) (held_in records.old) (entries records.new) (held_in records.new) result }
    ensures least { LeastCounts (B.Board.shape board.now) memory calls.now answers.new (entries records.old) (held_in records.old) (entries records.new) (held_in records.new) result }
    ensures same { records.new.slots.ghost_name ≡ records.old.slots.ghost_name }
{
    if answers.len() != calls.len() {
        return Err((part.refuse(Row::Memory), memory));
    }
    let mut bench = Bench::create(board, memory, waiting, bytes, ceiling)?;
    play_on(
        board, &mut bench, calls, answers, records, waiting, bytes, part,
    );
    Ok(bench)
}
