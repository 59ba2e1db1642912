// Reach: which sites have a chain of links to the drain, searched from the drain outwards.
ghost use Rattle.std.specs.Prelude.{◌≡◌, ℕ, ◌<◌, length};
ghost use Rattle.refusal.specs.Table.{InOrder, rows};
ghost use Rattle.waiting.specs.WaitingLists.{waits};
ghost use Rattle.settling.specs.Searches.{mark, Searching, Searched, LowestUnmarked};
ghost use Rattle.settling.specs.Reaching.{ReachIs, work_checks};

use super::Entry;
use crate::waits::Queue;
use board::Board;
use refusal::{Part, Refusal, Row};

// The mark of a site that is not found yet. (A number, as `waits` says.)
const UNFOUND: u8 = 0;

// The mark of a site that is found, and what it is linked to as well.
const VISITED: u8 = 2;

// Finds each site that is linked to the drain.
fn from_drain<B: Board, E: Entry>(board: &B, queue: &mut Queue<E>)
    requires size { length queue.old.marks.now ≡ (B.Board.shape board.now).sites }
    requires none { (u : ℕ) → mark queue.old.marks.now u ≡ 0 }
    ensures searching { Searching E.Entry.site (B.Board.shape board.now) (waits queue.new.list) queue.new.marks.now }
    ensures size { length queue.new.marks.now ≡ length queue.old.marks.now }
{
    // by site: the board is asked about each
    for v in 0..board.count() {
        if board.drain(v) >= 1 {
            queue.wait(v, UNFOUND);
        }
    }
}

// Visits what waits, until nothing does.
fn search<B: Board, E: Entry>(board: &B, queue: &mut Queue<E>)
    requires size { length queue.old.marks.now ≡ (B.Board.shape board.now).sites }
    requires searching { Searching E.Entry.site (B.Board.shape board.now) (waits queue.old.list) queue.old.marks.now }
    ensures searched { Searched (B.Board.shape board.now) queue.new.marks.now }
    ensures size { length queue.new.marks.now ≡ length queue.old.marks.now }
{
    while let Some(e) = queue.take(VISITED) {
        queue.wait_round(board, e.site_of(), UNFOUND);
    }
}

// The lowest of the sites with these marks that was not found.
fn lowest_unmarked(marks: &[u8]) -> Option<usize>
    ensures { LowestUnmarked (length marks.now) marks.now result }
{
    marks.iter().position(|mark| *mark == UNFOUND)
}

// The lowest site that does not reach the drain, or none: all do. Work memory may read anything afterwards.
pub fn reach<B: Board, E: Entry>(
    board: &B,
    waiting: &mut [E],
    bytes: &mut [u8],
    part: Part,
) -> Result<Option<usize>, Refusal>
    ensures { ReachIs (B.Board.shape board.now) (length waiting.old) (length bytes.old) part result }
{
    let n = board.count();
    if waiting.len() < n || bytes.len() < n {
        return Err(part.refuse(Row::Memory));
    }
    let mut queue = Queue::new(n, waiting, bytes);
    from_drain(board, &mut queue);
    search(board, &mut queue);
    Ok(lowest_unmarked(queue.marks()))
}

// The rows by which `reach` refuses.
pub fn reach_rows() -> [Row; 1]
    ensures { (n w f : ℕ) → (result ≡ rows (work_checks n w f)) × InOrder (work_checks n w f) }
{
    [Row::Memory]
}
