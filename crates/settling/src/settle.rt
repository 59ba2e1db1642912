// Settling: legal firings from a waiting list, until no site can fire or a budget is spent.
ghost use Rattle.std.specs.Prelude.{◌≡◌, ℕ, ◌+◌, ◌^◌, ◌<◌, ◌≤◌, List, length};
ghost use Rattle.refusal.specs.Table.{InOrder, rows};
ghost use Rattle.board.specs.Shape.{sum_below};
ghost use Rattle.firing.specs.Firing.{Still};
ghost use Rattle.firing.specs.Firing.{at};
ghost use Rattle.settling.specs.Searches.{mark};
ghost use Rattle.settling.specs.Marks.{Covered, Visited};
ghost use Rattle.settling.specs.Settlings.{Noted, Tallied, Counted, Fit, Checked, SettledBy, settle_checks};

use crate::fire::{all_grains, can_fire, fire_times, is_enough, lowest_ready};
use crate::waits::Queue;
use board::{Board, degree};
use refusal::{Part, Refusal, Row};

// How many firings were made, and whether no site can fire after them: each says the same whatever the other is, so no variant
// would leave one out.
#[derive(Clone, Copy, PartialEq, Eq, Debug)]
pub struct Outcome {
    pub fired: u64,
    pub still: bool,
}

// The mark of a site that does not wait. (A number, as `waits` says.)
const IDLE: u8 = 0;

// Fires `v` as often as its height and `limit` allow, and says how often.
fn visit<B: Board>(board: &B, heights: &mut [u64], v: usize, limit: u64) -> u64
    requires sized { length heights.old ≡ (B.Board.shape board.now).sites }
    requires on { v < (B.Board.shape board.now).sites }
    requires low { (u : ℕ) → at heights.old u ≤ 1000000 }
    requires some { 1 ≤ limit }
    ensures { Visited (B.Board.shape board.now) v limit heights.old heights.new result }
{
    let links = u64::from(degree(board, v));
    if !is_enough(links, heights[v]) {
        return 0;
    }
    let times = limit.min(heights[v] / links);
    fire_times(board, heights, v, times, links * times);
    times
}

// Counts so many more firings of `v`, where counts are kept: an empty list keeps none. (No Option of a list: it would be
// taken apart at each visit.)
fn note(counts: &mut [u64], v: usize, times: u64)
    requires { at counts.old v + times < 2 ^ 64 }
    ensures { Noted v times counts.old counts.new }
{
    if v < counts.len() {
        counts[v] += times;
    }
}

// Fires the waiting sites, first in, first out, until none waits or `limit` firings are made; how many were made.
fn work_off<B: Board>(
    board: &B,
    heights: &mut [u64],
    counts: &mut [u64],
    queue: &mut Queue<usize>,
    limit: u64,
) -> u64
    requires sized { length heights.old ≡ (B.Board.shape board.now).sites }
    requires size { length queue.old.marks.now ≡ (B.Board.shape board.now).sites }
    requires low { sum_below (B.Board.shape board.now).sites (at heights.old) ≤ 1000000 }
    requires few { (u : ℕ) → at counts.old u + limit < 2 ^ 64 }
    requires marks { (u : ℕ) → u < (B.Board.shape board.now).sites → mark queue.old.marks.now u ≤ 1 }
    requires covered { Covered (B.Board.shape board.now) (at heights.old) queue.old.marks.now }
    ensures tallied { Tallied (B.Board.shape board.now) (at heights.old) (at heights.new) counts.old counts.new result }
    ensures within { result ≤ limit }
    ensures still { result < limit → Still (B.Board.shape board.now) (at heights.new) }
{
    let mut fired = 0;
    // a `while`: a visit says how many firings it made
    while fired < limit {
        let Some(v) = queue.take(IDLE) else { break };
        let times = visit(board, heights, v, limit - fired);
        if times > 0 {
            fired += times;
            note(counts, v, times);
            queue.wait_round(board, v, IDLE);
        }
    }
    fired
}

// Has each site wait that can fire.
fn scan<B: Board>(board: &B, heights: &[u64], queue: &mut Queue<usize>)
    requires size { length queue.old.marks.now ≡ (B.Board.shape board.now).sites }
    requires idle { (u : ℕ) → mark queue.old.marks.now u ≡ 0 }
    ensures marks { (u : ℕ) → u < (B.Board.shape board.now).sites → mark queue.new.marks.now u ≤ 1 }
    ensures covered { Covered (B.Board.shape board.now) (at heights.now) queue.new.marks.now }
    ensures size { length queue.new.marks.now ≡ length queue.old.marks.now }
{
    // by site: the board is asked about each
    for v in 0..board.count() {
        if can_fire(board, heights, v) {
            queue.wait(v, IDLE);
        }
    }
}

// Refuses what cannot be settled, by the first row that says so.
pub(crate) fn check<B: Board>(
    board: &B,
    heights: &[u64],
    slots: usize,
    bytes: usize,
    budget: u64,
    part: Part,
) -> Result<(), Refusal>
    ensures { Checked (B.Board.shape board.now).sites heights.now slots bytes budget part result }
{
    let n = board.count();
    if heights.len() != n || slots < n || bytes < n {
        return Err(part.refuse(Row::Memory));
    }
    if budget < 1 || budget > 1_000_000_000 || all_grains(heights, 1_000_000).is_none() {
        return Err(part.refuse(Row::Limit));
    }
    Ok(())
}

// Settles heights that were checked, and adds each site's firings to its count.
pub(crate) fn settle_counted<B: Board>(
    board: &B,
    heights: &mut [u64],
    counts: &mut [u64],
    waiting: &mut [usize],
    marks: &mut [u8],
    budget: u64,
) -> Outcome
    requires fit { Fit (B.Board.shape board.now).sites heights.old (length waiting.old) (length marks.old) }
    requires few { (u : ℕ) → at counts.old u + budget < 2 ^ 64 }
    ensures { Counted (B.Board.shape board.now) (at heights.old) (at heights.new) budget result counts.old counts.new }
{
    let mut queue = Queue::new(board.count(), waiting, marks);
    scan(board, heights, &mut queue);
    let fired = work_off(board, heights, counts, &mut queue, budget);
    let still = fired < budget || lowest_ready(board, heights).is_none();
    Outcome { fired, still }
}

// Settles `heights`: legal firings only, until no site can fire or `budget` of them are made. The waiting list and the
// marks are for work, and read as they may afterwards.
pub fn settle<B: Board>(
    board: &B,
    heights: &mut [u64],
    waiting: &mut [usize],
    marks: &mut [u8],
    budget: u64,
    part: Part,
) -> Result<Outcome, Refusal>
    ensures { SettledBy (B.Board.shape board.now) heights.old heights.new (length waiting.old) (length marks.old) budget part result }
{
    check(board, heights, waiting.len(), marks.len(), budget, part)?;
    Ok(settle_counted(board, heights, &mut [], waiting, marks, budget))
}

// The rows by which `settle` refuses, in the order of its checks.
pub fn settle_rows() -> [Row; 2]
    ensures { (n : ℕ) (xs : List ℕ) (slots bytes budget : ℕ) → (result ≡ rows (settle_checks n xs slots bytes budget)) × InOrder (settle_checks n xs slots bytes budget) }
{
    [Row::Memory, Row::Limit]
}
