// Sums of still heights, and the identity, each by settling in the memory of the answer.
ghost use Rattle.std.specs.Prelude.{◌≡◌, ℕ, ◌+◌, ◌*◌, ◌<◌, ◌≤◌, List, length};
ghost use Rattle.refusal.specs.Table.{InOrder, rows};
ghost use Rattle.board.specs.Shape.{Shape};
ghost use Rattle.firing.specs.Firing.{at, fires_from};
ghost use Rattle.firing.specs.Reaching.{AllReach};
ghost use Rattle.settling.specs.Settlings.{Fit};
ghost use Rattle.group.specs.Sums.{Checked, Within, LowestUnstill, Summed, IdentityIs, sum_checks, identity_checks};

use board::{Board, degree};
use refusal::{Part, Refusal, Row};
use settling::fire::lowest_ready;
use settling::reach::reach;
use settling::settle::settle;

// Settles within the budget; where it is not enough, makes all heights 0 and refuses.
// (What is lent stays apart: in a struct, each call would have to promise that each part is the same memory.)
fn settle_within<B: Board>(
    board: &B,
    heights: &mut [u64],
    waiting: &mut [usize],
    bytes: &mut [u8],
    budget: u64,
) -> Result<(), Refusal>
    requires fit { Fit (B.Board.shape board.now).sites heights.old (length waiting.old) (length bytes.old) }
    requires some { 1 ≤ budget }
    requires most { budget ≤ 1000000000 }
    requires reach { AllReach (B.Board.shape board.now) }
    ensures { Within (B.Board.shape board.now) budget heights.old heights.new result }
{
    let outcome = settle(board, heights, waiting, bytes, budget, Part::Group)?;
    if outcome.still {
        return Ok(());
    }
    heights.fill(0);
    Err(Part::Group.refuse(Row::Budget))
}

// The lowest site of `a` that can fire, or where `a` is still the lowest of `b`, or none: both are still.
fn lowest_unstill<B: Board>(board: &B, a: &[u64], b: &[u64]) -> Option<usize>
    ensures { LowestUnstill (B.Board.shape board.now) (at a.now) (at b.now) result }
{
    lowest_ready(board, a).or_else(|| lowest_ready(board, b))
}

// Writes the heights of `a` and `b`, added, into `answer`.
fn add(a: &[u64], b: &[u64], answer: &mut [u64])
    requires first { length a.now ≡ length answer.old }
    requires second { length b.now ≡ length answer.old }
    requires low { (v : ℕ) → v < length answer.old → at a.now v + at b.now v ≤ 1000000 }
    ensures { (v : ℕ) → v < length answer.old → at answer.new v ≡ at a.now v + at b.now v }
{
    // By index: of what is written through `zip` the check knows no value.
    for (v, height) in answer.iter_mut().enumerate() {
        *height = a[v] + b[v];
    }
}

// Twice the height of `v` in M, which is one below the height from which it fires. (That all sites reach the drain stays a
// clause: a struct of the board alone would hold nothing else.)
fn twice_full<B: Board>(board: &B, v: usize) -> u64
    requires on { v < (B.Board.shape board.now).sites }
    requires reach { AllReach (B.Board.shape board.now) }
    ensures { result + 2 ≡ 2 * fires_from (B.Board.shape board.now) v }
{
    2 * (u64::from(degree(board, v)) - 1)
}

// Writes 2M into `answer`.
fn fill<B: Board>(board: &B, answer: &mut [u64])
    requires sized { length answer.old ≡ (B.Board.shape board.now).sites }
    requires reach { AllReach (B.Board.shape board.now) }
    ensures { (v : ℕ) → v < (B.Board.shape board.now).sites → at answer.new v + 2 ≡ 2 * fires_from (B.Board.shape board.now) v }
{
    for (v, height) in answer.iter_mut().enumerate() {
        *height = twice_full(board, v);
    }
}

// Writes what each height lacks of 2M in its place.
fn lack<B: Board>(board: &B, answer: &mut [u64])
    requires sized { length answer.old ≡ (B.Board.shape board.now).sites }
    requires reach { AllReach (B.Board.shape board.now) }
    requires low { (v : ℕ) → v < (B.Board.shape board.now).sites → at answer.old v < fires_from (B.Board.shape board.now) v }
    ensures { (v : ℕ) → v < (B.Board.shape board.now).sites → at answer.new v + at answer.old v + 2 ≡ 2 * fires_from (B.Board.shape board.now) v }
{
    for (v, low) in answer.iter_mut().enumerate() {
        *low = twice_full(board, v) - *low;
    }
}

// What both calls look at before they write: their memory, the budget, and whether all sites reach the drain.
fn check<B: Board>(
    board: &B,
    answer: &[u64],
    waiting: &mut [usize],
    bytes: &mut [u8],
    budget: u64,
) -> Result<(), Refusal>
    ensures { Checked (B.Board.shape board.now) (length answer.now) (length waiting.old) (length bytes.old) budget result }
{
    let n = board.count();
    if answer.len() != n || waiting.len() < n || bytes.len() < n {
        return Err(Part::Group.refuse(Row::Memory));
    }
    if budget < 1 || budget > 1_000_000_000 {
        return Err(Part::Group.refuse(Row::Limit));
    }
    match reach(board, waiting, bytes, Part::Group)? {
        Some(v) => Err(Part::Group.refuse_at(Row::NoDrain, v)),
        None => Ok(()),
    }
}

// The sum of still heights `a` and `b`, settle(a + b), into `answer`. Waiting list and bytes may read anything afterwards.
pub fn sum<B: Board>(
    board: &B,
    a: &[u64],
    b: &[u64],
    answer: &mut [u64],
    waiting: &mut [usize],
    bytes: &mut [u8],
    budget: u64,
) -> Result<(), Refusal>
    ensures { Summed (B.Board.shape board.now) a.now b.now answer.old answer.new (length waiting.old) (length bytes.old) budget result }
{
    if a.len() != board.count() || b.len() != board.count() {
        return Err(Part::Group.refuse(Row::Memory));
    }
    check(board, answer, waiting, bytes, budget)?;
    if let Some(v) = lowest_unstill(board, a, b) {
        return Err(Part::Group.refuse_at(Row::NotStill, v));
    }
    add(a, b, answer);
    settle_within(board, answer, waiting, bytes, budget)
}

// The identity, settle(2M − settle(2M)), into `answer`. Waiting list and bytes may read anything afterwards.
pub fn identity<B: Board>(
    board: &B,
    answer: &mut [u64],
    waiting: &mut [usize],
    bytes: &mut [u8],
    budget: u64,
) -> Result<(), Refusal>
    ensures { IdentityIs (B.Board.shape board.now) answer.old answer.new (length waiting.old) (length bytes.old) budget result }
{
    check(board, answer, waiting, bytes, budget)?;
    fill(board, answer);
    settle_within(board, answer, waiting, bytes, budget)?;
    lack(board, answer);
    settle_within(board, answer, waiting, bytes, budget)
}

// The rows by which a sum refuses, in their order.
pub fn sum_checks() -> [Row; 5]
    ensures { (b : Shape) (hs hs' : List ℕ) (answer waiting bytes budget : ℕ) → (result ≡ rows (sum_checks b hs hs' answer waiting bytes budget)) × InOrder (sum_checks b hs hs' answer waiting bytes budget) }
{
    [
        Row::Memory,
        Row::Limit,
        Row::NoDrain,
        Row::NotStill,
        Row::Budget,
    ]
}

// The rows by which the identity refuses, in their order.
pub fn identity_checks() -> [Row; 4]
    ensures { (b : Shape) (answer waiting bytes budget : ℕ) → (result ≡ rows (identity_checks b answer waiting bytes budget)) × InOrder (identity_checks b answer waiting bytes budget) }
{
    [Row::Memory, Row::Limit, Row::NoDrain, Row::Budget]
}
