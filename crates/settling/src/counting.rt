// Settling with a count for each site, to which its firings are added.
ghost use Rattle.std.specs.Prelude.{◌≡◌, ℕ, List, length, nat_le};
ghost use Rattle.std.specs.List.{list_all};
ghost use Rattle.refusal.specs.Table.{InOrder, rows};
ghost use Rattle.settling.specs.Settlings.{SettledCounting, count_checks};

use crate::settle::{Outcome, check, settle_counted};
use board::Board;
use refusal::{Part, Refusal, Row};

// Whether no count is above 1,000,000,000,000. (Certificates have a line of `all` like it: shared it would be no shorter.)
fn all_low(counts: &[u64]) -> bool
    ensures { result ≡ list_all (λ c. nat_le c 1000000000000) counts.now }
{
    counts.iter().all(|c| *c <= 1_000_000_000_000)
}

// Settles `heights` as `settle` does, and adds each site's firings to its count. (Apart from `settle`: it looks at the counts
// as well, between the check and the work that both share.)
pub fn settle_counting<B: Board>(
    board: &B,
    heights: &mut [u64],
    counts: &mut [u64],
    waiting: &mut [usize],
    marks: &mut [u8],
    budget: u64,
    part: Part,
) -> Result<Outcome, Refusal>
    ensures { SettledCounting (B.Board.shape board.now) heights.old heights.new counts.old counts.new (length waiting.old) (length marks.old) budget part result }
{
    if counts.len() != board.count() {
        return Err(part.refuse(Row::Memory));
    }
    check(board, heights, waiting.len(), marks.len(), budget, part)?;
    let low = all_low(counts);
    if !low {
        return Err(part.refuse(Row::Limit));
    }
    Ok(settle_counted(board, heights, counts, waiting, marks, budget))
}

// The rows by which `settle_counting` refuses, in the order of its checks.
pub fn settle_counting_rows() -> [Row; 2]
    ensures { (n : ℕ) (xs cs : List ℕ) (slots bytes budget : ℕ) → (result ≡ rows (count_checks n xs cs slots bytes budget)) × InOrder (count_checks n xs cs slots bytes budget) }
{
    [Row::Memory, Row::Limit]
}
