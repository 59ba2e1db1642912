// Certificates: a start, counts and an end, judged over any board and lent memory.
#![tactic(auto)]

ghost use Rattle.std.specs.Prelude.{◌≡◌, ℕ, ◌≤◌, List, length};
ghost use Rattle.refusal.specs.Table.{InOrder, rows};
ghost use Rattle.board.specs.Shape.{Shape};
ghost use Rattle.firing.specs.Firing.{at};
ghost use Rattle.certificate.specs.Verdicts.{Verdict, ByLeastCounts, OneVerdict, certificate_checks};

use board::Board;
use limits::Certificate;
use refusal::{Part, Refusal, Row};
use settling::fire::lowest_ready;
use settling::reach::reach;

mod back;
mod formula;
mod limits;

impl<'a, B: Board> Certificate<'a, B> {
    // The verdict. (Waiting list and bytes are slices of their own: slices keep their length by themselves.)
    fn judge(&self, waiting: &mut [usize], bytes: &mut [u8]) -> Result<(), Refusal>
        requires waiting { (B.Board.shape self.now.board.now).sites ≤ length waiting.old }
        requires bytes { (B.Board.shape self.now.board.now).sites ≤ length bytes.old }
        ensures { Verdict (B.Board.shape self.now.board.now) self.now.start.now self.now.counts.now self.now.end.now (length waiting.old) (length bytes.old) result }
    {
        if let Some(v) = reach(self.board, waiting, bytes, Part::Certificate)? {
            return Err(Part::Certificate.refuse_at(Row::NoDrain, v));
        }
        if let Some(v) = self.lowest_apart() {
            return Err(Part::Certificate.refuse_at(Row::NotFollowing, v));
        }
        if let Some(v) = lowest_ready(self.board, self.end) {
            return Err(Part::Certificate.refuse_at(Row::EndFires, v));
        }
        if let Some(v) = self.lowest_back(waiting, bytes) {
            return Err(Part::Certificate.refuse_at(Row::TakenBack, v));
        }
        Ok(())
    }
}

// Judges a certificate: accepts it exactly when the end follows from the start by the counts and is still, and no
// nonempty set can be taken back, so that the counts are the least that settle the start. Waiting list and bytes may
// read anything afterwards.
pub fn certify<B: Board>(
    board: &B,
    start: &[u64],
    counts: &[u64],
    end: &[u64],
    waiting: &mut [usize],
    bytes: &mut [u8],
) -> Result<(), Refusal>
    ensures verdict { Verdict (B.Board.shape board.now) start.now counts.now end.now (length waiting.old) (length bytes.old) result }
    ensures least { ByLeastCounts (B.Board.shape board.now) (at start.now) (at counts.now) (at end.now) result }
{
    let given = Certificate::new(board, start, counts, end, waiting.len(), bytes.len())?;
    given.judge(waiting, bytes)
}

// The rows by which `certify` refuses, in the order of its checks.
pub fn certificate_rows() -> [Row; 6]
    ensures { (b : Shape) (c w h : List ℕ) (slots bytes : ℕ) → (result ≡ rows (certificate_checks b c w h slots bytes)) × InOrder (certificate_checks b c w h slots bytes) }
{
    [
        Row::Memory,
        Row::Limit,
        Row::NoDrain,
        Row::NotFollowing,
        Row::EndFires,
        Row::TakenBack,
    ]
}

// A certificate has one verdict: it is accepted or refused, and refused by one row at one place.
pub fn verdict_is_decided()
    ensures { OneVerdict }
{}
