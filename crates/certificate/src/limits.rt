// Certificates that can be judged: memory and limits.
ghost use Rattle.std.specs.Prelude.{◌≡◌, ◌<◌, ◌≤◌, length, MatchBool, IfOk, IfErr};
ghost use Rattle.refusal.specs.declared.Part.TheVariants.{Certificate as the_certificate};
ghost use Rattle.refusal.specs.Table.{Refused};
ghost use Rattle.certificate.specs.Fits.{Within, Fit};
ghost use Rattle.certificate.specs.Verdicts.{Above, certificate_checks};

use board::Board;
use refusal::{Part, Refusal, Row};

// The highest height of a start or an end.
const HEIGHT: u64 = 1_000_000;

// The highest count of a site.
const COUNT: u64 = 1_000_000_000_000;

// A certificate that can be judged: as many entries as sites, and no number beyond its limit.
#[derive(Drop)]
pub(crate) struct Certificate<'a, B: Board> {
    pub(crate) board: &'a B,
    pub(crate) start: &'a [u64],
    pub(crate) counts: &'a [u64],
    pub(crate) end: &'a [u64],
    ghost fit: { Fit (B.Board.shape board.now).sites start.now counts.now end.now },
}

// Whether no entry is above `limit`.
fn within(list: &[u64], limit: u64) -> bool
    ensures { MatchBool result (Within limit list.now) (Above limit list.now) }
{
    list.iter().all(|x| *x <= limit)
}

impl<'a, B: Board> Certificate<'a, B> {
    // The certificate, or the refusal of what cannot be judged for want of memory or beyond a limit.
    pub(crate) fn new(
        board: &'a B,
        start: &'a [u64],
        counts: &'a [u64],
        end: &'a [u64],
        slots: usize,
        bytes: usize,
    ) -> Result<Certificate<'a, B>, Refusal>
        ensures given { IfOk result (λ t. (t.board.now ≡ board.now) × (t.start.now ≡ start.now) × (t.counts.now ≡ counts.now) × (t.end.now ≡ end.now)) }
        ensures room { IfOk result (λ t. ((B.Board.shape board.now).sites ≤ slots) × ((B.Board.shape board.now).sites ≤ bytes)) }
        ensures refused { IfErr result (λ e. Refused (certificate_checks (B.Board.shape board.now) start.now counts.now end.now slots bytes) the_certificate e) }
    {
        let n = board.count();
        if start.len() != n || counts.len() != n || end.len() != n || slots < n || bytes < n {
            return Err(Part::Certificate.refuse(Row::Memory));
        }
        if !(within(start, HEIGHT) && within(counts, COUNT) && within(end, HEIGHT)) {
            return Err(Part::Certificate.refuse(Row::Limit));
        }
        Ok(Certificate {
            board,
            start,
            counts,
            end,
        })
    }
}
