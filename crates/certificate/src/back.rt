// The largest set that can be taken back: of the sites that have fired, one after another leaves that is as high as its
// links into the set.
ghost use Rattle.std.specs.Prelude.{◌≡◌, ℕ, ◌≤◌, length};
ghost use Rattle.waiting.specs.WaitingLists.{waits};
ghost use Rattle.firing.specs.Firing.{at};
ghost use Rattle.firing.specs.TakingBack.{links_into, Largest};
ghost use Rattle.settling.specs.Searches.{mark};
ghost use Rattle.certificate.specs.Sets.{marked, Narrowing, LowestMarked, LowestBack};

use crate::limits::Certificate;
use board::Board;
use board::neighbours::Neighbours;
use settling::waits::Queue;

// The mark of a site that is not in the set. Marks are numbers, since they stand in bytes that the caller lends; 1, of
// a site that waits to be looked at, is written by `wait`.
const OUT: u8 = 0;

// The mark of a site of the set that has been looked at.
const SEEN: u8 = 2;

// The links of `v` into the set.
fn links_into<B: Board>(board: &B, bytes: &[u8], v: usize) -> u32
    requires { (B.Board.shape board.now).sites ≤ length bytes.now }
    ensures { result ≡ links_into (B.Board.shape board.now) (marked bytes.now) v }
{
    let mut sum = 0;
    for u in Neighbours::of(board, v) {
        if bytes[u] != OUT {
            sum += board.links(v, u);
        }
    }
    sum
}

// The lowest of the sites with these marks that is in the set.
fn lowest_marked(marks: &[u8]) -> Option<usize>
    ensures { LowestMarked (length marks.now) marks.now result }
{
    marks.iter().position(|mark| *mark != OUT)
}

impl<'a, B: Board> Certificate<'a, B> {
    // Has each site that has fired be in the set and wait.
    fn enter(&self, queue: &mut Queue<usize>)
        requires size { length queue.old.marks.now ≡ (B.Board.shape self.now.board.now).sites }
        requires out { (u : ℕ) → mark queue.old.marks.now u ≡ 0 }
        ensures narrowing { Narrowing (B.Board.shape self.now.board.now) (at self.now.counts.now) (at self.now.end.now) (waits queue.new.list) queue.new.marks.now }
        ensures size { length queue.new.marks.now ≡ length queue.old.marks.now }
    {
        for (v, count) in self.counts.iter().enumerate() {
            if *count > 0 {
                queue.wait(v, OUT);
            }
        }
    }

    // Looks at what waits, until nothing does: a site that is not lower than its links into the set leaves it, and its
    // neighbours are looked at again.
    fn narrow(&self, queue: &mut Queue<usize>)
        requires size { length queue.old.marks.now ≡ (B.Board.shape self.now.board.now).sites }
        requires narrowing { Narrowing (B.Board.shape self.now.board.now) (at self.now.counts.now) (at self.now.end.now) (waits queue.old.list) queue.old.marks.now }
        ensures largest { Largest (B.Board.shape self.now.board.now) (at self.now.counts.now) (at self.now.end.now) (marked queue.new.marks.now) }
        ensures size { length queue.new.marks.now ≡ length queue.old.marks.now }
    {
        while let Some(v) = queue.take(SEEN) {
            if self.end[v] < u64::from(links_into(self.board, queue.marks(), v)) {
                continue;
            }
            queue.rest(v, OUT);
            queue.wait_round(self.board, v, SEEN);
        }
    }

    // The lowest site of the largest set that can be taken back, or none where only the empty set can.
    pub(crate) fn lowest_back(&self, waiting: &mut [usize], bytes: &mut [u8]) -> Option<usize>
        requires waiting { (B.Board.shape self.now.board.now).sites ≤ length waiting.old }
        requires bytes { (B.Board.shape self.now.board.now).sites ≤ length bytes.old }
        ensures { LowestBack (B.Board.shape self.now.board.now) (at self.now.counts.now) (at self.now.end.now) result }
    {
        let mut queue = Queue::new(self.counts.len(), waiting, bytes);
        self.enter(&mut queue);
        self.narrow(&mut queue);
        lowest_marked(queue.marks())
    }
}
