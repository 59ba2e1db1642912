// Waiting by marks: a site whose mark reads `idle` is had wait, and its mark reads 1 then, so that none waits twice.
ghost use Rattle.std.specs.Prelude.{◌≡◌, ◌≢◌, ℕ, ◌+◌, ◌<◌, ◌≤◌, [], length, min, slice_set};
ghost use Rattle.waiting.specs.WaitingLists.{waits, room};
ghost use Rattle.settling.specs.Searches.{mark, Queued};
ghost use Rattle.settling.specs.Waits.{Turned, Joined, Rests, Taken, Rested};

use super::Entry;
use board::Board;
use board::neighbours::Neighbours;
use waiting::WaitingList;

// The mark of a site that waits. (Marks are numbers, since the memory that the caller lends for them is bytes.)
pub const WAITS: u8 = 1;

// The mark of a site that has not waited yet, and of one that is taken and may wait again.
const FREE: u8 = 0;

// The mark of a site that is taken and has been looked at.
const SEEN: u8 = 2;

// Sites that wait, each once, with a mark for each site, over memory that the caller lends.
#[derive(Drop)]
pub struct Queue<'a, E: Entry> {
    list: WaitingList<'a, E>,
    marks: &'a mut [u8],
    ghost room_fits: { length marks.now ≤ room list },
    ghost queued: { Queued E.Entry.site (length marks.now) (waits list) marks.now },
}

// Has `v`, which does not wait, wait as the last. (List and marks apart, here and below: what a queue promises holds at each
// write of its fields, so both change in one call.)
fn put_last<E: Entry>(list: &mut WaitingList<E>, marks: &mut [u8], v: usize)
    requires on { v < length marks.old }
    requires rests { mark marks.old v ≢ 1 }
    requires room { length marks.old ≤ room list.old }
    requires queued { Queued E.Entry.site (length marks.old) (waits list.old) marks.old }
    ensures marked { marks.new ≡ slice_set marks.old v 1 }
    ensures joined { Joined E.Entry.site v (v + 1) (waits list.old) (waits list.new) }
    ensures queued { Queued E.Entry.site (length marks.old) (waits list.new) marks.new }
    ensures room { room list.new ≡ room list.old }
{
    marks[v] = WAITS;
    let _pushed = list.push(E::of_site(v));
}

// Takes the first that waits, and writes the mark of its site.
fn take_first<E: Entry>(list: &mut WaitingList<E>, marks: &mut [u8], mark: u8) -> Option<E>
    requires queued { Queued E.Entry.site (length marks.old) (waits list.old) marks.old }
    requires written { Rests mark }
    ensures taken { Taken E.Entry.site mark (waits list.old) marks.old (waits list.new) marks.new result }
    ensures queued { Queued E.Entry.site (length marks.old) (waits list.new) marks.new }
    ensures room { room list.new ≡ room list.old }
{
    let e = list.pop()?;
    marks[e.site_of()] = mark;
    Some(e)
}

impl<'a, E: Entry> Queue<'a, E> {
    // A queue of the first `n` sites, or of as many as there is memory for: none waits, and each mark is 0.
    pub fn new(n: usize, slots: &'a mut [E], marks: &'a mut [u8]) -> Queue<'a, E>
        ensures empty { waits result.list ≡ [] }
        ensures free { (u : ℕ) → mark result.marks.now u ≡ 0 }
        ensures size { length result.marks.now ≡ min (min n (length slots.old)) (length marks.old) }
    {
        let n = n.min(slots.len()).min(marks.len());
        let marks = &mut marks[..n];
        marks.fill(FREE);
        Queue {
            list: WaitingList::new(slots),
            marks,
        }
    }

    // The mark of each site.
    pub fn marks(&self) -> &[u8]
        ensures { result.now ≡ self.now.marks.now }
    {
        &*self.marks
    }

    // Has `v` wait as the last, if its mark reads `idle`.
    pub fn wait(&mut self, v: usize, idle: u8)
        ensures turned { Turned (λ u. u ≡ v) idle self.old.marks.now self.new.marks.now }
        ensures joined { Joined E.Entry.site v (v + 1) (waits self.old.list) (waits self.new.list) }
        ensures size { length self.new.marks.now ≡ length self.old.marks.now }
    {
        if v < self.marks.len() && self.marks[v] == idle && idle != WAITS {
            put_last(&mut self.list, self.marks, v);
        }
    }

    // Has each site that `v` is linked to wait, if its mark reads `idle`, the lowest first.
    pub fn wait_round<B: Board>(&mut self, board: &B, v: usize, idle: u8)
        ensures turned { Turned (λ u. 0 < (B.Board.shape board.now).m v u) idle self.old.marks.now self.new.marks.now }
        ensures joined { Joined E.Entry.site 0 (B.Board.shape board.now).sites (waits self.old.list) (waits self.new.list) }
        ensures size { length self.new.marks.now ≡ length self.old.marks.now }
    {
        for u in Neighbours::of(board, v) {
            self.wait(u, idle);
        }
    }

    // Takes the first that waits, and gives its site a mark by which it does not wait: 0 or 2, with any other none is taken.
    pub fn take(&mut self, mark: u8) -> Option<E>
        ensures { Taken E.Entry.site mark (waits self.old.list) self.old.marks.now (waits self.new.list) self.new.marks.now result }
    {
        if mark != FREE && mark != SEEN {
            return None;
        }
        take_first(&mut self.list, self.marks, mark)
    }

    // Gives `v`, if it does not wait, another mark by which it does not: 0 or 2, any other is not written.
    pub fn rest(&mut self, v: usize, mark: u8)
        ensures rested { Rested v mark self.old.marks.now self.new.marks.now }
        ensures same { waits self.new.list ≡ waits self.old.list }
    {
        if v < self.marks.len() && self.marks[v] != WAITS && (mark == FREE || mark == SEEN) {
            self.marks[v] = mark;
        }
    }
}
