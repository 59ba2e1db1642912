// The rounds of burning: sites burn, wait, and are taken from the numbers of their neighbours, first in, first out.
ghost use Rattle.std.specs.Prelude.{◌≡◌, ℕ, ◌+◌, ◌<◌, ◌≤◌, List, [], length};
ghost use Rattle.waiting.specs.WaitingLists.{waits, room};
ghost use Rattle.settling.specs.Searches.{mark};
ghost use Rattle.settling.specs.Reaching.{Says};
ghost use Rattle.firing.specs.TakingBack.{links_into};
ghost use Rattle.firing.specs.Burning.{Rounds, AllBurn};
ghost use Rattle.refusal.specs.Table.{InOrder, rows};
ghost use Rattle.board.specs.Shape.{Shape};
ghost use Rattle.firing.specs.Firing.{at};
ghost use Rattle.group.specs.Flames.{undone, Burning, Cool, Steady, Visit, Lighting, Up, Held, Fresh, Cleared, Ended};
ghost use Rattle.group.specs.Answers.{Burned, burn_checks};

use super::Burnt;
use board::{Board, degree};
use refusal::{Part, Refusal, Row};
use settling::Entry;
use settling::fire::lowest_ready;
use settling::reach::reach;
use waiting::WaitingList;

// The mark of a site that is not burnt. (Marks are numbers, since the memory that the caller lends for them is bytes.)
const UNBURNT: u8 = 0;

// The mark of one that is burnt, and waits.
const WAITS: u8 = 1;

// The mark of one that is burnt, its links taken from its neighbours.
const DONE: u8 = 2;

// A search may wait in the same memory.
impl Entry for Burnt {
    ghost site = { λ e. e.site };

    fn of_site(v: usize) -> Burnt {
        Burnt { site: v, round: 0 }
    }

    fn site_of(self) -> usize {
        self.site
    }
}

// Before the first round: nothing burns, and the number of each site is its links to all sites.
fn prepare<B: Board>(board: &B, rounds: &mut [u32], bytes: &mut [u8])
    requires numbers { length rounds.old ≡ (B.Board.shape board.now).sites }
    requires bytes { (B.Board.shape board.now).sites ≤ length bytes.old }
    ensures { Fresh (B.Board.shape board.now) bytes.new rounds.new }
{
    bytes.fill(UNBURNT);
    for (v, number) in rounds.iter_mut().enumerate() {
        *number = degree(board, v) - board.drain(v);
    }
}

// What burns: the heights, the sites that wait, and a mark for each site, all over lent memory.
// (The rounds stay outside: once the struct is gone, the check knows only the length of what was lent to it.)
#[derive(Drop)]
struct Fire<'a> {
    heights: &'a [u64],
    list: WaitingList<'a, Burnt>,
    marks: &'a mut [u8],
    ghost room_fits: { length heights.now ≤ room list },
    ghost marks_fit: { length heights.now ≤ length marks.now },
}

// The numbers of `rounds` stay a parameter, and the board with them: of a list that a struct's field lends, the caller knows
// only the length once the struct is gone.
impl<'a> Fire<'a> {
    // Holds the height of `u` against its links to what still counts as unburnt; if it is as high, it burns in the
    // round after `last`.
    fn hold<B: Board>(&mut self, board: &B, rounds: &mut [u32], u: usize, last: u32)
        requires sized { length self.old.heights.now ≡ (B.Board.shape board.now).sites }
        requires numbers { length rounds.old ≡ (B.Board.shape board.now).sites }
        requires on { u < (B.Board.shape board.now).sites }
        requires burning { Burning (B.Board.shape board.now) (at self.old.heights.now) last (waits self.old.list) self.old.marks.now rounds.old }
        requires unburnt { mark self.old.marks.now u ≡ 0 }
        requires count { at rounds.old u ≡ links_into (B.Board.shape board.now) (undone self.old.marks.now) u }
        ensures held { Held (B.Board.shape board.now) (at self.old.heights.now) last u self.old.marks.now rounds.old (waits self.new.list) self.new.marks.now rounds.new }
        ensures same { self.new.heights.now ≡ self.old.heights.now }
    {
        if self.heights[u] >= u64::from(rounds[u]) {
            let round = last + 1;
            rounds[u] = round;
            self.marks[u] = WAITS;
            let _pushed = self.list.push(Burnt { site: u, round });
        }
    }

    // The first round.
    fn light<B: Board>(&mut self, board: &B, rounds: &mut [u32])
        requires sized { length self.old.heights.now ≡ (B.Board.shape board.now).sites }
        requires numbers { length rounds.old ≡ (B.Board.shape board.now).sites }
        requires fresh { Fresh (B.Board.shape board.now) self.old.marks.now rounds.old }
        requires empty { waits self.old.list ≡ [] }
        ensures steady { Steady (B.Board.shape board.now) (at self.old.heights.now) 0 (waits self.new.list) self.new.marks.now rounds.new }
        ensures same { self.new.heights.now ≡ self.old.heights.now }
    {
        // By site, since `hold` looks up the site's height, number and mark.
        for u in 0..self.heights.len() {
            self.hold(board, rounds, u, 0);
        }
    }

    // Takes the links of a burnt site from the numbers of its unburnt neighbours, and holds each against its height.
    fn visit<B: Board>(&mut self, board: &B, rounds: &mut [u32], burnt: Burnt)
        requires sized { length self.old.heights.now ≡ (B.Board.shape board.now).sites }
        requires numbers { length rounds.old ≡ (B.Board.shape board.now).sites }
        requires visit { Visit (B.Board.shape board.now) (at self.old.heights.now) burnt.round burnt.site 0 (waits self.old.list) self.old.marks.now rounds.old }
        ensures steady { Steady (B.Board.shape board.now) (at self.old.heights.now) burnt.round (waits self.new.list) self.new.marks.now rounds.new }
        ensures up { Up self.old.marks.now self.new.marks.now }
        ensures same { self.new.heights.now ≡ self.old.heights.now }
    {
        let v = burnt.site;
        let mut j = 0;
        // The form that is laid down for this walk: `next` is taken apart, and none ends it.
        loop {
            let Some(u) = board.next(v, j) else { break };
            if self.marks[u] == UNBURNT {
                rounds[u] -= board.links(v, u);
                self.hold(board, rounds, u, burnt.round);
            }
            j = u + 1;
        }
    }

    // Visits what burns, until nothing waits.
    fn spread<B: Board>(&mut self, board: &B, rounds: &mut [u32])
        requires sized { length self.old.heights.now ≡ (B.Board.shape board.now).sites }
        requires numbers { length rounds.old ≡ (B.Board.shape board.now).sites }
        requires steady { Steady (B.Board.shape board.now) (at self.old.heights.now) 0 (waits self.old.list) self.old.marks.now rounds.old }
        ensures ended { Ended (B.Board.shape board.now) (at self.old.heights.now) self.new.marks.now rounds.new }
        ensures same { self.new.heights.now ≡ self.old.heights.now }
    {
        while let Some(burnt) = self.list.pop() {
            self.marks[burnt.site] = DONE;
            self.visit(board, rounds, burnt);
        }
    }

    // Makes the numbers of unburnt sites 0; whether there is none.
    fn clear_unburnt(&self, rounds: &mut [u32]) -> bool
        requires { length rounds.old ≡ length self.now.heights.now }
        ensures cleared { Cleared (length rounds.old) self.now.marks.now rounds.old rounds.new }
        ensures all { Says result ((u : ℕ) → u < length rounds.old → 1 ≤ mark self.now.marks.now u) }
    {
        let mut all = true;
        // By index: of what is written through `zip` the check knows no value.
        for (v, number) in rounds.iter_mut().enumerate() {
            if self.marks[v] == UNBURNT {
                *number = 0;
                all = false;
            }
        }
        all
    }
}

// Writes each site's round, or 0, into `rounds`, and answers whether all burn.
fn burn_through<B: Board>(
    board: &B,
    heights: &[u64],
    rounds: &mut [u32],
    waiting: &mut [Burnt],
    bytes: &mut [u8],
) -> bool
    requires heights { length heights.now ≡ (B.Board.shape board.now).sites }
    requires numbers { length rounds.old ≡ (B.Board.shape board.now).sites }
    requires waiting { (B.Board.shape board.now).sites ≤ length waiting.old }
    requires bytes { (B.Board.shape board.now).sites ≤ length bytes.old }
    ensures rounds { Rounds (B.Board.shape board.now) (at heights.now) (at rounds.new) }
    ensures all { Says result (AllBurn (B.Board.shape board.now) (at heights.now)) }
{
    prepare(board, rounds, bytes);
    let mut fire = Fire {
        heights,
        list: WaitingList::new(waiting),
        marks: bytes,
    };
    fire.light(board, rounds);
    fire.spread(board, rounds);
    fire.clear_unburnt(rounds)
}

// Burning: writes each site's round, or 0, into `rounds`, and answers whether the heights are recurrent: whether all
// burn. Waiting list and bytes may read anything afterwards.
pub fn burn<B: Board>(
    board: &B,
    heights: &[u64],
    rounds: &mut [u32],
    waiting: &mut [Burnt],
    bytes: &mut [u8],
) -> Result<bool, Refusal>
    ensures { Burned (B.Board.shape board.now) heights.now rounds.old rounds.new (length waiting.old) (length bytes.old) result }
{
    let n = board.count();
    if heights.len() != n || rounds.len() != n || waiting.len() < n || bytes.len() < n {
        return Err(Part::Group.refuse(Row::Memory));
    }
    if let Some(v) = reach(board, waiting, bytes, Part::Group)? {
        return Err(Part::Group.refuse_at(Row::NoDrain, v));
    }
    if let Some(v) = lowest_ready(board, heights) {
        return Err(Part::Group.refuse_at(Row::NotStill, v));
    }
    Ok(burn_through(board, heights, rounds, waiting, bytes))
}

// The rows by which burning refuses, in their order.
pub fn burn_checks() -> [Row; 3]
    ensures { (b : Shape) (hs : List ℕ) (rounds waiting bytes : ℕ) → (result ≡ rows (burn_checks b hs rounds waiting bytes)) × InOrder (burn_checks b hs rounds waiting bytes) }
{
    [Row::Memory, Row::NoDrain, Row::NotStill]
}
