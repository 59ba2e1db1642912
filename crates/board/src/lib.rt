// Boards: what a board is, and what follows of every board.
#![tactic(auto)]

ghost use Rattle.std.specs.Prelude.{◌≡◌, ℕ, true};
ghost use Rattle.board.specs.Shape.{Shape, Sound, NextIs, deg, Follows, Degrees};

pub mod grid;
pub mod link;
pub mod list;
pub mod neighbours;

pub use link::End;

// A board: sites, links between them and links to the drain. A question changes nothing, and off the board the
// answers are 0, 0 and none.
pub trait Board {
    ghost shape: { Self → Shape };

    // The number of sites.
    fn count(&self) -> usize
        ensures { result ≡ (shape self.now).sites };

    // The number of links between `u` and `v`.
    fn links(&self, u: usize, v: usize) -> u32
        ensures { result ≡ (shape self.now).m u v };

    // The number of links between `v` and the drain.
    fn drain(&self, v: usize) -> u32
        ensures { result ≡ (shape self.now).s v };

    // The least site from `j` on that `v` is linked to, or none.
    fn next(&self, v: usize, j: usize) -> Option<usize>
        ensures { NextIs (shape self.now) v j result };

    // The degree of `v`: its links to the drain and to all sites. A board that knows it may answer at once.
    fn degree(&self, v: usize) -> u32
        ensures { result ≡ deg (shape self.now) v }
    {
        let mut sum = self.drain(v);
        // `Neighbours::of(self, v)` asks `Self: Sized`, and with that its call "passes on a bound that gives less than is asked".
        let mut j = 0;
        loop {
            let Some(u) = self.next(v, j) else { break };
            sum += self.links(v, u);
            j = u + 1;
        }
        sum
    }

    ghost sound: { (b : Self) → Sound (shape b) };
}

// The degree of `v`. (The function stays beside the method: it is public, and callers name it.)
pub fn degree<B: Board>(board: &B, v: usize) -> u32
    ensures { result ≡ deg (B.Board.shape board.now) v }
{
    board.degree(v)
}

// What follows from the laws, of every board and of its degrees. (It answers true, so that there is a body to break.)
pub fn laws_hold() -> bool
    ensures { (result ≡ true) × ((b : Shape) → Sound b → Follows b × Degrees b) }
{
    true
}
