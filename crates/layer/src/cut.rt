// Cut: a layer that takes links away.
ghost use Rattle.std.specs.Prelude.{◌≤◌, All, length};

use arrayvec::ArrayVec;
use board::link::Link;

mod ask;
mod make;

// The board below, and up to 32 entries of links to take away.
#[derive(Drop)]
pub struct Cut<B> {
    below: B,
    entries: ArrayVec<Link, 32>,
    ghost room: { length entries.items ≤ 32 },
    ghost low: { All (λ l. l.count ≤ 500000) entries.items },
}
