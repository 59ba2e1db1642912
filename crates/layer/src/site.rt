// What the layers share: a site of the board below left out.
ghost use Rattle.std.specs.Prelude.{◌≡◌, ◌≢◌, ℕ, ◌<◌};
ghost use Rattle.board.specs.Shape.{LeastFrom};
ghost use Rattle.layer.specs.Layers.{up, but};

use board::Board;

// The site below that the site `v` of a layer is, where `w` is left out.
pub(crate) fn lifted(w: usize, v: usize) -> usize
    requires { v < 4096 }
    ensures { result ≡ up w v }
{
    if v < w { v } else { v + 1 }
}

// The site of a layer that the site `u` below is, where `w` is left out.
pub(crate) fn lowered(w: usize, u: usize) -> usize
    requires { u ≢ w }
    ensures { up w result ≡ u }
{
    if u < w { u } else { u - 1 }
}

// The least site from `j` on, other than `w`, that `v` is linked to.
pub(crate) fn next_but<B: Board>(below: &B, w: usize, v: usize, j: usize) -> Option<usize>
    requires { w < 4096 }
    ensures { LeastFrom (but w ((B.Board.shape below.now).m v)) j result }
{
    let u = below.next(v, j)?;
    if u == w {
        below.next(v, w + 1)
    } else {
        Some(u)
    }
}
