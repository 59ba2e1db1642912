// Worked results: small boards whose figures are known, built and asked.
ghost use Rattle.std.specs.Prelude.{◌≡◌, ℕ, List, [], ◌∷◌, Ok};
ghost use Rattle.pile.specs.Worked.{figures_of, MiddleEarthed, EndsMerged};

use crate::{with_earth, with_merge};
use board::grid::Grid;
use board::{Board, degree};
use refusal::Refusal;

// Of the sites 0 and 1 of a board: the links between them, the drain links of each, the degree of each.
pub fn figures<B: Board>(board: &B) -> [u32; 5]
    ensures { result ≡ figures_of (B.Board.shape board.now) }
{
    [
        board.links(0, 1),
        board.drain(0),
        board.drain(1),
        degree(board, 0),
        degree(board, 1),
    ]
}

// Grid 1×3 with 1 earthed.
pub fn middle_earthed() -> Result<[u32; 5], Refusal>
    ensures { (result ≡ Ok (0 ∷ 4 ∷ 4 ∷ 4 ∷ 4 ∷ [])) × MiddleEarthed }
{
    let grid = Grid::new(1, 3)?;
    let earth = with_earth(grid, 1)?;
    Ok(figures(&earth))
}

// Grid 1×3 with 2 merged into 0.
pub fn ends_merged() -> Result<[u32; 5], Refusal>
    ensures { (result ≡ Ok (2 ∷ 6 ∷ 2 ∷ 8 ∷ 4 ∷ [])) × EndsMerged }
{
    let grid = Grid::new(1, 3)?;
    let merge = with_merge(grid, 2, 0)?;
    Ok(figures(&merge))
}
