// Burning: each site's round, from still heights, first in, first out.
mod rounds;

pub use rounds::{burn, burn_checks};

// A burnt site that waits, with its round.
#[derive(Clone, Copy)]
pub struct Burnt {
    pub site: usize,
    pub round: u32,
}
