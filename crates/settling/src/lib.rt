// Settling: firing, reach and settling, over any board and lent memory.
#![tactic(auto)]

pub mod counting;
mod entry;
pub mod fire;
pub mod near;
pub mod reach;
pub mod settle;
pub mod waits;

pub use entry::Entry;
