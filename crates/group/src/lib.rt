// The group: burning, sums and the identity, over any board and lent memory.
#![tactic(auto)]

pub mod burning;
pub mod sums;
