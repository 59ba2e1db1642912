// Layers: boards that stand on a board.
#![tactic(auto)]

// The three are apart: one generic layer would need a trait with every question of a board in it, and a law for each.
pub mod cut;
pub mod earth;
pub mod merge;
mod site;
