// Firing: the subject in definitions over the meaning of any board (specs/), its laws and worked results.
#![tactic(auto)]

pub mod laws;
pub mod worked;
