// Votes, and the frames that they travel in.
#![tactic(auto)]

pub mod frame;
pub mod kind;
pub mod numbers;
pub mod vote;
