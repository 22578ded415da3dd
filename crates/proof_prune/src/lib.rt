//! Proofs of which all lines are needed.
#![tactic(auto)]

mod counting;
mod cutting;
mod item;
mod pruning;
mod renumbering;
mod writing;

pub use pruning::prune;
