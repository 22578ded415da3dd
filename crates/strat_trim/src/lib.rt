//! Won games with the paths alone that their proofs need.
#![tactic(auto)]

mod choice;
mod naming;
mod pruning;
mod renumbering;
mod trimming;

pub use trimming::trim;
