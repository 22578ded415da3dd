//! Whole proofs: their lines are checked one after the other.
#![tactic(auto)]

mod bad_line;
mod checker;
mod clause;
mod cubes;
mod fact;
mod learn;
mod least;
mod left;
mod lines;
mod literals;
mod made;
mod parts;
mod rules;
mod spliced;
mod state;
mod won;

pub use bad_line::BadLine;
pub use checker::check;
pub use clause::Clause;
pub use fact::Fact;
pub use spliced::proof_allows_bare;
pub use state::ProofState;
pub use won::Won;
