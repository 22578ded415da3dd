//! What is stored and printed of outcomes.
#![tactic(auto)]

mod entries;
mod file;
mod games;
mod made;
mod newest;
mod printed;
mod solved;
mod tally;
mod tree;
mod verdicts;

// The outcome of a goal.
pub use solved::Solved;

// What is stored.
pub use file::strategy;
pub use games::journal;

// What is printed.
pub use verdicts::{lines, put_lines};

// The problem that is made by itself.
pub use made::generated;
pub use printed::generated_lines;
