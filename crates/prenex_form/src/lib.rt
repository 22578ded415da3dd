//! Problems of goals.
#![tactic(auto)]

mod place;
mod prefix;
mod prenexed;
mod problem;
mod rename;
mod tally;

pub use problem::problem_of;
