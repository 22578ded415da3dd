//! Games played to a verdict, alone: each side in turn.
#![tactic(auto)]

mod alone;
mod closing;
mod ending;
mod kept;
mod look;
mod outcome;
mod turn;

// What a game ends with.
pub use game_board::Why;
pub use outcome::{Outcome, Verdict};

// Playing it.
pub use alone::solve_alone;
