//! Which budgets of rounds no game of a problem spends.
#![tactic(auto)]

mod players;

pub use players::{has_one_player, last_variable};
