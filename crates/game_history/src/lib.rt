//! Histories of a game: what each entry does and needs, and what holds of every legal history.
#![tactic(auto)]

mod membership;

pub use membership::are_of_system;
