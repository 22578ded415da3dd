//! What a game ends with.

use dom_core::Domain;
use game_board::{Entry, Why};
use proof_rules::Won;
use sqlite_items::Items;

/// What is known of a problem.
#[derive(Drop)]
pub enum Verdict<D: Domain> {
    /// It is true: Exists has won.
    Sat(Won<D>),
    /// It is not true: Forall has won the dual.
    Unsat(Won<D>),
    /// Neither, and why not.
    Unknown(Why<D>),
}

/// A verdict, with the history of the game that led to it and its budget of rounds.
#[derive(Drop)]
pub struct Outcome<D: Domain> {
    pub verdict: Verdict<D>,
    pub journal: Items<Entry<D>>,
    pub rounds: u32,
}
