//! The outcomes of the goals of a script.

use dom_int::Int;
use dom_rat::Rat;
use team_work::Outcome;

/// The outcome of a goal, by the sort of its script.
#[derive(Drop)]
pub enum Solved {
    Rat(Outcome<Rat>),
    Int(Outcome<Int>),
}
