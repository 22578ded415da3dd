//! Goals of quantified linear arithmetic, and their truth.
#![tactic(auto)]

mod goal;
mod term;

pub use goal::Goal;
pub use term::{Term, VarSort};
