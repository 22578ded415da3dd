//! Guided selection: a solution of the losing system of a skeleton becomes a skeleton of the other player that beats it.
#![tactic(auto)]

mod counter;
mod fault;
mod implicant;
mod meet;
mod part;
mod rows;
mod selection;
mod turn;
mod walk;
mod way;

pub use counter::Counter;
pub use fault::{SelectFault, WideChoice};
pub use selection::select;
