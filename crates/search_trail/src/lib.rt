//! The search of an attack: a trail of literals with lazy reasons, propagation through the formulas of the paths and through
//! the tableau, and conflicts kept as records. Nothing is promised of it but that each call returns.
#![tactic(auto)]

mod activating;
mod analysis;
mod choosing;
mod conflict;
mod evaluation;
mod explaining;
mod model;
mod propagation;
mod pushing;
mod search;
mod theory;

pub use conflict::{Conflict, End, Halt, How, Reason, Record};
pub use model::{completed, move_value};
pub use search::{Columns, Entry, Model, Options, Paths, Search, Trail};
