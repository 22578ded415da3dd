//! Integers: one variable taken out of a cube by cases, after Cooper 1972.
#![tactic(auto)]

mod case;
mod count;
mod elimination;
mod int;
mod period;
mod picking;
mod place;
mod putting;
mod residue;

pub use elimination::Elimination;
pub use int::Int;
