//! The fast attack over the integers: from values that meet the literals in force, but are not whole, to whole ones or to a
//! conflict. No call has a condition, and nothing is recursive.
#![tactic(auto)]

mod attack;
mod branching;
mod brute;
mod common;
mod cutting;
mod eliminating;
mod fraction;
mod near;
mod residues;
mod whole;

pub use attack::{Attack, Budget, Offer};
pub use fraction::{Fraction, lowest, plus, times};
