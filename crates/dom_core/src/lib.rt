//! Problems: a prefix of quantifiers over a matrix of literals, read as a game of two players.
#![tactic(auto)]

mod bound;
mod bounds;
mod cube;
mod distinct;
mod domain;
mod key;
mod matrix;
mod nearest;
mod negation;
mod problem;
mod quant;
mod shifted;
mod substituting;

pub use bound::Bound;
pub use bounds::{is_lower, is_upper};
pub use cube::{Cube, add_made};
pub use distinct::{add_new, distinct_cube};
pub use domain::Domain;
pub use matrix::{Matrix, copy_all};
pub use nearest::{greatest_lower, least_upper};
pub use problem::Problem;
pub use quant::{Quant, Side};
pub use shifted::{above_lower, below_upper, rest_row};
pub use substituting::add_all_substituted;
