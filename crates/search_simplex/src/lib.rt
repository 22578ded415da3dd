//! A bounded simplex on rows of whole numbers. Nothing is promised of it but that each call returns: an access out of range,
//! a number past its width and spent fuel are errors.
#![tactic(auto)]

mod access;
mod adding;
mod bound;
mod checking;
mod merging;
mod moving;
mod number;
mod pivot;
mod tableau;

pub use access::{NONE, at, count_of, item, lent, put, size};
pub use bound::Bound;
pub use checking::Broken;
pub use merging::{head, merged};
pub use number::{difference, floor, gcd, lcm, negative, product, quotient, small, sum};
pub use tableau::{TableRow, Tableau};
