//! Cubes decided by elimination: a point, a proof that there is none, or a number past the cap.
#![tactic(auto)]

mod bound;
mod case_value;
mod cases;
mod climb;
mod decided;
mod descent;
mod found;
mod height;
mod lines;
mod next;
mod parts;
mod store;
mod sums;
mod value;
mod whole;
pub mod wide_cube;

pub use decided::Decided;
pub use whole::eliminate_all;
pub use wide_cube::WideCube;
