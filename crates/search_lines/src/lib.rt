//! The lines of a refutation, from the records of a search. Nothing is promised of them but that each call returns: who uses
//! them has them checked.
#![tactic(auto)]

mod adding;
mod closing;
mod cubes;
mod ending;
mod facts;
mod linewriter;
mod reading;
mod records;
mod rows;
mod wrapping;
mod writer;

pub use cubes::{CubeProof, Input};
pub use ending::inputs_of;
pub use records::refuting_lines;
pub use rows::lit_of;
