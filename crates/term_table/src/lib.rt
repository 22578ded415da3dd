//! Terms with shared parts: a table in which each part is kept once.
#![tactic(auto)]

mod adding;
mod amount;
mod build;
mod constant;
mod entry;
mod form;
mod known;
mod node;
mod passing;
mod ratio;
mod sizes;
mod step;
mod table;
mod visit;
mod working;
mod worth;
mod writer;
mod written;

pub use amount::{Amount, Weight};
pub use node::{Binary, Leaf, Node, Quantifier, Unary, Variadic};
pub use table::{Size, Table};
pub use worth::Worth;
