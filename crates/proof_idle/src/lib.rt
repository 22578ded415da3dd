//! Lines of a proof that need not be there.
#![tactic(auto)]

mod first;
mod open_line;
mod walk;

pub use first::idle;
