//! A conjunction decided: values that make it true, or lines that close the bare context of its literals. Every number is
//! checked, and no call has a condition.
#![tactic(auto)]

mod bounds;
mod closing;
mod cooper;
mod deciding;
mod ratio;
mod values;

pub use closing::Leaf;
pub use deciding::{Decided, decide};
pub use ratio::Ratio;
pub use values::Values;
