//! The names of a script, each with what it stands for, and the scopes that hide and restore them.
#![tactic(auto)]

mod names;

pub use names::{Known, Names};

#[cfg(test)]
mod tests;
