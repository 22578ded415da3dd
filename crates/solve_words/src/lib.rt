//! The words behind the program's name.
#![tactic(auto)]

mod number;
mod words;

pub use words::{Asking, Names, asked};
