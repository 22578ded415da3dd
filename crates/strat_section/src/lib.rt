//! Won games as sections of a strategy file.
#![tactic(auto)]

mod claim;

pub use claim::section_of;
