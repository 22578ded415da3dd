//! Tables of words, and why a script is refused.
#![tactic(auto)]

mod fault;
mod names;
mod table;
mod tables;

// Why a script is refused.
pub use fault::{FaultKind, ScriptFault};

// Tables of words.
pub use table::Names;

// The tables of scripts and proofs.
pub use tables::{binders, commands, fault_kinds, logics, operators, proof_rules, reserved_words};

#[cfg(test)]
mod tests;
