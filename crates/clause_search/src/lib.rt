//! Attacks on losing systems.
#![tactic(auto)]

mod attack;
mod attacker;
mod chosen;
mod eliminate;
mod expand;
mod found;
mod goal;
mod plain;
mod refuted;
mod split;
mod way;

pub use attack::{Attack, Attacker};
pub use attacker::PlainAttacker;
