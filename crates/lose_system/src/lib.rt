//! Losing systems: that every path of a player's skeleton loses.
#![tactic(auto)]

mod literal;
mod lost;
mod route;
mod solved;
mod system;
mod table;

pub use literal::negated;
pub use system::System;
