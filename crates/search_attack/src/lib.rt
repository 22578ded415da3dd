//! The fast attack on a losing system. What it offers is a point that may solve the system, or lines that may refute it: who
//! uses it has them tested. No call has a condition, and nothing is recursive.
#![tactic(auto)]

mod candidate;
mod fast;
mod offered;
mod polishing;
mod probing;
mod rational;
mod room;
mod running;
mod values;

pub use candidate::Candidate;
pub use fast::fast_way;
pub use values::Values;
