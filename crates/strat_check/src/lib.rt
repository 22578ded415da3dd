//! One section of a strategy file, checked against the problem of its goal.
#![tactic(auto)]

mod checked;
mod goal;
mod turns;
mod walk;

pub use checked::Checked;
pub use goal::check_goal;
