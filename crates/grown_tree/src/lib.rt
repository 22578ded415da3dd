//! All versions of a growing skeleton in one tree.
#![tactic(auto)]

mod cut;
mod fault;
mod grow;
mod grown;
mod having;
mod marks;
mod node;
mod reading;
mod same;
mod slots;
mod view;

pub use fault::GrowFault;
pub use grown::Grown;
pub use view::View;
