//! One skeleton against another, played with actual values.
#![tactic(auto)]

mod holding;
mod play;
mod worth;

pub use play::beats;
