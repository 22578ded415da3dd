//! Rationals: one variable taken out of a cube, after Fourier and Motzkin.
#![tactic(auto)]

mod fourier_motzkin;
mod picking;
mod putting;
mod rat;

pub use rat::Rat;
