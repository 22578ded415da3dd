//! Tests of the crates that read a script, over their public calls.
#![tactic(auto)]

#[cfg(test)]
mod escaped;
#[cfg(test)]
mod expressions;
#[cfg(test)]
mod operators;
#[cfg(test)]
mod scripts;
#[cfg(test)]
mod shared_terms;
#[cfg(test)]
mod terms;
#[cfg(test)]
mod tokens;
