//! Tests of the crates between a goal and the checker, over their public calls.
#![tactic(auto)]

#[cfg(test)]
mod damaged;
#[cfg(test)]
mod eliminations;
#[cfg(test)]
mod linear_forms;
#[cfg(test)]
mod literals;
#[cfg(test)]
mod normal_forms;
#[cfg(test)]
mod problems;
#[cfg(test)]
mod proof_lines;
#[cfg(test)]
mod rat_eliminations;
#[cfg(test)]
mod sections;
#[cfg(test)]
mod strategy_files;
