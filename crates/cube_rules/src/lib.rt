//! The lines of a proof, the names of their rules, and the rules as far as they speak of literals alone.
#![tactic(auto)]

mod bare;
mod kind;
mod learn;
mod least;
mod literal;
mod rule;
mod split;
mod step;
mod sum;

pub use bare::{bare_allows_more_variables, bare_has_no_point, bare_stands_behind_cube};
pub use kind::Kind;
pub use learn::negations;
pub use least::least_of;
pub use literal::{is_false_literal, is_inequality_literal, is_primitive_literal, literal_within};
pub use rule::Rule;
pub use split::split_in_two;
pub use step::{DIVISOR_CAP, Step, rule_of_step, within};
pub use sum::summed;
