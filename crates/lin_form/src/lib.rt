//! Linear forms over one positive denominator in lowest terms, and constant terms worked out in lowest terms.
#![tactic(auto)]

mod constant;
mod direct;
mod fault;
mod form;
mod kinds;
mod leaf;
mod scope;
mod step;

pub use constant::constant_form;
pub use direct::direct_form;
pub use fault::FormFault;
pub use form::{LinForm, lowest_value, minus, negative, plus, scaled, times};
pub use kinds::{all_constant, is_constant, is_direct};
pub use leaf::{level_of, variable};
pub use scope::Bound;
pub use step::{Operation, absolute, negated, operated, over, stepped};
