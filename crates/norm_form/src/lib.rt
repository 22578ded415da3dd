//! Normal forms of goals.
#![tactic(auto)]

mod bounds;
mod branches;
mod change;
mod claim;
mod connective;
mod count;
mod form;
mod formula;
mod goal;
mod literal;
mod normal;
mod number;
mod numbered;
mod scope;

pub use count::{LIMIT, Rate, formula_count};
pub use form::normal_form;
pub use goal::{goal_form, normal_of};
pub use normal::LevelForm;
pub use numbered::Normal;
