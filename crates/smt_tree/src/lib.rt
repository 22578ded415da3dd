//! The expressions of a script, over its tokens.
#![tactic(auto)]

mod expr;
mod expressions;
mod reading;

pub use expr::Expr;
pub use expressions::{Expressions, expressions_of};
