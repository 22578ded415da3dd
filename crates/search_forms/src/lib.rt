//! A losing system as the attack reads it, and its literals: forms over the columns, each with thresholds in ascending order.
//! Nothing is promised of it but that each call returns.
#![tactic(auto)]

mod code;
mod evaluating;
mod forms;
mod leaves;
mod literal;
mod setup;
mod shape;
mod threshold;
mod wide_row;

pub use code::{Code, Known, Truth, is_low, opposite, threshold_of};
pub use evaluating::{Walk, rise};
pub use forms::{Form, Forms, NO_MODULUS};
pub use literal::{holds_at, negation};
pub use setup::{Defined, Setup};
pub use shape::{Kind, Shape};
pub use threshold::Threshold;
pub use wide_row::{Sub, WideRow, linear, renamed};
