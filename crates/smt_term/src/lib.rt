//! Expressions of SMT-LIB as terms.
#![tactic(auto)]

mod apply;
mod binders;
mod bindings;
mod calls;
mod index;
mod making;
mod number;
mod opened;
mod operator;
mod part;
mod reader;
mod seen;
mod walk;
mod word;

pub use apply::{application, checked, divided, expansion};
pub use bindings::{Binding, new_name, sorted};
pub use index::index_head;
pub use number::{decimal, numeral};
pub use operator::{Gives, Linear, Operator, Shape, Takes, Within, operator_named};
pub use part::{Part, bad, part_of};
pub use reader::{Head, Reader, signature_of};
pub use seen::{Seen, is_same};
pub use word::{is_free, is_reserved, is_symbol, is_word, sort_of};
