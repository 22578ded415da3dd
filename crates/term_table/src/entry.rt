//! Entries of the table, with what is known of each.

use crate::form::Form;
use crate::node::Node;
use lin_term::Fraction;

/// A node, its size as a form over the parameters, and its value as a constant term where it has one and is no larger than
/// a goal may be.
#[derive(Drop)]
pub struct Entry {
    pub node: Node,
    pub form: Form,
    pub known: Option<Fraction>,
}
