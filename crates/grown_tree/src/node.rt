//! The shared tree: own variables alone, since the prefix says where those of the other player stand.

use crate::marks::Marks;
use crate::slots::Slots;

/// What stands from one own variable of a path on.
#[derive(Debug, Drop)]
pub enum Node {
    /// No move yet, or no own variable is left.
    End,
    /// The moves of all versions, and in the same order what stands below each.
    Mine(Marks, Slots<Node>),
}
