//! Truth of a formula with no stack: nodes are in preorder, so from the truth of one node it is known where to look next.

use crate::shape::{Kind, Shape};
use search_rows::Stuck;

/// Where the evaluation goes on.
#[derive(Clone, Copy, Debug, PartialEq, Eq)]
pub enum Walk {
    /// At this node.
    At(u32),
    /// Nowhere: the truth of the whole.
    Done(bool),
}

/// From the truth of a node below the top: up as far as that settles the parents, and to the sibling behind.
pub fn rise(shape: &Shape, top: u32, node: u32, truth: bool) -> Result<Walk, Stuck> {
    let mut at = node;
    for _ in 0..shape.kinds.len() {
        if at == top {
            return Ok(Walk::Done(truth));
        }
        let parent = shape.parent(at)?;
        let settles = (shape.kind(parent)? == Kind::Or) == truth;
        if !settles {
            if let Some(sibling) = shape.next(parent, at)? {
                return Ok(Walk::At(sibling));
            }
        }
        at = parent;
    }
    Ok(Walk::Done(truth))
}
