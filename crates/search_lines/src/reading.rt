//! What is false by the facts at hand.

use crate::writer::Writer;
use search_forms::{Kind, Walk, rise};
use search_rows::Stuck;
use search_trail::Search;

impl Writer {
    /// Whether a node may be true by the facts at hand; none where that rests on its children.
    fn look(&self, search: &Search, path: u32, node: u32) -> Result<Option<bool>, Stuck> {
        match search.setup.shape.kind(node)? {
            Kind::Leaf(leaf) => Ok(Some(!self.is_leaf_false(search, path, leaf)?)),
            Kind::And => {
                if search.is_dead(path, node)? {
                    return Ok(Some(false));
                }
                Ok(if search.setup.shape.first(node)?.is_none() {
                    Some(true)
                } else {
                    None
                })
            }
            Kind::Or => Ok(if search.setup.shape.first(node)?.is_none() {
                Some(false)
            } else {
                None
            }),
        }
    }

    /// Whether a node of a path is false by the facts at hand.
    pub fn is_false(&self, search: &Search, path: u32, top: u32) -> Result<bool, Stuck> {
        let mut node = top;
        for _ in 0..u32::MAX {
            match self.look(search, path, node)? {
                None => node = node.checked_add(1).ok_or(Stuck::Place)?,
                Some(truth) => match rise(&search.setup.shape, top, node, truth)? {
                    Walk::At(next) => node = next,
                    Walk::Done(truth) => return Ok(!truth),
                },
            }
        }
        Err(Stuck::Fuel)
    }

    /// The first child of a conjunction that is false by the facts at hand.
    pub fn false_child(
        &self,
        search: &Search,
        path: u32,
        parent: u32,
    ) -> Result<Option<u32>, Stuck> {
        let mut child = search.setup.shape.first(parent)?;
        for _ in 0..search.setup.shape.kinds.len() {
            let Some(found) = child else {
                return Ok(None);
            };
            if self.is_false(search, path, found)? {
                return Ok(Some(found));
            }
            child = search.setup.shape.next(parent, found)?;
        }
        Ok(None)
    }
}
