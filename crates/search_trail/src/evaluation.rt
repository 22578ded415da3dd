//! Truths of a path's formula under the bounds in force.

use crate::search::Search;
use search_forms::{Kind, Truth, Walk, rise};
use search_rows::Stuck;
use search_simplex::at;

impl Search {
    /// The place of a path's node among the dead ones.
    pub fn dead_place(&self, path: u32, node: u32) -> Result<usize, Stuck> {
        let width = self.setup.shape.kinds.len();
        (path as usize)
            .checked_mul(width)
            .ok_or(Stuck::Place)?
            .checked_add(node as usize)
            .ok_or(Stuck::Place)
    }

    /// Whether a conjunction contradicts itself.
    pub fn is_dead(&self, path: u32, node: u32) -> Result<bool, Stuck> {
        if self.paths.dead.is_empty() {
            return Ok(false);
        }
        match self.paths.dead.get(self.dead_place(path, node)?) {
            Some(dead) => Ok(*dead),
            None => Ok(false),
        }
    }

    /// The truth of a leaf on a path.
    pub fn leaf_truth(&self, path: u32, leaf: u32) -> Result<Truth, Stuck> {
        self.forms
            .truth_of(self.forms.leaf_known(&self.setup, path, leaf)?)
    }

    /// Whether a node is true, or may be; none where that rests on its children.
    fn look(&self, path: u32, node: u32, sure: bool) -> Result<Option<bool>, Stuck> {
        match self.setup.shape.kind(node)? {
            Kind::Leaf(leaf) => {
                let truth = self.leaf_truth(path, leaf)?;
                Ok(Some(if sure {
                    truth == Truth::True
                } else {
                    truth != Truth::False
                }))
            }
            Kind::And => {
                if self.is_dead(path, node)? {
                    return Ok(Some(false));
                }
                Ok(if self.setup.shape.first(node)?.is_none() {
                    Some(true)
                } else {
                    None
                })
            }
            Kind::Or => Ok(if self.setup.shape.first(node)?.is_none() {
                Some(false)
            } else {
                None
            }),
        }
    }

    /// Whether a node of a path is true under the bounds in force, or else may be.
    fn is(&self, path: u32, top: u32, sure: bool) -> Result<bool, Stuck> {
        let mut node = top;
        for _ in 0..u32::MAX {
            match self.look(path, node, sure)? {
                None => node = node.checked_add(1).ok_or(Stuck::Place)?,
                Some(truth) => match rise(&self.setup.shape, top, node, truth)? {
                    Walk::At(next) => node = next,
                    Walk::Done(truth) => return Ok(truth),
                },
            }
        }
        Err(Stuck::Fuel)
    }

    /// Whether a node of a path may be true.
    pub fn may(&self, path: u32, node: u32) -> Result<bool, Stuck> {
        self.is(path, node, false)
    }

    /// The truth of a node of a path.
    pub fn node_truth(&self, path: u32, node: u32) -> Result<Truth, Stuck> {
        if !self.is(path, node, false)? {
            return Ok(Truth::False);
        }
        if self.is(path, node, true)? {
            return Ok(Truth::True);
        }
        Ok(Truth::Open)
    }

    /// Whether a node's children but one are all false.
    fn others_false(&self, path: u32, parent: u32, child: u32) -> Result<bool, Stuck> {
        let mut other = self.setup.shape.first(parent)?;
        for _ in 0..self.setup.shape.kinds.len() {
            let Some(found) = other else {
                return Ok(true);
            };
            if found != child && self.may(path, found)? {
                return Ok(false);
            }
            other = self.setup.shape.next(parent, found)?;
        }
        Ok(true)
    }

    /// Whether the path needs a node to be true.
    pub fn is_required(&self, path: u32, node: u32) -> Result<bool, Stuck> {
        let mut now = node;
        for _ in 0..self.setup.shape.kinds.len() {
            if now == 0 {
                return Ok(true);
            }
            let parent = self.setup.shape.parent(now)?;
            if self.setup.shape.kind(parent)? == Kind::Or
                && !self.others_false(path, parent, now)?
            {
                return Ok(false);
            }
            now = parent;
        }
        Ok(true)
    }

    /// Whether a path takes part.
    pub fn is_active(&self, path: u32) -> Result<bool, Stuck> {
        at(self.paths.active.as_slice(), path)
    }
}
