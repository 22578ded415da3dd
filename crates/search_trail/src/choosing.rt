//! Which literal is decided on: one that a path needs where it fails the values at hand, in the live child that is nearest to
//! being met.

use crate::search::Search;
use search_forms::{Kind, Known, Truth};
use search_rows::Stuck;
use search_simplex::{NONE, at, put};

/// What a child costs that cannot be met.
const FAR: u32 = 1_000_000;

impl Search {
    /// How far a leaf is from being met.
    fn leaf_distance(&mut self, path: u32, leaf: u32) -> Result<u32, Stuck> {
        if self.leaf_truth(path, leaf)? == Truth::False {
            return Ok(FAR);
        }
        Ok(if self.leaf_holds(path, leaf)? { 0 } else { 1 })
    }

    /// How far a node is before its children are counted.
    fn first_distance(&mut self, path: u32, node: u32) -> Result<u32, Stuck> {
        match self.setup.shape.kind(node)? {
            Kind::Leaf(leaf) => self.leaf_distance(path, leaf),
            Kind::And => Ok(if self.is_dead(path, node)? { FAR } else { 0 }),
            Kind::Or => Ok(FAR),
        }
    }

    /// How many literals a node lacks at the values at hand: of a disjunction in the nearest child.
    fn distance(&mut self, path: u32, top: u32) -> Result<u32, Stuck> {
        let end = self.setup.shape.end(top)?;
        let mut list: Vec<u32> = Vec::new(self.alloc);
        for node in top..end {
            list.push(self.first_distance(path, node)?)?;
        }
        for node in (top.saturating_add(1)..end).rev() {
            let parent = self.setup.shape.parent(node)?;
            let is_and = self.setup.shape.kind(parent)? == Kind::And;
            join(
                &mut list,
                node.saturating_sub(top),
                parent.saturating_sub(top),
                is_and,
            )?;
        }
        at(list.as_slice(), 0)
    }

    /// The first child of a conjunction that the values fail.
    fn failing_child(&mut self, path: u32, parent: u32) -> Result<u32, Stuck> {
        let children = self.setup.shape.children(self.alloc, parent)?;
        for child in children.as_slice() {
            if !self.is_met(path, *child)? {
                return Ok(*child);
            }
        }
        Err(Stuck::Place)
    }

    /// The distance of a child of a disjunction; none where it is false.
    fn child_distance(&mut self, path: u32, child: u32) -> Result<Option<u32>, Stuck> {
        if !self.may(path, child)? {
            return Ok(None);
        }
        if self.options.first {
            return Ok(Some(0));
        }
        Ok(Some(self.distance(path, child)?))
    }

    /// The live child of a disjunction that is nearest to being met.
    fn nearest_child(&mut self, path: u32, parent: u32) -> Result<u32, Stuck> {
        let mut children = self.setup.shape.children(self.alloc, parent)?;
        if self.options.turned {
            children.as_mut_slice().reverse();
        }
        let mut best = NONE;
        let mut least = NONE;
        for child in children.as_slice() {
            if let Some(distance) = self.child_distance(path, *child)? {
                if distance < least {
                    least = distance;
                    best = *child;
                }
                if distance == 0 {
                    return Ok(best);
                }
            }
        }
        if best == NONE {
            Err(Stuck::Place)
        } else {
            Ok(best)
        }
    }

    /// A literal that the path needs and that the values fail.
    pub fn choose(&mut self, path: u32) -> Result<Known, Stuck> {
        let mut node: u32 = 0;
        for _ in 0..self.setup.shape.kinds.len() {
            match self.setup.shape.kind(node)? {
                Kind::Leaf(leaf) => return self.forms.leaf_known(&self.setup, path, leaf),
                Kind::And => node = self.failing_child(path, node)?,
                Kind::Or => node = self.nearest_child(path, node)?,
            }
        }
        Err(Stuck::Place)
    }

    /// The first path, from the one that failed last on, that the values at hand fail.
    pub fn failing_path(&mut self) -> Result<Option<u32>, Stuck> {
        let count = self.setup.path_count();
        let first = self.paths.last;
        for i in 0..count {
            let path = first
                .wrapping_add(i)
                .checked_rem(count)
                .ok_or(Stuck::Place)?;
            if !self.is_met(path, 0)? {
                self.note_failed(path);
                return Ok(Some(path));
            }
        }
        Ok(None)
    }

    fn note_failed(&mut self, path: u32) {
        self.paths.last = path;
    }
}

/// The distance of a parent with that of a child.
fn join(list: &mut Vec<u32>, child: u32, parent: u32, is_and: bool) -> Result<(), Stuck> {
    let far = at(list.as_slice(), child)?;
    let old = at(list.as_slice(), parent)?;
    let new = if is_and {
        old.saturating_add(far).min(FAR)
    } else {
        old.min(far)
    };
    put(list, parent, new)
}
