//! Reasons, worked out when they are asked for: read from the chains of bounds, always with the oldest place that is enough. Of a
//! false conjunction the child with the oldest explanation is taken.

use crate::conflict::How;
use crate::search::Search;
use search_forms::{Kind, Known};
use search_rows::Stuck;
use search_simplex::{NONE, at};

impl Search {
    /// What a leaf's falsity costs: one more than its trail place, 0 where it is false by itself, none where it is not false.
    fn leaf_cost(&self, path: u32, leaf: u32) -> Result<u32, Stuck> {
        match self.forms.leaf_known(&self.setup, path, leaf)? {
            Known::False => Ok(0),
            Known::True | Known::Unset => Ok(NONE),
            Known::Lit(code) => Ok(self.oldest_false(code)?.saturating_add(1)),
        }
    }

    /// What a node's falsity costs before its children are counted.
    fn first_cost(&self, path: u32, node: u32) -> Result<u32, Stuck> {
        match self.setup.shape.kind(node)? {
            Kind::Leaf(leaf) => self.leaf_cost(path, leaf),
            Kind::And => Ok(if self.is_dead(path, node)? { 0 } else { NONE }),
            Kind::Or => Ok(0),
        }
    }

    /// What the falsity of each node below and at the top costs: the greatest place that is needed, of a conjunction the least
    /// among its children.
    fn costs(&self, path: u32, top: u32) -> Result<Vec<u32>, Stuck> {
        let mut costs: Vec<u32> = Vec::new(self.alloc);
        let end = self.setup.shape.end(top)?;
        for node in top..end {
            costs.push(self.first_cost(path, node)?)?;
        }
        for node in (top.saturating_add(1)..end).rev() {
            let parent = self.setup.shape.parent(node)?;
            let is_and = self.setup.shape.kind(parent)? == Kind::And;
            join(
                &mut costs,
                node.saturating_sub(top),
                parent.saturating_sub(top),
                is_and,
            )?;
        }
        Ok(costs)
    }

    /// The child of a conjunction whose falsity costs least.
    fn cheapest(&self, costs: &[u32], top: u32, parent: u32) -> Result<u32, Stuck> {
        let mut best = NONE;
        let mut least = NONE;
        let mut child = self.setup.shape.first(parent)?;
        for _ in 0..self.setup.shape.kinds.len() {
            let Some(found) = child else {
                break;
            };
            let cost = at(costs, found.saturating_sub(top))?;
            if cost < least {
                least = cost;
                best = found;
            }
            child = self.setup.shape.next(parent, found)?;
        }
        if best == NONE {
            Err(Stuck::Place)
        } else {
            Ok(best)
        }
    }

    /// One step of explaining: what is to be explained next is added to the work.
    fn why_step(
        &self,
        path: u32,
        node: u32,
        costs: &[u32],
        top: u32,
        work: &mut Vec<u32>,
        out: &mut Vec<u32>,
    ) -> Result<(), Stuck> {
        match self.setup.shape.kind(node)? {
            Kind::Leaf(leaf) => {
                if let Known::Lit(code) = self.forms.leaf_known(&self.setup, path, leaf)? {
                    out.push(self.oldest_false(code)?)?;
                }
            }
            Kind::And => {
                if !self.is_dead(path, node)? {
                    work.push(self.cheapest(costs, top, node)?)?;
                }
            }
            Kind::Or => {
                let children = self.setup.shape.children(self.alloc, node)?;
                work.extend_from_slice(children.as_slice())?;
            }
        }
        Ok(())
    }

    /// The places by which a node of a path is false.
    pub fn why(&self, path: u32, top: u32, out: &mut Vec<u32>) -> Result<(), Stuck> {
        let costs = self.costs(path, top)?;
        let mut work: Vec<u32> = Vec::new(self.alloc);
        work.push(top)?;
        for _ in 0..u32::MAX {
            let Some(node) = work.pop() else {
                return Ok(());
            };
            self.why_step(path, node, costs.as_slice(), top, &mut work, out)?;
        }
        Err(Stuck::Fuel)
    }

    /// The places by which the siblings of a node in a disjunction are false.
    fn why_siblings(
        &self,
        path: u32,
        parent: u32,
        child: u32,
        out: &mut Vec<u32>,
    ) -> Result<(), Stuck> {
        let mut other = self.setup.shape.first(parent)?;
        for _ in 0..self.setup.shape.kinds.len() {
            let Some(found) = other else {
                return Ok(());
            };
            if found != child {
                self.why(path, found, out)?;
            }
            other = self.setup.shape.next(parent, found)?;
        }
        Ok(())
    }

    /// The places by which a leaf of a path is forced.
    fn why_forced(&self, path: u32, leaf: u32, out: &mut Vec<u32>) -> Result<(), Stuck> {
        let mut node = at(self.setup.shape.leaf_nodes.as_slice(), leaf)?;
        for _ in 0..self.setup.shape.kinds.len() {
            if node == 0 {
                return Ok(());
            }
            let parent = self.setup.shape.parent(node)?;
            if self.setup.shape.kind(parent)? == Kind::Or {
                self.why_siblings(path, parent, node, out)?;
            }
            node = parent;
        }
        Ok(())
    }

    /// The terms of a sum in the pool.
    pub fn pooled(&self, start: u32, count: u32) -> Result<&[(u32, i128)], Stuck> {
        let end = (start as usize)
            .checked_add(count as usize)
            .ok_or(Stuck::Place)?;
        self.trail
            .pool
            .as_slice()
            .get(start as usize..end)
            .ok_or(Stuck::Place)
    }

    /// The places that a place of the trail rests on.
    pub fn reasons(&self, place: u32, out: &mut Vec<u32>) -> Result<(), Stuck> {
        match self.entry(place)?.how {
            How::Decision | How::Def(_, _) => Ok(()),
            How::Lemma(record) => {
                let Some(found) = self.records.get(record as usize) else {
                    return Err(Stuck::Place);
                };
                out.extend_from_slice(found.uses.as_slice())?;
                Ok(())
            }
            How::Tree(path, leaf) => self.why_forced(path, leaf, out),
            How::Sum(start, count) => {
                for term in self.pooled(start, count)? {
                    out.push(term.0)?;
                }
                Ok(())
            }
        }
    }
}

/// The cost of a parent with that of a child.
fn join(costs: &mut Vec<u32>, child: u32, parent: u32, is_and: bool) -> Result<(), Stuck> {
    let cost = at(costs.as_slice(), child)?;
    let slot = costs.get_mut(parent as usize).ok_or(Stuck::Place)?;
    if is_and {
        *slot = (*slot).min(cost);
    } else {
        *slot = (*slot).max(cost);
    }
    Ok(())
}
