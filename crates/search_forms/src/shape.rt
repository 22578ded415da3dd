//! The negated matrix once, for all paths: nodes in preorder, leaves with literals over positions.

use crate::literal::negation;
use dom_core::Matrix;
use lin_term::Sort;
use search_rows::{Atom, Stuck};
use search_simplex::{NONE, at, put, size};
use std::alloc::Global;

/// What a node is.
#[derive(Clone, Copy, Debug, PartialEq, Eq)]
pub enum Kind {
    /// A literal, by its number.
    Leaf(u32),
    And,
    Or,
}

/// A formula; node 0 is the whole.
#[derive(Debug, Drop)]
pub struct Shape {
    pub kinds: Vec<Kind>,
    /// The parent of each node.
    pub parents: Vec<u32>,
    /// The place of each node among its siblings.
    pub places: Vec<u32>,
    /// The first node behind each subtree.
    pub ends: Vec<u32>,
    /// The literals.
    pub leaves: Vec<Atom>,
    /// The node of each literal.
    pub leaf_nodes: Vec<u32>,
    /// The highest position of each literal, none where it has no variables.
    pub tops: Vec<u32>,
}

/// Parts of a matrix that wait: each with its parent and its place.
#[derive(Drop)]
struct Waiting<'m> {
    parts: Vec<&'m Matrix>,
    places: Vec<(u32, u32)>,
}

impl Shape {
    fn empty(alloc: Global) -> Shape {
        Shape {
            kinds: Vec::new(alloc),
            parents: Vec::new(alloc),
            places: Vec::new(alloc),
            ends: Vec::new(alloc),
            leaves: Vec::new(alloc),
            leaf_nodes: Vec::new(alloc),
            tops: Vec::new(alloc),
        }
    }

    fn add_leaf(&mut self, node: u32, atom: Atom) -> Result<Kind, Stuck> {
        let leaf = size(self.leaves.len())?;
        let top = match atom.highest() {
            Some(found) => found,
            None => NONE,
        };
        self.leaves.push(atom)?;
        self.leaf_nodes.push(node)?;
        self.tops.push(top)?;
        Ok(Kind::Leaf(leaf))
    }

    fn add_node(&mut self, parent: u32, place: u32, kind: Kind) -> Result<(), Stuck> {
        let node = size(self.kinds.len())?;
        self.kinds.push(kind)?;
        self.parents.push(parent)?;
        self.places.push(place)?;
        self.ends.push(node.checked_add(1).ok_or(Stuck::Place)?)?;
        Ok(())
    }

    /// The ends of all subtrees.
    fn close(&mut self) -> Result<(), Stuck> {
        let count = size(self.kinds.len())?;
        for node in (1..count).rev() {
            let end = at(self.ends.as_slice(), node)?;
            let parent = at(self.parents.as_slice(), node)?;
            if at(self.ends.as_slice(), parent)? < end {
                put(&mut self.ends, parent, end)?;
            }
        }
        Ok(())
    }

    /// The negation of a matrix.
    pub fn negated(alloc: Global, sort: Sort, matrix: &Matrix) -> Result<Shape, Stuck> {
        let mut shape = Shape::empty(alloc);
        let mut waiting = Waiting {
            parts: Vec::new(alloc),
            places: Vec::new(alloc),
        };
        waiting.parts.push(matrix)?;
        waiting.places.push((NONE, 0))?;
        for _ in 0..u64::MAX {
            let Some(next) = waiting.parts.pop() else {
                shape.close()?;
                return Ok(shape);
            };
            let Some((parent, place)) = waiting.places.pop() else {
                return Err(Stuck::Place);
            };
            let node = size(shape.kinds.len())?;
            let kind = shape.kind_of(alloc, sort, next, node, &mut waiting)?;
            shape.add_node(parent, place, kind)?;
        }
        Err(Stuck::Place)
    }

    /// The kind of a part's negation; its parts wait.
    fn kind_of<'m>(
        &mut self,
        alloc: Global,
        sort: Sort,
        matrix: &'m Matrix,
        node: u32,
        waiting: &mut Waiting<'m>,
    ) -> Result<Kind, Stuck> {
        match matrix {
            Matrix::Lit(lit) => {
                let atom = Atom::of(alloc, lit)?;
                self.add_leaf(node, negation(alloc, sort, &atom)?)
            }
            Matrix::And(parts) => {
                wait(waiting, parts.as_slice(), node)?;
                Ok(Kind::Or)
            }
            Matrix::Or(parts) => {
                wait(waiting, parts.as_slice(), node)?;
                Ok(Kind::And)
            }
        }
    }

    /// What a node is.
    pub fn kind(&self, node: u32) -> Result<Kind, Stuck> {
        at(self.kinds.as_slice(), node)
    }

    /// The first node behind a subtree.
    pub fn end(&self, node: u32) -> Result<u32, Stuck> {
        at(self.ends.as_slice(), node)
    }

    /// The parent of a node.
    pub fn parent(&self, node: u32) -> Result<u32, Stuck> {
        at(self.parents.as_slice(), node)
    }

    /// The first child of a node, none where it has no children.
    pub fn first(&self, node: u32) -> Result<Option<u32>, Stuck> {
        let child = node.checked_add(1).ok_or(Stuck::Place)?;
        Ok(if child < self.end(node)? {
            Some(child)
        } else {
            None
        })
    }

    /// The sibling behind a child.
    pub fn next(&self, parent: u32, child: u32) -> Result<Option<u32>, Stuck> {
        let sibling = self.end(child)?;
        Ok(if sibling < self.end(parent)? {
            Some(sibling)
        } else {
            None
        })
    }

    /// The children of a node.
    pub fn children(&self, alloc: Global, node: u32) -> Result<Vec<u32>, Stuck> {
        let mut out: Vec<u32> = Vec::new(alloc);
        let mut child = self.first(node)?;
        for _ in 0..self.kinds.len() {
            let Some(found) = child else {
                return Ok(out);
            };
            out.push(found)?;
            child = self.next(node, found)?;
        }
        Ok(out)
    }

    /// The child of a node at a place.
    pub fn child(&self, node: u32, place: u32) -> Result<u32, Stuck> {
        let mut child = self.first(node)?;
        for _ in 0..place {
            let found = child.ok_or(Stuck::Place)?;
            child = self.next(node, found)?;
        }
        child.ok_or(Stuck::Place)
    }
}

/// The parts wait, the first on top.
fn wait<'m>(waiting: &mut Waiting<'m>, parts: &'m [Matrix], node: u32) -> Result<(), Stuck> {
    let count = size(parts.len())?;
    for place in (0..count).rev() {
        let part = parts.get(place as usize).ok_or(Stuck::Place)?;
        waiting.parts.push(part)?;
        waiting.places.push((node, place))?;
    }
    Ok(())
}
