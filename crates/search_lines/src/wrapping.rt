//! What is put around a node of a record. Each is left out where its given fact is not used.

use crate::facts::{NodeKind, Part};
use crate::writer::Writer;
use search_rows::{Atom, Stuck};
use search_simplex::NONE;

/// A closed child of a disjunction: its place, its given fact, and what closes it.
#[derive(Clone, Copy, Debug, PartialEq, Eq)]
pub struct Other {
    pub place: u32,
    pub given: u32,
    pub node: u32,
}

/// What is put around a node.
#[derive(Debug, Drop)]
pub enum Wrap {
    /// A disjunction with one live child: its fact, the place and the given fact of the child, and the others.
    Cases(u32, u32, u32, Vec<Other>),
    /// A literal: its given fact, what closes it, and the given fact of its negation.
    Split(Atom, u32, u32, u32),
}

impl Writer {
    /// A node with one more line around it.
    pub fn wrap(&mut self, node: u32, wrap: Wrap) -> Result<u32, Stuck> {
        match wrap {
            Wrap::Split(atom, given, closed, negated) => {
                if !self.dag.is_used(negated)? {
                    self.dag.release(closed)?;
                    return Ok(node);
                }
                let mut parts: Vec<Part> = Vec::new(self.alloc);
                parts.push(self.dag.part(given, closed)?)?;
                parts.push(self.dag.part(negated, node)?)?;
                let ends: Vec<u32> = Vec::new(self.alloc);
                self.dag.node(NodeKind::Split(atom), ends, parts)
            }
            Wrap::Cases(fact, place, given, others) => {
                self.wrap_cases(node, fact, place, given, others.as_slice())
            }
        }
    }

    fn wrap_cases(
        &mut self,
        node: u32,
        fact: u32,
        place: u32,
        given: u32,
        others: &[Other],
    ) -> Result<u32, Stuck> {
        if !self.dag.is_used(given)? {
            self.release_but(others, NONE)?;
            return Ok(node);
        }
        for other in others {
            if !self.dag.is_used(other.given)? {
                self.release_but(others, other.place)?;
                self.dag.release(node)?;
                return Ok(other.node);
            }
        }
        let parts = self.case_parts(node, place, given, others)?;
        self.dag.ended(NodeKind::Cases, fact, parts)
    }

    fn release_but(&mut self, others: &[Other], place: u32) -> Result<(), Stuck> {
        for other in others {
            if other.place != place {
                self.dag.release(other.node)?;
            }
        }
        Ok(())
    }

    /// The parts of a disjunction in order.
    fn case_parts(
        &self,
        node: u32,
        place: u32,
        given: u32,
        others: &[Other],
    ) -> Result<Vec<Part>, Stuck> {
        let mut parts: Vec<Part> = Vec::new(self.alloc);
        let mut there = false;
        for other in others {
            if !there && other.place > place {
                parts.push(self.dag.part(given, node)?)?;
                there = true;
            }
            parts.push(self.dag.part(other.given, other.node)?)?;
        }
        if !there {
            parts.push(self.dag.part(given, node)?)?;
        }
        Ok(parts)
    }
}
