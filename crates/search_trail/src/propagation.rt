//! Propagation, driven by leaves that become false: climb from the leaf; a disjunction that is required and has one live child
//! forces it. No whole formula is walked but at a path's beginning.

use crate::conflict::{Conflict, Halt, How};
use crate::search::Search;
use search_forms::{Kind, Known, Truth};
use search_rows::Stuck;
use search_simplex::{NONE, at};

/// What the children of a disjunction leave.
#[derive(Clone, Copy, Debug, PartialEq, Eq)]
enum Live {
    /// One is true, or two may be.
    Free,
    /// This one alone may be true.
    One(u32),
    /// All are false.
    Nothing,
}

fn more(live: Live, truth: Truth, child: u32) -> Live {
    match truth {
        Truth::True => Live::Free,
        Truth::False => live,
        Truth::Open => match live {
            Live::Nothing => Live::One(child),
            Live::One(_) => Live::Free,
            Live::Free => Live::Free,
        },
    }
}

impl Search {
    /// What the children of a disjunction leave, one of them apart.
    fn live(&self, path: u32, parent: u32, apart: u32) -> Result<Live, Stuck> {
        let mut live = Live::Nothing;
        let mut child = self.setup.shape.first(parent)?;
        for _ in 0..self.setup.shape.kinds.len() {
            let Some(found) = child else {
                return Ok(live);
            };
            if found != apart {
                live = more(live, self.node_truth(path, found)?, found);
                if live == Live::Free {
                    return Ok(live);
                }
            }
            child = self.setup.shape.next(parent, found)?;
        }
        Ok(live)
    }

    /// Pushes a leaf that a path needs.
    fn force_leaf(&mut self, path: u32, leaf: u32) -> Result<(), Halt> {
        match self.forms.leaf_known(&self.setup, path, leaf)? {
            Known::True => Ok(()),
            Known::False => Err(Halt::Conflict(Conflict::Tree(path))),
            Known::Unset => Err(Halt::Stuck(Stuck::Place)),
            Known::Lit(code) => match self.forms.truth(code)? {
                Truth::True => Ok(()),
                Truth::False => Err(Halt::Conflict(Conflict::Tree(path))),
                Truth::Open => self.push(code, How::Tree(path, leaf)),
            },
        }
    }

    /// One step of forcing: what is forced next is added to the list.
    fn force_step(&mut self, path: u32, node: u32, work: &mut Vec<u32>) -> Result<(), Halt> {
        match self.setup.shape.kind(node)? {
            Kind::Leaf(leaf) => self.force_leaf(path, leaf),
            Kind::And => {
                if self.is_dead(path, node)? {
                    return Err(Halt::Conflict(Conflict::Tree(path)));
                }
                let mut children = self.setup.shape.children(self.alloc, node)?;
                children.as_mut_slice().reverse();
                work.extend_from_slice(children.as_slice())?;
                Ok(())
            }
            Kind::Or => match self.live(path, node, NONE)? {
                Live::Free => Ok(()),
                Live::Nothing => Err(Halt::Conflict(Conflict::Tree(path))),
                Live::One(child) => {
                    work.push(child)?;
                    Ok(())
                }
            },
        }
    }

    /// Forces a node of a path.
    fn force(&mut self, path: u32, node: u32) -> Result<(), Halt> {
        let mut work: Vec<u32> = Vec::new(self.alloc);
        work.push(node)?;
        for _ in 0..u32::MAX {
            let Some(next) = work.pop() else {
                return Ok(());
            };
            self.force_step(path, next, &mut work)?;
        }
        Err(Halt::Stuck(Stuck::Fuel))
    }

    /// A leaf of a path became false.
    fn fall(&mut self, path: u32, leaf: u32) -> Result<(), Halt> {
        let mut node = at(self.setup.shape.leaf_nodes.as_slice(), leaf)?;
        for _ in 0..self.setup.shape.kinds.len() {
            if node == 0 {
                return Err(Halt::Conflict(Conflict::Tree(path)));
            }
            let parent = self.setup.shape.parent(node)?;
            if self.setup.shape.kind(parent)? == Kind::Or {
                match self.live(path, parent, node)? {
                    Live::Free => return Ok(()),
                    Live::One(child) => return self.force_required(path, parent, child),
                    Live::Nothing => {}
                }
            }
            node = parent;
        }
        Ok(())
    }

    fn force_required(&mut self, path: u32, parent: u32, child: u32) -> Result<(), Halt> {
        if self.is_required(path, parent)? {
            self.force(path, child)?;
        }
        Ok(())
    }

    /// A leaf became false at a node.
    fn fall_at(&mut self, slot: u32) -> Result<(), Halt> {
        let (node, leaf) = at(self.setup.slots.as_slice(), slot)?;
        let (first, behind) = at(self.setup.spans.as_slice(), node)?;
        for path in first..behind {
            if self.is_active(path)? {
                self.fall(path, leaf)?;
            }
        }
        Ok(())
    }

    /// One thing that waits; whether there was one.
    fn settle_one(&mut self) -> Result<bool, Halt> {
        if let Some(path) = self.trail.walks.pop() {
            self.force(path, 0)?;
            return Ok(true);
        }
        if let Some(slot) = self.trail.events.pop() {
            self.fall_at(slot)?;
            return Ok(true);
        }
        Ok(false)
    }

    /// All that waits.
    fn settle(&mut self) -> Result<(), Halt> {
        for _ in 0..u64::MAX {
            if !self.settle_one()? {
                return Ok(());
            }
        }
        Err(Halt::Stuck(Stuck::Fuel))
    }

    /// The tableau's turn.
    fn settle_tableau(&mut self) -> Result<(), Halt> {
        if let Some(broken) = self.tableau.check()? {
            let list = self.tableau.farkas(broken)?;
            return Err(Halt::Conflict(Conflict::Farkas(list)));
        }
        Ok(())
    }

    fn is_settled(&self) -> bool {
        self.trail.events.is_empty() && self.trail.walks.is_empty() && self.tableau.is_quiet()
    }

    /// Propagates until nothing waits.
    pub fn propagate(&mut self) -> Result<(), Halt> {
        for _ in 0..u64::MAX {
            self.settle()?;
            self.settle_tableau()?;
            if self.options.theory {
                self.settle_rows()?;
            }
            if self.is_settled() {
                return Ok(());
            }
        }
        Err(Halt::Stuck(Stuck::Fuel))
    }
}
