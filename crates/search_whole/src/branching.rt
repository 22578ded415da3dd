//! Whole values that fail a path: it comes in, or a literal that it needs is decided on.

use crate::attack::{Attack, Offer};
use search_forms::{Kind, Known, Truth};
use search_rows::Stuck;
use search_trail::Halt;

impl Attack {
    /// Paths that do not take part and that the values fail come in; whether there was one.
    fn bring_in(&mut self, values: &[i128]) -> Result<bool, Stuck> {
        let mut some = false;
        for path in 0..self.search.setup.path_count() {
            if !self.search.is_active(path)? && !self.search.is_met_at(path, 0, 1, values)? {
                self.search.activate_path(path)?;
                some = true;
            }
        }
        Ok(some)
    }

    /// The first child of a conjunction that the values fail.
    fn failing(&self, path: u32, parent: u32, values: &[i128]) -> Result<u32, Stuck> {
        let mut child = self.search.setup.shape.first(parent)?;
        for _ in 0..self.search.setup.shape.kinds.len() {
            let found = child.ok_or(Stuck::Place)?;
            if !self.search.is_met_at(path, found, 1, values)? {
                return Ok(found);
            }
            child = self.search.setup.shape.next(parent, found)?;
        }
        Err(Stuck::Place)
    }

    /// The first child of a disjunction that may be true.
    fn first_live(&self, path: u32, parent: u32) -> Result<u32, Stuck> {
        let mut child = self.search.setup.shape.first(parent)?;
        for _ in 0..self.search.setup.shape.kinds.len() {
            let found = child.ok_or(Stuck::Place)?;
            if self.search.may(path, found)? {
                return Ok(found);
            }
            child = self.search.setup.shape.next(parent, found)?;
        }
        Err(Stuck::Place)
    }

    /// The literal of a path that the values fail.
    fn failing_leaf(&self, path: u32, values: &[i128]) -> Result<Known, Stuck> {
        let mut node: u32 = 0;
        for _ in 0..self.search.setup.shape.kinds.len() {
            match self.search.setup.shape.kind(node)? {
                Kind::Leaf(leaf) => {
                    return self.search.forms.leaf_known(&self.search.setup, path, leaf);
                }
                Kind::And => node = self.failing(path, node, values)?,
                Kind::Or => node = self.first_live(path, node)?,
            }
        }
        Err(Stuck::Place)
    }

    /// Decides on a literal that is open.
    pub fn decide_open(&mut self, known: Known) -> Result<(), Halt> {
        let Known::Lit(code) = known else {
            return Err(Halt::Stuck(Stuck::Place));
        };
        if self.search.forms.truth(code)? != Truth::Open {
            return Err(Halt::Stuck(Stuck::Place));
        }
        self.budget.cuts_here = 0;
        self.search.decide(code)
    }

    /// Goes on from whole values that fail a path.
    pub fn branch_at(&mut self, values: &[i128]) -> Result<(), Halt> {
        if self.bring_in(values)? {
            return Ok(());
        }
        let Some(path) = self.search.failed_at(1, values)? else {
            return Err(Halt::Stuck(Stuck::Place));
        };
        let known = self.failing_leaf(path, values)?;
        self.decide_open(known)
    }

    /// Whole values of all nodes: a point, or the search goes on from them.
    pub fn at_values(&mut self, values: Vec<i128>) -> Result<Option<Offer>, Halt> {
        let mut kept: Vec<i128> = Vec::new(self.alloc);
        kept.extend_from_slice(values.as_slice())?;
        if let Some(offer) = self.met(kept)? {
            return Ok(Some(offer));
        }
        self.branch_at(values.as_slice())?;
        Ok(None)
    }
}
