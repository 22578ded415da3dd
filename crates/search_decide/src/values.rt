//! Values of variables.

use crate::ratio::Ratio;
use search_rows::{Atom, AtomKind, Stuck};
use std::alloc::Global;

/// The values of variables, by number; one that is missing is free.
#[derive(Debug, Drop)]
pub struct Values {
    /// The value of each variable.
    pub list: Vec<Option<Ratio>>,
}

/// Whether d divides the number; none where d is 0.
fn divides(d: u64, n: i64) -> Option<bool> {
    match (n as i128).checked_rem_euclid(d as i128) {
        Some(r) => Some(r == 0),
        None => None,
    }
}

impl Values {
    /// No value of any of so many variables.
    pub fn none(alloc: Global, count: usize) -> Result<Values, Stuck> {
        let mut list = Vec::new(alloc);
        for _ in 0..count {
            list.push(None)?;
        }
        Ok(Values { list })
    }

    /// The value of a variable, 0 where it is free.
    pub fn at(&self, var: u32) -> Ratio {
        match self.list.get(var as usize) {
            Some(value) => match value {
                Some(ratio) => *ratio,
                None => Ratio::whole(0),
            },
            None => Ratio::whole(0),
        }
    }

    /// Whether a variable has a value.
    pub fn is_set(&self, var: u32) -> bool {
        match self.list.get(var as usize) {
            Some(value) => value.is_some(),
            None => false,
        }
    }

    /// Sets the value of a variable; stuck where there is no such variable.
    pub fn set(&mut self, var: u32, ratio: Ratio) -> Result<(), Stuck> {
        let place = self.list.get_mut(var as usize).ok_or(Stuck::Place)?;
        *place = Some(ratio);
        Ok(())
    }

    /// The value of a row without one variable; without none where the variable is above all.
    pub fn rest(&self, atom: &Atom, var: u32) -> Result<Ratio, Stuck> {
        let mut sum = Ratio::whole(atom.constant);
        for term in atom.coefs.as_slice() {
            if term.0 != var {
                let part = self.at(term.0).times(term.1)?;
                sum = sum.add(&part)?;
            }
        }
        Ok(sum)
    }

    /// Whether an atom holds, free variables being 0.
    pub fn holds(&self, atom: &Atom) -> Result<bool, Stuck> {
        let sum = self.rest(atom, u32::MAX)?;
        match atom.kind {
            AtomKind::AtLeast => Ok(sum.num >= 0),
            AtomKind::Above => Ok(sum.num > 0),
            AtomKind::Divides(d) => Ok(sum.is_whole() && divides(d, sum.num) == Some(true)),
            AtomKind::NotDivides(d) => Ok(sum.is_whole() && divides(d, sum.num) == Some(false)),
        }
    }

    /// Whether all variables of a row but one have values.
    pub fn is_ready(&self, atom: &Atom, var: u32) -> bool {
        for term in atom.coefs.as_slice() {
            if term.0 != var && !self.is_set(term.0) {
                return false;
            }
        }
        true
    }
}
