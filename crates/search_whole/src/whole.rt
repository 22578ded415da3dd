//! A point of the values at hand over the integers: rounded where that meets all paths, else a cut, a split, or elimination.

use crate::attack::{Attack, Offer};
use lin_term::is_within;
use search_forms::NO_MODULUS;
use search_rows::Stuck;
use search_simplex::{NONE, at, difference, floor, product, small, sum};
use search_trail::{Halt, How, completed};

/// Whether all numbers are within the cap.
fn are_within(values: &[i128]) -> bool {
    for value in values {
        if !is_within(*value) {
            return false;
        }
    }
    true
}

impl Attack {
    /// Whole values of all nodes, if they are within the cap and meet all paths.
    pub fn met(&self, values: Vec<i128>) -> Result<Option<Offer>, Stuck> {
        if !are_within(values.as_slice()) {
            return Ok(None);
        }
        if self.search.failed_at(1, values.as_slice())?.is_some() {
            return Ok(None);
        }
        Ok(Some(Offer {
            den: 1,
            nums: values,
        }))
    }

    /// A value at hand rounded down, or to the nearest whole number.
    fn rounded(&self, value: i128, near: bool) -> Result<i128, Stuck> {
        let den = self.search.model.den;
        if near {
            return floor(sum(product(2, value)?, den)?, product(2, den)?);
        }
        floor(value, den)
    }

    /// The values at hand rounded, if they meet all paths.
    fn try_rounded(&self, near: bool) -> Result<Option<Offer>, Stuck> {
        let mut given: Vec<i128> = Vec::new(self.alloc);
        for value in self.search.model.values.as_slice() {
            given.push(self.rounded(value.0, near)?)?;
        }
        let values = completed(self.alloc, &self.search.setup, given.as_slice())?;
        self.met(values)
    }

    /// How many splits are in force: decisions on single columns.
    fn splits_here(&self) -> Result<u32, Stuck> {
        let mut count: u32 = 0;
        for entry in self.search.trail.entries.as_slice() {
            if entry.how == How::Decision {
                let form = self
                    .search
                    .forms
                    .form(self.search.forms.form_of(entry.code)?)?;
                if form.terms.len() == 1 && form.modulus == NO_MODULUS {
                    count = count.saturating_add(1);
                }
            }
        }
        Ok(count)
    }

    /// Whether a node takes part in cuts and splits, and its value is not whole.
    pub fn is_broken(&self, node: u32) -> Result<bool, Stuck> {
        if at(self.search.columns.of_node.as_slice(), node)? == NONE {
            return Ok(false);
        }
        if self.search.is_free_move(node)? {
            return Ok(false);
        }
        let den = self.search.model.den;
        let value = self.value(node)?;
        Ok(product(floor(value, den)?, den)? != value)
    }

    /// The first node whose value is not whole.
    fn first_broken(&self) -> Result<Option<u32>, Stuck> {
        for node in 0..self.nodes() {
            if self.is_broken(node)? {
                return Ok(Some(node));
            }
        }
        Ok(None)
    }

    /// Splits on a node: the side that is nearer.
    fn split(&mut self, node: u32) -> Result<(), Halt> {
        let den = self.search.model.den;
        let value = self.value(node)?;
        let below = floor(value, den)?;
        let mut terms: Vec<(u32, i64)> = Vec::new(self.alloc);
        terms.push((node, 1))?;
        let (form, _new) = self.search.forms.intern(terms, NO_MODULUS, 0)?;
        let above = small(sum(below, 1)?)?;
        let mark = self.search.forms.mark(form, above, 1, false)?;
        let rest = difference(value, product(below, den)?)?;
        let low = product(rest, 2)? <= den;
        let code = mark.checked_mul(2).ok_or(Stuck::Place)?;
        let side: u32 = if low { 1 } else { 0 };
        self.search
            .decide(code.checked_add(side).ok_or(Stuck::Place)?)
    }

    /// A split on a node, if splits are left.
    fn try_split(&mut self, node: u32) -> Result<bool, Halt> {
        let here = self.splits_here()?;
        self.budget.done_splits = self.budget.done_splits.saturating_add(1);
        if here > self.budget.splits || self.budget.done_splits > self.budget.total {
            return Ok(false);
        }
        self.budget.cuts_here = 0;
        self.split(node)?;
        Ok(true)
    }

    /// A whole point of the values at hand; none where the search is to go on.
    pub fn whole_point(&mut self) -> Result<Option<Offer>, Halt> {
        if let Some(offer) = self.try_rounded(false)? {
            return Ok(Some(offer));
        }
        if let Some(offer) = self.try_rounded(true)? {
            return Ok(Some(offer));
        }
        self.test_common()?;
        if self.cut()? {
            return Ok(None);
        }
        match self.first_broken()? {
            None => self.eliminate(false),
            Some(node) => {
                if self.try_split(node)? {
                    return Ok(None);
                }
                self.eliminate(true)
            }
        }
    }
}
