//! Cuts: of n*x = sum c*y with x not whole, the parts of c/n that are not whole at the bounds of the y. The sum has all
//! coefficients divisible by n, so its own rounding cuts the values at hand off. Up to 8 a decision, before splits. Measured: a
//! set of blocks 0.148 s -> 0.012 s, others not in 4 s -> 0.8 s.

use crate::attack::Attack;
use search_forms::{NO_MODULUS, Truth};
use search_rows::Stuck;
use search_simplex::{
    NONE, at, difference, floor, gcd, item, negative, product, quotient, small, sum,
};
use search_trail::Halt;
use std::alloc::Global;

/// The greatest coefficient and the greatest constant of a cut.
const COEFFICIENT: u128 = 16_777_216;

const CONSTANT: u128 = 281_474_976_710_656;

/// How many cuts an attack may have.
const ALL: u32 = 400;

/// A cut: the terms sum up to at least the bound, by the weighted bounds at places.
#[derive(Drop)]
struct Cut {
    terms: Vec<(u32, i128)>,
    total: i128,
    bounds: Vec<(u32, i128)>,
}

/// Equal variables joined, of terms that ascend.
fn joined(alloc: Global, terms: &[(u32, i128)]) -> Result<Vec<(u32, i128)>, Stuck> {
    let mut out: Vec<(u32, i128)> = Vec::new(alloc);
    let mut now: (u32, i128) = (NONE, 0);
    for term in terms {
        if term.0 == now.0 {
            now = (now.0, sum(now.1, term.1)?);
        } else {
            if now.1 != 0 {
                out.push(now)?;
            }
            now = *term;
        }
    }
    if now.1 != 0 {
        out.push(now)?;
    }
    Ok(out)
}

/// Whether the numbers are small.
fn is_small(terms: &[(u32, i128)], bound: i128) -> bool {
    for term in terms {
        if term.1.unsigned_abs() > COEFFICIENT {
            return false;
        }
    }
    !terms.is_empty() && bound.unsigned_abs() <= CONSTANT
}

impl Attack {
    /// The bound at which a column is: its weight, its number, and its place; the weight is negative on the upper side.
    fn touching(&self, column: u32, m: i128, n: i128) -> Result<Option<(u32, i128, i128)>, Stuck> {
        let value = at(self.search.tableau.values.as_slice(), column)?;
        if let Some(bound) = self.search.tableau.bound(column, true)? {
            if bound.scaled == value {
                return Ok(Some((bound.at, m, product(m, value)?)));
            }
        }
        if let Some(bound) = self.search.tableau.bound(column, false)? {
            if bound.scaled == value {
                let part = difference(n, m)?;
                return Ok(Some((bound.at, negative(part)?, negative(product(part, value)?)?)));
            }
        }
        Ok(None)
    }

    /// q times a column taken from the terms.
    fn take_column(&self, cut: &mut Cut, column: u32, q: i128) -> Result<(), Stuck> {
        let back = negative(q)?;
        let form = at(self.search.columns.forms.as_slice(), column)?;
        if form == NONE {
            cut.terms
                .push((at(self.search.columns.nodes.as_slice(), column)?, back))?;
            return Ok(());
        }
        for term in self.search.forms.form(form)?.terms.as_slice() {
            cut.terms.push((term.0, product(back, term.1 as i128)?))?;
        }
        Ok(())
    }

    /// One column of the row; false where it is at no bound.
    fn cut_column(&self, cut: &mut Cut, column: u32, c: i128, n: i128) -> Result<bool, Stuck> {
        let mut q = floor(c, n)?;
        let m = difference(c, product(q, n)?)?;
        if m != 0 {
            let Some((place, weight, part)) = self.touching(column, m, n)? else {
                return Ok(false);
            };
            if weight < 0 {
                q = sum(q, 1)?;
                cut.bounds.push((place, negative(weight)?))?;
            } else {
                cut.bounds.push((place, weight))?;
            }
            cut.total = sum(cut.total, part)?;
        }
        if q != 0 {
            self.take_column(cut, column, q)?;
        }
        Ok(true)
    }

    /// The cut of a node whose value is not whole.
    fn cut_of(&self, node: u32) -> Result<Option<Cut>, Stuck> {
        let column = at(self.search.columns.of_node.as_slice(), node)?;
        let number = at(self.search.tableau.row_of.as_slice(), column)?;
        if number == NONE {
            return Ok(None);
        }
        let row = item(self.search.tableau.rows.as_slice(), number)?;
        let n = row.factor as i128;
        let mut cut = Cut {
            terms: Vec::new(self.alloc),
            total: 0,
            bounds: Vec::new(self.alloc),
        };
        cut.terms.push((node, 1))?;
        for term in row.terms.as_slice() {
            if !self.cut_column(&mut cut, term.0, term.1 as i128, n)? {
                return Ok(None);
            }
        }
        cut.terms.sort()?;
        cut.terms = joined(self.alloc, cut.terms.as_slice())?;
        cut.total = negative(floor(negative(cut.total)?, n)?)?;
        Ok(Some(cut))
    }

    /// The literal of a cut.
    fn cut_code(&mut self, cut: &Cut) -> Result<u32, Stuck> {
        let mut g: i128 = 0;
        for term in cut.terms.as_slice() {
            g = gcd(g, term.1)?;
        }
        let low = match cut.terms.as_slice().first() {
            Some(term) => term.1 > 0,
            None => return Err(Stuck::Place),
        };
        let by = if low { g } else { negative(g)? };
        let mut key: Vec<(u32, i64)> = Vec::new(self.alloc);
        for term in cut.terms.as_slice() {
            key.push((term.0, small(quotient(term.1, by)?)?))?;
        }
        let least = negative(floor(negative(cut.total)?, g)?)?;
        let (form, _new) = self.search.forms.intern(key, NO_MODULUS, 0)?;
        if low {
            let mark = self.search.forms.mark(form, small(least)?, 1, false)?;
            return mark.checked_mul(2).ok_or(Stuck::Place);
        }
        let above = small(difference(1, least)?)?;
        let mark = self.search.forms.mark(form, above, 1, false)?;
        mark.checked_mul(2)
            .ok_or(Stuck::Place)?
            .checked_add(1)
            .ok_or(Stuck::Place)
    }

    /// A cut pushed; whether it says something new.
    fn push_cut(&mut self, cut: &Cut) -> Result<bool, Halt> {
        if !is_small(cut.terms.as_slice(), cut.total) {
            return Ok(false);
        }
        let code = self.cut_code(cut)?;
        if self.search.forms.truth(code)? == Truth::True {
            return Ok(false);
        }
        self.budget.cuts_here = self.budget.cuts_here.saturating_add(1);
        self.budget.cuts_all = self.budget.cuts_all.saturating_add(1);
        let how = self.search.pool(cut.bounds.as_slice())?;
        self.search.push(code, how)?;
        Ok(true)
    }

    fn cut_node(&mut self, node: u32) -> Result<bool, Halt> {
        if !self.is_broken(node)? {
            return Ok(false);
        }
        match self.cut_of(node)? {
            None => Ok(false),
            Some(cut) => self.push_cut(&cut),
        }
    }

    /// A cut of the first node that has one; whether there was one.
    pub fn cut(&mut self) -> Result<bool, Halt> {
        if self.budget.cuts_here >= self.search.options.cuts || self.budget.cuts_all >= ALL {
            return Ok(false);
        }
        for node in 0..self.nodes() {
            if self.cut_node(node)? {
                return Ok(true);
            }
        }
        Ok(false)
    }
}
