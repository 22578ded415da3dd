//! The values at hand, and truths at them.

use crate::search::Search;
use search_forms::{Code, Defined, Kind, Known, Setup, Truth, Walk, holds_at, rise};
use search_rows::{AtomKind, Stuck};
use search_simplex::{NONE, at, floor, item, lcm, product, put, quotient, sum};
use std::alloc::Global;

/// The value of a row over nodes times a denominator, but for one node.
fn rest_value(
    terms: &[(u32, i64)],
    constant: i64,
    node: u32,
    den: i128,
    values: &[i128],
) -> Result<i128, Stuck> {
    let mut total = product(constant as i128, den)?;
    for term in terms {
        if term.0 != node {
            total = sum(total, product(term.1 as i128, at(values, term.0)?)?)?;
        }
    }
    Ok(total)
}

/// The whole value of a move from those of the nodes before it.
pub fn move_value(defined: &Defined, node: u32, values: &[i128]) -> Result<i128, Stuck> {
    let row = &defined.at_most;
    let total = rest_value(row.coefs.as_slice(), row.constant, node, 1, values)?;
    floor(total, defined.den as i128)
}

/// Whole values of all nodes from those of the opponent's.
pub fn completed(alloc: Global, setup: &Setup, given: &[i128]) -> Result<Vec<i128>, Stuck> {
    let mut out: Vec<i128> = Vec::new(alloc);
    for node in 0..setup.nodes() {
        let value = match item(setup.defs.as_slice(), node)? {
            None => at(given, node)?,
            Some(defined) => move_value(defined, node, out.as_slice())?,
        };
        out.push(value)?;
    }
    Ok(out)
}

impl Search {
    /// The common denominator of the columns' values, beside the scale.
    fn common_factor(&self) -> Result<i128, Stuck> {
        let mut den: i128 = 1;
        for column in self.columns.of_node.as_slice() {
            if *column != NONE {
                den = lcm(den, self.tableau.factor_of(*column)? as i128)?;
            }
        }
        Ok(den)
    }

    /// The value of a node that is a column, over a common denominator.
    fn node_value(&self, node: u32, den: i128) -> Result<(i128, i128), Stuck> {
        let column = at(self.columns.of_node.as_slice(), node)?;
        if column == NONE {
            return Ok((0, 0));
        }
        let times = quotient(den, self.tableau.factor_of(column)? as i128)?;
        let value = product(at(self.tableau.values.as_slice(), column)?, times)?;
        let eps = product(at(self.tableau.epses.as_slice(), column)?, times)?;
        Ok((value, eps))
    }

    /// Whether a node is a rounded move whose definition is not in force.
    pub fn is_free_move(&self, node: u32) -> Result<bool, Stuck> {
        Ok(
            self.setup.is_move(node)?
                && at(self.columns.of_node.as_slice(), node)? != NONE
                && at(self.columns.active.as_slice(), node)? == NONE,
        )
    }

    /// The columns rounded down, and all moves worked out.
    fn set_floors(&mut self) -> Result<(), Stuck> {
        let mut given: Vec<i128> = Vec::new(self.alloc);
        for value in self.model.values.as_slice() {
            given.push(floor(value.0, self.model.den)?)?;
        }
        self.model.floors = completed(self.alloc, &self.setup, given.as_slice())?;
        Ok(())
    }

    /// A rounded move whose definition is not in force has its worked out value.
    fn set_free_move(&mut self, node: u32) -> Result<(), Stuck> {
        if self.is_free_move(node)? {
            let whole = at(self.model.floors.as_slice(), node)?;
            let value = product(whole, self.model.den)?;
            put(&mut self.model.values, node, (value, 0))?;
        }
        Ok(())
    }

    /// Reads the values at hand off the tableau.
    pub fn read_model(&mut self) -> Result<(), Stuck> {
        self.model.stamp = self.model.stamp.wrapping_add(1);
        let den = self.common_factor()?;
        let mut values: Vec<(i128, i128)> = Vec::new(self.alloc);
        for node in 0..self.setup.nodes() {
            values.push(self.node_value(node, den)?)?;
        }
        self.model.values = values;
        self.model.den = product(den, self.tableau.scale as i128)?;
        self.model.stamps.resize(self.forms.list.len(), 0)?;
        self.model.sums.resize(self.forms.list.len(), (0, 0))?;
        if self.setup.is_int() {
            self.set_floors()?;
            for node in 0..self.setup.nodes() {
                self.set_free_move(node)?;
            }
        }
        Ok(())
    }

    /// The value and the infinitesimals of a form.
    fn sum_of(&self, form: u32) -> Result<(i128, i128), Stuck> {
        let mut value: i128 = 0;
        let mut eps: i128 = 0;
        for term in self.forms.form(form)?.terms.as_slice() {
            let found = at(self.model.values.as_slice(), term.0)?;
            value = sum(value, product(term.1 as i128, found.0)?)?;
            if found.1 != 0 {
                eps = sum(eps, product(term.1 as i128, found.1)?)?;
            }
        }
        Ok((value, eps))
    }

    /// The same, worked out once.
    fn form_value(&mut self, form: u32) -> Result<(i128, i128), Stuck> {
        if form as usize >= self.model.stamps.len() {
            return self.sum_of(form);
        }
        if at(self.model.stamps.as_slice(), form)? == self.model.stamp {
            return at(self.model.sums.as_slice(), form);
        }
        let found = self.sum_of(form)?;
        put(&mut self.model.sums, form, found)?;
        put(&mut self.model.stamps, form, self.model.stamp)?;
        Ok(found)
    }

    /// Whether a divisibility holds at the whole values.
    fn divides_here(&self, form: u32) -> Result<bool, Stuck> {
        let found = self.forms.form(form)?;
        let terms = found.terms.as_slice();
        let total = rest_value(terms, found.constant, NONE, 1, self.model.floors.as_slice())?;
        holds_at(AtomKind::Divides(found.modulus), total, 1)
    }

    /// The truth of a literal at the values at hand.
    pub fn holds_here(&mut self, code: Code) -> Result<bool, Stuck> {
        let mark = self.forms.threshold(code / 2)?;
        let low = code % 2 == 0;
        if self.is_divisibility(mark.form)? {
            return Ok(self.divides_here(mark.form)? == low);
        }
        match self.forms.truth(code)? {
            Truth::True => return Ok(true),
            Truth::False => return Ok(false),
            Truth::Open => {}
        }
        let (value, eps) = self.form_value(mark.form)?;
        let left = product(value, mark.den as i128)?;
        let right = product(mark.num as i128, self.model.den)?;
        let above = left > right || (left == right && (eps > 0 || (eps == 0 && !mark.strict)));
        Ok(above == low)
    }

    /// The truth of a leaf at the values at hand.
    pub fn leaf_holds(&mut self, path: u32, leaf: u32) -> Result<bool, Stuck> {
        match self.forms.leaf(&self.setup, path, leaf)? {
            Known::True => Ok(true),
            Known::False | Known::Unset => Ok(false),
            Known::Lit(code) => self.holds_here(code),
        }
    }

    /// The truth of a node at the values, none where that rests on its children.
    fn look_here(&mut self, path: u32, node: u32) -> Result<Option<bool>, Stuck> {
        match self.setup.shape.kind(node)? {
            Kind::Leaf(leaf) => Ok(Some(self.leaf_holds(path, leaf)?)),
            Kind::And => Ok(if self.setup.shape.first(node)?.is_none() {
                Some(true)
            } else {
                None
            }),
            Kind::Or => Ok(if self.setup.shape.first(node)?.is_none() {
                Some(false)
            } else {
                None
            }),
        }
    }

    /// The truth of a node of a path at the values at hand.
    pub fn is_met(&mut self, path: u32, top: u32) -> Result<bool, Stuck> {
        let mut node = top;
        for _ in 0..u32::MAX {
            match self.look_here(path, node)? {
                None => node = node.checked_add(1).ok_or(Stuck::Place)?,
                Some(truth) => match rise(&self.setup.shape, top, node, truth)? {
                    Walk::At(next) => node = next,
                    Walk::Done(truth) => return Ok(truth),
                },
            }
        }
        Err(Stuck::Fuel)
    }

    /// The truth of a node at given values of all nodes over a denominator, none where that rests on its children.
    fn look_at(
        &self,
        path: u32,
        node: u32,
        den: i128,
        values: &[i128],
    ) -> Result<Option<bool>, Stuck> {
        match self.setup.shape.kind(node)? {
            Kind::Leaf(leaf) => {
                let atom = item(self.setup.shape.leaves.as_slice(), leaf)?;
                let names = self.setup.names(path)?;
                let mut total = product(atom.constant as i128, den)?;
                for term in atom.coefs.as_slice() {
                    let value = at(values, at(names, term.0)?)?;
                    total = sum(total, product(term.1 as i128, value)?)?;
                }
                Ok(Some(holds_at(atom.kind, total, den)?))
            }
            Kind::And => Ok(if self.setup.shape.first(node)?.is_none() {
                Some(true)
            } else {
                None
            }),
            Kind::Or => Ok(if self.setup.shape.first(node)?.is_none() {
                Some(false)
            } else {
                None
            }),
        }
    }

    /// The truth of a node of a path at given values.
    pub fn is_met_at(
        &self,
        path: u32,
        top: u32,
        den: i128,
        values: &[i128],
    ) -> Result<bool, Stuck> {
        let mut node = top;
        for _ in 0..u32::MAX {
            match self.look_at(path, node, den, values)? {
                None => node = node.checked_add(1).ok_or(Stuck::Place)?,
                Some(truth) => match rise(&self.setup.shape, top, node, truth)? {
                    Walk::At(next) => node = next,
                    Walk::Done(truth) => return Ok(truth),
                },
            }
        }
        Err(Stuck::Fuel)
    }

    /// The first path that given values fail.
    pub fn failed_at(&self, den: i128, values: &[i128]) -> Result<Option<u32>, Stuck> {
        for path in 0..self.setup.path_count() {
            if !self.is_met_at(path, 0, den, values)? {
                return Ok(Some(path));
            }
        }
        Ok(None)
    }
}
