//! Equalities in force that have no whole solution together: their rows are brought to a triangle by steps on columns, and where
//! the next part is not whole, a sum of them has coefficients with a divisor that its constant has not.

use crate::attack::Attack;
use crate::fraction::{Fraction, lowest, plus, times};
use search_forms::NO_MODULUS;
use search_rows::Stuck;
use search_simplex::{
    NONE, at, difference, floor, item, lcm, lent, negative, product, put, quotient, size,
};
use search_trail::{Conflict, Halt};
use std::alloc::Global;

/// The most equalities that are looked at.
const MOST: usize = 200;

/// A form whose bounds meet.
#[derive(Clone, Copy, PartialEq, Eq)]
struct Equality {
    form: u32,
    num: i64,
    low: u32,
    high: u32,
}

/// The rows, and how far the triangle is.
#[derive(Drop)]
struct Lattice {
    alloc: Global,
    rows: Vec<Vec<i128>>,
    width: u32,
    /// The rows of the triangle, and the parts of the solution.
    pivots: Vec<u32>,
    parts: Vec<i128>,
}

impl Lattice {
    fn entry(&self, row: u32, column: u32) -> Result<i128, Stuck> {
        at(item(self.rows.as_slice(), row)?.as_slice(), column)
    }

    /// The column behind the triangle with the least number other than 0 in a row, and whether it is the only one.
    fn least(&self, row: u32) -> Result<(u32, bool), Stuck> {
        let mut best = NONE;
        let mut size: u128 = 0;
        let mut count: u32 = 0;
        for column in first(self.pivots.len())?..self.width {
            let n = self.entry(row, column)?.unsigned_abs();
            if n != 0 {
                count = count.saturating_add(1);
                if best == NONE || n < size {
                    best = column;
                    size = n;
                }
            }
        }
        Ok((best, count <= 1))
    }

    /// Takes q times a column from another, in all rows.
    fn subtract(&mut self, from: u32, column: u32, q: i128) -> Result<(), Stuck> {
        for row in 0..self.rows.len() {
            let list = self.rows.get_mut(row).ok_or(Stuck::Place)?;
            let part = product(q, at(list.as_slice(), column)?)?;
            let new = difference(at(list.as_slice(), from)?, part)?;
            put(list, from, new)?;
        }
        Ok(())
    }

    /// The other columns of a row reduced by one.
    fn reduce_by(&mut self, row: u32, column: u32) -> Result<(), Stuck> {
        let by = self.entry(row, column)?;
        for other in first(self.pivots.len())?..self.width {
            if other != column {
                let q = floor(self.entry(row, other)?, by)?;
                if q != 0 {
                    self.subtract(other, column, q)?;
                }
            }
        }
        Ok(())
    }

    /// The row with one number behind the triangle; none where all are 0.
    fn reduced(&mut self, row: u32) -> Result<u32, Stuck> {
        for _ in 0..256 {
            let (column, alone) = self.least(row)?;
            if alone {
                return Ok(column);
            }
            self.reduce_by(row, column)?;
        }
        Err(Stuck::Fuel)
    }

    fn swap(&mut self, a: u32, b: u32) -> Result<(), Stuck> {
        for row in 0..self.rows.len() {
            let list = self.rows.get_mut(row).ok_or(Stuck::Place)?;
            let x = at(list.as_slice(), a)?;
            let y = at(list.as_slice(), b)?;
            put(list, a, y)?;
            put(list, b, x)?;
        }
        Ok(())
    }

    /// What a row leaves of its number with the parts that are known.
    fn rest(&self, row: u32, num: i128) -> Result<i128, Stuck> {
        let mut rest = num;
        for place in 0..first(self.parts.len())? {
            let part = product(self.entry(row, place)?, at(self.parts.as_slice(), place)?)?;
            rest = difference(rest, part)?;
        }
        Ok(rest)
    }

    /// Takes a row in; whether it has no whole solution.
    fn take(&mut self, row: u32, num: i128) -> Result<bool, Stuck> {
        let column = self.reduced(row)?;
        if column == NONE {
            return Ok(false);
        }
        let place = first(self.pivots.len())?;
        if column != place {
            self.swap(column, place)?;
        }
        let h = self.entry(row, place)?;
        let rest = self.rest(row, num)?;
        let part = floor(rest, h)?;
        if product(part, h)? != rest {
            return Ok(true);
        }
        self.pivots.push(row)?;
        self.parts.push(part)?;
        Ok(false)
    }

    /// The weight of the row of the triangle at a place, by those so far.
    fn weight(&self, list: &[(u32, Fraction)], place: u32) -> Result<Fraction, Stuck> {
        let mut total: Fraction = (0, 1);
        for each in list {
            total = plus(total, times(each.1, self.entry(each.0, place)?, 1)?)?;
        }
        Ok(total)
    }

    /// The weights of the rows in the sum without solution.
    fn weights(&self, row: u32) -> Result<Vec<(u32, Fraction)>, Stuck> {
        let count = first(self.pivots.len())?;
        let mut list: Vec<(u32, Fraction)> = Vec::new(self.alloc);
        list.push((row, lowest(1, self.entry(row, count)?)?))?;
        for place in (0..count).rev() {
            let total = self.weight(list.as_slice(), place)?;
            if total.0 != 0 {
                let pivot = at(self.pivots.as_slice(), place)?;
                let back = (negative(total.0)?, total.1);
                list.push((pivot, times(back, 1, self.entry(pivot, place)?)?))?;
            }
        }
        Ok(list)
    }
}

fn first(count: usize) -> Result<u32, Stuck> {
    size(count)
}

fn add_variables(out: &mut Vec<u32>, terms: &[(u32, i64)]) -> Result<(), Stuck> {
    for term in terms {
        out.push(term.0)?;
    }
    Ok(())
}

/// The place of a variable.
fn place_of(variables: &[u32], var: u32) -> Result<u32, Stuck> {
    match variables.binary_search(&var) {
        Ok(place) => size(place),
        Err(_) => Err(Stuck::Place),
    }
}

impl Attack {
    /// The equality of a form, if its bounds meet.
    fn equality(&self, form: u32) -> Result<Option<Equality>, Stuck> {
        let found = self.search.forms.form(form)?;
        if found.modulus != NO_MODULUS || found.low == NONE || found.high == NONE {
            return Ok(None);
        }
        let low = self.search.forms.threshold(found.low_mark)?.num;
        let high = self.search.forms.threshold(found.high_mark)?.num;
        if low as i128 + 1 != high as i128 {
            return Ok(None);
        }
        Ok(Some(Equality {
            form,
            num: low,
            low: found.low,
            high: found.high,
        }))
    }

    fn equalities(&self) -> Result<Vec<Equality>, Stuck> {
        let mut out: Vec<Equality> = Vec::new(self.alloc);
        for form in 0..size(self.search.forms.list.len())? {
            if let Some(found) = self.equality(form)? {
                out.push(found)?;
            }
        }
        Ok(out)
    }

    /// The variables of equalities, ascending.
    fn variables(&self, list: &[Equality]) -> Result<Vec<u32>, Stuck> {
        let mut out: Vec<u32> = Vec::new(self.alloc);
        for each in list {
            add_variables(
                &mut out,
                self.search.forms.form(each.form)?.terms.as_slice(),
            )?;
        }
        out.sort()?;
        out.dedup();
        Ok(out)
    }

    /// The row of an equality over the variables.
    fn lattice_row(&self, form: u32, variables: &[u32]) -> Result<Vec<i128>, Stuck> {
        let mut row: Vec<i128> = Vec::new(self.alloc);
        row.resize(variables.len(), 0)?;
        for term in self.search.forms.form(form)?.terms.as_slice() {
            *lent(&mut row, place_of(variables, term.0)?)? = term.1 as i128;
        }
        Ok(row)
    }

    fn lattice(&self, list: &[Equality]) -> Result<Lattice, Stuck> {
        let variables = self.variables(list)?;
        let mut rows: Vec<Vec<i128>> = Vec::new(self.alloc);
        for each in list {
            rows.push(self.lattice_row(each.form, variables.as_slice())?)?;
        }
        Ok(Lattice {
            alloc: self.alloc,
            rows,
            width: size(variables.len())?,
            pivots: Vec::new(self.alloc),
            parts: Vec::new(self.alloc),
        })
    }

    /// The conflict of equalities with weights.
    fn common_conflict(
        &self,
        list: &[Equality],
        weights: &[(u32, Fraction)],
    ) -> Result<Conflict, Stuck> {
        let mut den: i128 = 1;
        for each in weights {
            den = lcm(den, each.1.1)?;
        }
        let mut out: Vec<(u32, u32, i128)> = Vec::new(self.alloc);
        for each in weights {
            let found = at(list, each.0)?;
            let weight = product(each.1.0, quotient(den, each.1.1)?)?;
            out.push((found.low, found.high, weight))?;
        }
        Ok(Conflict::Common(out))
    }

    /// A conflict of equalities without a whole solution, if there is one.
    fn common(&self) -> Result<Option<Conflict>, Stuck> {
        let list = self.equalities()?;
        if list.is_empty() || list.len() > MOST {
            return Ok(None);
        }
        let mut lattice = self.lattice(list.as_slice())?;
        for row in 0..size(list.len())? {
            let num = at(list.as_slice(), row)?.num as i128;
            if lattice.take(row, num)? {
                let weights = lattice.weights(row)?;
                return Ok(Some(self.common_conflict(list.as_slice(), weights.as_slice())?));
            }
        }
        Ok(None)
    }

    /// The test; numbers too wide are no answer.
    pub fn test_common(&self) -> Result<(), Halt> {
        match self.common() {
            Ok(None) => Ok(()),
            Ok(Some(conflict)) => Err(Halt::Conflict(conflict)),
            Err(Stuck::Memory) => Err(Halt::Stuck(Stuck::Memory)),
            Err(_) => Ok(()),
        }
    }
}
