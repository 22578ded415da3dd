//! A row more.

use crate::access::{NONE, at, item, lent, put, size};
use crate::merging::merged;
use crate::number::{gcd, product, quotient, small, sum};
use crate::tableau::{TableRow, Tableau};
use search_rows::Stuck;
use std::alloc::Global;

/// The greatest common divisor of a number and the coefficients.
pub fn common(start: i128, terms: &[(u32, i128)]) -> Result<i128, Stuck> {
    let mut g = start;
    for term in terms {
        if g == 1 {
            return Ok(1);
        }
        g = gcd(g, term.1)?;
    }
    Ok(g)
}

/// The terms over a divisor.
pub fn divided(alloc: Global, terms: &[(u32, i128)], g: i128) -> Result<Vec<(u32, i64)>, Stuck> {
    let mut out: Vec<(u32, i64)> = Vec::new(alloc);
    for term in terms {
        out.push((term.0, small(quotient(term.1, g)?)?))?;
    }
    Ok(out)
}

/// The greatest number that is left as it is: 2^62.
const WIDEST: u128 = 4_611_686_018_427_387_904;

/// Whether a number of a row is past that.
fn is_wide(n: i128, terms: &[(u32, i128)]) -> bool {
    if n.unsigned_abs() > WIDEST {
        return true;
    }
    for term in terms {
        if term.1.unsigned_abs() > WIDEST {
            return true;
        }
    }
    false
}

/// The row n*x = the terms, over the greatest common divisor of its numbers where one is wide: the factor and the terms.
fn reduced(
    alloc: Global,
    n: i128,
    terms: Vec<(u32, i128)>,
) -> Result<(i128, Vec<(u32, i128)>), Stuck> {
    if !is_wide(n, terms.as_slice()) {
        return Ok((n, terms));
    }
    let g = common(n, terms.as_slice())?;
    let mut out: Vec<(u32, i128)> = Vec::new(alloc);
    for term in terms.as_slice() {
        out.push((term.0, quotient(term.1, g)?))?;
    }
    Ok((quotient(n, g)?, out))
}

impl Tableau {
    /// The value of a sum of columns, times the scale, and its infinitesimals; the columns are not basic.
    pub fn worth(&self, terms: &[(u32, i64)]) -> Result<(i128, i128), Stuck> {
        let mut value: i128 = 0;
        let mut eps: i128 = 0;
        for term in terms {
            let c = term.1 as i128;
            value = sum(value, product(c, at(self.values.as_slice(), term.0)?)?)?;
            let e = at(self.epses.as_slice(), term.0)?;
            if e != 0 {
                eps = sum(eps, product(c, e)?)?;
            }
        }
        Ok((value, eps))
    }

    /// n*x = acc, and c*column more: the row and the factor.
    fn with_column(
        &self,
        n: i128,
        acc: Vec<(u32, i128)>,
        column: u32,
        c: i64,
    ) -> Result<(i128, Vec<(u32, i128)>), Stuck> {
        let row = at(self.row_of.as_slice(), column)?;
        if row == NONE {
            let q = product(c as i128, n)?;
            let more = merged(self.alloc, 1, acc.as_slice(), q, &[(column, 1)])?;
            return Ok((n, more));
        }
        let found = item(self.rows.as_slice(), row)?;
        let m = found.factor as i128;
        let g = gcd(m, c as i128)?;
        let times = quotient(m, g)?;
        let q = product(quotient(c as i128, g)?, n)?;
        let more = merged(self.alloc, times, acc.as_slice(), q, found.terms.as_slice())?;
        Ok((product(n, times)?, more))
    }

    /// A new basic column that is the sum of these columns.
    pub fn add_row(&mut self, terms: &[(u32, i64)]) -> Result<u32, Stuck> {
        let column = self.add_column()?;
        let mut n: i128 = 1;
        let mut acc: Vec<(u32, i128)> = Vec::new(self.alloc);
        for term in terms {
            let (wide, sum) = self.with_column(n, acc, term.0, term.1)?;
            let (factor, more) = reduced(self.alloc, wide, sum)?;
            n = factor;
            acc = more;
        }
        let g = common(n, acc.as_slice())?;
        let terms = divided(self.alloc, acc.as_slice(), g)?;
        let factor = small(quotient(n, g)?)?;
        self.spend(1)?;
        self.set_row(column, factor, terms)?;
        Ok(column)
    }

    fn set_row(&mut self, column: u32, factor: i64, terms: Vec<(u32, i64)>) -> Result<(), Stuck> {
        let row = size(self.rows.len())?;
        let (value, eps) = self.worth(terms.as_slice())?;
        add_uses(&mut self.uses, terms.as_slice(), row)?;
        self.rows.push(TableRow {
            basic: column,
            factor,
            terms,
        })?;
        self.is_dirty.push(false)?;
        self.mark_dirty(row)?;
        put(&mut self.row_of, column, row)?;
        put(&mut self.values, column, value)?;
        put(&mut self.epses, column, eps)
    }
}

/// The columns of a row stand in it.
fn add_uses(uses: &mut Vec<Vec<u32>>, terms: &[(u32, i64)], row: u32) -> Result<(), Stuck> {
    for term in terms {
        lent(uses, term.0)?.push(row)?;
    }
    Ok(())
}
