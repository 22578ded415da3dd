//! A pivot: a basic column leaves, another of its row enters. The leaving row is solved for the entering column, and put
//! into each row in which that stood.

use crate::access::{NONE, item, lent, put};
use crate::adding::{common, divided};
use crate::moving::coefficient;
use crate::number::{gcd, quotient, small};
use crate::tableau::{TableRow, Tableau};
use search_rows::{Stuck, blended};
use std::alloc::Global;
use std::mem;

/// The terms without a column.
fn without(alloc: Global, terms: &[(u32, i64)], column: u32) -> Result<Vec<(u32, i64)>, Stuck> {
    let mut out: Vec<(u32, i64)> = Vec::new(alloc);
    for term in terms {
        if term.0 != column {
            out.push(*term)?;
        }
    }
    Ok(out)
}

/// The terms in one word each.
fn narrow(alloc: Global, terms: &[(u32, i128)]) -> Result<Vec<(u32, i64)>, Stuck> {
    divided(alloc, terms, 1)
}

/// Takes a row number out of a list.
fn take_out(list: &mut Vec<u32>, row: u32) {
    for place in 0..list.len() {
        if list.get(place) == Some(&row) {
            if place < list.len() {
                let _row = list.swap_remove(place);
            }
            return;
        }
    }
}

/// A row that stands for none.
fn no_row(alloc: Global) -> TableRow {
    TableRow {
        basic: 0,
        factor: 1,
        terms: Vec::new(alloc),
    }
}

/// The rows of the columns where the old terms of a row become the new ones; only columns of `changed` may come or go.
fn update_uses(
    uses: &mut Vec<Vec<u32>>,
    old: &TableRow,
    new: &TableRow,
    changed: &[(u32, i64)],
    row: u32,
) -> Result<(), Stuck> {
    for term in changed {
        let was = coefficient(old, term.0) != 0;
        let is = coefficient(new, term.0) != 0;
        if is && !was {
            lent(uses, term.0)?.push(row)?;
        }
        if was && !is {
            take_out(lent(uses, term.0)?, row);
        }
    }
    Ok(())
}

impl Tableau {
    /// The row solved for a column: its terms and the column's factor.
    fn solved(&self, row: u32, column: u32) -> Result<TableRow, Stuck> {
        let found = item(self.rows.as_slice(), row)?;
        let c = coefficient(found, column);
        let rest = without(self.alloc, found.terms.as_slice(), column)?;
        let sign: i64 = if c > 0 { -1 } else { 1 };
        let factor = small(c.unsigned_abs() as i128)?;
        if factor == 0 {
            return Err(Stuck::Place);
        }
        let side = if c > 0 {
            found.factor
        } else {
            found.factor.checked_neg().ok_or(Stuck::Wide)?
        };
        let basic: [(u32, i64); 1] = [(found.basic, side)];
        let terms = blended(self.alloc, sign, rest.as_slice(), 1, basic.as_slice())?;
        Ok(TableRow {
            basic: column,
            factor,
            terms: narrow(self.alloc, terms.as_slice())?,
        })
    }

    /// A row in which the entering column stands, with the solved row put in.
    fn put_solved(&self, old: &TableRow, new: &TableRow) -> Result<TableRow, Stuck> {
        let d = coefficient(old, new.basic);
        let g = gcd(d as i128, new.factor as i128)?;
        let f = small(quotient(d as i128, g)?)?;
        let t = small(quotient(new.factor as i128, g)?)?;
        let rest = without(self.alloc, old.terms.as_slice(), new.basic)?;
        let terms = blended(self.alloc, t, rest.as_slice(), f, new.terms.as_slice())?;
        let n = old.factor as i128 * t as i128;
        let g = common(n, terms.as_slice())?;
        Ok(TableRow {
            basic: old.basic,
            factor: small(quotient(n, g)?)?,
            terms: divided(self.alloc, terms.as_slice(), g)?,
        })
    }

    /// Puts the solved row into another.
    fn combine(&mut self, row: u32, solved: &TableRow) -> Result<(), Stuck> {
        let old = mem::replace(lent(&mut self.rows, row)?, no_row(self.alloc));
        let new = self.put_solved(&old, solved)?;
        let work = (new.terms.len() as u64) / 16;
        update_uses(&mut self.uses, &old, &new, solved.terms.as_slice(), row)?;
        let (value, eps) = self.worth(new.terms.as_slice())?;
        let basic = new.basic;
        let slot = lent(&mut self.rows, row)?;
        *slot = new;
        put(&mut self.values, basic, value)?;
        put(&mut self.epses, basic, eps)?;
        self.mark_bad(basic)?;
        self.mark_dirty(row)?;
        self.spend(work)
    }

    /// The basic column of a row leaves, the other enters.
    pub fn pivot(&mut self, row: u32, column: u32) -> Result<(), Stuck> {
        self.pivots = self.pivots.wrapping_add(1);
        let leaving = item(self.rows.as_slice(), row)?.basic;
        let solved = self.solved(row, column)?;
        put(&mut self.row_of, leaving, NONE)?;
        put(&mut self.row_of, column, row)?;
        let (value, eps) = self.worth(solved.terms.as_slice())?;
        put(&mut self.values, column, value)?;
        put(&mut self.epses, column, eps)?;
        let others = mem::replace(lent(&mut self.uses, column)?, Vec::new(self.alloc));
        let slot = lent(&mut self.uses, leaving)?;
        slot.clear();
        slot.push(row)?;
        for other in others.as_slice() {
            if *other != row {
                self.combine(*other, &solved)?;
            }
        }
        let slot = lent(&mut self.rows, row)?;
        *slot = solved;
        self.mark_bad(column)?;
        self.mark_dirty(row)
    }
}
