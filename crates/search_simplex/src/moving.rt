//! Bounds set and taken back, and values of columns that are not basic.

use crate::access::{NONE, at, item, put};
use crate::bound::Bound;
use crate::number::{difference, product};
use crate::tableau::{TableRow, Tableau};
use search_rows::Stuck;

/// The coefficient of a column in a row, by halves.
pub fn coefficient(row: &TableRow, column: u32) -> i64 {
    let mut from: usize = 0;
    let mut to = row.terms.len();
    for _ in 0..64 {
        if from >= to {
            return 0;
        }
        let middle = from / 2 + to / 2 + (from % 2 + to % 2) / 2;
        let Some(term) = row.terms.get(middle) else {
            return 0;
        };
        if term.0 == column {
            return term.1;
        }
        if term.0 < column {
            from = middle.wrapping_add(1);
        } else {
            to = middle;
        }
    }
    0
}

impl Tableau {
    /// Sets a bound num/den + eps of a column; gives the one that stood before.
    pub fn set_bound(
        &mut self,
        column: u32,
        low: bool,
        num: i64,
        den: i64,
        eps: i64,
        by: u32,
    ) -> Result<Option<Bound>, Stuck> {
        self.fit_scale(den)?;
        let scaled = self.over_scale(num, den)?;
        let new = Bound {
            num,
            den,
            eps,
            scaled,
            at: by,
        };
        let old = self.bound(column, low)?;
        self.put_bound(column, low, Some(new))?;
        let past = self.is_past(column, low)?;
        let row = at(self.row_of.as_slice(), column)?;
        if row == NONE {
            if past {
                self.move_to(column, scaled, eps as i128)?;
            }
            self.mark_uses(column)?;
        } else {
            if past {
                self.mark_bad(column)?;
            }
            self.mark_dirty(row)?;
        }
        Ok(old)
    }

    /// The rows of a column changed.
    fn mark_uses(&mut self, column: u32) -> Result<(), Stuck> {
        let count = item(self.uses.as_slice(), column)?.len();
        for place in 0..count {
            let row = self.use_at(column, place)?;
            self.mark_dirty(row)?;
        }
        Ok(())
    }

    /// A row in which a column stands.
    pub fn use_at(&self, column: u32, place: usize) -> Result<u32, Stuck> {
        let uses = item(self.uses.as_slice(), column)?;
        match uses.get(place) {
            Some(row) => Ok(*row),
            None => Err(Stuck::Place),
        }
    }

    /// Puts a bound back; its numerator may be over an old scale.
    pub fn restore(&mut self, column: u32, low: bool, old: Option<Bound>) -> Result<(), Stuck> {
        match old {
            None => self.put_bound(column, low, None),
            Some(bound) => {
                let mut new = bound;
                new.scaled = self.over_scale(bound.num, bound.den)?;
                self.put_bound(column, low, Some(new))
            }
        }
    }

    /// Moves a column that is not basic to a value.
    pub fn move_to(&mut self, column: u32, value: i128, eps: i128) -> Result<(), Stuck> {
        let more = difference(value, at(self.values.as_slice(), column)?)?;
        let more_eps = difference(eps, at(self.epses.as_slice(), column)?)?;
        put(&mut self.values, column, value)?;
        put(&mut self.epses, column, eps)?;
        let count = item(self.uses.as_slice(), column)?.len();
        for place in 0..count {
            let row = self.use_at(column, place)?;
            self.move_basic(row, column, more, more_eps)?;
        }
        Ok(())
    }

    /// The basic column of a row moves along with one of its columns.
    fn move_basic(&mut self, row: u32, column: u32, more: i128, eps: i128) -> Result<(), Stuck> {
        let found = item(self.rows.as_slice(), row)?;
        let c = coefficient(found, column) as i128;
        let basic = found.basic;
        self.add_value(basic, product(c, more)?, product(c, eps)?)?;
        self.mark_bad(basic)
    }

    /// Starts a column that has no bounds yet at a value.
    pub fn start_at(&mut self, column: u32, num: i64, den: i64) -> Result<(), Stuck> {
        if at(self.row_of.as_slice(), column)? != NONE {
            return Ok(());
        }
        self.fit_scale(den)?;
        let value = self.over_scale(num, den)?;
        self.move_to(column, value, 0)
    }
}
