//! The tableau: rows n*b = sum c*x with whole coprime numbers and n above 0, values over one common scale. A column that is
//! not basic has the value (value + eps*e) over the scale, a basic one that over n times the scale.

use crate::access::{NONE, at, item, lent, put, size};
use crate::bound::Bound;
use crate::number::{gcd, product, quotient, small};
use search_rows::Stuck;
use std::alloc::Global;

/// The greatest scale: 2^52.
const SCALE_CAP: i128 = 4_503_599_627_370_496;

/// factor * basic = the terms.
#[derive(Debug, Drop)]
pub struct TableRow {
    /// The basic column.
    pub basic: u32,
    /// Its factor, 1 or more.
    pub factor: i64,
    /// The terms, ascending by column.
    pub terms: Vec<(u32, i64)>,
}

/// The columns with their bounds and values, and the rows.
#[derive(Debug, Drop)]
pub struct Tableau {
    pub alloc: Global,
    /// What all values and bounds are over.
    pub scale: i64,
    /// The row in which a column is basic.
    pub row_of: Vec<u32>,
    pub rows: Vec<TableRow>,
    /// The rows in which a column stands.
    pub uses: Vec<Vec<u32>>,
    pub values: Vec<i128>,
    pub epses: Vec<i128>,
    pub lows: Vec<Option<Bound>>,
    pub highs: Vec<Option<Bound>>,
    /// Basic columns that may be past a bound.
    pub bad: Vec<u32>,
    pub is_bad: Vec<bool>,
    /// Rows that changed.
    pub dirty: Vec<u32>,
    pub is_dirty: Vec<bool>,
    /// Whether the entering column is the one in the fewest rows, else the lowest.
    pub few: bool,
    /// What work is left.
    pub fuel: u64,
    pub pivots: u64,
}

impl Tableau {
    /// No column.
    pub fn new(alloc: Global, few: bool, fuel: u64) -> Tableau {
        Tableau {
            alloc,
            scale: 1,
            row_of: Vec::new(alloc),
            rows: Vec::new(alloc),
            uses: Vec::new(alloc),
            values: Vec::new(alloc),
            epses: Vec::new(alloc),
            lows: Vec::new(alloc),
            highs: Vec::new(alloc),
            bad: Vec::new(alloc),
            is_bad: Vec::new(alloc),
            dirty: Vec::new(alloc),
            is_dirty: Vec::new(alloc),
            few,
            fuel,
            pivots: 0,
        }
    }

    /// Uses some of the fuel.
    pub fn spend(&mut self, work: u64) -> Result<(), Stuck> {
        self.fuel = self.fuel.checked_sub(work).ok_or(Stuck::Fuel)?;
        Ok(())
    }

    /// One more column, without bounds and at 0.
    pub fn add_column(&mut self) -> Result<u32, Stuck> {
        let column = size(self.row_of.len())?;
        self.row_of.push(NONE)?;
        self.uses.push(Vec::new(self.alloc))?;
        self.values.push(0)?;
        self.epses.push(0)?;
        self.lows.push(None)?;
        self.highs.push(None)?;
        self.is_bad.push(false)?;
        Ok(column)
    }

    /// What the value of a column is over, beside the scale.
    pub fn factor_of(&self, column: u32) -> Result<i64, Stuck> {
        let row = at(self.row_of.as_slice(), column)?;
        if row == NONE {
            return Ok(1);
        }
        Ok(item(self.rows.as_slice(), row)?.factor)
    }

    /// The basic column may be past a bound.
    pub fn mark_bad(&mut self, column: u32) -> Result<(), Stuck> {
        if !at(self.is_bad.as_slice(), column)? {
            put(&mut self.is_bad, column, true)?;
            self.bad.push(column)?;
        }
        Ok(())
    }

    /// The row changed.
    pub fn mark_dirty(&mut self, row: u32) -> Result<(), Stuck> {
        if !at(self.is_dirty.as_slice(), row)? {
            put(&mut self.is_dirty, row, true)?;
            self.dirty.push(row)?;
        }
        Ok(())
    }

    /// A row that changed since it was last taken.
    pub fn take_dirty(&mut self) -> Result<Option<u32>, Stuck> {
        let Some(row) = self.dirty.pop() else {
            return Ok(None);
        };
        put(&mut self.is_dirty, row, false)?;
        Ok(Some(row))
    }

    /// Whether no column may be past a bound.
    pub fn is_quiet(&self) -> bool {
        self.bad.is_empty()
    }

    /// A bound of a column.
    pub fn bound(&self, column: u32, low: bool) -> Result<Option<Bound>, Stuck> {
        if low {
            at(self.lows.as_slice(), column)
        } else {
            at(self.highs.as_slice(), column)
        }
    }

    /// Puts a bound in the place of another.
    pub fn put_bound(&mut self, column: u32, low: bool, new: Option<Bound>) -> Result<(), Stuck> {
        if low {
            put(&mut self.lows, column, new)
        } else {
            put(&mut self.highs, column, new)
        }
    }

    /// How the value of a column stands to a bound: below 0 where it is less, above 0 where it is greater.
    pub fn against(&self, column: u32, bound: &Bound) -> Result<i8, Stuck> {
        let n = self.factor_of(column)? as i128;
        let aim = product(bound.scaled, n)?;
        let value = at(self.values.as_slice(), column)?;
        if value != aim {
            return Ok(if value < aim { -1 } else { 1 });
        }
        let aim = product(bound.eps as i128, n)?;
        let value = at(self.epses.as_slice(), column)?;
        if value == aim {
            return Ok(0);
        }
        Ok(if value < aim { -1 } else { 1 })
    }

    /// Whether the value of a column is past a bound of it.
    pub fn is_past(&self, column: u32, low: bool) -> Result<bool, Stuck> {
        match self.bound(column, low)? {
            None => Ok(false),
            Some(bound) => {
                let side = self.against(column, &bound)?;
                Ok(if low { side < 0 } else { side > 0 })
            }
        }
    }

    /// Makes the scale a multiple of a denominator.
    pub fn fit_scale(&mut self, den: i64) -> Result<(), Stuck> {
        let g = gcd(self.scale as i128, den as i128)?;
        let times = quotient(den as i128, g)?;
        if times == 1 {
            return Ok(());
        }
        let scale = product(self.scale as i128, times)?;
        if scale > SCALE_CAP {
            return Err(Stuck::Wide);
        }
        multiply_values(&mut self.values, times)?;
        multiply_bounds(&mut self.lows, times)?;
        multiply_bounds(&mut self.highs, times)?;
        self.scale = small(scale)?;
        Ok(())
    }

    /// The numerator of a fraction over the scale, which is a multiple of its denominator.
    pub fn over_scale(&self, num: i64, den: i64) -> Result<i128, Stuck> {
        product(num as i128, quotient(self.scale as i128, den as i128)?)
    }

    /// Adds to a value.
    pub fn add_value(&mut self, column: u32, more: i128, eps: i128) -> Result<(), Stuck> {
        let slot = lent(&mut self.values, column)?;
        *slot = slot.checked_add(more).ok_or(Stuck::Wide)?;
        if eps != 0 {
            let slot = lent(&mut self.epses, column)?;
            *slot = slot.checked_add(eps).ok_or(Stuck::Wide)?;
        }
        Ok(())
    }
}

fn multiply_values(values: &mut Vec<i128>, times: i128) -> Result<(), Stuck> {
    for place in 0..values.len() {
        let slot = values.get_mut(place).ok_or(Stuck::Place)?;
        *slot = slot.checked_mul(times).ok_or(Stuck::Wide)?;
    }
    Ok(())
}

fn multiply_bounds(bounds: &mut Vec<Option<Bound>>, times: i128) -> Result<(), Stuck> {
    for place in 0..bounds.len() {
        let slot = bounds.get_mut(place).ok_or(Stuck::Place)?;
        if let Some(old) = *slot {
            let mut new = old;
            new.scaled = product(old.scaled, times)?;
            *slot = Some(new);
        }
    }
    Ok(())
}
