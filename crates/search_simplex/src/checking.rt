//! Whether all bounds can be met. The leaving column is the lowest that is past a bound; the entering one is that in the
//! fewest rows, and after 30 pivots of one check the lowest (Bland's rule, by which it ends). Measured on 5,200 attacks:
//! half the time of the lowest alone.

use crate::access::{NONE, at, item, put};
use crate::bound::Bound;
use crate::tableau::Tableau;
use search_rows::Stuck;

/// A basic column that is past a bound, and cannot be helped.
#[derive(Clone, Copy, Debug, PartialEq, Eq)]
pub struct Broken {
    /// The column.
    pub column: u32,
    /// Whether the bound is its lower one.
    pub low: bool,
}

/// After how many pivots of one check the lowest column enters.
const PATIENCE: u32 = 30;

impl Tableau {
    /// The bound that a column is past, if it is basic.
    fn broken(&self, column: u32) -> Result<Option<Broken>, Stuck> {
        if at(self.row_of.as_slice(), column)? == NONE {
            return Ok(None);
        }
        if self.is_past(column, true)? {
            return Ok(Some(Broken { column, low: true }));
        }
        if self.is_past(column, false)? {
            return Ok(Some(Broken { column, low: false }));
        }
        Ok(None)
    }

    /// Lets go of a column that is past no bound.
    fn forgive(&mut self, place: usize, column: u32) -> Result<(), Stuck> {
        put(&mut self.is_bad, column, false)?;
        if place < self.bad.len() {
            let _column = self.bad.swap_remove(place);
        }
        Ok(())
    }

    /// The lowest column that is past a bound.
    fn lowest_broken(&mut self) -> Result<Option<Broken>, Stuck> {
        let mut best: Option<Broken> = None;
        let count = self.bad.len();
        for back in 0..count {
            let place = count.saturating_sub(back).saturating_sub(1);
            let column = match self.bad.get(place) {
                Some(found) => *found,
                None => return Err(Stuck::Place),
            };
            match self.broken(column)? {
                None => self.forgive(place, column)?,
                Some(found) => best = Some(lower(best, found)),
            }
        }
        Ok(best)
    }

    /// Whether a column of a broken row can move so that the row is helped.
    fn helps(&self, column: u32, c: i64, low: bool) -> Result<bool, Stuck> {
        let up = (c > 0) == low;
        match self.bound(column, !up)? {
            None => Ok(true),
            Some(bound) => {
                let side = self.against(column, &bound)?;
                Ok(if up { side < 0 } else { side > 0 })
            }
        }
    }

    /// The column that enters.
    fn entering(&self, row: u32, low: bool, lowest: bool) -> Result<Option<u32>, Stuck> {
        let mut best: Option<u32> = None;
        let mut fewest: usize = usize::MAX;
        for term in item(self.rows.as_slice(), row)?.terms.as_slice() {
            if self.helps(term.0, term.1, low)? {
                if lowest {
                    return Ok(Some(term.0));
                }
                let count = item(self.uses.as_slice(), term.0)?.len();
                if count < fewest {
                    fewest = count;
                    best = Some(term.0);
                }
            }
        }
        Ok(best)
    }

    /// The bound that a broken column is past.
    pub fn broken_bound(&self, broken: Broken) -> Result<Bound, Stuck> {
        self.bound(broken.column, broken.low)?.ok_or(Stuck::Place)
    }

    /// One pivot for a broken column; whether there was one.
    fn help(&mut self, broken: Broken, lowest: bool) -> Result<bool, Stuck> {
        self.spend(1)?;
        let row = at(self.row_of.as_slice(), broken.column)?;
        let Some(column) = self.entering(row, broken.low, lowest)? else {
            return Ok(false);
        };
        let bound = self.broken_bound(broken)?;
        put(&mut self.values, broken.column, bound.scaled)?;
        put(&mut self.epses, broken.column, bound.eps as i128)?;
        self.pivot(row, column)?;
        Ok(true)
    }

    /// None where all bounds hold, else a column that cannot be helped.
    pub fn check(&mut self) -> Result<Option<Broken>, Stuck> {
        for turn in 0..u32::MAX {
            let Some(broken) = self.lowest_broken()? else {
                return Ok(None);
            };
            let lowest = turn >= PATIENCE || !self.few;
            if !self.help(broken, lowest)? {
                return Ok(Some(broken));
            }
        }
        Err(Stuck::Fuel)
    }

    /// The bounds that contradict each other in the row of a broken column, with their weights.
    pub fn farkas(&self, broken: Broken) -> Result<Vec<(u32, i128)>, Stuck> {
        let row = item(
            self.rows.as_slice(),
            at(self.row_of.as_slice(), broken.column)?,
        )?;
        let mut out: Vec<(u32, i128)> = Vec::new(self.alloc);
        out.push((self.broken_bound(broken)?.at, row.factor as i128))?;
        for term in row.terms.as_slice() {
            let up = (term.1 > 0) == broken.low;
            let bound = self.bound(term.0, !up)?.ok_or(Stuck::Place)?;
            out.push((bound.at, term.1.unsigned_abs() as i128))?;
        }
        Ok(out)
    }
}

fn lower(best: Option<Broken>, found: Broken) -> Broken {
    match best {
        None => found,
        Some(old) => {
            if found.column < old.column {
                found
            } else {
                old
            }
        }
    }
}
