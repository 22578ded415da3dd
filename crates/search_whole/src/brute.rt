//! All points tried, where the bounds of level 0 leave few: at most 20,000. Once an attack, where it has divisibilities or 15
//! conflicts.

use crate::attack::{Attack, Offer};
use search_forms::NO_MODULUS;
use search_rows::Stuck;
use search_simplex::{NONE, at, difference, product, put, size, sum};
use search_trail::completed;

/// The most points.
const MOST: i128 = 20_000;

/// The same, as a count of steps.
const STEPS: u32 = 20_000;

/// A column with its least and its greatest value.
#[derive(Clone, Copy, PartialEq, Eq)]
struct Side {
    node: u32,
    low: i128,
    high: i128,
}

impl Attack {
    /// The place of the first bound of a chain that is of level 0.
    fn root(&self, place: u32) -> Result<u32, Stuck> {
        let mut now = place;
        for _ in 0..self.search.trail.entries.len() {
            if now == NONE {
                return Ok(NONE);
            }
            let entry = self.search.entry(now)?;
            if entry.level == 0 {
                return Ok(now);
            }
            now = entry.prev;
        }
        Ok(NONE)
    }

    /// The number of the threshold at a place.
    pub fn num_at(&self, place: u32) -> Result<i128, Stuck> {
        let code = self.search.code_at(place)?;
        Ok(self.search.forms.threshold(code / 2)?.num as i128)
    }

    /// The form of a node that is a column by itself, if it has one.
    pub fn node_form(&self, node: u32) -> Result<u32, Stuck> {
        let column = at(self.search.columns.of_node.as_slice(), node)?;
        if column == NONE {
            return Ok(NONE);
        }
        at(self.search.columns.forms.as_slice(), column)
    }

    /// The values of a node within the bounds of level 0; none where a side is open.
    fn side(&self, node: u32) -> Result<Option<Side>, Stuck> {
        let form = self.node_form(node)?;
        if form == NONE {
            return Ok(None);
        }
        let found = self.search.forms.form(form)?;
        if found.modulus != NO_MODULUS {
            return Ok(None);
        }
        let low = self.root(found.low)?;
        let high = self.root(found.high)?;
        if low == NONE || high == NONE {
            return Ok(None);
        }
        Ok(Some(Side {
            node,
            low: self.num_at(low)?,
            high: difference(self.num_at(high)?, 1)?,
        }))
    }

    /// The sides of all opponent's nodes, if they leave few points.
    fn sides(&self) -> Result<Option<Vec<Side>>, Stuck> {
        let mut out: Vec<Side> = Vec::new(self.alloc);
        let mut count: i128 = 1;
        for node in 0..self.nodes() {
            if !self.search.setup.is_move(node)? {
                let Some(side) = self.side(node)? else {
                    return Ok(None);
                };
                count = product(count, sum(difference(side.high, side.low)?, 1)?)?;
                if count < 1 || count > MOST {
                    return Ok(None);
                }
                out.push(side)?;
            }
        }
        Ok(Some(out))
    }

    /// Whether values meet all paths, the one that failed last first.
    fn is_point(&self, values: &[i128], last: &mut u32) -> Result<bool, Stuck> {
        let count = self.search.setup.path_count();
        for i in 0..count {
            let path = last.wrapping_add(i).checked_rem(count).ok_or(Stuck::Place)?;
            if !self.search.is_met_at(path, 0, 1, values)? {
                *last = path;
                return Ok(false);
            }
        }
        Ok(true)
    }

    /// A point within few bounds, if there is one.
    pub fn brute(&mut self) -> Result<Option<Offer>, Stuck> {
        if self.budget.bruted {
            return Ok(None);
        }
        self.budget.bruted = true;
        let Some(sides) = self.sides()? else {
            return Ok(None);
        };
        let mut now: Vec<i128> = Vec::new(self.alloc);
        now.resize(self.nodes() as usize, 0)?;
        for side in sides.as_slice() {
            put(&mut now, side.node, side.low)?;
        }
        let mut last: u32 = 0;
        for _ in 0..STEPS {
            let values = completed(self.alloc, &self.search.setup, now.as_slice())?;
            if self.is_point(values.as_slice(), &mut last)? {
                return self.met(values);
            }
            if !step(sides.as_slice(), &mut now)? {
                return Ok(None);
            }
        }
        Ok(None)
    }
}

/// The next point; false behind the last.
fn step(sides: &[Side], now: &mut Vec<i128>) -> Result<bool, Stuck> {
    for place in (0..size(sides.len())?).rev() {
        let side = at(sides, place)?;
        let value = at(now.as_slice(), side.node)?;
        if value < side.high {
            put(now, side.node, sum(value, 1)?)?;
            return Ok(true);
        }
        put(now, side.node, side.low)?;
    }
    Ok(false)
}
