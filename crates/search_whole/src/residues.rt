//! Divisibilities of one column each that leave no residue, or no value within its bounds: a conflict of few literals, found by
//! trying; its proof is made only where it is written.

use crate::attack::Attack;
use search_forms::{NO_MODULUS, linear};
use search_rows::Stuck;
use search_simplex::{NONE, difference, item, lcm, product, size, sum};
use std::alloc::Global;

/// The most residues, and the most values, that are tried.
const MOST: i128 = 5000;

/// A divisibility of one column: its column, its trail place, the modulus, the coefficient, the constant, and whether it holds or
/// fails.
type Residue = (u32, u32, i128, i128, i128, bool);

/// What the divisibilities in force come to.
#[derive(Drop)]
pub enum Residues {
    /// These places contradict each other.
    Conflict(Vec<u32>),
    /// No conflict; whether all were looked at.
    Open(bool),
}

/// What one divisibility comes to.
#[derive(Clone, Copy, PartialEq, Eq)]
enum One {
    /// Nothing, since it is not in force or true by itself.
    Nothing,
    /// It is false by itself, at this place.
    False(u32),
    /// It has more columns than one.
    Many,
    Residue(Residue),
}

fn modulo(n: i128, d: i128) -> Result<i128, Stuck> {
    n.checked_rem_euclid(d).ok_or(Stuck::Place)
}

/// Whether a value fits.
fn fits(residue: &Residue, value: i128) -> Result<bool, Stuck> {
    let d = residue.2;
    let total = sum(product(residue.3, modulo(value, d)?)?, residue.4)?;
    Ok((modulo(total, d)? == 0) == residue.5)
}

/// The values of a list that fit.
fn fitting(alloc: Global, values: &[i128], residue: &Residue) -> Result<Vec<i128>, Stuck> {
    let mut out: Vec<i128> = Vec::new(alloc);
    for value in values {
        if fits(residue, *value)? {
            out.push(*value)?;
        }
    }
    Ok(out)
}

/// The values from one to another.
fn between(alloc: Global, low: i128, high: i128) -> Result<Vec<i128>, Stuck> {
    let mut out: Vec<i128> = Vec::new(alloc);
    let mut now = low;
    for _ in 0..5001u32 {
        if now > high {
            break;
        }
        out.push(now)?;
        now = sum(now, 1)?;
    }
    Ok(out)
}

impl Attack {
    /// One divisibility.
    fn residue(&self, form: u32) -> Result<One, Stuck> {
        let found = self.search.forms.form(form)?;
        if found.modulus == NO_MODULUS || (found.low == NONE && found.high == NONE) {
            return Ok(One::Nothing);
        }
        let holds = found.low != NONE;
        let place = if holds { found.low } else { found.high };
        let d = found.modulus as i128;
        let subs = self.search.setup.subs.as_slice();
        let row = linear(self.alloc, subs, found.terms.as_slice(), found.constant)?;
        let k = modulo(row.constant, d)?;
        let mut column: u32 = NONE;
        let mut c: i128 = 0;
        for term in row.terms.as_slice() {
            let part = modulo(term.1, d)?;
            if part != 0 {
                if column != NONE {
                    return Ok(One::Many);
                }
                column = term.0;
                c = part;
            }
        }
        if column == NONE {
            return Ok(if (k == 0) == holds {
                One::Nothing
            } else {
                One::False(place)
            });
        }
        Ok(One::Residue((column, place, d, c, k, holds)))
    }

    /// The bounds of a column by itself: values and places.
    fn range_of(&self, column: u32) -> Result<Option<(i128, i128, u32, u32)>, Stuck> {
        let form = self.node_form(column)?;
        if form == NONE {
            return Ok(None);
        }
        let found = self.search.forms.form(form)?;
        if found.low == NONE || found.high == NONE {
            return Ok(None);
        }
        let low = self.num_at(found.low)?;
        let high = difference(self.num_at(found.high)?, 1)?;
        Ok(Some((low, high, found.low, found.high)))
    }

    /// The places by which no value of a list fits, none where one does.
    fn clash(&self, values: Vec<i128>, list: &[Residue]) -> Result<Option<Vec<u32>>, Stuck> {
        let mut left = values;
        let mut used: Vec<u32> = Vec::new(self.alloc);
        for residue in list {
            let more = fitting(self.alloc, left.as_slice(), residue)?;
            if more.len() < left.len() {
                used.push(residue.1)?;
            }
            left = more;
            if left.is_empty() {
                return Ok(Some(used));
            }
        }
        Ok(None)
    }

    /// The divisibilities of one column, which are of one list.
    fn column_clash(
        &self,
        list: &[Residue],
        covered: &mut bool,
    ) -> Result<Option<Vec<u32>>, Stuck> {
        let mut period: i128 = 1;
        for residue in list {
            if period <= MOST {
                period = lcm(period, residue.2)?;
            }
        }
        if period <= MOST {
            let values = between(self.alloc, 0, difference(period, 1)?)?;
            if let Some(used) = self.clash(values, list)? {
                return Ok(Some(used));
            }
        } else {
            *covered = false;
        }
        let Some(first) = list.first() else {
            return Ok(None);
        };
        let Some((low, high, low_place, high_place)) = self.range_of(first.0)? else {
            return Ok(None);
        };
        if difference(high, low)? > MOST {
            return Ok(None);
        }
        let values = between(self.alloc, low, high)?;
        match self.clash(values, list)? {
            None => Ok(None),
            Some(used) => {
                let mut used = used;
                used.push(low_place)?;
                used.push(high_place)?;
                Ok(Some(used))
            }
        }
    }

    /// All divisibilities of one column, ascending by column; a false one ends it.
    fn all_residues(&self, list: &mut Vec<Residue>, covered: &mut bool) -> Result<u32, Stuck> {
        for form in 0..size(self.search.forms.list.len())? {
            match self.residue(form)? {
                One::Nothing => {}
                One::False(place) => return Ok(place),
                One::Many => *covered = false,
                One::Residue(found) => list.push(found)?,
            }
        }
        list.sort()?;
        Ok(NONE)
    }

    /// What the divisibilities in force come to.
    pub fn residues(&self) -> Result<Residues, Stuck> {
        let mut covered = true;
        let mut list: Vec<Residue> = Vec::new(self.alloc);
        let place = self.all_residues(&mut list, &mut covered)?;
        if place != NONE {
            let mut one: Vec<u32> = Vec::new(self.alloc);
            one.push(place)?;
            return Ok(Residues::Conflict(one));
        }
        let mut from: usize = 0;
        for _ in 0..list.len() {
            let to = group_end(list.as_slice(), from);
            let Some(group) = list.as_slice().get(from..to) else {
                break;
            };
            if let Some(used) = self.column_clash(group, &mut covered)? {
                return Ok(Residues::Conflict(used));
            }
            from = to;
        }
        Ok(Residues::Open(covered))
    }

    /// Whether a place is of a divisibility, or of a single column.
    pub fn is_narrow(&self, place: u32) -> Result<bool, Stuck> {
        let form = self.search.forms.form_of(self.search.code_at(place)?)?;
        let found = item(self.search.forms.list.as_slice(), form)?;
        Ok(found.modulus != NO_MODULUS || found.terms.len() == 1)
    }

    /// Whether a divisibility is in force.
    pub fn has_divisibility(&self, places: &[u32]) -> Result<bool, Stuck> {
        for place in places {
            let form = self.search.forms.form_of(self.search.code_at(*place)?)?;
            if self.search.is_divisibility(form)? {
                return Ok(true);
            }
        }
        Ok(false)
    }
}

/// The place behind the divisibilities of the column at a place.
fn group_end(list: &[Residue], from: usize) -> usize {
    let mut end = from;
    let mut column: u32 = NONE;
    for residue in list.iter().skip(from) {
        if column != NONE && residue.0 != column {
            return end;
        }
        column = residue.0;
        end = end.wrapping_add(1);
    }
    end
}
