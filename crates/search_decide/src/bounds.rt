//! Values put back, one variable after the other, between the bounds that its elimination kept.

use crate::ratio::Ratio;
use crate::values::Values;
use lin_term::Sort;
use search_rows::{Elimination, Level, Numbered, Stuck};
use std::cmp::Ordering;

/// How many whole numbers are tried for a variable.
const TRIES: i64 = 200;

/// A bound and whether it is strict.
#[derive(Clone, Copy, Debug, PartialEq, Eq)]
struct Bound {
    value: Ratio,
    strict: bool,
}

/// The greatest lower and the least upper bound.
#[derive(Clone, Copy, Debug, PartialEq, Eq)]
struct Between {
    low: Option<Bound>,
    high: Option<Bound>,
}

fn is_stronger(order: Ordering, wanted: Ordering, strict: bool) -> bool {
    order == wanted || (order == Ordering::Equal && strict)
}

fn stronger(old: Option<Bound>, value: Ratio, strict: bool, wanted: Ordering) -> Option<Bound> {
    match old {
        None => Some(Bound { value, strict }),
        Some(bound) => {
            if is_stronger(value.compare(&bound.value), wanted, strict) {
                Some(Bound { value, strict })
            } else {
                Some(bound)
            }
        }
    }
}

fn meets(value: &Ratio, bound: Option<Bound>, wanted: Ordering) -> bool {
    match bound {
        None => true,
        Some(bound) => {
            let order = value.compare(&bound.value);
            order == wanted || (order == Ordering::Equal && !bound.strict)
        }
    }
}

impl Between {
    /// The bounds that the atoms set to a variable, at the values of the others.
    fn of(bounds: &[Numbered], var: u32, values: &Values) -> Result<Between, Stuck> {
        let mut low: Option<Bound> = None;
        let mut high: Option<Bound> = None;
        for each in bounds {
            let c = each.atom.coefficient(var);
            if c == 0 || !each.atom.is_bound() {
                continue;
            }
            let value = values.rest(&each.atom, var)?.minus_over(c)?;
            if c > 0 {
                low = stronger(low, value, each.atom.is_strict(), Ordering::Greater);
            } else {
                high = stronger(high, value, each.atom.is_strict(), Ordering::Less);
            }
        }
        Ok(Between { low, high })
    }

    fn has(&self, value: &Ratio) -> bool {
        meets(value, self.low, Ordering::Greater) && meets(value, self.high, Ordering::Less)
    }

    /// The whole number nearest to 0 over the lower bound.
    fn over(&self) -> Result<Option<i64>, Stuck> {
        match self.low {
            None => Ok(None),
            Some(bound) => {
                let up = bound.value.ceiling()?;
                if bound.strict && bound.value.is_whole() {
                    Ok(Some(up.checked_add(1).ok_or(Stuck::Wide)?))
                } else {
                    Ok(Some(up))
                }
            }
        }
    }

    /// The whole number nearest to 0 under the upper bound.
    fn under(&self) -> Result<Option<i64>, Stuck> {
        match self.high {
            None => Ok(None),
            Some(bound) => {
                let down = bound.value.floor()?;
                if bound.strict && bound.value.is_whole() {
                    Ok(Some(down.checked_sub(1).ok_or(Stuck::Wide)?))
                } else {
                    Ok(Some(down))
                }
            }
        }
    }

    /// 0, else the whole number nearest to 0, else the middle.
    fn nicest(&self) -> Result<Ratio, Stuck> {
        let zero = Ratio::whole(0);
        if self.has(&zero) {
            return Ok(zero);
        }
        if let Some(n) = self.over()? {
            let up = Ratio::whole(n);
            if n >= 0 && self.has(&up) {
                return Ok(up);
            }
        }
        if let Some(n) = self.under()? {
            let down = Ratio::whole(n);
            if n <= 0 && self.has(&down) {
                return Ok(down);
            }
        }
        match self.low {
            None => Err(Stuck::Place),
            Some(low) => match self.high {
                None => Err(Stuck::Place),
                Some(high) => low.value.add(&high.value)?.minus_over(-2),
            },
        }
    }
}

/// Whether the divisibilities at the variable hold, of those whose other variables have values.
fn fits(core: &[Numbered], var: u32, values: &Values) -> Result<bool, Stuck> {
    for each in core {
        if !each.atom.is_bound()
            && each.atom.coefficient(var) != 0
            && values.is_ready(&each.atom, var)
        {
            if !values.holds(&each.atom)? {
                return Ok(false);
            }
        }
    }
    Ok(true)
}

/// The whole number that is tried at this step: away from the bound that is nearest to 0, around 0 where it fits.
fn tried(over: Option<i64>, under: Option<i64>, step: i64) -> Option<i64> {
    if let Some(low) = over {
        if low > 0 {
            return low.checked_add(step);
        }
    }
    if let Some(high) = under {
        if high < 0 {
            return high.checked_sub(step);
        }
    }
    let half = step / 2;
    if step % 2 == 0 {
        Some(half)
    } else {
        (-1i64).checked_sub(half)
    }
}

fn is_between(over: Option<i64>, under: Option<i64>, n: i64) -> bool {
    let low = match over {
        None => true,
        Some(l) => l <= n,
    };
    let high = match under {
        None => true,
        Some(h) => n <= h,
    };
    low && high
}

/// A whole number for the variable that meets its bounds and the divisibilities that are ready; false where none was found.
fn set_whole(
    bounds: &[Numbered],
    core: &[Numbered],
    var: u32,
    values: &mut Values,
) -> Result<bool, Stuck> {
    let between = Between::of(bounds, var, values)?;
    let over = between.over()?;
    let under = between.under()?;
    for step in 0..TRIES {
        let Some(n) = tried(over, under, step) else {
            return Ok(false);
        };
        if is_between(over, under, n) {
            values.set(var, Ratio::whole(n))?;
            if fits(core, var, values)? {
                return Ok(true);
            }
        }
    }
    Ok(false)
}

/// A value for the variable of a level; false where no whole number was found.
fn set_level(
    sort: Sort,
    level: &Level,
    core: &[Numbered],
    values: &mut Values,
) -> Result<bool, Stuck> {
    match sort {
        Sort::Rat => {
            let ratio = Between::of(level.bounds.as_slice(), level.var, values)?.nicest()?;
            values.set(level.var, ratio)?;
            Ok(true)
        }
        Sort::Int => set_whole(level.bounds.as_slice(), core, level.var, values),
    }
}

/// Values from the first `from` levels, the last one first; false where a whole number was not found.
pub fn put_back(
    sort: Sort,
    sums: &Elimination,
    from: usize,
    values: &mut Values,
) -> Result<bool, Stuck> {
    for level in sums.levels.as_slice().iter().take(from).rev() {
        if !set_level(sort, level, sums.core.as_slice(), values)? {
            return Ok(false);
        }
    }
    Ok(true)
}

/// Values of the variables that only divisibilities have.
pub fn put_divided(sums: &Elimination, values: &mut Values) -> Result<bool, Stuck> {
    for each in sums.core.as_slice() {
        if !each.atom.is_bound() {
            for term in each.atom.coefs.as_slice() {
                if !is_level(sums, term.0) && !values.is_set(term.0) {
                    let none: &[Numbered] = &[];
                    if !set_whole(none, sums.core.as_slice(), term.0, values)? {
                        return Ok(false);
                    }
                }
            }
        }
    }
    Ok(true)
}

/// Whether a variable was taken out.
fn is_level(sums: &Elimination, var: u32) -> bool {
    for level in sums.levels.as_slice() {
        if level.var == var {
            return true;
        }
    }
    false
}
