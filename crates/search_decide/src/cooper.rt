//! Cooper 1972: the cases of one variable over the integers, one at a time, in the order in which a line `least` leaves
//! them.

use crate::ratio::Ratio;
use crate::values::Values;
use lin_term::{Sort, gcd_of_words};
use search_rows::{Atom, AtomKind, Numbered, Stuck, blended, primitive};
use std::alloc::Global;

/// A variable of a conjunction, and the cases by which it is taken out.
#[derive(Clone, Copy, Debug, PartialEq, Eq)]
pub struct Target {
    /// The variable.
    pub var: u32,
    /// How many cases there are.
    pub count: u64,
    /// The least common multiple of the moduli, each over its common divisor with the variable's coefficient.
    pub period: u64,
    /// The sum of the variable's coefficients in its lower bounds; 0 where it has none.
    pub lower: u64,
}

/// The period with one modulus more.
fn joined(period: u64, d: u64, c: i64) -> Result<u64, Stuck> {
    let part = d
        .checked_div(gcd_of_words(d, c.unsigned_abs()))
        .ok_or(Stuck::Place)?;
    let rest = part
        .checked_div(gcd_of_words(period, part))
        .ok_or(Stuck::Place)?;
    period.checked_mul(rest).ok_or(Stuck::Wide)
}

fn is_lower(atom: &Atom, c: i64) -> bool {
    c > 0 && atom.is_bound()
}

/// The cases with one atom more, in which the variable has the coefficient c.
fn with_atom(target: Target, atom: &Atom, c: i64) -> Result<Target, Stuck> {
    let mut more = target;
    match atom.kind {
        AtomKind::Divides(d) => more.period = joined(target.period, d, c)?,
        AtomKind::NotDivides(d) => more.period = joined(target.period, d, c)?,
        AtomKind::AtLeast | AtomKind::Above => {
            if c > 0 {
                more.lower = target
                    .lower
                    .checked_add(c.unsigned_abs())
                    .ok_or(Stuck::Wide)?;
            }
        }
    }
    Ok(more)
}

impl Target {
    /// The cases of a variable; none where it does not occur.
    pub fn of(core: &[Numbered], var: u32) -> Result<Option<Target>, Stuck> {
        let mut found = Target {
            var,
            count: 0,
            period: 1,
            lower: 0,
        };
        let mut some = false;
        for each in core {
            let c = each.atom.coefficient(var);
            if c != 0 {
                some = true;
                found = with_atom(found, &each.atom, c)?;
            }
        }
        if !some {
            return Ok(None);
        }
        let blocks = found.lower.max(1);
        found.count = blocks.checked_mul(found.period).ok_or(Stuck::Wide)?;
        Ok(Some(found))
    }

    /// The variable with the fewest cases, of those below a number; none where no variable occurs.
    pub fn fewest(core: &[Numbered], variables: u32) -> Result<Option<Target>, Stuck> {
        let mut best: Option<Target> = None;
        for var in 0..variables {
            if let Some(target) = Target::of(core, var)? {
                let better = match best {
                    None => true,
                    Some(old) => target.count < old.count,
                };
                if better {
                    best = Some(target);
                }
            }
        }
        Ok(best)
    }

    /// The lower bound of a case by place, and the number that is added to it there.
    fn place(&self, core: &[Numbered], index: u64) -> Result<(usize, i64), Stuck> {
        let mut left = index;
        for place in 0..core.len() {
            let Some(each) = core.get(place) else {
                return Err(Stuck::Place);
            };
            let c = each.atom.coefficient(self.var);
            if is_lower(&each.atom, c) {
                let block = c
                    .unsigned_abs()
                    .checked_mul(self.period)
                    .ok_or(Stuck::Wide)?;
                if left < block {
                    return Ok((place, i64::try_from(left).ok().ok_or(Stuck::Wide)?));
                }
                left = left.checked_sub(block).ok_or(Stuck::Place)?;
            }
        }
        Err(Stuck::Place)
    }

    /// The atoms of a case, in order.
    pub fn case(&self, alloc: Global, core: &[Numbered], index: u64) -> Result<Vec<Atom>, Stuck> {
        if self.lower == 0 {
            return self.free_case(alloc, core, index);
        }
        let (place, k) = self.place(core, index)?;
        let bound = core.get(place).ok_or(Stuck::Place)?;
        let mut out = Vec::new(alloc);
        for i in 0..core.len() {
            let Some(each) = core.get(i) else {
                return Err(Stuck::Place);
            };
            let made = if i == place {
                divided(alloc, &bound.atom, self.var, k)?
            } else {
                put(alloc, &each.atom, &bound.atom, self.var, k)?
            };
            out.push(made)?;
        }
        Ok(out)
    }

    /// The atoms of a case where the variable has no lower bound: its upper bounds are left out.
    fn free_case(&self, alloc: Global, core: &[Numbered], index: u64) -> Result<Vec<Atom>, Stuck> {
        let k = i64::try_from(index).ok().ok_or(Stuck::Wide)?;
        let mut out = Vec::new(alloc);
        for each in core {
            let c = each.atom.coefficient(self.var);
            if c == 0 {
                out.push(each.atom.copy(alloc)?)?;
            } else if !each.atom.is_bound() {
                out.push(put_number(alloc, &each.atom, self.var, c, k)?)?;
            }
        }
        Ok(out)
    }

    /// The value of the variable in a case, by the values of the others.
    pub fn value(&self, core: &[Numbered], index: u64, values: &Values) -> Result<Ratio, Stuck> {
        if self.lower == 0 {
            return self.free_value(core, index, values);
        }
        let (place, k) = self.place(core, index)?;
        let bound = core.get(place).ok_or(Stuck::Place)?;
        let less = k.checked_neg().ok_or(Stuck::Wide)?;
        let rest = values
            .rest(&bound.atom, self.var)?
            .add(&Ratio::whole(less))?;
        rest.minus_over(bound.atom.coefficient(self.var))
    }

    /// The least of the variable's upper bounds, rounded down; none where it has none.
    fn top(&self, core: &[Numbered], values: &Values) -> Result<Option<i64>, Stuck> {
        let mut top: Option<i64> = None;
        for each in core {
            let c = each.atom.coefficient(self.var);
            if c < 0 && each.atom.is_bound() {
                let high = values.rest(&each.atom, self.var)?.minus_over(c)?.floor()?;
                top = match top {
                    None => Some(high),
                    Some(old) => Some(old.min(high)),
                };
            }
        }
        Ok(top)
    }

    /// The greatest value up to the upper bounds that has the case's remainder.
    fn free_value(&self, core: &[Numbered], index: u64, values: &Values) -> Result<Ratio, Stuck> {
        let k = index as i128;
        match self.top(core, values)? {
            None => Ratio::make(k, 1),
            Some(high) => {
                let high = high as i128;
                let back = (high - k)
                    .checked_rem_euclid(self.period as i128)
                    .ok_or(Stuck::Place)?;
                Ratio::make(high.checked_sub(back).ok_or(Stuck::Wide)?, 1)
            }
        }
    }
}

/// The terms of a row without a variable, times -1 or 1.
fn without(alloc: Global, atom: &Atom, var: u32, sign: i64) -> Result<Vec<(u32, i128)>, Stuck> {
    let mut rest: Vec<(u32, i64)> = Vec::new(alloc);
    for term in atom.coefs.as_slice() {
        if term.0 != var {
            rest.push(*term)?;
        }
    }
    blended(alloc, sign, rest.as_slice(), 0, &[])
}

/// The atom with the number k for the variable, whose coefficient is c.
fn put_number(alloc: Global, atom: &Atom, var: u32, c: i64, k: i64) -> Result<Atom, Stuck> {
    let terms = without(alloc, atom, var, 1)?;
    let part = c as i128 * k as i128;
    let constant = part.checked_add(atom.constant as i128).ok_or(Stuck::Wide)?;
    primitive(alloc, Sort::Int, atom.kind, terms.as_slice(), constant)
}

/// That the variable is whole in a case: its coefficient a in the bound a*x + l divides k - l.
fn divided(alloc: Global, bound: &Atom, var: u32, k: i64) -> Result<Atom, Stuck> {
    let terms = without(alloc, bound, var, -1)?;
    let constant = k as i128 - bound.constant as i128;
    let kind = AtomKind::Divides(bound.coefficient(var).unsigned_abs());
    primitive(alloc, Sort::Int, kind, terms.as_slice(), constant)
}

/// The kind of an atom that was multiplied by a.
fn scaled(kind: AtomKind, a: i64) -> Result<AtomKind, Stuck> {
    match kind {
        AtomKind::Divides(d) => {
            Ok(AtomKind::Divides(d.checked_mul(a.unsigned_abs()).ok_or(Stuck::Wide)?))
        }
        AtomKind::NotDivides(d) => {
            Ok(AtomKind::NotDivides(d.checked_mul(a.unsigned_abs()).ok_or(Stuck::Wide)?))
        }
        AtomKind::AtLeast => Ok(AtomKind::AtLeast),
        AtomKind::Above => Ok(AtomKind::Above),
    }
}

/// c*x + r with (k - l)/a put in for x, where the bound is a*x + l; the atom itself where x does not occur.
fn put(alloc: Global, atom: &Atom, bound: &Atom, var: u32, k: i64) -> Result<Atom, Stuck> {
    let c = atom.coefficient(var);
    if c == 0 {
        return atom.copy(alloc);
    }
    let a = bound.coefficient(var);
    let less = c.checked_neg().ok_or(Stuck::Wide)?;
    let terms = blended(
        alloc,
        less,
        bound.coefs.as_slice(),
        a,
        atom.coefs.as_slice(),
    )?;
    let left = a as i128 * atom.constant as i128;
    let right = less as i128 * bound.constant as i128;
    let both = left.checked_add(right).ok_or(Stuck::Wide)?;
    let constant = both.checked_add(c as i128 * k as i128).ok_or(Stuck::Wide)?;
    primitive(
        alloc,
        Sort::Int,
        scaled(atom.kind, a)?,
        terms.as_slice(),
        constant,
    )
}
