//! Fourier 1827 and Motzkin 1936: all variables taken out of literals that are known by number, equalities first, then by
//! pairs of bounds. The numbers of a sum and of what it is made from are kept, so that a proof can be written of it. Of
//! parallel bounds the strongest alone stays, found by a scan; that keeps the lists short.

use crate::atom::Atom;
use crate::blend::add;
use crate::stuck::Stuck;
use lin_term::{Sort, gcd_of_words};
use std::alloc::Global;

/// An atom and its number: below the count of the given ones it is one of these, else a sum.
#[derive(Debug, Drop)]
pub struct Numbered {
    /// The atom.
    pub atom: Atom,
    /// Its number.
    pub number: u32,
}

/// The sum of p times atom f and q times atom h, divided by g.
#[derive(Clone, Copy, Debug, Drop)]
pub struct Sum {
    /// The first multiplier, 1 or more.
    pub p: i64,
    /// The first atom's number.
    pub f: u32,
    /// The second multiplier, 1 or more.
    pub q: i64,
    /// The second atom's number.
    pub h: u32,
    /// The divisor, 1 or more.
    pub g: i128,
}

/// A variable that was taken out, and its bounds.
#[derive(Debug, Drop)]
pub struct Level {
    /// The variable.
    pub var: u32,
    /// The atoms that bound it.
    pub bounds: Vec<Numbered>,
}

/// What taking all variables out gave.
#[derive(Debug, Drop)]
pub struct Elimination {
    /// How many atoms were given.
    pub given: u32,
    /// The sums, in the order in which they were formed; the first has the number `given`.
    pub sums: Vec<Sum>,
    /// The number of a false atom without variables.
    pub falsity: Option<u32>,
    /// The variables that were taken out, in order.
    pub levels: Vec<Level>,
    /// How many of the first levels lose nothing: equalities that were put in.
    pub exact: usize,
    /// What was left after these, divisibilities included.
    pub core: Vec<Numbered>,
}

/// The size of a coefficient over a divisor.
fn multiplier(coef: i64, g: u64) -> Result<i64, Stuck> {
    let size = coef.unsigned_abs().checked_div(g).ok_or(Stuck::Place)?;
    i64::try_from(size).ok().ok_or(Stuck::Wide)
}

impl Numbered {
    fn copy(&self, alloc: Global) -> Result<Numbered, Stuck> {
        Ok(Numbered {
            atom: self.atom.copy(alloc)?,
            number: self.number,
        })
    }
}

/// The place of a bound with the same terms.
fn parallel(list: &[Numbered], atom: &Atom) -> Option<usize> {
    for place in 0..list.len() {
        if let Some(each) = list.get(place) {
            if each.atom.is_bound() && each.atom.has_terms_of(atom) {
                return Some(place);
            }
        }
    }
    None
}

/// Whether the first of two parallel bounds is the stronger one.
fn is_stronger(new: &Atom, old: &Atom) -> bool {
    new.constant < old.constant || (new.constant == old.constant && new.is_strict())
}

/// Adds an atom to a list; of parallel bounds the strongest stays.
fn add_strongest(list: &mut Vec<Numbered>, new: Numbered) -> Result<(), Stuck> {
    if new.atom.is_bound() {
        if let Some(place) = parallel(list.as_slice(), &new.atom) {
            if let Some(old) = list.get_mut(place) {
                if is_stronger(&new.atom, &old.atom) {
                    *old = new;
                }
                return Ok(());
            }
        }
    }
    list.push(new)?;
    Ok(())
}

impl Elimination {
    fn begin(alloc: Global, given: u32) -> Elimination {
        Elimination {
            given,
            sums: Vec::new(alloc),
            falsity: None,
            levels: Vec::new(alloc),
            exact: 0,
            core: Vec::new(alloc),
        }
    }

    /// The sum of a lower and an upper bound in which the variable cancels.
    fn sum(
        &mut self,
        alloc: Global,
        sort: Sort,
        lower: &Numbered,
        upper: &Numbered,
        var: u32,
    ) -> Result<Numbered, Stuck> {
        let a = lower.atom.coefficient(var);
        let b = upper.atom.coefficient(var);
        let divisor = gcd_of_words(a.unsigned_abs(), b.unsigned_abs());
        let p = multiplier(b, divisor)?;
        let q = multiplier(a, divisor)?;
        let (atom, g) = add(alloc, sort, p, &lower.atom, q, &upper.atom)?;
        let count = u32::try_from(self.sums.len()).ok().ok_or(Stuck::Place)?;
        let number = self.given.checked_add(count).ok_or(Stuck::Place)?;
        self.sums.push(Sum {
            p,
            f: lower.number,
            q,
            h: upper.number,
            g,
        })?;
        Ok(Numbered { atom, number })
    }

    /// Adds an atom to a list unless it is true; notes a false one.
    fn keep(&mut self, list: &mut Vec<Numbered>, new: Numbered) -> Result<(), Stuck> {
        match new.atom.truth() {
            Some(true) => Ok(()),
            Some(false) => {
                self.falsity = Some(new.number);
                Ok(())
            }
            None => add_strongest(list, new),
        }
    }

    /// The given atoms, numbered.
    fn numbered(&mut self, alloc: Global, atoms: &[Atom]) -> Result<Vec<Numbered>, Stuck> {
        let mut now: Vec<Numbered> = Vec::new(alloc);
        let mut number: u32 = 0;
        for given in atoms {
            let atom = given.copy(alloc)?;
            self.keep(&mut now, Numbered { atom, number })?;
            number = number.checked_add(1).ok_or(Stuck::Place)?;
        }
        Ok(now)
    }

    /// The atom without the variable, by one of two opposite bounds of it.
    fn put_in(
        &mut self,
        alloc: Global,
        sort: Sort,
        each: Numbered,
        low: &Numbered,
        high: &Numbered,
        var: u32,
    ) -> Result<Numbered, Stuck> {
        let c = each.atom.coefficient(var);
        if c == 0 {
            Ok(each)
        } else if c > 0 {
            self.sum(alloc, sort, &each, high, var)
        } else {
            self.sum(alloc, sort, low, &each, var)
        }
    }

    /// Puts an equality in for a variable: two opposite bounds, by their places.
    fn replaced(
        &mut self,
        alloc: Global,
        sort: Sort,
        now: Vec<Numbered>,
        places: (usize, usize),
        var: u32,
    ) -> Result<Vec<Numbered>, Stuck> {
        let low = now.get(places.0).ok_or(Stuck::Place)?.copy(alloc)?;
        let high = now.get(places.1).ok_or(Stuck::Place)?.copy(alloc)?;
        let mut rest: Vec<Numbered> = Vec::new(alloc);
        for each in now {
            if each.number != low.number && each.number != high.number {
                let made = self.put_in(alloc, sort, each, &low, &high, var)?;
                self.keep(&mut rest, made)?;
            }
        }
        let mut bounds = Vec::new(alloc);
        bounds.push(low)?;
        bounds.push(high)?;
        self.levels.push(Level { var, bounds })?;
        Ok(rest)
    }

    /// The equalities put in, from the variable below `top` down.
    fn equalities(
        &mut self,
        alloc: Global,
        sort: Sort,
        given: Vec<Numbered>,
        top: u32,
    ) -> Result<Vec<Numbered>, Stuck> {
        let mut now = given;
        for var in (0..top).rev() {
            if self.falsity.is_some() {
                return Ok(now);
            }
            if let Some(places) = equality(sort, now.as_slice(), var) {
                now = self.replaced(alloc, sort, now, places, var)?;
            }
        }
        Ok(now)
    }

    /// The sums of each lower with each upper bound of a variable, added to a list; stuck past `most` atoms in it.
    fn pairs(
        &mut self,
        alloc: Global,
        sort: Sort,
        sides: (&[Numbered], &[Numbered]),
        var: u32,
        most: usize,
        rest: &mut Vec<Numbered>,
    ) -> Result<(), Stuck> {
        for low in sides.0 {
            for high in sides.1 {
                let made = self.sum(alloc, sort, low, high, var)?;
                self.keep(rest, made)?;
                if self.falsity.is_some() {
                    return Ok(());
                }
                if rest.len() > most {
                    return Err(Stuck::Fuel);
                }
            }
        }
        Ok(())
    }

    /// Takes a variable out by pairs of its bounds.
    fn paired(
        &mut self,
        alloc: Global,
        sort: Sort,
        now: Vec<Numbered>,
        var: u32,
        most: usize,
    ) -> Result<Vec<Numbered>, Stuck> {
        let mut rest: Vec<Numbered> = Vec::new(alloc);
        let mut lower: Vec<Numbered> = Vec::new(alloc);
        let mut upper: Vec<Numbered> = Vec::new(alloc);
        for each in now {
            let c = each.atom.coefficient(var);
            if c == 0 {
                rest.push(each)?;
            } else if c > 0 {
                lower.push(each)?;
            } else {
                upper.push(each)?;
            }
        }
        let sides = (lower.as_slice(), upper.as_slice());
        self.pairs(alloc, sort, sides, var, most, &mut rest)?;
        for each in upper {
            lower.push(each)?;
        }
        self.levels.push(Level { var, bounds: lower })?;
        Ok(rest)
    }
}

/// The highest variable of all.
fn highest(list: &[Numbered]) -> Option<u32> {
    let mut top: Option<u32> = None;
    for each in list {
        if let Some(var) = each.atom.highest() {
            top = match top {
                None => Some(var),
                Some(old) => Some(var.max(old)),
            };
        }
    }
    top
}

fn has_divisibility(list: &[Numbered], var: u32) -> bool {
    for each in list {
        if !each.atom.is_bound() && each.atom.coefficient(var) != 0 {
            return true;
        }
    }
    false
}

fn opposite(list: &[Numbered], atom: &Atom) -> Option<usize> {
    for place in 0..list.len() {
        if let Some(each) = list.get(place) {
            if each.atom.is_opposite(atom) {
                return Some(place);
            }
        }
    }
    None
}

/// Two opposite bounds of the variable, by place; over the integers its coefficient is 1, and no divisibility has it.
fn equality(sort: Sort, list: &[Numbered], var: u32) -> Option<(usize, usize)> {
    if has_divisibility(list, var) {
        return None;
    }
    for place in 0..list.len() {
        if let Some(each) = list.get(place) {
            let c = each.atom.coefficient(var);
            if c == 1 || (c > 0 && sort == Sort::Rat) {
                if let Some(other) = opposite(list, &each.atom) {
                    return Some((place, other));
                }
            }
        }
    }
    None
}

fn bounds_alone(alloc: Global, list: &[Numbered]) -> Result<Vec<Numbered>, Stuck> {
    let mut out = Vec::new(alloc);
    for each in list {
        if each.atom.is_bound() {
            out.push(each.copy(alloc)?)?;
        }
    }
    Ok(out)
}

/// All variables taken out of the atoms: equalities put in, from the highest variable down, then pairs of bounds, the
/// highest variable first. Divisibilities stand aside, and over the integers the sums are those of the relaxation. Stuck
/// where more than `most` atoms stand at once or a number passes the cap.
pub fn fourier_motzkin(
    alloc: Global,
    sort: Sort,
    atoms: &[Atom],
    most: usize,
) -> Result<Elimination, Stuck> {
    let given = u32::try_from(atoms.len()).ok().ok_or(Stuck::Place)?;
    let mut made = Elimination::begin(alloc, given);
    let first = made.numbered(alloc, atoms)?;
    let top = match highest(first.as_slice()) {
        None => 0,
        Some(var) => var.checked_add(1).ok_or(Stuck::Place)?,
    };
    let now = made.equalities(alloc, sort, first, top)?;
    if made.falsity.is_some() {
        return Ok(made);
    }
    made.exact = made.levels.len();
    let mut left = bounds_alone(alloc, now.as_slice())?;
    made.core = now;
    for _ in 0..1048576u32 {
        if made.falsity.is_some() {
            return Ok(made);
        }
        let Some(var) = highest(left.as_slice()) else {
            return Ok(made);
        };
        left = made.paired(alloc, sort, left, var, most)?;
    }
    Err(Stuck::Fuel)
}
