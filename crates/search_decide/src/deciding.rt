//! A conjunction decided: its relaxation first, then values by the bounds of each variable, then over the integers the
//! cases of the variable that has the fewest.

use crate::bounds::{put_back, put_divided};
use crate::closing::{Leaf, closed, up_to_cases};
use crate::cooper::Target;
use crate::values::Values;
use cube_rules::Step;
use lin_term::Sort;
use search_rows::{Atom, Elimination, Stuck, fourier_motzkin};
use std::alloc::Global;

/// How many atoms may stand at once while variables are taken out.
const MOST: usize = 600;

/// What was found.
#[derive(Debug, Drop)]
pub enum Decided {
    /// Values that make all atoms true.
    Values(Values),
    /// Lines that show that none do.
    Closed(Leaf),
}

fn all_hold(atoms: &[Atom], values: &Values) -> Result<bool, Stuck> {
    for atom in atoms {
        if !values.holds(atom)? {
            return Ok(false);
        }
    }
    Ok(true)
}

/// Values by the levels; none where they do not make all atoms true.
fn guessed(
    alloc: Global,
    sort: Sort,
    atoms: &[Atom],
    sums: &Elimination,
    count: usize,
) -> Result<Option<Values>, Stuck> {
    let mut values = Values::none(alloc, count)?;
    if sort == Sort::Int {
        let found = put_divided(sums, &mut values)?;
        if !found {
            return Ok(None);
        }
    }
    let found = put_back(sort, sums, sums.levels.len(), &mut values)?;
    if !found {
        return Ok(None);
    }
    let good = all_hold(atoms, &values)?;
    if good { Ok(Some(values)) } else { Ok(None) }
}

/// The place of a false atom without variables.
fn closed_case(case: &[Atom]) -> Option<u32> {
    let mut place: u32 = 0;
    for atom in case {
        if atom.truth() == Some(false) {
            return Some(place);
        }
        place = place.wrapping_add(1);
    }
    None
}

/// The free variables of the core are 0.
fn settled(sums: &Elimination, var: u32, values: &mut Values) -> Result<(), Stuck> {
    for each in sums.core.as_slice() {
        for term in each.atom.coefs.as_slice() {
            if term.0 != var && !values.is_set(term.0) {
                values.set(term.0, values.at(term.0))?;
            }
        }
    }
    Ok(())
}

/// The values of a case, with those that were taken out before.
fn completed(
    sums: &Elimination,
    target: &Target,
    index: u64,
    values: Values,
) -> Result<Values, Stuck> {
    let mut values = values;
    settled(sums, target.var, &mut values)?;
    let value = target.value(sums.core.as_slice(), index, &values)?;
    values.set(target.var, value)?;
    let found = put_back(Sort::Int, sums, sums.exact, &mut values)?;
    if found { Ok(values) } else { Err(Stuck::Place) }
}

/// The conjunction of the atoms decided; values are of variables below `count`. `fuel` falls with each case, and cases stand
/// at most `depth` deep. Stuck where a number passes the cap or the work is spent.
pub fn decide(
    alloc: Global,
    sort: Sort,
    atoms: &[Atom],
    count: u32,
    fuel: &mut u64,
    depth: u32,
) -> Result<Decided, Stuck> {
    let sums = fourier_motzkin(alloc, sort, atoms, MOST)?;
    if let Some(falsity) = sums.falsity {
        return Ok(Decided::Closed(closed(alloc, &sums, falsity)?));
    }
    if let Some(values) = guessed(alloc, sort, atoms, &sums, count as usize)? {
        return Ok(Decided::Values(values));
    }
    if sort == Sort::Rat || depth == 0 {
        return Err(Stuck::Fuel);
    }
    let Some(target) = Target::fewest(sums.core.as_slice(), count)? else {
        return Err(Stuck::Place);
    };
    let mut leaf = up_to_cases(alloc, &sums, &target)?;
    for index in 0..target.count {
        *fuel = fuel.checked_sub(1).ok_or(Stuck::Fuel)?;
        let case = target.case(alloc, sums.core.as_slice(), index)?;
        if let Some(place) = closed_case(case.as_slice()) {
            leaf.lines.push(Step::False(place))?;
            continue;
        }
        match decide(alloc, sort, case.as_slice(), count, fuel, depth - 1)? {
            Decided::Values(values) => {
                return Ok(Decided::Values(completed(&sums, &target, index, values)?));
            }
            Decided::Closed(inner) => leaf.add_case(alloc, inner, case.len())?,
        }
    }
    Ok(Decided::Closed(leaf))
}
