//! The lines of a conjunction without solution: the sums that a false one rests on, or the cases of one variable.

use crate::cooper::Target;
use cube_rules::Step;
use search_rows::{Elimination, Stuck};
use sqlite_items::Items;
use std::alloc::Global;

/// Lines that close a context whose facts are some of the literals.
#[derive(Debug, Drop)]
pub struct Leaf {
    /// The places of these literals, ascending; the lines number them from 0.
    pub used: Vec<u32>,
    /// The lines.
    pub lines: Vec<Step>,
    /// Whether a line needs a bare context; else the lines are sums and the line `false`.
    pub bare: bool,
}

impl Leaf {
    fn new(alloc: Global, bare: bool) -> Leaf {
        Leaf {
            used: Vec::new(alloc),
            lines: Vec::new(alloc),
            bare,
        }
    }

    /// Adds the lines of a case of so many literals.
    pub fn add_case(&mut self, alloc: Global, case: Leaf, count: usize) -> Result<(), Stuck> {
        if case.bare || case.used.len() != count {
            self.lines.push(Step::Cube(Items::from_slice(alloc, case.used.as_slice())?))?;
        }
        for line in case.lines {
            self.lines.push(line)?;
        }
        Ok(())
    }
}

/// The numbers of what a sum is made from.
fn sum_at(sums: &Elimination, place: usize) -> Result<(u32, u32), Stuck> {
    let sum = sums.sums.get(place).ok_or(Stuck::Place)?;
    Ok((sum.f, sum.h))
}

/// Marks a number.
fn set(marks: &mut Vec<bool>, place: u32) -> Result<(), Stuck> {
    let mark = marks.get_mut(place as usize).ok_or(Stuck::Place)?;
    *mark = true;
    Ok(())
}

fn is_set(marks: &[bool], place: usize) -> bool {
    match marks.get(place) {
        Some(mark) => *mark,
        None => false,
    }
}

/// Marks what the marked sums rest on: sums rest on lower numbers.
fn spread(sums: &Elimination, marks: &mut Vec<bool>) -> Result<(), Stuck> {
    for place in (0..sums.sums.len()).rev() {
        let number = place.checked_add(sums.given as usize).ok_or(Stuck::Place)?;
        if is_set(marks.as_slice(), number) {
            let (f, h) = sum_at(sums, place)?;
            set(marks, f)?;
            set(marks, h)?;
        }
    }
    Ok(())
}

/// The new number of a number.
fn name(names: &[u32], number: u32) -> Result<u32, Stuck> {
    let found = names.get(number as usize).ok_or(Stuck::Place)?;
    Ok(*found)
}

/// The marked literals in order and the lines of the marked sums; gives the new numbers.
fn written(
    alloc: Global,
    sums: &Elimination,
    marks: &[bool],
    leaf: &mut Leaf,
) -> Result<Vec<u32>, Stuck> {
    let mut names: Vec<u32> = Vec::new(alloc);
    let mut next: u32 = 0;
    for place in 0..sums.given {
        names.push(next)?;
        if is_set(marks, place as usize) {
            leaf.used.push(place)?;
            next = next.checked_add(1).ok_or(Stuck::Place)?;
        }
    }
    for sum in sums.sums.as_slice() {
        let number = names.len();
        names.push(next)?;
        if is_set(marks, number) {
            let f = name(names.as_slice(), sum.f)?;
            let h = name(names.as_slice(), sum.h)?;
            leaf.lines.push(Step::Sum(sum.p, f, sum.q, h, sum.g))?;
            next = next.checked_add(1).ok_or(Stuck::Place)?;
        }
    }
    Ok(names)
}

/// No number marked.
fn no_marks(alloc: Global, sums: &Elimination) -> Result<Vec<bool>, Stuck> {
    let mut marks = Vec::new(alloc);
    for _ in 0..sums.given {
        marks.push(false)?;
    }
    for _ in 0..sums.sums.len() {
        marks.push(false)?;
    }
    Ok(marks)
}

/// The leaf of a false atom without variables.
pub fn closed(alloc: Global, sums: &Elimination, falsity: u32) -> Result<Leaf, Stuck> {
    let mut marks = no_marks(alloc, sums)?;
    set(&mut marks, falsity)?;
    spread(sums, &mut marks)?;
    let mut leaf = Leaf::new(alloc, false);
    let names = written(alloc, sums, marks.as_slice(), &mut leaf)?;
    leaf.lines
        .push(Step::False(name(names.as_slice(), falsity)?))?;
    Ok(leaf)
}

/// The lines up to the cases of a variable: the sums that the core rests on, a line `cube` that keeps the core alone, and
/// the line `least`.
pub fn up_to_cases(alloc: Global, sums: &Elimination, target: &Target) -> Result<Leaf, Stuck> {
    let mut marks = no_marks(alloc, sums)?;
    for each in sums.core.as_slice() {
        set(&mut marks, each.number)?;
    }
    spread(sums, &mut marks)?;
    let mut leaf = Leaf::new(alloc, true);
    let names = written(alloc, sums, marks.as_slice(), &mut leaf)?;
    let mut chosen = Items::new(alloc);
    for each in sums.core.as_slice() {
        chosen.push(name(names.as_slice(), each.number)?)?;
    }
    leaf.lines.push(Step::Cube(chosen))?;
    leaf.lines.push(Step::Least(target.var, target.count))?;
    Ok(leaf)
}
