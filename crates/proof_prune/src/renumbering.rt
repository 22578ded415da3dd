//! New numbers of facts.

ghost use Rattle.std.specs.Prelude.{◌≡◌, ◌+◌, ◌-◌, ◌<◌, ◌++◌, ◌∷◌, [], map, min, length, replicate, slice_index_or, OnOk, IfOk};
ghost use Rattle.proof_prune.specs.Writing.{new_number, last_number, fitted, grown, renumbered};

use cube_rules::Step;
use lin_term::Memory;
use sqlite_items::Items;
use std::alloc::{AllocError, Global};

/// The number, 0 past the last one.
fn number_at(names: &[u64], at: usize) -> u64
    ensures { result ≡ slice_index_or names.now at 0 }
{
    if at < names.len() { names[at] } else { 0 }
}

/// The new number of the fact, which is not above the old one.
fn new_number(names: &[u64], fact: u32) -> u32
    ensures { result ≡ new_number names.now fact }
{
    let number = number_at(names, fact as usize);
    if number < fact as u64 {
        number as u32
    } else {
        fact
    }
}

/// The number of the next fact.
fn last_number(names: &[u64]) -> u64
    ensures { result ≡ last_number names.now }
{
    number_at(names, names.len().saturating_sub(1))
}

/// For so many facts, those that are new not staying.
pub fn fit(names: &mut Vec<u64>, facts: usize) -> Result<(), AllocError>
    ensures { OnOk result (names.new.items ≡ fitted facts names.old.items) }
{
    let last = last_number(names.as_slice());
    if facts < names.len() {
        names.truncate(facts + 1);
        return Ok(());
    }
    pad(names, facts - names.len(), last)
}

/// So many more numbers and one.
fn pad(names: &mut Vec<u64>, more: usize, number: u64) -> Result<(), AllocError>
    ensures { OnOk result (names.new.items ≡ names.old.items ++ replicate (more + 1) number) }
{
    names.push(number)?;
    for _ in 0..more {
        names.push(number)?;
    }
    Ok(())
}

/// With one more fact, which stays.
fn grow_by_one(names: &mut Vec<u64>) -> Result<(), AllocError>
    ensures { OnOk result (names.new.items ≡ grown 1 names.old.items) }
{
    let last = last_number(names.as_slice());
    let before = names.len().saturating_sub(1) as u64;
    let number = if last < before { last } else { before };
    names.push(number + 1)?;
    Ok(())
}

/// With so many more facts, which stay.
pub fn grow(names: &mut Vec<u64>, facts: usize) -> Result<(), AllocError>
    ensures { OnOk result (names.new.items ≡ grown facts names.old.items) }
{
    for _ in 0..facts {
        match grow_by_one(names) {
            Ok(()) => {}
            Err(error) => return Err(error),
        }
    }
    Ok(())
}

/// The new numbers of the facts.
fn new_numbers(alloc: Global, names: &[u64], facts: &[u32]) -> Result<Items<u32>, Memory>
    ensures { IfOk result (λ list. list ≡ map (new_number names.now) facts.now) }
{
    let mut list = Items::new(alloc);
    for fact in facts {
        list.push(new_number(names, *fact))?;
    }
    Ok(list)
}

/// The line with the new numbers of its facts; refuses only for memory.
pub fn renumber(alloc: Global, step: &Step, names: &[u64]) -> Result<Step, Memory>
    ensures { IfOk result (λ s. s ≡ renumbered names.now step.now) }
{
    match step {
        Step::Part(fact, place) => Ok(Step::Part(new_number(names, *fact), *place)),
        Step::Cases(fact, count) => Ok(Step::Cases(new_number(names, *fact), *count)),
        Step::Sum(p, fact, q, other, g) => Ok(Step::Sum(
            *p,
            new_number(names, *fact),
            *q,
            new_number(names, *other),
            *g,
        )),
        Step::Cube(facts) => Ok(Step::Cube(new_numbers(alloc, names, facts.as_slice())?)),
        Step::False(fact) => Ok(Step::False(new_number(names, *fact))),
        Step::Path(_) => step.copy(alloc),
        Step::Def(_, _) => step.copy(alloc),
        Step::Split(_) => step.copy(alloc),
        Step::Least(_, _) => step.copy(alloc),
        Step::Learn(_) => step.copy(alloc),
    }
}
