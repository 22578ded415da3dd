//! Lines with other numbers for paths and nodes.

ghost use Rattle.std.specs.Prelude.{◌≡◌, ◌<◌, ◌+◌, ◌^◌, suc, if◌then◌else◌, length, get_or, map, IfOk};
ghost use Rattle.std.specs.List.{AllByRecursion};
ghost use Rattle.lin_term.specs.Literal.{rename_lit};
ghost use Rattle.strat_trim.specs.Renamed.{rename_step, rename_steps, HasNames, StepHasNames};
ghost use Rattle.strat_trim.specs.Trimmed.{numbers};

use cube_rules::Step;
use lin_term::{Lit, Memory, renamed};
use sqlite_items::Items;
use std::alloc::Global;

/// The number behind this one, where it is marked.
fn next_number(number: u32, mark: bool) -> u32
    requires { number + 1 < 2 ^ 32 }
    ensures { result ≡ (if mark then suc number else number) }
{
    if mark { number + 1 } else { number }
}

/// For each place how many marks stand before it; refuses only for memory.
pub fn numbered(alloc: Global, marks: &[bool]) -> Result<Items<u32>, Memory>
    requires { length marks.now < 2 ^ 32 }
    ensures { IfOk result (λ ns. ns ≡ numbers 0 marks.now) }
{
    let mut list = Items::new(alloc);
    let mut count: u32 = 0;
    for mark in marks {
        list.push(count)?;
        count = next_number(count, *mark);
    }
    Ok(list)
}

/// The new number, 0 past the last one.
fn number_at(numbers: &[u32], at: u32) -> u32
    ensures { result ≡ get_or numbers.now at 0 }
{
    match numbers.get(at as usize) {
        Some(number) => *number,
        None => 0,
    }
}

/// The literals with the new number of each node.
fn renumbered_literals(alloc: Global, lits: &[Lit], nodes: &[u32]) -> Result<Items<Lit>, Memory>
    requires { AllByRecursion (HasNames nodes.now) lits.now }
    ensures { IfOk result (λ ls. ls ≡ map (rename_lit nodes.now) lits.now) }
{
    let mut list = Items::new(alloc);
    for lit in lits {
        list.push(renamed(alloc, lit, nodes)?)?;
    }
    Ok(list)
}

/// The line with the new number of each path and of each node.
fn renumbered(alloc: Global, step: &Step, paths: &[u32], nodes: &[u32]) -> Result<Step, Memory>
    requires { StepHasNames nodes.now step.now }
    ensures { IfOk result (λ s. s ≡ rename_step paths.now nodes.now step.now) }
{
    match step {
        Step::Path(path) => Ok(Step::Path(number_at(paths, *path))),
        Step::Def(node, which) => Ok(Step::Def(number_at(nodes, *node), *which)),
        Step::Least(node, count) => Ok(Step::Least(number_at(nodes, *node), *count)),
        Step::Split(lit) => Ok(Step::Split(renamed(alloc, lit, nodes)?)),
        Step::Learn(lits) => Ok(Step::Learn(renumbered_literals(alloc, lits.as_slice(), nodes)?)),
        Step::Part(_, _) | Step::Cases(_, _) => step.copy(alloc),
        Step::Sum(_, _, _, _, _) | Step::Cube(_) | Step::False(_) => step.copy(alloc),
    }
}

/// The lines with the new number of each path and of each node; refuses only for memory.
pub fn renumbered_steps(
    alloc: Global,
    steps: &[Step],
    paths: &[u32],
    nodes: &[u32],
) -> Result<Items<Step>, Memory>
    requires { AllByRecursion (StepHasNames nodes.now) steps.now }
    ensures { IfOk result (λ list. list ≡ rename_steps paths.now nodes.now steps.now) }
{
    let mut list = Items::new(alloc);
    for step in steps {
        list.push(renumbered(alloc, step, paths, nodes)?)?;
    }
    Ok(list)
}
