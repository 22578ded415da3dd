//! Over the integers: a cube decided by the cases of one variable after the other.

ghost use Rattle.std.specs.Prelude.{◌≡◌, ◌≤◌, ◌++◌, ◌∷◌, [], ℕ, List, IfOk};
ghost use Rattle.std.specs.List.{position};
ghost use Rattle.lin_term.specs.declared.Sort.TheVariants.{Int};
ghost use Rattle.lin_term.specs.Truth.{truth_of};
ghost use Rattle.dom_core.specs.Cube.{IsPrimitiveCube};
ghost use Rattle.dom_core.specs.Reduced.{AreBelow};
ghost use Rattle.cube_rules.specs.declared.Step.TheVariants.{False};
ghost use Rattle.cube_rules.specs.Lines.{is_false};
ghost use Rattle.cube_elim.specs.Ending.{Ends, IsFault, IsRaised};

use crate::found::Found;
use crate::height::height_of;
use crate::next::{origin_point, with_case, with_more};
use cube_rules::{Step, is_false_literal};
use dom_core::Cube;
use dom_int::Elimination;
use lin_term::{Lit, Memory, Short, Wide};
use sqlite_items::Items;
use std::alloc::Global;

/// The place of the first literal without variables that is false.
fn first_false(lits: &[Lit]) -> Option<usize>
    ensures { result ≡ position (λ l. is_false (truth_of l)) lits.now }
{
    lits.iter().position(|lit| is_false_literal(lit))
}

/// The line that ends a subproof by this fact. A place past 32 bits is want of memory.
fn add_false(steps: &mut Items<Step>, place: usize) -> Result<(), Memory>
    ensures { IfOk result (λ u. steps.new ≡ steps.old ++ False place ∷ []) }
{
    if place > u32::MAX as usize {
        return Err(Memory);
    }
    steps.push(Step::False(place as u32))?;
    Ok(())
}

/// The number past the cap of a case that could not be built.
fn past_cap(fault: Short<Wide>) -> Result<Found, Memory>
    ensures { IfOk result (IsFault fault) }
{
    match fault {
        Short::Fault(wide) => Ok(Found::Wide(wide)),
        Short::Memory => Err(Memory),
    }
}

/// What was found, with 0 for so many more variables of a point.
fn raised(alloc: Global, found: Found, more: u32) -> Result<Found, Memory>
    ensures { IfOk result (IsRaised found more) }
{
    match found {
        Found::Point(point) => Ok(Found::Point(with_more(alloc, &point, more)?)),
        Found::Refuted => Ok(Found::Refuted),
        Found::Wide(wide) => Ok(Found::Wide(wide)),
    }
}

/// Decides a cube of primitive literals with variables below n: by the point that it determines, by lines that are added
/// to the others and close its bare context, or by a number past the cap. Variables that do not occur are passed over, so
/// the depth of the calls is at most the count of those that do.
pub(crate) fn search(
    alloc: Global,
    cube: &Cube,
    n: u32,
    steps: &mut Items<Step>,
) -> Result<Found, Memory>
    requires primitive { IsPrimitiveCube Int cube.now }
    requires below { AreBelow n cube.now }
    ensures { IfOk result (Ends n cube.now steps.old steps.new) }
{
    match first_false(cube.lits()) {
        Some(place) => {
            add_false(steps, place)?;
            return Ok(Found::Refuted);
        }
        None => {}
    }
    let height = height_of(cube.lits());
    if height == 0 {
        return raised(alloc, Found::Point(origin_point(alloc)), n);
    }
    let var = height - 1;
    let copy = cube.copy(alloc)?;
    let elimination = match Elimination::prepare(copy, var) {
        Ok(elimination) => elimination,
        Err(wide) => return Ok(Found::Wide(wide)),
    };
    let count = elimination.count();
    steps.push(Step::Least(var, count))?;
    for index in 0..count {
        let case = match elimination.case(alloc, index) {
            Ok(case) => case,
            Err(fault) => return past_cap(fault),
        };
        let found = match search(alloc, &case, var, steps) {
            Ok(found) => found,
            Err(_) => return Err(Memory),
        };
        match found {
            Found::Refuted => {}
            Found::Wide(wide) => return Ok(Found::Wide(wide)),
            Found::Point(point) => {
                let found = match with_case(alloc, cube.lits(), var, count, index, &point) {
                    Ok(found) => found,
                    Err(_) => return Err(Memory),
                };
                return raised(alloc, found, n - height);
            }
        }
    }
    Ok(Found::Refuted)
}
