//! The literals of a goal are decided by elimination.

ghost use Rattle.std.specs.Prelude.{◌≡◌, ◌≤◌, ◌∷◌, ◌++◌, [], length, IsTrue, OnOk, IfOk};
ghost use Rattle.lose_system.specs.Written.{system_of};
ghost use Rattle.cube_rules.specs.declared.Step.TheVariants as line;
ghost use Rattle.clause_search.specs.Taken.{IsGoal};
ghost use Rattle.clause_search.specs.Chosen.{Chooses};
ghost use Rattle.clause_search.specs.Searching.{Eliminates, EndsEarly, Finds, Passes, with_open};

use crate::chosen::{Chosen, literals_of, with_definitions, with_named};
use crate::found::Found;
use crate::goal::{Goal, Part};
use crate::way::{has_way, parts_have};
use cube_elim::{Decided, eliminate_all};
use cube_rules::Step;
use dom_core::{Cube, Domain};
use lin_term::Memory;
use lose_system::System;
use sqlite_items::Items;
use std::alloc::Global;

/// The lines that make the definitions facts, the line `cube`, and the lines that close the cube are added.
fn add_lines(
    lines: &mut Items<Step>,
    defs: Items<Step>,
    numbers: Items<u32>,
    steps: Items<Step>,
) -> Result<(), Memory>
    ensures { OnOk result (lines.new ≡ ((lines.old ++ defs) ++ line.Cube numbers ∷ []) ++ steps) }
{
    lines.append(defs)?;
    lines.push(Step::Cube(numbers))?;
    lines.append(steps)?;
    Ok(())
}

/// What the elimination of the chosen literals comes to; where they have no solution, lines that close the goal's context
/// are added.
fn eliminated<D: Domain>(
    alloc: Global,
    system: &System<'_, D>,
    goal: &Goal<'_>,
    chosen: Chosen,
    lines: &mut Items<Step>,
) -> Result<Found<D>, Memory>
    requires { Chooses D.SORT system.now goal.now chosen }
    ensures { IfOk result (Eliminates D.SORT system.now goal.now chosen.cube lines.old lines.new) }
{
    let Chosen {
        cube,
        numbers,
        defs,
        count: _,
    } = chosen;
    let cube = Cube::from_lits(cube);
    match eliminate_all::<D>(alloc, &cube, system.node_count())? {
        Decided::Point(point) => Ok(Found::Point(point)),
        Decided::Wide(wide) => Ok(Found::Wide(wide)),
        Decided::Refuted(steps) => {
            add_lines(lines, defs, numbers, steps)?;
            Ok(Found::Refuted)
        }
    }
}

/// Whether there is a way through all that is left of a goal with one more part that waits.
fn passes<D: Domain>(system: &System<'_, D>, goal: &Goal<'_>, part: &Part<'_>) -> bool
    ensures { IsTrue result → Passes D.SORT system.now (with_open goal.now part.now) }
{
    if !has_way(system.matrix()) {
        return false;
    }
    if !has_way(part.matrix) {
        return false;
    }
    parts_have(goal.waiting.as_slice())
}

/// The literals that are taken, with the definitions of the moves that they name, are decided, where one more part waits:
/// the goal is closed, or it ends with a wide cube that is on a branch. None where a point was found, and where no branch
/// goes on.
pub fn early<D: Domain>(
    alloc: Global,
    system: &System<'_, D>,
    goal: &Goal<'_>,
    part: &Part<'_>,
    lines: &mut Items<Step>,
) -> Result<Option<Found<D>>, Memory>
    requires { IsGoal D.SORT system.now goal.now }
    ensures { IfOk result (EndsEarly D.SORT system.now goal.now part.now lines.old lines.new) }
{
    let taken = literals_of(alloc, system, goal)?;
    let chosen = with_named(alloc, system, goal, taken)?;
    match eliminated(alloc, system, goal, chosen, lines)? {
        Found::Point(_) => Ok(None),
        Found::Refuted => Ok(Some(Found::Refuted)),
        Found::Wide(cube) => {
            if passes(system, goal, part) {
                Ok(Some(Found::Wide(cube)))
            } else {
                Ok(None)
            }
        }
    }
}

/// The literals that are taken and all definitions are decided; nothing is left to follow.
pub fn whole<D: Domain>(
    alloc: Global,
    system: &System<'_, D>,
    goal: &Goal<'_>,
    lines: &mut Items<Step>,
) -> Result<Found<D>, Memory>
    requires kept { IsGoal D.SORT system.now goal.now }
    requires apart { goal.now.waiting ≡ [] }
    requires paths { length (system_of D.SORT system.now).paths ≤ goal.now.next }
    ensures { IfOk result (Finds D.SORT system.now goal.now lines.old lines.new) }
{
    let taken = literals_of(alloc, system, goal)?;
    let chosen = with_definitions(alloc, system, goal, taken)?;
    eliminated(alloc, system, goal, chosen, lines)
}
