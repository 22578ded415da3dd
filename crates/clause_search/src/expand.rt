//! What is left is taken apart: paths become facts, conjunctions their children, until a disjunction comes up.

ghost use Rattle.std.specs.Prelude.{◌≡◌, ◌<◌, ◌↔◌, ◌∷◌, ◌++◌, [], suc, length, IsTrue, OnOk, IfOk};
ghost use Rattle.dom_core.specs.declared.Matrix.{Or as disjunction};
ghost use Rattle.cube_rules.specs.declared.Step.TheVariants as line;
ghost use Rattle.clause_search.specs.Taken.{IsGoal, IsPart};
ghost use Rattle.game_tree.specs.View.{skeleton_of};
ghost use Rattle.lose_system.specs.Losing.{routes};
ghost use Rattle.clause_search.specs.Searching.{Progresses, Expands, Reaches, TakesPath, with_open};

use crate::goal::{Goal, Part, one_more, part_at};
use cube_rules::Step;
use dom_core::{Domain, Matrix};
use lin_term::Memory;
use lose_system::System;
use sqlite_items::Items;

/// What one step of taking apart came to.
#[derive(Clone, Copy, Drop)]
pub enum Progress<'a> {
    /// More is taken.
    Taken,
    /// The last part that waited, which no longer does, is a disjunction once it is negated.
    Fork(Part<'a>),
    /// Nothing is left.
    Done,
}

/// One more fact that is to be taken apart.
fn add_open<'a>(goal: &mut Goal<'a>, path: u32, matrix: &'a Matrix) -> Result<(), Memory>
    ensures { OnOk result (goal.new ≡ record { count = suc goal.old.count; next = goal.old.next; waiting = goal.old.waiting ++ (record { number = goal.old.count; path = path; matrix = matrix.entry }) ∷ []; lits = goal.old.lits }) }
{
    let number = goal.count;
    let count = one_more(number)?;
    goal.waiting.push(Part {
        number,
        path,
        matrix,
    })?;
    goal.count = count;
    Ok(())
}

/// The next path becomes a fact.
fn add_path<'a>(
    goal: &mut Goal<'a>,
    matrix: &'a Matrix,
    lines: &mut Items<Step>,
) -> Result<(), Memory>
    ensures goal { OnOk result (goal.new ≡ record { count = suc goal.old.count; next = suc goal.old.next; waiting = goal.old.waiting ++ (record { number = goal.old.count; path = goal.old.next; matrix = matrix.entry }) ∷ []; lits = goal.old.lits }) }
    ensures lines { OnOk result (lines.new ≡ lines.old ++ line.Path goal.old.next ∷ []) }
{
    let path = goal.next;
    let next = one_more(path)?;
    lines.push(Step::Path(path))?;
    add_open(goal, path, matrix)?;
    goal.next = next;
    Ok(())
}

/// A child of a conjunction becomes a fact.
fn add_child<'a>(
    goal: &mut Goal<'a>,
    whole: &Part<'a>,
    place: u32,
    matrix: &'a Matrix,
    lines: &mut Items<Step>,
) -> Result<(), Memory>
    ensures goal { OnOk result (goal.new ≡ record { count = suc goal.old.count; next = goal.old.next; waiting = goal.old.waiting ++ (record { number = goal.old.count; path = whole.now.path; matrix = matrix.entry }) ∷ []; lits = goal.old.lits }) }
    ensures lines { OnOk result (lines.new ≡ lines.old ++ line.Part whole.now.number place ∷ []) }
{
    lines.push(Step::Part(whole.number, place))?;
    add_open(goal, whole.path, matrix)
}

/// The place of a child as a number of 32 bits; past them it is want of memory.
fn small(place: usize) -> Result<u32, Memory>
    ensures { IfOk result (λ n. n ≡ place) }
{
    if place > u32::MAX as usize {
        return Err(Memory);
    }
    Ok(place as u32)
}

/// The children of a conjunction, which was the last part that waited, become facts that wait, the first on top.
fn take_parts<'a, D: Domain>(
    system: &System<'a, D>,
    goal: &mut Goal<'a>,
    whole: &Part<'a>,
    parts: &'a [Matrix],
    lines: &mut Items<Step>,
) -> Result<(), Memory>
    requires is { whole.now.matrix.now ≡ disjunction parts.now }
    requires part { IsPart D.SORT system.now whole.now }
    requires kept { IsGoal D.SORT system.now goal.old }
    ensures reaches { OnOk result (Reaches D.SORT system.now (with_open goal.old whole.now) lines.old goal.new lines.new) }
    ensures kept { OnOk result (IsGoal D.SORT system.now goal.new) }
{
    let count = parts.len();
    for done in 0..count {
        let place = count - 1 - done;
        let index = small(place)?;
        add_child(goal, whole, index, part_at(parts, place), lines)?;
    }
    Ok(())
}

/// Whether there is a path of this number.
fn has_path<D: Domain>(system: &System<'_, D>, path: u32) -> bool
    ensures { IsTrue result ↔ path < length (routes (skeleton_of system.now.tree) [] 0) }
{
    path < system.path_count()
}

/// The next path becomes a fact, where there is one left and nothing waits.
fn take_path<'a, D: Domain>(
    system: &System<'a, D>,
    goal: &mut Goal<'a>,
    lines: &mut Items<Step>,
) -> Result<bool, Memory>
    requires kept { IsGoal D.SORT system.now goal.old }
    requires empty { goal.old.waiting ≡ [] }
    ensures { IfOk result (TakesPath D.SORT system.now goal.old lines.old goal.new lines.new) }
{
    if !has_path(system, goal.next) {
        return Ok(false);
    }
    add_path(goal, system.matrix(), lines)?;
    Ok(true)
}

/// The part that waited last is taken: a literal stays one, a conjunction becomes its children, which wait.
fn take_part<'a, D: Domain>(
    system: &System<'a, D>,
    goal: &mut Goal<'a>,
    part: Part<'a>,
    lines: &mut Items<Step>,
) -> Result<Progress<'a>, Memory>
    requires kept { IsGoal D.SORT system.now goal.old }
    requires part { IsPart D.SORT system.now part }
    ensures { IfOk result (Progresses D.SORT system.now (with_open goal.old part.entry) lines.old goal.new lines.new) }
{
    match part.matrix {
        Matrix::And(_) => Ok(Progress::Fork(part)),
        Matrix::Lit(_) => {
            goal.lits.push(part)?;
            Ok(Progress::Taken)
        }
        Matrix::Or(parts) => {
            take_parts(system, goal, &part, parts.as_slice(), lines)?;
            Ok(Progress::Taken)
        }
    }
}

/// One step of taking apart.
fn step<'a, D: Domain>(
    system: &System<'a, D>,
    goal: &mut Goal<'a>,
    lines: &mut Items<Step>,
) -> Result<Progress<'a>, Memory>
    requires { IsGoal D.SORT system.now goal.old }
    ensures { IfOk result (Progresses D.SORT system.now goal.old lines.old goal.new lines.new) }
{
    match goal.waiting.pop() {
        None => {
            let more = take_path(system, goal, lines)?;
            if more {
                Ok(Progress::Taken)
            } else {
                Ok(Progress::Done)
            }
        }
        Some(part) => take_part(system, goal, part, lines),
    }
}

/// Takes apart until a disjunction comes up or nothing is left.
pub fn expand<'a, D: Domain>(
    system: &System<'a, D>,
    goal: &mut Goal<'a>,
    lines: &mut Items<Step>,
) -> Result<Option<Part<'a>>, Memory>
    requires { IsGoal D.SORT system.now goal.old }
    ensures { IfOk result (Expands D.SORT system.now goal.old lines.old goal.new lines.new) }
{
    for _ in 0..u64::MAX {
        match step(system, goal, lines)? {
            Progress::Taken => {}
            Progress::Fork(part) => return Ok(Some(part)),
            Progress::Done => return Ok(None),
        }
    }
    Err(Memory)
}
