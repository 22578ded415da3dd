//! The plain search: goal by goal, in the order of paths and children. The goals that are split lie on a stack of their own.

ghost use Rattle.std.specs.Prelude.{[], reverse, IfOk};
ghost use Rattle.clause_search.specs.Attacks.{IsAttack};
ghost use Rattle.clause_search.specs.Taken.{IsGoal};
ghost use Rattle.clause_search.specs.Searching.{Finds};
ghost use Rattle.clause_search.specs.Stacked.{Opens, Runs, Turns};

use crate::attack::Attack;
use crate::eliminate::{early, whole};
use crate::expand::expand;
use crate::found::Found;
use crate::goal::Goal;
use crate::refuted::refuted;
use crate::split::{Split, State, advance, begin, take};
use cube_rules::Step;
use dom_core::{Domain, Matrix};
use lin_term::{Memory, Short};
use lose_system::System;
use proof_rules::check;
use sqlite_items::Items;
use std::alloc::Global;

/// A goal is taken apart until its literals decide it, or it is split and its first child is open.
fn open<'a, D: Domain>(
    alloc: Global,
    system: &System<'a, D>,
    goal: Goal<'a>,
    splits: &mut Items<Split<'a, D>>,
    lines: &mut Items<Step>,
) -> Result<State<'a, D>, Memory>
    requires { IsGoal D.SORT system.now goal }
    ensures { IfOk result (Opens D.SORT system.now (reverse splits.old) goal.entry lines.old (reverse splits.new) lines.new) }
{
    let mut now = goal;
    let Some(part) = expand(system, &mut now, lines)? else {
        let found = whole(alloc, system, &now, lines)?;
        return Ok(State::Ended(found));
    };
    if let Some(found) = early(alloc, system, &now, &part, lines)? {
        return Ok(State::Ended(found));
    }
    match part.matrix {
        Matrix::And(parts) => {
            let split = begin(now, part, parts.as_slice(), lines)?;
            advance(alloc, split, splits)
        }
        _ => unreachable!(),
    }
}

/// One turn of the search: the goal that is open is searched, or the last split goal takes the answer of its child.
fn turn<'a, D: Domain>(
    alloc: Global,
    system: &System<'a, D>,
    state: State<'a, D>,
    splits: &mut Items<Split<'a, D>>,
    lines: &mut Items<Step>,
) -> Result<State<'a, D>, Memory>
    requires { Runs D.SORT system.now (reverse splits.old) state }
    ensures { IfOk result (Turns D.SORT system.now (reverse splits.old) lines.old state.entry (reverse splits.new) lines.new) }
{
    match state {
        State::Open(goal) => open(alloc, system, goal, splits, lines),
        State::Done(found) => Ok(State::Done(found)),
        State::Ended(found) => match splits.pop() {
            None => Ok(State::Done(found)),
            Some(split) => take(alloc, split, found, splits),
        },
    }
}

/// From nothing taken to a point that solves the system, lines that refute it, or a wide cube.
fn search<'a, D: Domain>(
    alloc: Global,
    system: &System<'a, D>,
    lines: &mut Items<Step>,
) -> Result<Found<D>, Memory>
    ensures { IfOk result (Finds D.SORT system.now (record { count = 0; next = 0; waiting = []; lits = [] }) lines.old lines.new) }
{
    let mut splits: Items<Split<'a, D>> = Items::new(alloc);
    let mut state = State::Open(Goal::start(alloc));
    for _ in 0..u64::MAX {
        match turn(alloc, system, state, &mut splits, lines)? {
            State::Done(found) => return Ok(found),
            next => state = next,
        }
    }
    Err(Memory)
}

/// The plain attack.
pub fn attack_plainly<D: Domain>(alloc: Global, system: &System<'_, D>) -> Result<Attack<D>, Memory>
    ensures { IfOk result (IsAttack D.SORT system.now) }
{
    let mut lines = Items::new(alloc);
    match search(alloc, system, &mut lines)? {
        Found::Point(point) => Ok(Attack::Point(point)),
        Found::Wide(cube) => {
            let _wide = cube.number();
            Ok(Attack::Wide(cube))
        }
        Found::Refuted => match check(alloc, system, lines.as_slice()) {
            Ok(()) => refuted(alloc, system, lines.as_slice()),
            Err(Short::Memory) => Err(Memory),
            Err(Short::Fault(_)) => unreachable!(),
        },
    }
}
