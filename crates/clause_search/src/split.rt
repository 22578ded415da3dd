//! A goal that is split: a goal for each child of a disjunction, one after the other.

ghost use Rattle.std.specs.Prelude.{◌≡◌, ◌<◌, ◌≤◌, ◌↔◌, ◌+◌, IsTrue, Some, nat_lt, unwrap_or, length, reverse, IfOk};
ghost use Rattle.lin_term.specs.Form.{cap};
ghost use Rattle.dom_core.specs.declared.Matrix.{And as conjunction};
ghost use Rattle.clause_search.specs.Stacked.{Begins, Advances, Finishes, Takes};

use crate::found::Found;
use crate::goal::{Goal, Part, part_at};
use cube_elim::WideCube;
use cube_rules::Step;
use dom_core::{Domain, Matrix};
use lin_term::{CAP, Memory};
use sqlite_items::Items;
use std::alloc::Global;

/// A goal whose disjunction, a fact of it, is split: the children before `place` are done, and the first wide cube among
/// their answers is kept.
#[derive(Drop)]
pub struct Split<'a, D: Domain> {
    pub goal: Goal<'a>,
    pub part: Part<'a>,
    pub parts: &'a [Matrix],
    pub place: usize,
    pub wide: Option<WideCube<D>>,
}

/// Where the search stands.
#[derive(Drop)]
pub enum State<'a, D: Domain> {
    /// At a goal that is not decided yet.
    Open(Goal<'a>),
    /// At the answer of a goal.
    Ended(Found<D>),
    /// At the answer of the first goal of all.
    Done(Found<D>),
}

/// The first of two wide cubes.
fn first<D: Domain>(old: Option<WideCube<D>>, new: WideCube<D>) -> WideCube<D>
    ensures { result ≡ unwrap_or old new }
{
    match old {
        Some(cube) => cube,
        None => new,
    }
}

/// Whether a count is past the cap; no machine holds so many children.
fn is_past_cap(count: u64) -> bool
    ensures { result ≡ nat_lt cap count }
{
    count > CAP as u64
}

/// A disjunction is split: the line is added, and no child is done.
pub fn begin<'a, D: Domain>(
    goal: Goal<'a>,
    part: Part<'a>,
    parts: &'a [Matrix],
    lines: &mut Items<Step>,
) -> Result<Split<'a, D>, Memory>
    requires { part.matrix.now ≡ conjunction parts.now }
    ensures { IfOk result (λ x. Begins D.SORT goal.entry part.entry lines.old lines.new x) }
{
    let count = parts.len() as u64;
    if is_past_cap(count) {
        return Err(Memory);
    }
    lines.push(Step::Cases(part.number, count))?;
    Ok(Split {
        goal,
        part,
        parts,
        place: 0,
        wide: None,
    })
}

/// The answer once all children are done.
fn answer<D: Domain>(split: Split<'_, D>) -> Found<D>
    requires { length split.parts.now ≤ split.place }
    ensures { Finishes D.SORT split.entry result }
{
    let Split {
        goal: _,
        part: _,
        parts: _,
        place: _,
        wide,
    } = split;
    match wide {
        Some(cube) => Found::Wide(cube),
        None => Found::Refuted,
    }
}

/// Whether there is a child at the place.
fn is_left<D: Domain>(split: &Split<'_, D>) -> bool
    ensures { IsTrue result ↔ split.now.place < length split.now.parts.now }
{
    split.place < split.parts.len()
}

/// The goal of the child at the place is opened, and where all are done the split goal has its answer.
pub fn advance<'a, D: Domain>(
    alloc: Global,
    split: Split<'a, D>,
    splits: &mut Items<Split<'a, D>>,
) -> Result<State<'a, D>, Memory>
    ensures { IfOk result (Advances D.SORT (reverse splits.old) split.entry (reverse splits.new)) }
{
    if !is_left(&split) {
        return Ok(State::Ended(answer(split)));
    }
    let child = part_at(split.parts, split.place);
    let goal = split.goal.with_part(alloc, split.part.path, child)?;
    splits.push(split)?;
    Ok(State::Open(goal))
}

/// The child at the place is closed.
fn past<'a, D: Domain>(split: Split<'a, D>) -> Split<'a, D>
    requires { split.place < length split.parts.now }
    ensures { result ≡ record split.entry { place = split.entry.place + 1 } }
{
    let mut next = split;
    next.place += 1;
    next
}

/// The child at the place ended with a wide cube.
fn past_wide<'a, D: Domain>(split: Split<'a, D>, cube: WideCube<D>) -> Split<'a, D>
    requires { split.place < length split.parts.now }
    ensures { result ≡ record split.entry { place = split.entry.place + 1; wide = Some (unwrap_or split.entry.wide cube) } }
{
    Split {
        goal: split.goal,
        part: split.part,
        parts: split.parts,
        place: split.place + 1,
        wide: Some(first(split.wide, cube)),
    }
}

/// The split goal takes the answer of the child at the place: a point is its own, else the next child is opened.
pub fn take<'a, D: Domain>(
    alloc: Global,
    split: Split<'a, D>,
    found: Found<D>,
    splits: &mut Items<Split<'a, D>>,
) -> Result<State<'a, D>, Memory>
    requires { split.place < length split.parts.now }
    ensures { IfOk result (Takes D.SORT (reverse splits.old) split.entry found (reverse splits.new)) }
{
    match found {
        Found::Point(point) => Ok(State::Ended(Found::Point(point))),
        Found::Refuted => advance(alloc, past(split), splits),
        Found::Wide(cube) => advance(alloc, past_wide(split, cube), splits),
    }
}
