//! The tasks of each kind of node.

ghost use Rattle.std.specs.Prelude.{◌≡◌, ◌<◌, ◌+◌, List, [], length, map, take, IfOk, MatchOption, slice_index_or};
ghost use Rattle.term_table.specs.Placed.{nothing, parameter, binding, inner, used};
ghost use Rattle.term_table.specs.Built.{binder_of};
ghost use Rattle.term_table.specs.Meaning.{Meaning, meaning, meanings, at as tree_at};
ghost use Rattle.term_table.specs.Entries.{nodes_of, AreEntries};
ghost use Rattle.term_table.specs.Steps.{frames_of, frame_of, frame_at, thing_of, run, done, AreThingsBelow, AreFramesFrom, IsTaskBelow};
ghost use Rattle.term_table.specs.Writing.{IsReady, Goes, GoesBy};

use crate::entry::Entry;
use crate::node::{Leaf, Node, Quantifier};
use crate::step::{Around, Step, Task, Thing};
use crate::writer::{Writer, bound_of, first_of, things_of};
use lin_truth::VarSort;
use sqlite_items::Items;
use std::alloc::{AllocError, Global};

/// What is given for a parameter.
fn given_at(frames: &[Around], frame: u32, number: u32) -> Option<Thing>
    requires below { frame < length frames.now }
    requires ordered { AreFramesFrom 0 frames.now }
    ensures { MatchOption result ((ms : List Meaning) → slice_index_or (frame_at (frames_of ms frames.now) frame).given number nothing ≡ nothing) (λ t. (t.frame < length frames.now) × ((ms : List Meaning) → slice_index_or (frame_at (frames_of ms frames.now) frame).given number nothing ≡ thing_of ms (frames_of ms frames.now) t)) }
{
    let around = &frames[frame as usize];
    let given = around.given.as_slice();
    if (number as usize) < given.len() {
        return Some(given[number as usize]);
    }
    None
}

/// The place of a binding.
fn place_at(frames: &[Around], frame: u32, binding: u32) -> u32
    requires below { frame < length frames.now }
    requires ordered { AreFramesFrom 0 frames.now }
    ensures { (ms : List Meaning) → slice_index_or (frame_at (frames_of ms frames.now) frame).bound binding 0 ≡ result }
{
    let around = &frames[frame as usize];
    let bound = around.bound.as_slice();
    if (binding as usize) < bound.len() {
        return bound[binding as usize];
    }
    0
}

/// What stands around the body of a binder.
fn inner_of(
    alloc: Global,
    frames: &[Around],
    frame: u32,
    around: u32,
    count: u32,
    above: u32,
) -> Result<Around, AllocError>
    requires below { frame < length frames.now }
    requires ordered { AreFramesFrom 0 frames.now }
    requires fits { above + count < 4294967296 }
    ensures { IfOk result (λ x. AreThingsBelow (length frames.now) x.given × ((ms : List Meaning) → frame_of ms (frames_of ms frames.now) x ≡ inner around count (frame_at (frames_of ms frames.now) frame) above)) }
{
    let outer = &frames[frame as usize];
    let given = Items::from_slice(alloc, outer.given.as_slice())?;
    let bound = bound_of(
        alloc,
        first_of(outer.bound.as_slice(), around),
        count,
        above,
    )?;
    Ok(Around { given, bound })
}

impl Writer {
    fn parameter(&mut self, number: u32, frame: u32, above: u32) -> Result<(), AllocError>
        requires ready { IsReady self.old }
        requires below { frame < length self.old.frames.items }
        ensures { IfOk result (λ _. (ms : List Meaning) → Goes ms self.old self.new (parameter number (frame_at (frames_of ms self.old.frames.items) frame) above)) }
    {
        let found = given_at(self.frames.as_slice(), frame, number);
        match found {
            None => self.put(Step::Leaf(Leaf::False)),
            Some(thing) => self.write(thing, above),
        }
    }

    fn binding(&mut self, place: u32, frame: u32, above: u32) -> Result<(), AllocError>
        requires ready { IsReady self.old }
        requires below { frame < length self.old.frames.items }
        ensures { IfOk result (λ _. (ms : List Meaning) → Goes ms self.old self.new (binding place (frame_at (frames_of ms self.old.frames.items) frame) above)) }
    {
        let variable = place_at(self.frames.as_slice(), frame, place);
        self.put(Step::Variable(variable))
    }
}

impl Writer {
    fn binder(
        &mut self,
        alloc: Global,
        quantifier: Quantifier,
        sorts: &[VarSort],
        around: u32,
        body: u32,
        frame: u32,
        above: u32,
    ) -> Result<(), AllocError>
        requires ready { IsReady self.old }
        requires below { frame < length self.old.frames.items }
        ensures { IfOk result (λ _. (ms : List Meaning) → Goes ms self.old self.new (binder_of quantifier sorts.now (tree_at ms body (inner around (length sorts.now) (frame_at (frames_of ms self.old.frames.items) frame) above) (above + length sorts.now)))) }
    {
        if sorts.len() > (4_294_967_295 - above) as usize {
            return Err(AllocError);
        }
        let count = sorts.len() as u32;
        let sorts = Items::from_slice(alloc, sorts)?;
        let inner = inner_of(alloc, self.frames.as_slice(), frame, around, count, above)?;
        self.later(Step::Binder(quantifier, sorts))?;
        self.enter(inner, body, above + count)
    }

    /// The body of a definition at its arguments.
    pub fn definition(
        &mut self,
        alloc: Global,
        body: u32,
        args: &[u32],
        frame: u32,
        above: u32,
    ) -> Result<(), AllocError>
        requires ready { IsReady self.old }
        requires below { frame < length self.old.frames.items }
        ensures { IfOk result (λ _. (ms : List Meaning) → Goes ms self.old self.new (used (tree_at ms body) (map (tree_at ms) args.now) (frame_at (frames_of ms self.old.frames.items) frame) above)) }
    {
        let given = things_of(alloc, args, frame)?;
        let bound = Items::new(alloc);
        self.enter(Around { given, bound }, body, above)
    }
}

impl Writer {
    /// Writes a node with this frame next.
    pub fn visit(
        &mut self,
        alloc: Global,
        node: &Node,
        frame: u32,
        above: u32,
    ) -> Result<(), AllocError>
        requires ready { IsReady self.old }
        requires below { frame < length self.old.frames.items }
        ensures { IfOk result (λ _. (ms : List Meaning) → Goes ms self.old self.new (meaning ms node.now (frame_at (frames_of ms self.old.frames.items) frame) above)) }
    {
        match node {
            Node::Leaf(leaf) => self.put(Step::Leaf(*leaf)),
            Node::Parameter(number) => self.parameter(*number, frame, above),
            Node::Binding(place) => self.binding(*place, frame, above),
            Node::One(op, a) => self.split(Step::One(*op), &[*a], frame, above),
            Node::Two(op, a, b) => self.split(Step::Two(*op), &[*a, *b], frame, above),
            Node::Choice(c, a, b) => self.split(Step::Choice, &[*c, *a, *b], frame, above),
            Node::Several(op, parts) => self.split(
                Step::Several(*op, parts.len()),
                parts.as_slice(),
                frame,
                above,
            ),
            Node::Distinct(parts) => self.distinct(alloc, parts.as_slice(), frame, above),
            Node::Binder {
                quantifier,
                sorts,
                around,
                body,
            } => self.binder(
                alloc,
                *quantifier,
                sorts.as_slice(),
                *around,
                *body,
                frame,
                above,
            ),
            Node::Use { body, args } => self.definition(
                alloc,
                *body,
                args.as_slice(),
                frame,
                above,
            ),
        }
    }
}
