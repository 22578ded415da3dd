//! Writes the tree of an entry out as steps, without recursion: what is still to be done is a stack of tasks.

ghost use Rattle.std.specs.Prelude.{◌≡◌, ◌<◌, ◌≤◌, ◌+◌, ◌++◌, ◌∷◌, List, [], length, map, take, IfOk};
ghost use Rattle.term_table.specs.declared.step.Task.TheVariants as task;
ghost use Rattle.term_table.specs.Placed.{places, used};
ghost use Rattle.term_table.specs.Meaning.{Meaning, meanings, at as tree_at};
ghost use Rattle.term_table.specs.Entries.{nodes_of, AreEntries};
ghost use Rattle.term_table.specs.Built.{distinct_of};
ghost use Rattle.term_table.specs.Steps.{frames_of, frame_of, frame_at, thing_of, run, stepped, done, writes, aparts, things, AreThingsBelow};
ghost use Rattle.term_table.specs.Writing.{IsReady, Later, Goes, GoesBy};

use crate::entry::Entry;
use crate::node::{Binary, Leaf, Node, Quantifier, Unary, Variadic};
use crate::step::{Around, Step, Task, Thing};
use lin_truth::VarSort;
use sqlite_items::Items;
use std::alloc::{AllocError, Global};

/// The steps so far, the tasks that are left, the last one first, and the frames that they name.
#[derive(Drop)]
pub struct Writer {
    pub frames: Vec<Around>,
    pub todo: Vec<Task>,
    pub steps: Vec<Step>,
}

/// Adds the writing of parts to the tasks.
fn push_parts(todo: &mut Vec<Task>, parts: &[u32], frame: u32, above: u32) -> Result<(), AllocError>
    ensures { IfOk result (λ _. todo.new.items ≡ todo.old.items ++ writes parts.now frame above) }
{
    for part in parts {
        let thing = Thing { node: *part, frame };
        todo.push(Task::Write { thing, above })?;
    }
    Ok(())
}

/// Adds that one part differs from each of the others.
fn push_apart(
    todo: &mut Vec<Task>,
    left: u32,
    others: &[u32],
    frame: u32,
    above: u32,
) -> Result<(), AllocError>
    ensures { IfOk result (λ _. todo.new.items ≡ todo.old.items ++ map (λ right. task.Apart left right frame above) others.now) }
{
    for right in others {
        todo.push(Task::Apart {
            left,
            right: *right,
            frame,
            above,
        })?;
    }
    Ok(())
}

/// Adds that no two parts are equal.
fn push_pairs(todo: &mut Vec<Task>, parts: &[u32], frame: u32, above: u32) -> Result<(), AllocError>
    ensures { IfOk result (λ _. todo.new.items ≡ todo.old.items ++ aparts parts.now frame above) }
{
    for i in 0..parts.len() {
        push_apart(todo, parts[i], &parts[i + 1..], frame, above)?;
    }
    Ok(())
}

/// The entries, with this frame.
pub fn things_of(alloc: Global, args: &[u32], frame: u32) -> Result<Items<Thing>, AllocError>
    ensures { IfOk result (λ ts. ts ≡ things args.now frame) }
{
    let mut all = Vec::new(alloc);
    for node in args {
        all.push(Thing { node: *node, frame })?;
    }
    Ok(Items::from_vec(all))
}

/// The first so many places.
pub fn first_of(bound: &[u32], count: u32) -> &[u32]
    ensures { result.now ≡ take count bound.now }
{
    if (count as usize) < bound.len() {
        return &bound[..count as usize];
    }
    bound
}

/// These places, and so many new ones from this one on.
pub fn bound_of(
    alloc: Global,
    outer: &[u32],
    count: u32,
    above: u32,
) -> Result<Items<u32>, AllocError>
    requires { above + count < 4294967296 }
    ensures { IfOk result (λ is. is ≡ outer.now ++ places count above) }
{
    let mut all = Vec::from_slice(alloc, outer)?;
    for i in 0..count {
        all.push(above + i)?;
    }
    Ok(Items::from_vec(all))
}

impl Writer {
    /// Puts a step down.
    pub fn put(&mut self, step: Step) -> Result<(), AllocError>
        requires { IsReady self.old }
        ensures { IfOk result (λ _. (ms : List Meaning) → GoesBy ms self.old self.new (stepped step (run self.old.steps.items []))) }
    {
        self.steps.push(step)?;
        Ok(())
    }

    /// Puts a step down after what comes next.
    pub fn later(&mut self, step: Step) -> Result<(), AllocError>
        requires { IsReady self.old }
        ensures { IfOk result (λ _. Later self.old self.new step) }
    {
        self.todo.push(Task::Put(step))?;
        Ok(())
    }

    /// Writes a thing next.
    pub fn write(&mut self, thing: Thing, above: u32) -> Result<(), AllocError>
        requires ready { IsReady self.old }
        requires below { thing.frame < length self.old.frames.items }
        ensures { IfOk result (λ _. (ms : List Meaning) → Goes ms self.old self.new (thing_of ms (frames_of ms self.old.frames.items) thing above)) }
    {
        self.todo.push(Task::Write { thing, above })?;
        Ok(())
    }

    /// Writes these parts next, and then puts the step down.
    pub fn split(
        &mut self,
        step: Step,
        parts: &[u32],
        frame: u32,
        above: u32,
    ) -> Result<(), AllocError>
        requires ready { IsReady self.old }
        requires below { frame < length self.old.frames.items }
        ensures { IfOk result (λ _. (ms : List Meaning) → GoesBy ms self.old self.new (stepped step (map (λ i. tree_at ms i (frame_at (frames_of ms self.old.frames.items) frame) above) parts.now ++ run self.old.steps.items []))) }
    {
        self.todo.push(Task::Put(step))?;
        push_parts(&mut self.todo, parts, frame, above)?;
        Ok(())
    }

    /// Writes next that two entries are not equal.
    pub fn apart(&mut self, left: u32, right: u32, frame: u32, above: u32) -> Result<(), AllocError>
        requires ready { IsReady self.old }
        requires below { frame < length self.old.frames.items }
        ensures { IfOk result (λ _. (ms : List Meaning) → GoesBy ms self.old self.new (done ms (frames_of ms self.old.frames.items) (task.Apart left right frame above) (run self.old.steps.items []))) }
    {
        self.todo.push(Task::Put(Step::One(Unary::Not)))?;
        self.todo.push(Task::Put(Step::Two(Binary::Equal)))?;
        push_parts(&mut self.todo, &[left, right], frame, above)?;
        Ok(())
    }

    /// Writes next that no two parts are equal.
    pub fn distinct(
        &mut self,
        alloc: Global,
        parts: &[u32],
        frame: u32,
        above: u32,
    ) -> Result<(), AllocError>
        requires ready { IsReady self.old }
        requires below { frame < length self.old.frames.items }
        ensures { IfOk result (λ _. (ms : List Meaning) → Goes ms self.old self.new (distinct_of (map (λ i. tree_at ms i (frame_at (frames_of ms self.old.frames.items) frame) above) parts.now))) }
    {
        let mut pairs = Vec::new(alloc);
        push_pairs(&mut pairs, parts, frame, above)?;
        let count = pairs.len();
        self.todo
            .push(Task::Put(Step::Several(Variadic::And, count)))?;
        self.todo.append(&mut pairs)?;
        Ok(())
    }

    /// Writes an entry next, in a new frame.
    pub fn enter(&mut self, around: Around, body: u32, above: u32) -> Result<(), AllocError>
        requires ready { IsReady self.old }
        requires below { AreThingsBelow (length self.old.frames.items) around.given }
        ensures { IfOk result (λ _. (ms : List Meaning) → Goes ms self.old self.new (tree_at ms body (frame_of ms (frames_of ms self.old.frames.items) around) above)) }
    {
        let frame = self.frames.len();
        if frame >= 4_294_967_295 {
            return Err(AllocError);
        }
        self.frames.push(around)?;
        let thing = Thing {
            node: body,
            frame: frame as u32,
        };
        self.todo.push(Task::Write { thing, above })?;
        Ok(())
    }
}
