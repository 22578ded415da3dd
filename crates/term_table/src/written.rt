//! Entries as steps, and steps as terms.

ghost use Rattle.std.specs.Prelude.{◌≡◌, ◌<◌, ◌∷◌, List, [], length, map, IfOk};
ghost use Rattle.lin_truth.specs.View.{tree_of};
ghost use Rattle.term_table.specs.Placed.{top, used};
ghost use Rattle.term_table.specs.Meaning.{Meaning, meanings, at as tree_at};
ghost use Rattle.term_table.specs.Entries.{nodes_of, AreEntries};
ghost use Rattle.term_table.specs.Steps.{first, frames_of, thing_of, run, done, IsTaskBelow};
ghost use Rattle.term_table.specs.Writing.{IsReady, Goes, GoesBy, ends};

use crate::entry::Entry;
use crate::node::Leaf;
use crate::step::{Around, Step, Task, Thing};
use crate::writer::{Writer, things_of};
use sqlite_items::Items;
use std::alloc::{AllocError, Global};

impl Writer {
    /// Writes a thing: its node, or `false` where there is none.
    fn thing(
        &mut self,
        alloc: Global,
        entries: &[Entry],
        thing: Thing,
        above: u32,
    ) -> Result<(), AllocError>
        requires ready { IsReady self.old }
        requires below { thing.frame < length self.old.frames.items }
        requires entries { AreEntries entries.now }
        ensures { IfOk result (λ _. Goes (meanings (nodes_of entries.now)) self.old self.new (thing_of (meanings (nodes_of entries.now)) (frames_of (meanings (nodes_of entries.now)) self.old.frames.items) thing above)) }
    {
        if thing.node as usize >= entries.len() {
            return self.put(Step::Leaf(Leaf::False));
        }
        let entry = &entries[thing.node as usize];
        self.visit(alloc, &entry.node, thing.frame, above)
    }

    /// Does a task.
    fn perform(&mut self, alloc: Global, entries: &[Entry], task: Task) -> Result<(), AllocError>
        requires ready { IsReady self.old }
        requires below { IsTaskBelow (length self.old.frames.items) task }
        requires entries { AreEntries entries.now }
        ensures { IfOk result (λ _. GoesBy (meanings (nodes_of entries.now)) self.old self.new (done (meanings (nodes_of entries.now)) (frames_of (meanings (nodes_of entries.now)) self.old.frames.items) task (run self.old.steps.items []))) }
    {
        match task {
            Task::Write { thing, above } => self.thing(alloc, entries, thing, above),
            Task::Apart {
                left,
                right,
                frame,
                above,
            } => self.apart(left, right, frame, above),
            Task::Put(step) => self.put(step),
        }
    }
}

impl Writer {
    /// Does all tasks. Each takes the last task and puts down a step or adds tasks for parts, so that it ends; the count
    /// is never met.
    fn finish(&mut self, alloc: Global, entries: &[Entry]) -> Result<(), AllocError>
        requires ready { IsReady self.old }
        requires entries { AreEntries entries.now }
        ensures { IfOk result (λ _. run self.new.steps.items [] ≡ ends (meanings (nodes_of entries.now)) self.old (run self.old.steps.items [])) }
    {
        for _ in 0..u64::MAX {
            match self.todo.pop() {
                None => return Ok(()),
                Some(task) => self.perform(alloc, entries, task)?,
            }
        }
        Err(AllocError)
    }
}

/// The steps of the tree of a definition's body with these arguments, below so many variables.
pub fn steps_of(
    alloc: Global,
    entries: &[Entry],
    body: u32,
    args: &[u32],
    above: u32,
) -> Result<Vec<Step>, AllocError>
    requires { AreEntries entries.now }
    ensures { IfOk result (λ steps. run steps.items [] ≡ used (tree_at (meanings (nodes_of entries.now)) body) (map (tree_at (meanings (nodes_of entries.now))) args.now) top above ∷ []) }
{
    let mut writer = Writer {
        frames: Vec::new(alloc),
        todo: Vec::new(alloc),
        steps: Vec::new(alloc),
    };
    let outer = Around {
        given: Items::new(alloc),
        bound: Items::new(alloc),
    };
    writer.frames.push(outer)?;
    writer.definition(alloc, body, args, 0, above)?;
    writer.finish(alloc, entries)?;
    let Writer { steps, .. } = writer;
    Ok(steps)
}
