//! The records of a search replayed, from the last one back. Each step gives a derived fact, a line `cases` whose false
//! children close at once, or a line `split` by another record. Then comes the end, and the wraps from the inside out.

use crate::cubes::CubeProof;
use crate::linewriter::lines_of;
use crate::wrapping::{Other, Wrap};
use crate::writer::Writer;
use cube_rules::Step;
use search_decide::Leaf;
use search_forms::{Kind, negation};
use search_rows::Stuck;
use search_simplex::{NONE, at, item, size};
use search_trail::{Reason, Record, Search};
use sqlite_items::Items;
use std::alloc::Global;

/// A record that is being replayed.
#[derive(Debug, Drop)]
struct Frame {
    record: u32,
    /// How many steps are done.
    step: usize,
    /// How long the log was before.
    mark: usize,
    /// How long it was before the record of the step at hand, and the fact that this was given.
    before: usize,
    given: u32,
    wraps: Vec<Wrap>,
    /// What closes the context early.
    short: u32,
}

/// What a step came to.
#[derive(Clone, Copy, Debug, PartialEq, Eq)]
enum Turn {
    /// The step is done.
    On,
    /// Another record is first.
    Into(u32),
}

impl Writer {
    /// A leaf's way from the root: the nodes below it, the first one first.
    fn way(&self, search: &Search, leaf: u32) -> Result<Vec<u32>, Stuck> {
        let mut way: Vec<u32> = Vec::new(self.alloc);
        let mut node = at(search.setup.shape.leaf_nodes.as_slice(), leaf)?;
        for _ in 0..search.setup.shape.kinds.len() {
            if node == 0 {
                break;
            }
            way.push(node)?;
            node = search.setup.shape.parent(node)?;
        }
        way.as_mut_slice().reverse();
        Ok(way)
    }

    /// The other children of a disjunction, closed.
    fn others(
        &mut self,
        search: &Search,
        path: u32,
        parent: u32,
        child: u32,
    ) -> Result<Vec<Other>, Stuck> {
        let mut out: Vec<Other> = Vec::new(self.alloc);
        let children = search.setup.shape.children(self.alloc, parent)?;
        for other in children.as_slice() {
            if *other != child {
                out.push(self.other(search, path, *other)?)?;
            }
        }
        Ok(out)
    }

    fn other(&mut self, search: &Search, path: u32, node: u32) -> Result<Other, Stuck> {
        let given = self.given_node(search, path, node)?;
        let closed = self.close(search, path, node, given)?;
        Ok(Other {
            place: at(search.setup.shape.places.as_slice(), node)?,
            given,
            node: closed,
        })
    }

    /// One node down on the way to a leaf.
    fn tree_step(
        &mut self,
        search: &Search,
        path: u32,
        fact: u32,
        child: u32,
        wraps: &mut Vec<Wrap>,
    ) -> Result<u32, Stuck> {
        let parent = search.setup.shape.parent(child)?;
        if search.setup.shape.kind(parent)? == Kind::And {
            return self.part(search, fact, path, child);
        }
        let others = self.others(search, path, parent, child)?;
        let given = self.given_node(search, path, child)?;
        let place = at(search.setup.shape.places.as_slice(), child)?;
        wraps.push(Wrap::Cases(fact, place, given, others))?;
        Ok(given)
    }

    /// A leaf that a path forces.
    fn tree(
        &mut self,
        search: &Search,
        path: u32,
        leaf: u32,
        wraps: &mut Vec<Wrap>,
    ) -> Result<u32, Stuck> {
        let way = self.way(search, leaf)?;
        let mut fact = self.path(search, path)?;
        for child in way.as_slice() {
            fact = self.tree_step(search, path, fact, *child, wraps)?;
        }
        self.to_columns(search, fact)
    }

    /// A sum of bounds.
    fn sum(&mut self, search: &Search, list: &[(u32, i128)]) -> Result<u32, Stuck> {
        let items = self.weigh(search, list)?;
        self.dag.add_up(items.as_slice())
    }

    /// Begins a record inside another: its decision is given.
    fn begin_lemma(
        &mut self,
        search: &Search,
        frame: &mut Frame,
        record: u32,
    ) -> Result<Turn, Stuck> {
        let decision = search.record_at(record)?.decision;
        let atom = search.forms.atom_of(&search.setup, decision)?;
        let given = self.dag.given(Some(atom))?;
        frame.before = self.log.len();
        frame.given = given;
        self.put(search, decision, given)?;
        Ok(Turn::Into(record))
    }

    /// One step of a record.
    fn step(
        &mut self,
        search: &Search,
        frame: &mut Frame,
        code: u32,
        reason: &Reason,
    ) -> Result<Turn, Stuck> {
        if self.have(search, code)? != NONE {
            return Ok(Turn::On);
        }
        let fact = match reason {
            Reason::Def(node, which) => {
                let fact = self.def(search, *node, *which)?;
                self.to_columns(search, fact)?
            }
            Reason::Tree(path, leaf) => self.tree(search, *path, *leaf, &mut frame.wraps)?,
            Reason::Sum(list) => {
                let fact = self.sum(search, list.as_slice())?;
                match self.dag.truth(fact)? {
                    Some(true) => return Err(Stuck::Place),
                    Some(false) => {
                        frame.short = self.dag.false_node(fact)?;
                        return Ok(Turn::On);
                    }
                    None => fact,
                }
            }
            Reason::Lemma(record) => return self.begin_lemma(search, frame, *record),
        };
        self.put(search, code, fact)?;
        Ok(Turn::On)
    }

    /// A record inside another is closed.
    fn end_lemma(&mut self, search: &Search, frame: &mut Frame, closed: u32) -> Result<(), Stuck> {
        self.cut(frame.before)?;
        if !self.dag.is_used(frame.given)? {
            frame.short = closed;
            return Ok(());
        }
        let (code, _reason) = step_at(search.record_at(frame.record)?, frame.step)?;
        let atom = search.forms.atom_of(&search.setup, code ^ 1)?;
        let negated = negation(self.alloc, self.dag.sort, &atom)?;
        let given = self.dag.given(Some(negated))?;
        frame
            .wraps
            .push(Wrap::Split(atom, frame.given, closed, given))?;
        self.put(search, code, given)
    }

    /// Steps of a record, until it is done or another record is first.
    fn advance(&mut self, search: &Search, frame: &mut Frame) -> Result<Turn, Stuck> {
        let record = search.record_at(frame.record)?;
        for _ in frame.step..record.steps.len() {
            if frame.short != NONE {
                return Ok(Turn::On);
            }
            let (code, reason) = step_at(record, frame.step)?;
            let turn = self.step(search, frame, code, reason)?;
            if turn != Turn::On {
                return Ok(turn);
            }
            frame.step = frame.step.saturating_add(1);
        }
        Ok(Turn::On)
    }

    /// The end of a record with all that is around it.
    fn finish(
        &mut self,
        search: &Search,
        frame: Frame,
        proofs: &[CubeProof],
    ) -> Result<u32, Stuck> {
        let mut frame = frame;
        let mut node = frame.short;
        if node == NONE {
            node = self.ended(search, &search.record_at(frame.record)?.end, proofs)?;
        }
        for _ in 0..frame.wraps.len() {
            let Some(wrap) = frame.wraps.pop() else {
                return Err(Stuck::Place);
            };
            node = self.wrap(node, wrap)?;
        }
        self.cut(frame.mark)?;
        Ok(node)
    }

    fn frame(&self, record: u32) -> Frame {
        Frame {
            record,
            step: 0,
            mark: self.log.len(),
            before: 0,
            given: NONE,
            wraps: Vec::new(self.alloc),
            short: NONE,
        }
    }

    /// One turn of a record; the node that closes it, where it is done.
    fn turn(
        &mut self,
        search: &Search,
        frame: Frame,
        closed: u32,
        frames: &mut Vec<Frame>,
        proofs: &[CubeProof],
    ) -> Result<u32, Stuck> {
        let mut frame = frame;
        if closed != NONE {
            self.end_lemma(search, &mut frame, closed)?;
            frame.step = frame.step.saturating_add(1);
        }
        match self.advance(search, &mut frame)? {
            Turn::On => self.finish(search, frame, proofs),
            Turn::Into(record) => {
                let inner = self.frame(record);
                frames.push(frame)?;
                frames.push(inner)?;
                Ok(NONE)
            }
        }
    }

    /// The node that closes the last record.
    fn replay(&mut self, search: &Search, last: u32, proofs: &[CubeProof]) -> Result<u32, Stuck> {
        let mut frames: Vec<Frame> = Vec::new(self.alloc);
        let first = self.frame(last);
        frames.push(first)?;
        let mut closed = NONE;
        for _ in 0..u64::MAX {
            let Some(frame) = frames.pop() else {
                return Ok(closed);
            };
            closed = self.turn(search, frame, closed, &mut frames, proofs)?;
        }
        Err(Stuck::Fuel)
    }
}

/// A step of a record.
fn step_at(record: &Record, step: usize) -> Result<(u32, &Reason), Stuck> {
    match record.steps.get(step) {
        Some(found) => Ok((found.0, &found.1)),
        None => Err(Stuck::Place),
    }
}

/// The leaves of proofs over literals.
fn leaves_of(alloc: Global, proofs: &[CubeProof]) -> Result<Vec<Leaf>, Stuck> {
    let mut out: Vec<Leaf> = Vec::new(alloc);
    for proof in proofs {
        out.push(copied(alloc, &proof.leaf)?)?;
    }
    Ok(out)
}

fn copied(alloc: Global, leaf: &Leaf) -> Result<Leaf, Stuck> {
    let mut lines: Vec<Step> = Vec::new(alloc);
    for line in leaf.lines.as_slice() {
        lines.push(line.copy(alloc)?)?;
    }
    let mut used: Vec<u32> = Vec::new(alloc);
    used.extend_from_slice(leaf.used.as_slice())?;
    Ok(Leaf {
        used,
        lines,
        bare: leaf.bare,
    })
}

/// The lines by which a search that ended with a refutation refutes its system.
pub fn refuting_lines(
    alloc: Global,
    search: &Search,
    proofs: &[CubeProof],
) -> Result<Items<Step>, Stuck> {
    let count = size(search.records.len())?;
    let last = count.checked_sub(1).ok_or(Stuck::Place)?;
    let mut writer = Writer::new(alloc, search, leaves_of(alloc, proofs)?)?;
    let root = writer.replay(search, last, proofs)?;
    let _whole = item(writer.dag.nodes.as_slice(), root)?;
    lines_of(alloc, &writer.dag, root, writer.leaves.as_slice())
}
