//! The lines of a tree of nodes.

use crate::facts::{Dag, FactKind, Node, NodeKind, number_of};
use crate::rows::lit_of;
use cube_rules::Step;
use search_decide::Leaf;
use search_rows::Stuck;
use search_simplex::{NONE, item, put, size};
use sqlite_items::Items;
use std::alloc::Global;

/// The most lines.
const LIMIT: usize = 4_000_000;

/// What is still to be written: a node, its scope, its given fact, and how many facts the context has without it.
#[derive(Clone, Copy, Debug, PartialEq, Eq)]
struct Task {
    node: u32,
    scope: u32,
    given: u32,
    count: u32,
}

/// The lines so far, and the number of each fact in the context.
#[derive(Drop)]
struct Lines {
    alloc: Global,
    out: Items<Step>,
    numbers: Vec<u32>,
    tasks: Vec<Task>,
    count: u32,
}

/// The number in the context of a number in the lines of a proof over literals: behind its inputs stand its sums.
fn renamed(names: &[u32], count: u32, local: u32) -> Result<u32, Stuck> {
    match names.get(local as usize) {
        Some(found) => Ok(*found),
        None => {
            let behind = local.checked_sub(size(names.len())?).ok_or(Stuck::Place)?;
            count.checked_add(behind).ok_or(Stuck::Place)
        }
    }
}

fn over_context(names: &[u32], count: u32, line: &Step) -> Result<Step, Stuck> {
    match line {
        Step::Sum(p, f, q, h, g) => {
            let f = renamed(names, count, *f)?;
            let h = renamed(names, count, *h)?;
            Ok(Step::Sum(*p, f, *q, h, *g))
        }
        Step::False(f) => Ok(Step::False(renamed(names, count, *f)?)),
        _ => Err(Stuck::Place),
    }
}

impl Lines {
    fn number(&self, fact: u32) -> Result<u32, Stuck> {
        number_of(self.numbers.as_slice(), fact)
    }

    /// One more fact in the context.
    fn add(&mut self, fact: u32) -> Result<(), Stuck> {
        put(&mut self.numbers, fact, self.count)?;
        self.count = self.count.checked_add(1).ok_or(Stuck::Place)?;
        Ok(())
    }

    /// The line of a derived fact.
    fn line(&self, kind: FactKind, deps: (u32, u32)) -> Result<Step, Stuck> {
        match kind {
            FactKind::Given => Err(Stuck::Place),
            FactKind::Path(path) => Ok(Step::Path(path)),
            FactKind::Def(node, which) => Ok(Step::Def(node, which)),
            FactKind::Part(place) => Ok(Step::Part(self.number(deps.0)?, place)),
            FactKind::Sum(p, q, g) => {
                let f = self.number(deps.0)?;
                let h = self.number(deps.1)?;
                Ok(Step::Sum(p, f, q, h, g))
            }
        }
    }

    fn write_fact(&mut self, dag: &Dag, fact: u32) -> Result<(), Stuck> {
        let found = item(dag.facts.as_slice(), fact)?;
        let line = self.line(found.kind, found.deps)?;
        self.out.push(line)?;
        self.add(fact)
    }

    /// The facts that open a scope.
    fn write_scope(&mut self, dag: &Dag, facts: &[u32]) -> Result<(), Stuck> {
        for fact in facts {
            self.write_fact(dag, *fact)?;
        }
        Ok(())
    }

    fn names(&self, ends: &[u32]) -> Result<Vec<u32>, Stuck> {
        let mut names: Vec<u32> = Vec::new(self.alloc);
        for fact in ends {
            names.push(self.number(*fact)?)?;
        }
        Ok(names)
    }

    /// The lines of a proof over literals.
    fn write_leaf(&mut self, ends: &[u32], leaf: &Leaf) -> Result<(), Stuck> {
        let names = self.names(ends)?;
        if leaf.bare {
            self.out.push(Step::Cube(Items::from_slice(self.alloc, names.as_slice())?))?;
            for line in leaf.lines.as_slice() {
                self.out.push(line.copy(self.alloc)?)?;
            }
            return Ok(());
        }
        for line in leaf.lines.as_slice() {
            self.out
                .push(over_context(names.as_slice(), self.count, line)?)?;
        }
        Ok(())
    }

    fn end(&self, node: &Node) -> Result<u32, Stuck> {
        match node.ends.as_slice().first() {
            Some(fact) => self.number(*fact),
            None => Err(Stuck::Place),
        }
    }

    /// The line that ends a context.
    fn write_end(&mut self, node: &Node, leaves: &[Leaf]) -> Result<(), Stuck> {
        let line = match &node.kind {
            NodeKind::False => Step::False(self.end(node)?),
            NodeKind::Cases => Step::Cases(self.end(node)?, node.parts.len() as u64),
            NodeKind::Split(atom) => Step::Split(lit_of(self.alloc, atom)?),
            NodeKind::Cube(leaf) => {
                return self.write_leaf(node.ends.as_slice(), item(leaves, *leaf)?);
            }
        };
        self.out.push(line)?;
        Ok(())
    }

    /// The subproofs wait, the first on top.
    fn wait(&mut self, node: &Node) -> Result<(), Stuck> {
        for part in node.parts.as_slice().iter().rev() {
            self.tasks.push(Task {
                node: part.node,
                scope: part.scope,
                given: part.given,
                count: self.count,
            })?;
        }
        Ok(())
    }

    fn write(
        &mut self,
        dag: &Dag,
        by: &[Vec<u32>],
        leaves: &[Leaf],
        task: Task,
    ) -> Result<(), Stuck> {
        self.count = task.count;
        if task.given != NONE {
            self.add(task.given)?;
        }
        self.write_scope(dag, item(by, task.scope)?.as_slice())?;
        let node = item(dag.nodes.as_slice(), task.node)?;
        self.write_end(node, leaves)?;
        self.wait(node)
    }
}

/// The lines of a node and all below it.
pub fn lines_of(
    alloc: Global,
    dag: &Dag,
    root: u32,
    leaves: &[Leaf],
) -> Result<Items<Step>, Stuck> {
    let by = dag.by_scope()?;
    let mut numbers: Vec<u32> = Vec::new(alloc);
    numbers.resize(dag.facts.len(), NONE)?;
    let mut lines = Lines {
        alloc,
        out: Items::new(alloc),
        numbers,
        tasks: Vec::new(alloc),
        count: 0,
    };
    let (scope, given, count) = (0, NONE, 0);
    lines.tasks.push(Task {
        node: root,
        scope,
        given,
        count,
    })?;
    for _ in 0..u64::MAX {
        if lines.out.len() > LIMIT {
            return Err(Stuck::Fuel);
        }
        let Some(task) = lines.tasks.pop() else {
            return Ok(lines.out);
        };
        lines.write(dag, by.as_slice(), leaves, task)?;
    }
    Err(Stuck::Fuel)
}
