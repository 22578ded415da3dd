//! Facts and closing nodes with exact counts of use, written last. Counts go up and down, so no idle line is written: a fact of no
//! use is left out, and a part that does not use its given fact stands for the whole. A derived fact is written at the opening
//! of the greatest scope of what it is made from, once.

use lin_term::Sort;
use search_rows::{Atom, Stuck, add};
use search_simplex::{NONE, at, item, lent, size, small};
use std::alloc::Global;
use std::mem;

/// How a fact comes into the context.
#[derive(Clone, Copy, Debug, PartialEq, Eq)]
pub enum FactKind {
    /// With a part of a line.
    Given,
    Path(u32),
    Def(u32, u32),
    /// A child of the first fact that it is made from.
    Part(u32),
    Sum(i64, i64, i128),
}

/// A fact.
#[derive(Debug, Drop)]
pub struct Fact {
    pub kind: FactKind,
    /// What it is made from.
    pub deps: (u32, u32),
    /// Its literal, none where it is a formula.
    pub atom: Option<Atom>,
    pub scope: u32,
    /// How often it is used.
    pub uses: u32,
}

/// The line that ends a context.
#[derive(Debug, Drop)]
pub enum NodeKind {
    False,
    Cases,
    Split(Atom),
    /// The lines of a proof over literals, by its number.
    Cube(u32),
}

/// A subproof: its scope, the fact that it is given, and its end.
#[derive(Clone, Copy, Debug, PartialEq, Eq)]
pub struct Part {
    pub scope: u32,
    pub given: u32,
    pub node: u32,
}

/// An end of a context with its subproofs.
#[derive(Debug, Drop)]
pub struct Node {
    pub kind: NodeKind,
    pub ends: Vec<u32>,
    pub parts: Vec<Part>,
}

/// Facts and nodes of one proof.
#[derive(Debug, Drop)]
pub struct Dag {
    pub alloc: Global,
    pub sort: Sort,
    pub facts: Vec<Fact>,
    pub nodes: Vec<Node>,
    pub scopes: u32,
}

impl Dag {
    /// No facts; one scope.
    pub fn new(alloc: Global, sort: Sort) -> Dag {
        Dag {
            alloc,
            sort,
            facts: Vec::new(alloc),
            nodes: Vec::new(alloc),
            scopes: 1,
        }
    }

    fn add_fact(
        &mut self,
        kind: FactKind,
        deps: (u32, u32),
        atom: Option<Atom>,
        scope: u32,
    ) -> Result<u32, Stuck> {
        let fact = size(self.facts.len())?;
        self.facts.push(Fact {
            kind,
            deps,
            atom,
            scope,
            uses: 0,
        })?;
        Ok(fact)
    }

    /// A given fact with a scope of its own.
    pub fn given(&mut self, atom: Option<Atom>) -> Result<u32, Stuck> {
        let scope = self.scopes;
        self.scopes = scope.checked_add(1).ok_or(Stuck::Place)?;
        self.add_fact(FactKind::Given, (NONE, NONE), atom, scope)
    }

    fn scope_of(&self, fact: u32) -> Result<u32, Stuck> {
        if fact == NONE {
            return Ok(0);
        }
        Ok(item(self.facts.as_slice(), fact)?.scope)
    }

    /// A fact that is made from others.
    pub fn derived(
        &mut self,
        kind: FactKind,
        deps: (u32, u32),
        atom: Option<Atom>,
    ) -> Result<u32, Stuck> {
        let scope = self.scope_of(deps.0)?.max(self.scope_of(deps.1)?);
        self.add_fact(kind, deps, atom, scope)
    }

    /// The literal of a fact.
    pub fn atom(&self, fact: u32) -> Result<&Atom, Stuck> {
        match &item(self.facts.as_slice(), fact)?.atom {
            Some(atom) => Ok(atom),
            None => Err(Stuck::Place),
        }
    }

    /// The truth of a fact without variables.
    pub fn truth(&self, fact: u32) -> Result<Option<bool>, Stuck> {
        Ok(self.atom(fact)?.truth())
    }

    /// Whether a fact is false by itself.
    pub fn is_false(&self, fact: u32) -> Result<bool, Stuck> {
        Ok(self.truth(fact)? == Some(false))
    }

    /// p times the literal of one fact plus q times that of another.
    fn added(&self, p: i64, a: u32, q: i64, b: u32) -> Result<(Atom, i128), Stuck> {
        add(self.alloc, self.sort, p, self.atom(a)?, q, self.atom(b)?)
    }

    /// The fact that is p times one plus q times another, and what it was divided by.
    pub fn sum(&mut self, p: i128, a: u32, q: i128, b: u32) -> Result<(u32, i128), Stuck> {
        let p = small(p)?;
        let q = small(q)?;
        let (atom, g) = self.added(p, a, q, b)?;
        let fact = self.derived(FactKind::Sum(p, q, g), (a, b), Some(atom))?;
        Ok((fact, g))
    }

    /// One use more of a fact; what else is used for the first time is added to the work.
    fn hold_step(&mut self, fact: u32, work: &mut Vec<u32>) -> Result<(), Stuck> {
        let found = lent(&mut self.facts, fact)?;
        found.uses = found.uses.checked_add(1).ok_or(Stuck::Place)?;
        if found.uses == 1 {
            push_deps(work, found.deps)?;
        }
        Ok(())
    }

    /// A fact is used.
    pub fn hold(&mut self, fact: u32) -> Result<(), Stuck> {
        let mut work: Vec<u32> = Vec::new(self.alloc);
        work.push(fact)?;
        for _ in 0..u64::MAX {
            let Some(next) = work.pop() else {
                return Ok(());
            };
            self.hold_step(next, &mut work)?;
        }
        Err(Stuck::Fuel)
    }

    fn drop_step(&mut self, fact: u32, work: &mut Vec<u32>) -> Result<(), Stuck> {
        let found = lent(&mut self.facts, fact)?;
        found.uses = found.uses.checked_sub(1).ok_or(Stuck::Place)?;
        if found.uses == 0 {
            push_deps(work, found.deps)?;
        }
        Ok(())
    }

    /// A fact is used once less.
    fn drop_use(&mut self, fact: u32) -> Result<(), Stuck> {
        let mut work: Vec<u32> = Vec::new(self.alloc);
        work.push(fact)?;
        for _ in 0..u64::MAX {
            let Some(next) = work.pop() else {
                return Ok(());
            };
            self.drop_step(next, &mut work)?;
        }
        Err(Stuck::Fuel)
    }

    fn release_step(&mut self, node: u32, work: &mut Vec<u32>) -> Result<(), Stuck> {
        let found = lent(&mut self.nodes, node)?;
        let ends = mem::replace(&mut found.ends, Vec::new(self.alloc));
        for part in found.parts.as_slice() {
            work.push(part.node)?;
        }
        for fact in ends.as_slice() {
            self.drop_use(*fact)?;
        }
        Ok(())
    }

    /// A node and all below it are not used.
    pub fn release(&mut self, node: u32) -> Result<(), Stuck> {
        let mut work: Vec<u32> = Vec::new(self.alloc);
        work.push(node)?;
        for _ in 0..u64::MAX {
            let Some(next) = work.pop() else {
                return Ok(());
            };
            self.release_step(next, &mut work)?;
        }
        Err(Stuck::Fuel)
    }

    /// A node, which uses its ends.
    pub fn node(&mut self, kind: NodeKind, ends: Vec<u32>, parts: Vec<Part>) -> Result<u32, Stuck> {
        for fact in ends.as_slice() {
            self.hold(*fact)?;
        }
        let node = size(self.nodes.len())?;
        self.nodes.push(Node { kind, ends, parts })?;
        Ok(node)
    }

    /// A node with one end and no parts, or these.
    pub fn ended(&mut self, kind: NodeKind, end: u32, parts: Vec<Part>) -> Result<u32, Stuck> {
        let mut ends: Vec<u32> = Vec::new(self.alloc);
        ends.push(end)?;
        self.node(kind, ends, parts)
    }

    /// The line `false` of a fact.
    pub fn false_node(&mut self, fact: u32) -> Result<u32, Stuck> {
        let parts: Vec<Part> = Vec::new(self.alloc);
        self.ended(NodeKind::False, fact, parts)
    }

    /// Whether a fact is used.
    pub fn is_used(&self, fact: u32) -> Result<bool, Stuck> {
        Ok(item(self.facts.as_slice(), fact)?.uses > 0)
    }

    /// The part of a given fact.
    pub fn part(&self, given: u32, node: u32) -> Result<Part, Stuck> {
        Ok(Part {
            scope: self.scope_of(given)?,
            given,
            node,
        })
    }

    /// A derived fact that stands where a part begins, by scope.
    pub fn by_scope(&self) -> Result<Vec<Vec<u32>>, Stuck> {
        let mut by: Vec<Vec<u32>> = Vec::new(self.alloc);
        for _ in 0..self.scopes {
            by.push(Vec::new(self.alloc))?;
        }
        for fact in 0..size(self.facts.len())? {
            let found = item(self.facts.as_slice(), fact)?;
            if found.uses > 0 && found.kind != FactKind::Given {
                lent(&mut by, found.scope)?.push(fact)?;
            }
        }
        Ok(by)
    }
}

fn push_deps(work: &mut Vec<u32>, deps: (u32, u32)) -> Result<(), Stuck> {
    if deps.0 != NONE {
        work.push(deps.0)?;
    }
    if deps.1 != NONE {
        work.push(deps.1)?;
    }
    Ok(())
}

/// The number of a fact in the context.
pub fn number_of(numbers: &[u32], fact: u32) -> Result<u32, Stuck> {
    let number = at(numbers, fact)?;
    if number == NONE {
        Err(Stuck::Place)
    } else {
        Ok(number)
    }
}
