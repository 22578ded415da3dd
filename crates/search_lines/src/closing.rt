//! A context closed by a node of a path that is false by the facts at hand. A part of `cases` that does not use its own fact
//! stands for the whole.

use crate::facts::{NodeKind, Part};
use crate::writer::Writer;
use search_decide::{Decided, decide};
use search_forms::{Kind, Known};
use search_rows::{Atom, Stuck};
use search_simplex::{NONE, gcd, quotient, size};
use search_trail::Search;

/// A disjunction in one of whose children the closing is.
#[derive(Debug, Drop)]
struct Frame {
    node: u32,
    fact: u32,
    /// The child at hand and its given fact.
    child: u32,
    given: u32,
    /// The closed children: given facts and nodes.
    done: Vec<(u32, u32)>,
}

/// Where the closing goes on.
#[derive(Clone, Copy, Debug, PartialEq, Eq)]
enum Next {
    /// Down: a node and its fact.
    Down(u32, u32),
    /// Up: what closes the node.
    Up(u32),
}

/// Whether the rows are each other's negations.
fn are_opposite(a: &Atom, b: &Atom) -> bool {
    if a.coefs.len() != b.coefs.len() {
        return false;
    }
    for place in 0..a.coefs.len() {
        let Some(x) = a.coefs.get(place) else {
            return false;
        };
        let Some(y) = b.coefs.get(place) else {
            return false;
        };
        if x.0 != y.0 || x.1 as i128 + y.1 as i128 != 0 {
            return false;
        }
    }
    true
}

fn first_size(atom: &Atom) -> Result<i128, Stuck> {
    match atom.coefs.as_slice().first() {
        Some(term) => Ok(term.1.unsigned_abs() as i128),
        None => Err(Stuck::Place),
    }
}

impl Writer {
    /// The multipliers by which two bounds of one form cancel.
    fn multipliers(&self, f: u32, g: u32) -> Result<(i128, i128), Stuck> {
        let a = self.dag.atom(f)?;
        let b = self.dag.atom(g)?;
        if are_opposite(a, b) {
            return Ok((1, 1));
        }
        let x = first_size(a)?;
        let y = first_size(b)?;
        let k = gcd(x, y)?;
        Ok((quotient(y, k)?, quotient(x, k)?))
    }

    /// The end of a context by two facts that contradict each other.
    pub fn clash(&mut self, f: u32, g: u32) -> Result<u32, Stuck> {
        if !self.dag.atom(f)?.is_bound() || !self.dag.atom(g)?.is_bound() {
            return self.clash_divisibilities(f, g);
        }
        let (p, q) = self.multipliers(f, g)?;
        let (sum, _g) = self.dag.sum(p, f, q, g)?;
        if !self.dag.is_false(sum)? {
            return Err(Stuck::Place);
        }
        self.dag.false_node(sum)
    }

    /// A divisibility and its negation.
    fn clash_divisibilities(&mut self, f: u32, g: u32) -> Result<u32, Stuck> {
        let mut atoms: Vec<Atom> = Vec::new(self.alloc);
        atoms.push(self.copy_of(f)?)?;
        atoms.push(self.copy_of(g)?)?;
        let mut facts: Vec<u32> = Vec::new(self.alloc);
        facts.push(f)?;
        facts.push(g)?;
        self.decided(atoms.as_slice(), facts.as_slice(), 2000)
    }

    /// The end of a context by literals without a whole solution, found by elimination.
    pub fn decided(&mut self, atoms: &[Atom], facts: &[u32], fuel: u64) -> Result<u32, Stuck> {
        let mut left = fuel;
        let count = self.variables(atoms)?;
        match decide(self.alloc, self.dag.sort, atoms, count, &mut left, 100)? {
            Decided::Values(_) => Err(Stuck::Place),
            Decided::Closed(leaf) => {
                let mut ends: Vec<u32> = Vec::new(self.alloc);
                for place in leaf.used.as_slice() {
                    ends.push(fact_at(facts, *place)?)?;
                }
                let number = size(self.leaves.len())?;
                self.leaves.push(leaf)?;
                let parts: Vec<Part> = Vec::new(self.alloc);
                self.dag.node(NodeKind::Cube(number), ends, parts)
            }
        }
    }

    fn variables(&self, atoms: &[Atom]) -> Result<u32, Stuck> {
        let mut count: u32 = 0;
        for atom in atoms {
            if let Some(var) = atom.highest() {
                count = count.max(var.checked_add(1).ok_or(Stuck::Place)?);
            }
        }
        Ok(count)
    }

    /// Closes a leaf that is false.
    fn close_leaf(
        &mut self,
        search: &Search,
        path: u32,
        leaf: u32,
        fact: u32,
    ) -> Result<u32, Stuck> {
        let found = self.to_columns(search, fact)?;
        match search.forms.leaf_known(&search.setup, path, leaf)? {
            Known::False => self.dag.false_node(found),
            Known::True | Known::Unset => Err(Stuck::Place),
            Known::Lit(code) => {
                let other = self.need(search, code ^ 1)?;
                self.clash(found, other)
            }
        }
    }

    /// Two leaves of a conjunction that contradict each other.
    fn dead_pair(&self, search: &Search, path: u32, node: u32) -> Result<(u32, u32), Stuck> {
        let children = search.setup.shape.children(self.alloc, node)?;
        for a in children.as_slice() {
            for b in children.as_slice() {
                if contradict(search, path, *a, *b)? {
                    return Ok((*a, *b));
                }
            }
        }
        Err(Stuck::Place)
    }

    fn close_dead(
        &mut self,
        search: &Search,
        path: u32,
        node: u32,
        fact: u32,
    ) -> Result<u32, Stuck> {
        let (a, b) = self.dead_pair(search, path, node)?;
        let f = self.part(search, fact, path, a)?;
        let g = self.part(search, fact, path, b)?;
        let f = self.to_columns(search, f)?;
        let g = self.to_columns(search, g)?;
        self.clash(f, g)
    }

    /// A given fact of a node of a path.
    pub fn given_node(&mut self, search: &Search, path: u32, node: u32) -> Result<u32, Stuck> {
        let body = self.body(search, path, node)?;
        self.dag.given(body)
    }

    /// One step down.
    fn down(
        &mut self,
        search: &Search,
        path: u32,
        node: u32,
        fact: u32,
        frames: &mut Vec<Frame>,
    ) -> Result<Next, Stuck> {
        match search.setup.shape.kind(node)? {
            Kind::Leaf(leaf) => Ok(Next::Up(self.close_leaf(search, path, leaf, fact)?)),
            Kind::And => match self.false_child(search, path, node)? {
                Some(child) => Ok(Next::Down(child, self.part(search, fact, path, child)?)),
                None => Ok(Next::Up(self.close_dead(search, path, node, fact)?)),
            },
            Kind::Or => {
                let Some(child) = search.setup.shape.first(node)? else {
                    let parts: Vec<Part> = Vec::new(self.alloc);
                    return Ok(Next::Up(self.dag.ended(NodeKind::Cases, fact, parts)?));
                };
                let given = self.given_node(search, path, child)?;
                frames.push(Frame {
                    node,
                    fact,
                    child,
                    given,
                    done: Vec::new(self.alloc),
                })?;
                Ok(Next::Down(child, given))
            }
        }
    }

    fn release_all(&mut self, done: &[(u32, u32)]) -> Result<(), Stuck> {
        for each in done {
            self.dag.release(each.1)?;
        }
        Ok(())
    }

    /// The parts of closed children.
    fn parts_of(&self, done: &[(u32, u32)]) -> Result<Vec<Part>, Stuck> {
        let mut parts: Vec<Part> = Vec::new(self.alloc);
        for each in done {
            parts.push(self.dag.part(each.0, each.1)?)?;
        }
        Ok(parts)
    }

    /// One step up: a child is closed.
    fn up(
        &mut self,
        search: &Search,
        path: u32,
        closed: u32,
        frame: Frame,
        frames: &mut Vec<Frame>,
    ) -> Result<Next, Stuck> {
        let mut frame = frame;
        if !self.dag.is_used(frame.given)? {
            self.release_all(frame.done.as_slice())?;
            return Ok(Next::Up(closed));
        }
        frame.done.push((frame.given, closed))?;
        let Some(child) = search.setup.shape.next(frame.node, frame.child)? else {
            let parts = self.parts_of(frame.done.as_slice())?;
            return Ok(Next::Up(self.dag.ended(NodeKind::Cases, frame.fact, parts)?));
        };
        let given = self.given_node(search, path, child)?;
        frame.child = child;
        frame.given = given;
        frames.push(frame)?;
        Ok(Next::Down(child, given))
    }

    /// Closes the context by a fact that is a false node of a path.
    pub fn close(
        &mut self,
        search: &Search,
        path: u32,
        node: u32,
        fact: u32,
    ) -> Result<u32, Stuck> {
        let mut frames: Vec<Frame> = Vec::new(self.alloc);
        let mut next = Next::Down(node, fact);
        for _ in 0..u64::MAX {
            match next {
                Next::Down(node, fact) => next = self.down(search, path, node, fact, &mut frames)?,
                Next::Up(closed) => {
                    let Some(frame) = frames.pop() else {
                        return Ok(closed);
                    };
                    next = self.up(search, path, closed, frame, &mut frames)?;
                }
            }
        }
        Err(Stuck::Fuel)
    }
}

fn fact_at(facts: &[u32], place: u32) -> Result<u32, Stuck> {
    match facts.get(place as usize) {
        Some(fact) => Ok(*fact),
        None => Err(Stuck::Place),
    }
}

/// The literal of a child that is a leaf, none where it is none.
fn code_of(search: &Search, path: u32, child: u32) -> Result<u32, Stuck> {
    match search.setup.shape.kind(child)? {
        Kind::Leaf(leaf) => match search.forms.leaf_known(&search.setup, path, leaf)? {
            Known::Lit(code) => Ok(code),
            Known::True | Known::False | Known::Unset => Ok(NONE),
        },
        Kind::And | Kind::Or => Ok(NONE),
    }
}

/// Whether a lower bound of a form is above an upper one.
fn contradict(search: &Search, path: u32, a: u32, b: u32) -> Result<bool, Stuck> {
    let x = code_of(search, path, a)?;
    let y = code_of(search, path, b)?;
    if x == NONE || y == NONE || x % 2 != 0 || y % 2 != 1 {
        return Ok(false);
    }
    let low = search.forms.threshold(x / 2)?;
    let high = search.forms.threshold(y / 2)?;
    Ok(low.form == high.form && low.rank >= high.rank)
}
