//! What of a losing system does not change: nodes, definitions, paths, the formula, and the moves over the columns.

use crate::shape::Shape;
use crate::wide_row::{Sub, linear};
use dom_core::Domain;
use lin_term::{Lit, Sort};
use lose_system::System;
use search_rows::{Atom, Stuck};
use search_simplex::{NONE, at, count_of, gcd, item, lent, product, put, quotient, size, small};
use std::alloc::Global;

/// The definition of a move's node.
#[derive(Debug, Drop)]
pub struct Defined {
    /// Its value is at least the move's, over the integers rounded down.
    pub at_least: Atom,
    /// Its value is at most the move's.
    pub at_most: Atom,
    /// What the row of the move is over.
    pub den: i64,
}

/// The parts of a system that do not change.
#[derive(Debug, Drop)]
pub struct Setup {
    pub sort: Sort,
    /// The definition of each node, none where it is no move.
    pub defs: Vec<Option<Defined>>,
    /// The nodes of each path.
    pub paths: Vec<Vec<u32>>,
    /// The paths through each node: the first, and the one behind the last.
    pub spans: Vec<(u32, u32)>,
    /// The position of each node on its paths.
    pub positions: Vec<u32>,
    pub shape: Shape,
    /// Each node over the columns.
    pub subs: Vec<Sub>,
    /// The place of each leaf among those with the same highest position.
    pub groups: Vec<u32>,
    /// Where the leaves of each node begin in the store.
    pub bases: Vec<u32>,
    /// The node and the leaf of each place of the store.
    pub slots: Vec<(u32, u32)>,
}

/// The definition of a move's node by its two literals.
fn defined_by(alloc: Global, first: &Lit, second: &Lit, node: u32) -> Result<Defined, Stuck> {
    let at_least = Atom::of(alloc, first)?;
    let at_most = Atom::of(alloc, second)?;
    let den = at_most.coefficient(node).checked_neg().ok_or(Stuck::Wide)?;
    Ok(Defined {
        at_least,
        at_most,
        den,
    })
}

fn defined_of<D: Domain>(
    alloc: Global,
    system: &System<'_, D>,
    node: u32,
) -> Result<Option<Defined>, Stuck> {
    let Some(first) = system.definition(alloc, node, 0)? else {
        return Ok(None);
    };
    let Some(second) = system.definition(alloc, node, 1)? else {
        return Ok(None);
    };
    Ok(Some(defined_by(alloc, &first, &second, node)?))
}

fn paths_of<D: Domain>(alloc: Global, system: &System<'_, D>) -> Result<Vec<Vec<u32>>, Stuck> {
    let mut paths = Vec::new(alloc);
    for k in 0..system.path_count() {
        let Some(names) = system.path_nodes(alloc, k)? else {
            return Err(Stuck::Place);
        };
        paths.push(Vec::from_slice(alloc, names.as_slice())?)?;
    }
    Ok(paths)
}

/// The first path and the position of each node, by one more path.
fn note_path(
    spans: &mut Vec<(u32, u32)>,
    positions: &mut Vec<u32>,
    path: u32,
    names: &[u32],
) -> Result<(), Stuck> {
    let behind = path.checked_add(1).ok_or(Stuck::Place)?;
    let mut position: u32 = 0;
    for node in names {
        let old = at(spans.as_slice(), *node)?;
        let first = if old.1 == 0 { path } else { old.0 };
        put(spans, *node, (first, behind))?;
        put(positions, *node, position)?;
        position = position.wrapping_add(1);
    }
    Ok(())
}

/// The rest of a move's row, without its own node.
fn rest_of(alloc: Global, defined: &Defined, node: u32) -> Result<Vec<(u32, i64)>, Stuck> {
    let mut out: Vec<(u32, i64)> = Vec::new(alloc);
    for term in defined.at_most.coefs.as_slice() {
        if term.0 != node {
            out.push(*term)?;
        }
    }
    Ok(out)
}

impl Setup {
    /// The parts of a system.
    pub fn of<D: Domain>(alloc: Global, system: &System<'_, D>) -> Result<Setup, Stuck> {
        let mut defs = Vec::new(alloc);
        for node in 0..system.node_count() {
            defs.push(defined_of(alloc, system, node)?)?;
        }
        let shape = Shape::negated(alloc, D::SORT, system.matrix())?;
        let mut setup = Setup {
            sort: D::SORT,
            defs,
            paths: paths_of(alloc, system)?,
            spans: Vec::new(alloc),
            positions: Vec::new(alloc),
            shape,
            subs: Vec::new(alloc),
            groups: Vec::new(alloc),
            bases: Vec::new(alloc),
            slots: Vec::new(alloc),
        };
        setup.lay_paths()?;
        setup.lay_subs(alloc)?;
        setup.lay_leaves(alloc)?;
        Ok(setup)
    }

    /// How many nodes there are.
    pub fn nodes(&self) -> u32 {
        count_of(self.defs.len())
    }

    /// How many paths there are.
    pub fn path_count(&self) -> u32 {
        count_of(self.paths.len())
    }

    /// Whether the variables are whole.
    pub fn is_int(&self) -> bool {
        self.sort == Sort::Int
    }

    /// Whether a node is a move.
    pub fn is_move(&self, node: u32) -> Result<bool, Stuck> {
        Ok(item(self.defs.as_slice(), node)?.is_some())
    }

    /// Whether a node is a column: no move, or one that is rounded.
    pub fn is_column(&self, node: u32) -> Result<bool, Stuck> {
        match item(self.defs.as_slice(), node)? {
            None => Ok(true),
            Some(defined) => Ok(self.sort == Sort::Int && defined.den != 1),
        }
    }

    /// The nodes of a path.
    pub fn names(&self, path: u32) -> Result<&[u32], Stuck> {
        Ok(item(self.paths.as_slice(), path)?.as_slice())
    }

    fn lay_paths(&mut self) -> Result<(), Stuck> {
        self.spans.resize(self.defs.len(), (0, 0))?;
        self.positions.resize(self.defs.len(), 0)?;
        let mut path: u32 = 0;
        for names in self.paths.as_slice() {
            note_path(&mut self.spans, &mut self.positions, path, names.as_slice())?;
            path = path.wrapping_add(1);
        }
        Ok(())
    }

    /// A node over the columns.
    fn sub_of(&self, alloc: Global, node: u32) -> Result<Sub, Stuck> {
        if self.is_column(node)? {
            let mut terms: Vec<(u32, i64)> = Vec::new(alloc);
            terms.push((node, 1))?;
            return Ok(Sub {
                terms,
                constant: 0,
                den: 1,
            });
        }
        let Some(defined) = item(self.defs.as_slice(), node)? else {
            return Err(Stuck::Place);
        };
        let rest = rest_of(alloc, defined, node)?;
        let constant = defined.at_most.constant;
        let row = linear(alloc, self.subs.as_slice(), rest.as_slice(), constant)?;
        let den = product(row.den, defined.den as i128)?;
        let mut g = gcd(den, row.constant)?;
        for term in row.terms.as_slice() {
            g = gcd(g, term.1)?;
        }
        let mut terms: Vec<(u32, i64)> = Vec::new(alloc);
        for term in row.terms.as_slice() {
            terms.push((term.0, small(quotient(term.1, g)?)?))?;
        }
        Ok(Sub {
            terms,
            constant: small(quotient(row.constant, g)?)?,
            den: small(quotient(den, g)?)?,
        })
    }

    fn lay_subs(&mut self, alloc: Global) -> Result<(), Stuck> {
        for node in 0..self.nodes() {
            let sub = self.sub_of(alloc, node)?;
            self.subs.push(sub)?;
        }
        Ok(())
    }

    /// The leaves by the node of their highest variable.
    fn lay_leaves(&mut self, alloc: Global) -> Result<(), Stuck> {
        let width = match self.paths.as_slice().first() {
            Some(names) => names.len(),
            None => 0,
        };
        let mut by_position: Vec<Vec<u32>> = Vec::new(alloc);
        for _ in 0..width {
            by_position.push(Vec::new(alloc))?;
        }
        let mut leaf: u32 = 0;
        for top in self.shape.tops.as_slice() {
            let group = group_of(&mut by_position, *top, leaf)?;
            self.groups.push(group)?;
            leaf = leaf.wrapping_add(1);
        }
        let mut node: u32 = 0;
        for position in self.positions.as_slice() {
            self.bases.push(size(self.slots.len())?)?;
            let leaves = item(by_position.as_slice(), *position)?;
            push_slots(&mut self.slots, node, leaves.as_slice())?;
            node = node.wrapping_add(1);
        }
        Ok(())
    }

    /// The place in the store of a leaf on a path, none where it has no variables.
    pub fn slot(&self, path: u32, leaf: u32) -> Result<u32, Stuck> {
        let top = at(self.shape.tops.as_slice(), leaf)?;
        if top == NONE {
            return Ok(NONE);
        }
        let node = at(self.names(path)?, top)?;
        let base = at(self.bases.as_slice(), node)?;
        base.checked_add(at(self.groups.as_slice(), leaf)?)
            .ok_or(Stuck::Place)
    }
}

/// One leaf more among those with its highest position; how many there were.
fn group_of(by_position: &mut Vec<Vec<u32>>, top: u32, leaf: u32) -> Result<u32, Stuck> {
    if top == NONE {
        return Ok(0);
    }
    let list = lent(by_position, top)?;
    let count = list.len();
    list.push(leaf)?;
    u32::try_from(count).ok().ok_or(Stuck::Place)
}

fn push_slots(slots: &mut Vec<(u32, u32)>, node: u32, leaves: &[u32]) -> Result<(), Stuck> {
    for leaf in leaves {
        slots.push((node, *leaf))?;
    }
    Ok(())
}
