//! The end of a record.

use crate::adding::lowered;
use crate::cubes::{CubeProof, Input};
use crate::facts::{NodeKind, Part};
use crate::writer::Writer;
use search_forms::negation;
use search_rows::{Atom, Stuck};
use search_simplex::{NONE, at, item, lcm, product, put, quotient};
use search_trail::{End, Search};

/// How much elimination a proof that is made late may take.
const LATE: u64 = 50_000;

/// A literal weakened by a split: the literal, its given fact, that of its negation, and what closes that.
#[derive(Debug, Drop)]
struct Weak {
    atom: Atom,
    given: u32,
    against: u32,
    closed: u32,
}

impl Writer {
    /// How many times a fact is its literal's form.
    fn ratio(&self, search: &Search, code: u32, fact: u32) -> Result<i128, Stuck> {
        let form = search.forms.form(search.forms.form_of(code)?)?;
        let Some(unit) = form.terms.as_slice().first() else {
            return Err(Stuck::Place);
        };
        let Some(term) = self.dag.atom(fact)?.coefs.as_slice().first() else {
            return Err(Stuck::Place);
        };
        quotient(term.1.unsigned_abs() as i128, unit.1.unsigned_abs() as i128)
    }

    /// The facts of literals with weights, these over the facts.
    pub fn weigh(&self, search: &Search, list: &[(u32, i128)]) -> Result<Vec<(u32, i128)>, Stuck> {
        let mut den: i128 = 1;
        let mut found: Vec<(u32, i128)> = Vec::new(self.alloc);
        for each in list {
            let fact = self.need(search, each.0)?;
            let ratio = self.ratio(search, each.0, fact)?;
            den = lcm(den, ratio)?;
            found.push((fact, ratio))?;
        }
        let mut out: Vec<(u32, i128)> = Vec::new(self.alloc);
        for place in 0..list.len() {
            let Some(each) = list.get(place) else {
                return Err(Stuck::Place);
            };
            let Some(fact) = found.get(place) else {
                return Err(Stuck::Place);
            };
            out.push((fact.0, product(each.1, quotient(den, fact.1)?)?))?;
        }
        lowered(self.alloc, out.as_slice())
    }

    /// The sum of equalities on one side.
    fn side(
        &self,
        search: &Search,
        list: &[(u32, u32, i128)],
        low: bool,
    ) -> Result<Vec<(u32, i128)>, Stuck> {
        let mut out: Vec<(u32, i128)> = Vec::new(self.alloc);
        for each in list {
            let code = if (each.2 > 0) == low { each.0 } else { each.1 };
            out.push((self.need(search, code)?, size_of(each.2)?))?;
        }
        Ok(out)
    }

    /// Equalities whose sum has no whole solution.
    fn common(&mut self, search: &Search, list: &[(u32, u32, i128)]) -> Result<u32, Stuck> {
        let lows = self.side(search, list, true)?;
        let f = self.dag.add_up(lows.as_slice())?;
        if self.dag.is_false(f)? {
            return self.dag.false_node(f);
        }
        let highs = self.side(search, list, false)?;
        let g = self.dag.add_up(highs.as_slice())?;
        if self.dag.is_false(g)? {
            return self.dag.false_node(g);
        }
        self.clash(f, g)
    }

    /// The end of a record, but for a proof over literals.
    pub fn ended(
        &mut self,
        search: &Search,
        end: &End,
        proofs: &[CubeProof],
    ) -> Result<u32, Stuck> {
        match end {
            End::Tree(path) => {
                let fact = self.path(search, *path)?;
                self.close(search, *path, 0, fact)
            }
            End::Two(a, b) => {
                let f = self.need(search, *a)?;
                let g = self.need(search, *b)?;
                self.clash(f, g)
            }
            End::Farkas(list) => {
                let items = self.weigh(search, list.as_slice())?;
                self.dag.farkas(items.as_slice())
            }
            End::Common(list) => self.common(search, list.as_slice()),
            End::Cube(list, proof) => {
                if *proof == NONE {
                    return self.late(search, list.as_slice());
                }
                let found = item(proofs, *proof)?;
                self.cube(search, found.inputs.as_slice(), *proof)
            }
        }
    }

    /// A fact that is just the literal of a code, by a split where a stronger one is at hand.
    fn exact(&mut self, search: &Search, code: u32, weak: &mut Vec<Weak>) -> Result<u32, Stuck> {
        let atom = search.forms.atom_of(&search.setup, code)?;
        let fact = self.need(search, code)?;
        if is_same(self.dag.atom(fact)?, &atom) {
            return Ok(fact);
        }
        let negated = negation(self.alloc, self.dag.sort, &atom)?;
        let given = self.dag.given(Some(atom.copy(self.alloc)?))?;
        let against = self.dag.given(Some(negated))?;
        let closed = self.clash(fact, against)?;
        weak.push(Weak {
            atom,
            given,
            against,
            closed,
        })?;
        Ok(given)
    }

    /// The splits around a node.
    fn wrapped(&mut self, node: u32, weak: Vec<Weak>) -> Result<u32, Stuck> {
        let mut weak = weak;
        let mut now = node;
        for _ in 0..weak.len() {
            let Some(each) = weak.pop() else {
                return Err(Stuck::Place);
            };
            now = self.wrap_weak(now, each)?;
        }
        Ok(now)
    }

    fn wrap_weak(&mut self, node: u32, each: Weak) -> Result<u32, Stuck> {
        if !self.dag.is_used(each.given)? {
            self.dag.release(each.closed)?;
            return Ok(node);
        }
        let mut parts: Vec<Part> = Vec::new(self.alloc);
        parts.push(self.dag.part(each.given, node)?)?;
        parts.push(self.dag.part(each.against, each.closed)?)?;
        let ends: Vec<u32> = Vec::new(self.alloc);
        self.dag.node(NodeKind::Split(each.atom), ends, parts)
    }

    /// The fact of an input of a proof over literals.
    fn input(&mut self, search: &Search, input: Input, weak: &mut Vec<Weak>) -> Result<u32, Stuck> {
        match input {
            Input::Lit(code) => self.exact(search, code, weak),
            Input::Def(node, which) => self.def(search, node, which),
        }
    }

    /// A proof over literals that is known by number.
    fn cube(&mut self, search: &Search, inputs: &[Input], proof: u32) -> Result<u32, Stuck> {
        let mut weak: Vec<Weak> = Vec::new(self.alloc);
        let mut ends: Vec<u32> = Vec::new(self.alloc);
        for each in inputs {
            ends.push(self.input(search, *each, &mut weak)?)?;
        }
        let parts: Vec<Part> = Vec::new(self.alloc);
        let node = self.dag.node(NodeKind::Cube(proof), ends, parts)?;
        self.wrapped(node, weak)
    }

    /// A proof over literals that is made only now.
    fn late(&mut self, search: &Search, codes: &[u32]) -> Result<u32, Stuck> {
        let inputs = inputs_of(search, codes)?;
        let mut weak: Vec<Weak> = Vec::new(self.alloc);
        let mut facts: Vec<u32> = Vec::new(self.alloc);
        let mut atoms: Vec<Atom> = Vec::new(self.alloc);
        for each in inputs.as_slice() {
            let fact = self.input(search, *each, &mut weak)?;
            facts.push(fact)?;
            atoms.push(self.copy_of(fact)?)?;
        }
        let node = self.decided(atoms.as_slice(), facts.as_slice(), LATE)?;
        self.wrapped(node, weak)
    }
}

fn is_same(a: &Atom, b: &Atom) -> bool {
    a.kind == b.kind && a.constant == b.constant && a.has_terms_of(b)
}

fn size_of(n: i128) -> Result<i128, Stuck> {
    i128::try_from(n.unsigned_abs()).ok().ok_or(Stuck::Wide)
}

/// The nodes of a divisibility's terms.
fn add_nodes(work: &mut Vec<u32>, terms: &[(u32, i64)]) -> Result<(), Stuck> {
    for term in terms {
        work.push(term.0)?;
    }
    Ok(())
}

/// Literals of the search with the definitions of the moves in their divisibilities.
pub fn inputs_of(search: &Search, codes: &[u32]) -> Result<Vec<Input>, Stuck> {
    let mut out: Vec<Input> = Vec::new(search.alloc);
    let mut work: Vec<u32> = Vec::new(search.alloc);
    for code in codes {
        out.push(Input::Lit(*code))?;
        let form = search.forms.form_of(*code)?;
        if search.is_divisibility(form)? {
            add_nodes(&mut work, search.forms.form(form)?.terms.as_slice())?;
        }
    }
    let mut seen: Vec<bool> = Vec::new(search.alloc);
    seen.resize(search.setup.defs.len(), false)?;
    for _ in 0..u32::MAX {
        let Some(node) = work.pop() else {
            return Ok(out);
        };
        if !at(seen.as_slice(), node)? {
            put(&mut seen, node, true)?;
            add_definition(search, node, &mut work, &mut out)?;
        }
    }
    Err(Stuck::Fuel)
}

fn add_definition(
    search: &Search,
    node: u32,
    work: &mut Vec<u32>,
    out: &mut Vec<Input>,
) -> Result<(), Stuck> {
    if let Some(defined) = item(search.setup.defs.as_slice(), node)? {
        out.push(Input::Def(node, 0))?;
        out.push(Input::Def(node, 1))?;
        add_nodes(work, defined.at_most.coefs.as_slice())?;
    }
    Ok(())
}
