//! The bounds and divisibilities in force decided by exact elimination.

use crate::attack::{Attack, Offer};
use crate::residues::Residues;
use lin_term::Sort;
use search_decide::{Decided, Leaf, Values, decide};
use search_lines::{CubeProof, Input, inputs_of};
use search_rows::{Atom, Stuck};
use search_simplex::{NONE, at, size};
use search_trail::{Conflict, Halt, completed};

/// How deep cases may stand.
const DEPTH: u32 = 100;

impl Attack {
    /// The trail places of all bounds and divisibilities in force, ascending.
    pub fn places_in_force(&self) -> Result<Vec<u32>, Stuck> {
        let mut out: Vec<u32> = Vec::new(self.alloc);
        for form in self.search.forms.list.as_slice() {
            if form.low != NONE {
                out.push(form.low)?;
            }
            if form.high != NONE {
                out.push(form.high)?;
            }
        }
        out.sort()?;
        Ok(out)
    }

    /// The literals at places.
    fn codes(&self, places: &[u32]) -> Result<Vec<u32>, Stuck> {
        let mut out: Vec<u32> = Vec::new(self.alloc);
        for place in places {
            out.push(self.search.code_at(*place)?)?;
        }
        Ok(out)
    }

    /// The literal of an input.
    fn input_atom(&self, input: Input) -> Result<Atom, Stuck> {
        match input {
            Input::Lit(code) => self.search.forms.atom_of(&self.search.setup, code),
            Input::Def(node, which) => {
                let Some(place) = self.search.setup.defs.get(node as usize) else {
                    return Err(Stuck::Place);
                };
                match place {
                    None => Err(Stuck::Place),
                    Some(defined) => {
                        if which == 0 {
                            defined.at_least.copy(self.alloc)
                        } else {
                            defined.at_most.copy(self.alloc)
                        }
                    }
                }
            }
        }
    }

    fn atoms(&self, inputs: &[Input]) -> Result<Vec<Atom>, Stuck> {
        let mut out: Vec<Atom> = Vec::new(self.alloc);
        for input in inputs {
            out.push(self.input_atom(*input)?)?;
        }
        Ok(out)
    }

    /// A conflict of the places that a proof uses.
    fn cube_conflict(
        &mut self,
        places: &[u32],
        inputs: &[Input],
        leaf: Leaf,
    ) -> Result<Conflict, Stuck> {
        let mut used: Vec<u32> = Vec::new(self.alloc);
        let mut kept: Vec<Input> = Vec::new(self.alloc);
        for place in leaf.used.as_slice() {
            kept.push(at(inputs, *place)?)?;
            if let Some(found) = places.get(*place as usize) {
                used.push(*found)?;
            }
        }
        let number = size(self.proofs.len())?;
        self.proofs.push(CubeProof { leaf, inputs: kept })?;
        Ok(Conflict::Cube(used, number))
    }

    /// Whole values of all nodes from those of some.
    fn completed_from(&self, values: &Values) -> Result<Vec<i128>, Stuck> {
        let mut given: Vec<i128> = Vec::new(self.alloc);
        for node in 0..self.nodes() {
            let found = values.at(node);
            if found.den != 1 {
                return Err(Stuck::Place);
            }
            given.push(found.num as i128)?;
        }
        completed(self.alloc, &self.search.setup, given.as_slice())
    }

    /// An elimination of the literals at places, with so many cases; none where they are not enough.
    fn decided(&self, inputs: &[Input], cases: u64) -> Result<Option<Decided>, Stuck> {
        let atoms = self.atoms(inputs)?;
        let mut left = cases;
        match decide(
            self.alloc,
            Sort::Int,
            atoms.as_slice(),
            self.nodes(),
            &mut left,
            DEPTH,
        ) {
            Ok(found) => Ok(Some(found)),
            Err(Stuck::Memory) => Err(Stuck::Memory),
            Err(_) => Ok(None),
        }
    }

    /// What was found of the literals at places: a conflict, or values; `all` where these are all in force.
    fn take(
        &mut self,
        places: &[u32],
        inputs: &[Input],
        found: Decided,
        all: bool,
    ) -> Result<Option<Offer>, Halt> {
        match found {
            Decided::Closed(leaf) => {
                let conflict = self.cube_conflict(places, inputs, leaf)?;
                Err(Halt::Conflict(conflict))
            }
            Decided::Values(values) => {
                if !all {
                    return Ok(None);
                }
                let whole = self.completed_from(&values)?;
                self.at_values(whole)
            }
        }
    }

    /// The literals at places eliminated; a second time with the large budget, where that was not used yet.
    pub fn attempt(
        &mut self,
        places: &[u32],
        cases: u64,
        uneven: bool,
        all: bool,
    ) -> Result<Option<Offer>, Halt> {
        let codes = self.codes(places)?;
        let inputs = inputs_of(&self.search, codes.as_slice())?;
        if let Some(found) = self.decided(inputs.as_slice(), cases)? {
            return self.take(places, inputs.as_slice(), found, all);
        }
        if !all {
            return Ok(None);
        }
        if self.budget.splits >= 40 {
            return Err(Halt::Stuck(Stuck::Fuel));
        }
        self.budget.grow();
        if uneven {
            return Ok(None);
        }
        match self.decided(inputs.as_slice(), self.budget.cases)? {
            Some(found) => self.take(places, inputs.as_slice(), found, all),
            None => Err(Halt::Stuck(Stuck::Fuel)),
        }
    }

    /// The places of divisibilities and single columns.
    fn narrow_places(&self, places: &[u32]) -> Result<Vec<u32>, Stuck> {
        let mut out: Vec<u32> = Vec::new(self.alloc);
        for place in places {
            if self.is_narrow(*place)? {
                out.push(*place)?;
            }
        }
        Ok(out)
    }

    /// Divisibilities with the bounds of single columns alone: all points, residues, then an elimination of these.
    fn eliminate_few(&mut self, places: &[u32]) -> Result<Option<Offer>, Halt> {
        if let Some(offer) = self.brute()? {
            return Ok(Some(offer));
        }
        match self.residues()? {
            Residues::Conflict(used) => Err(Halt::Conflict(Conflict::Cube(used, NONE))),
            Residues::Open(covered) => {
                let few = self.narrow_places(places)?;
                if covered || few.len() >= places.len() {
                    return Ok(None);
                }
                let cases = self.budget.cases / 4;
                self.attempt(few.as_slice(), cases, false, false)
            }
        }
    }

    /// Decides all that is in force.
    pub fn eliminate(&mut self, uneven: bool) -> Result<Option<Offer>, Halt> {
        let places = self.places_in_force()?;
        if self.has_divisibility(places.as_slice())? {
            if let Some(offer) = self.eliminate_few(places.as_slice())? {
                return Ok(Some(offer));
            }
        }
        if let Some(values) = self.near_or_none()? {
            return self.at_values(values);
        }
        self.attempt(places.as_slice(), self.budget.cases, uneven, true)
    }

    /// Values near those at hand; numbers too wide are no answer.
    fn near_or_none(&self) -> Result<Option<Vec<i128>>, Stuck> {
        match self.near_values() {
            Ok(found) => Ok(found),
            Err(Stuck::Memory) => Err(Stuck::Memory),
            Err(_) => Ok(None),
        }
    }
}
