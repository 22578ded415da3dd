//! A conflict becomes a record: resolved back to the last decision that it rests on. The search jumps back to the highest place
//! below it, and pushes the decision's negation there.

use crate::conflict::{Conflict, End, Halt, How, Reason, Record};
use crate::search::Search;
use search_rows::Stuck;
use search_simplex::{NONE, at, item, put, size};
use std::alloc::Global;

/// What a conflict came to.
#[derive(Clone, Copy, Debug, PartialEq, Eq)]
enum Analysed {
    /// The system is refuted.
    Refuted,
    /// A record, the level to which it goes back, and the literal that it gives there.
    Asserts(u32, u32, u32),
}

/// Terms over literals in place of trail places.
fn named(alloc: Global, search: &Search, terms: &[(u32, i128)]) -> Result<Vec<(u32, i128)>, Stuck> {
    let mut out: Vec<(u32, i128)> = Vec::new(alloc);
    for term in terms {
        out.push((search.code_at(term.0)?, term.1))?;
    }
    Ok(out)
}

fn mark_all(marks: &mut Vec<bool>, places: &[u32]) -> Result<(), Stuck> {
    for place in places {
        put(marks, *place, true)?;
    }
    Ok(())
}

impl Search {
    /// The trail places of a conflict.
    fn places(&self, conflict: &Conflict) -> Result<Vec<u32>, Stuck> {
        let mut out: Vec<u32> = Vec::new(self.alloc);
        match conflict {
            Conflict::Tree(path) => self.why(*path, 0, &mut out)?,
            Conflict::Two(a, b) => {
                out.push(*a)?;
                out.push(*b)?;
            }
            Conflict::Farkas(list) => push_firsts(&mut out, list.as_slice())?,
            Conflict::Common(list) => push_pairs(&mut out, list.as_slice())?,
            Conflict::Cube(list, _) => out.extend_from_slice(list.as_slice())?,
        }
        Ok(out)
    }

    /// The end of a record, in literals.
    fn end_of(&self, conflict: &Conflict) -> Result<End, Stuck> {
        match conflict {
            Conflict::Tree(path) => Ok(End::Tree(*path)),
            Conflict::Two(a, b) => Ok(End::Two(self.code_at(*a)?, self.code_at(*b)?)),
            Conflict::Farkas(list) => Ok(End::Farkas(named(self.alloc, self, list.as_slice())?)),
            Conflict::Common(list) => Ok(End::Common(self.named_pairs(list.as_slice())?)),
            Conflict::Cube(list, proof) => Ok(End::Cube(
                self.named_places(list.as_slice())?,
                *proof,
            )),
        }
    }

    fn named_pairs(&self, list: &[(u32, u32, i128)]) -> Result<Vec<(u32, u32, i128)>, Stuck> {
        let mut out: Vec<(u32, u32, i128)> = Vec::new(self.alloc);
        for each in list {
            out.push((self.code_at(each.0)?, self.code_at(each.1)?, each.2))?;
        }
        Ok(out)
    }

    fn named_places(&self, list: &[u32]) -> Result<Vec<u32>, Stuck> {
        let mut out: Vec<u32> = Vec::new(self.alloc);
        for place in list {
            out.push(self.code_at(*place)?)?;
        }
        Ok(out)
    }

    /// The reason of a place, in literals; none of a decision.
    fn reason(&self, place: u32) -> Result<Option<Reason>, Stuck> {
        match self.entry(place)?.how {
            How::Decision => Ok(None),
            How::Lemma(record) => Ok(Some(Reason::Lemma(record))),
            How::Def(node, which) => Ok(Some(Reason::Def(node, which))),
            How::Tree(path, leaf) => Ok(Some(Reason::Tree(path, leaf))),
            How::Sum(start, count) => {
                let terms = self.pooled(start, count)?;
                Ok(Some(Reason::Sum(named(self.alloc, self, terms)?)))
            }
        }
    }

    /// One place resolved on; false at the decision, where it ends.
    fn resolve(
        &self,
        place: u32,
        marks: &mut Vec<bool>,
        steps: &mut Vec<(u32, Reason)>,
    ) -> Result<bool, Stuck> {
        let Some(reason) = self.reason(place)? else {
            return Ok(false);
        };
        steps.push((self.code_at(place)?, reason))?;
        let mut more: Vec<u32> = Vec::new(self.alloc);
        self.reasons(place, &mut more)?;
        mark_all(marks, more.as_slice())?;
        Ok(true)
    }

    /// Resolves from the end of the trail; gives the place of the decision.
    fn resolve_all(
        &self,
        marks: &mut Vec<bool>,
        steps: &mut Vec<(u32, Reason)>,
    ) -> Result<u32, Stuck> {
        for place in (0..size(marks.len())?).rev() {
            if at(marks.as_slice(), place)? && !self.resolve(place, marks, steps)? {
                return Ok(place);
            }
        }
        Ok(NONE)
    }

    /// The level to which a record goes back: that of the last place that it uses.
    fn level_of(&self, uses: &[u32]) -> Result<u32, Stuck> {
        match uses.last() {
            None => Ok(0),
            Some(place) => Ok(self.entry(*place)?.level),
        }
    }

    /// A record of a conflict.
    fn record(&mut self, conflict: &Conflict) -> Result<Analysed, Stuck> {
        self.conflicts = self.conflicts.wrapping_add(1);
        let mut marks: Vec<bool> = Vec::new(self.alloc);
        marks.resize(self.trail.entries.len(), false)?;
        let places = self.places(conflict)?;
        mark_all(&mut marks, places.as_slice())?;
        let end = self.end_of(conflict)?;
        let mut steps: Vec<(u32, Reason)> = Vec::new(self.alloc);
        let place = self.resolve_all(&mut marks, &mut steps)?;
        steps.as_mut_slice().reverse();
        let number = size(self.records.len())?;
        if place == NONE {
            let uses: Vec<u32> = Vec::new(self.alloc);
            let decision = NONE;
            self.records.push(Record {
                decision,
                steps,
                end,
                uses,
            })?;
            return Ok(Analysed::Refuted);
        }
        let decision = self.code_at(place)?;
        let uses = marked(self.alloc, marks.as_slice(), place)?;
        let level = self.level_of(uses.as_slice())?;
        self.records.push(Record {
            decision,
            steps,
            end,
            uses,
        })?;
        Ok(Analysed::Asserts(number, level, decision ^ 1))
    }

    /// Goes back, and pushes what a record gives.
    fn assert(&mut self, record: u32, level: u32, code: u32) -> Result<(), Halt> {
        self.back(level)?;
        self.push(code, How::Lemma(record))
    }

    /// Takes a conflict in. Whether the system is refuted.
    pub fn analyse(&mut self, conflict: Conflict) -> Result<bool, Stuck> {
        let mut now = conflict;
        for _ in 0..u64::MAX {
            self.tableau.spend(1)?;
            match self.record(&now)? {
                Analysed::Refuted => return Ok(true),
                Analysed::Asserts(record, level, code) => match self.assert(record, level, code) {
                    Ok(()) => return Ok(false),
                    Err(Halt::Conflict(next)) => now = next,
                    Err(Halt::Stuck(why)) => return Err(why),
                },
            }
        }
        Err(Stuck::Fuel)
    }

    /// A record.
    pub fn record_at(&self, record: u32) -> Result<&Record, Stuck> {
        item(self.records.as_slice(), record)
    }
}

fn push_firsts(out: &mut Vec<u32>, list: &[(u32, i128)]) -> Result<(), Stuck> {
    for each in list {
        out.push(each.0)?;
    }
    Ok(())
}

fn push_pairs(out: &mut Vec<u32>, list: &[(u32, u32, i128)]) -> Result<(), Stuck> {
    for each in list {
        out.push(each.0)?;
        out.push(each.1)?;
    }
    Ok(())
}

/// The marked places below one.
fn marked(alloc: Global, marks: &[bool], below: u32) -> Result<Vec<u32>, Stuck> {
    let mut out: Vec<u32> = Vec::new(alloc);
    for place in 0..below {
        if at(marks, place)? {
            out.push(place)?;
        }
    }
    Ok(out)
}
