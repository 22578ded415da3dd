//! What was derived so far: paths, their parts, definitions, and the facts over columns alone by form and side.

use crate::facts::{Dag, FactKind};
use search_decide::Leaf;
use search_forms::{Code, Kind, Known, renamed};
use search_rows::{Atom, Stuck};
use search_simplex::{NONE, at, item, lent, put};
use search_trail::Search;
use std::alloc::Global;

/// The state of writing.
#[derive(Debug, Drop)]
pub struct Writer {
    pub alloc: Global,
    pub dag: Dag,
    /// The fact of each path.
    paths: Vec<u32>,
    /// The parts of each fact: places and facts.
    parts: Vec<Vec<(u32, u32)>>,
    /// The fact of each definition, two a node.
    defs: Vec<u32>,
    /// Each fact with the moves put in.
    canonical: Vec<u32>,
    /// The facts at hand of each form, lower bounds and upper ones: thresholds and facts.
    lows: Vec<Vec<(u32, u32)>>,
    highs: Vec<Vec<(u32, u32)>>,
    /// Where facts were added: forms, and whether on the lower side.
    pub log: Vec<(u32, bool)>,
    /// Proofs over literals.
    pub leaves: Vec<Leaf>,
}

fn lists(alloc: Global, count: usize) -> Result<Vec<Vec<(u32, u32)>>, Stuck> {
    let mut out: Vec<Vec<(u32, u32)>> = Vec::new(alloc);
    for _ in 0..count {
        out.push(Vec::new(alloc))?;
    }
    Ok(out)
}

/// One more item in the list of a form.
fn push_at(
    lists: &mut Vec<Vec<(u32, u32)>>,
    alloc: Global,
    form: u32,
    new: (u32, u32),
) -> Result<(), Stuck> {
    for _ in lists.len()..(form as usize).saturating_add(1) {
        lists.push(Vec::new(alloc))?;
    }
    lent(lists, form)?.push(new)?;
    Ok(())
}

/// The first fact in the list of a form that is at least as strong as a rank; none where there is none.
fn strong_in(
    search: &Search,
    lists: &[Vec<(u32, u32)>],
    form: u32,
    rank: u32,
    low: bool,
) -> Result<u32, Stuck> {
    let Some(list) = lists.get(form as usize) else {
        return Ok(NONE);
    };
    for found in list.as_slice() {
        let there = search.forms.threshold(found.0)?.rank;
        let strong = if low { there >= rank } else { there <= rank };
        if strong {
            return Ok(found.1);
        }
    }
    Ok(NONE)
}

/// A number of a list that may be too short.
fn noted(list: &[u32], place: u32) -> u32 {
    match list.get(place as usize) {
        Some(found) => *found,
        None => NONE,
    }
}

fn note(list: &mut Vec<u32>, place: u32, new: u32) -> Result<(), Stuck> {
    if list.len() <= place as usize {
        list.resize((place as usize).saturating_add(1), NONE)?;
    }
    put(list, place, new)
}

impl Writer {
    /// Nothing written.
    pub fn new(alloc: Global, search: &Search, leaves: Vec<Leaf>) -> Result<Writer, Stuck> {
        let forms = search.forms.list.len();
        Ok(Writer {
            alloc,
            dag: Dag::new(alloc, search.setup.sort),
            paths: Vec::new(alloc),
            parts: Vec::new(alloc),
            defs: Vec::new(alloc),
            canonical: Vec::new(alloc),
            lows: lists(alloc, forms)?,
            highs: lists(alloc, forms)?,
            log: Vec::new(alloc),
            leaves,
        })
    }

    /// A copy of the literal of a fact.
    pub fn copy_of(&self, fact: u32) -> Result<Atom, Stuck> {
        self.dag.atom(fact)?.copy(self.alloc)
    }

    /// The literal of a node of a path, none where it is a formula.
    pub fn body(&self, search: &Search, path: u32, node: u32) -> Result<Option<Atom>, Stuck> {
        match search.setup.shape.kind(node)? {
            Kind::Leaf(leaf) => {
                let atom = item(search.setup.shape.leaves.as_slice(), leaf)?;
                let names = search.setup.names(path)?;
                Ok(Some(Atom {
                    kind: atom.kind,
                    coefs: renamed(self.alloc, atom.coefs.as_slice(), names)?,
                    constant: atom.constant,
                }))
            }
            Kind::And | Kind::Or => Ok(None),
        }
    }

    /// The fact of a path.
    pub fn path(&mut self, search: &Search, path: u32) -> Result<u32, Stuck> {
        let old = noted(self.paths.as_slice(), path);
        if old != NONE {
            return Ok(old);
        }
        let body = self.body(search, path, 0)?;
        let fact = self.dag.derived(FactKind::Path(path), (NONE, NONE), body)?;
        note(&mut self.paths, path, fact)?;
        Ok(fact)
    }

    fn known_part(&self, fact: u32, place: u32) -> u32 {
        let Some(list) = self.parts.get(fact as usize) else {
            return NONE;
        };
        for found in list.as_slice() {
            if found.0 == place {
                return found.1;
            }
        }
        NONE
    }

    fn note_part(&mut self, fact: u32, place: u32, part: u32) -> Result<(), Stuck> {
        for _ in self.parts.len()..(fact as usize).saturating_add(1) {
            self.parts.push(Vec::new(self.alloc))?;
        }
        lent(&mut self.parts, fact)?.push((place, part))?;
        Ok(())
    }

    /// The fact of a child of a conjunction, which is at a place below it.
    pub fn part(
        &mut self,
        search: &Search,
        fact: u32,
        path: u32,
        child: u32,
    ) -> Result<u32, Stuck> {
        let place = at(search.setup.shape.places.as_slice(), child)?;
        let old = self.known_part(fact, place);
        if old != NONE {
            return Ok(old);
        }
        let body = self.body(search, path, child)?;
        let part = self.dag.derived(FactKind::Part(place), (fact, NONE), body)?;
        self.note_part(fact, place, part)?;
        Ok(part)
    }

    /// The fact of a definition.
    pub fn def(&mut self, search: &Search, node: u32, which: u32) -> Result<u32, Stuck> {
        let place = node
            .checked_mul(2)
            .ok_or(Stuck::Place)?
            .checked_add(which)
            .ok_or(Stuck::Place)?;
        let old = noted(self.defs.as_slice(), place);
        if old != NONE {
            return Ok(old);
        }
        let atom = match item(search.setup.defs.as_slice(), node)? {
            None => return Err(Stuck::Place),
            Some(defined) => {
                if which == 0 {
                    defined.at_least.copy(self.alloc)?
                } else {
                    defined.at_most.copy(self.alloc)?
                }
            }
        };
        let fact = self
            .dag
            .derived(FactKind::Def(node, which), (NONE, NONE), Some(atom))?;
        note(&mut self.defs, place, fact)?;
        Ok(fact)
    }

    /// The highest node of a bound that is no column, with its coefficient.
    fn move_of(&self, search: &Search, fact: u32) -> Result<Option<(u32, i64)>, Stuck> {
        let atom = self.dag.atom(fact)?;
        if !atom.is_bound() {
            return Ok(None);
        }
        for term in atom.coefs.as_slice().iter().rev() {
            if !search.setup.is_column(term.0)? {
                return Ok(Some(*term));
            }
        }
        Ok(None)
    }

    /// A fact with its highest move put in; the fact itself where it has none.
    fn put_move(&mut self, search: &Search, fact: u32) -> Result<u32, Stuck> {
        let Some((node, c)) = self.move_of(search, fact)? else {
            return Ok(fact);
        };
        let def = self.def(search, node, if c > 0 { 1 } else { 0 })?;
        self.dag.pair(fact, def, node)
    }

    /// A fact with the moves put in, until only columns are left.
    pub fn to_columns(&mut self, search: &Search, fact: u32) -> Result<u32, Stuck> {
        let old = noted(self.canonical.as_slice(), fact);
        if old != NONE {
            return Ok(old);
        }
        let mut now = fact;
        for _ in 0..search.setup.nodes() {
            let next = self.put_move(search, now)?;
            if next == now {
                break;
            }
            now = next;
        }
        note(&mut self.canonical, fact, now)?;
        Ok(now)
    }

    /// A fact is at hand for a literal.
    pub fn put(&mut self, search: &Search, code: Code, fact: u32) -> Result<(), Stuck> {
        let form = search.forms.form_of(code)?;
        let low = code % 2 == 0;
        if low {
            push_at(&mut self.lows, self.alloc, form, (code / 2, fact))?;
        } else {
            push_at(&mut self.highs, self.alloc, form, (code / 2, fact))?;
        }
        self.log.push((form, low))?;
        Ok(())
    }

    /// The fact that came at hand last is not any more.
    fn cut_last(&mut self) -> Result<(), Stuck> {
        let Some((form, low)) = self.log.pop() else {
            return Err(Stuck::Place);
        };
        if low {
            let _fact = lent(&mut self.lows, form)?.pop();
        } else {
            let _fact = lent(&mut self.highs, form)?.pop();
        }
        Ok(())
    }

    /// Facts that came at hand behind a length of the log are not any more.
    pub fn cut(&mut self, length: usize) -> Result<(), Stuck> {
        for _ in 0..self.log.len().saturating_sub(length) {
            self.cut_last()?;
        }
        Ok(())
    }

    /// A fact at hand that is at least as strong as a literal; none where there is none.
    pub fn have(&self, search: &Search, code: Code) -> Result<u32, Stuck> {
        let mark = search.forms.threshold(code / 2)?;
        if code % 2 == 0 {
            strong_in(search, self.lows.as_slice(), mark.form, mark.rank, true)
        } else {
            strong_in(search, self.highs.as_slice(), mark.form, mark.rank, false)
        }
    }

    /// The same, where there has to be one.
    pub fn need(&self, search: &Search, code: Code) -> Result<u32, Stuck> {
        let fact = self.have(search, code)?;
        if fact == NONE {
            Err(Stuck::Place)
        } else {
            Ok(fact)
        }
    }

    /// Whether a leaf of a path is false by the facts at hand.
    pub fn is_leaf_false(&self, search: &Search, path: u32, leaf: u32) -> Result<bool, Stuck> {
        match search.forms.leaf_known(&search.setup, path, leaf)? {
            Known::False => Ok(true),
            Known::True | Known::Unset => Ok(false),
            Known::Lit(code) => Ok(self.have(search, code ^ 1)? != NONE),
        }
    }
}
