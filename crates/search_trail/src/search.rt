//! The state of a search, in groups that calls lend one by one.

use crate::conflict::{How, Record};
use search_forms::{Code, Forms, NO_MODULUS, Setup};
use search_rows::Stuck;
use search_simplex::{Bound, NONE, Tableau, at, count_of, item, lent, put};
use std::alloc::Global;

/// What may be switched.
#[derive(Clone, Copy, Debug, PartialEq, Eq)]
pub struct Options {
    /// Children are tried from the last one on.
    pub turned: bool,
    /// Rows settle thresholds.
    pub theory: bool,
    /// Up to how many rows the forms of a path get theirs at once. Measured: with rows for all forms 24.8 s, with none before a
    /// push 17.4 s, with 100 17.9 s and fewer conflicts.
    pub rows: usize,
    /// How many cuts a decision may have.
    pub cuts: u32,
    /// The first live child is taken, whatever its distance.
    pub first: bool,
}

/// A literal on the trail.
#[derive(Clone, Copy, Debug, PartialEq, Eq)]
pub struct Entry {
    pub code: Code,
    /// The place of the bound that stood before.
    pub prev: u32,
    pub level: u32,
    pub how: How,
    /// Whether it is in force; one that contradicts another is not.
    pub live: bool,
    /// The bound of the tableau that stood before.
    pub old: Option<Bound>,
}

/// The trail and what waits to be propagated.
#[derive(Debug, Drop)]
pub struct Trail {
    pub entries: Vec<Entry>,
    /// How long the trail and the pool were at each decision.
    pub limits: Vec<(usize, usize)>,
    /// Terms of sums: trail places with weights.
    pub pool: Vec<(u32, i128)>,
    /// Places of the store whose literals became false.
    pub events: Vec<u32>,
    /// Paths that are to be looked at as a whole.
    pub walks: Vec<u32>,
}

/// Columns and nodes.
#[derive(Debug, Drop)]
pub struct Columns {
    /// The column of each node.
    pub of_node: Vec<u32>,
    /// The form of each column.
    pub forms: Vec<u32>,
    /// The node of each column, none where it is a row's.
    pub nodes: Vec<u32>,
    /// The trail place at which the definition of a rounded move came in.
    pub active: Vec<u32>,
}

/// The paths that take part.
#[derive(Debug, Drop)]
pub struct Paths {
    pub active: Vec<bool>,
    /// The paths in the order in which they came, each with its level.
    pub since: Vec<(u32, u32)>,
    /// Conjunctions that contradict themselves, by path and node; empty while there is none.
    pub dead: Vec<bool>,
    /// The path that failed last.
    pub last: u32,
}

/// The values at hand.
#[derive(Debug, Drop)]
pub struct Model {
    pub stamp: u32,
    /// The value and the infinitesimals of each node that is a column, over `den`.
    pub values: Vec<(i128, i128)>,
    pub den: i128,
    /// When the value of each form was worked out, and that value.
    pub stamps: Vec<u32>,
    pub sums: Vec<(i128, i128)>,
    /// Whole values of all nodes: the columns rounded down.
    pub floors: Vec<i128>,
}

/// The state.
#[derive(Debug, Drop)]
pub struct Search {
    pub alloc: Global,
    pub options: Options,
    pub setup: Setup,
    pub forms: Forms,
    pub tableau: Tableau,
    pub trail: Trail,
    pub columns: Columns,
    pub paths: Paths,
    pub model: Model,
    pub records: Vec<Record>,
    pub decisions: u64,
    pub conflicts: u64,
    pub pushes: u64,
}

fn no_model(alloc: Global) -> Model {
    Model {
        stamp: 0,
        values: Vec::new(alloc),
        den: 1,
        stamps: Vec::new(alloc),
        sums: Vec::new(alloc),
        floors: Vec::new(alloc),
    }
}

fn no_trail(alloc: Global) -> Trail {
    Trail {
        entries: Vec::new(alloc),
        limits: Vec::new(alloc),
        pool: Vec::new(alloc),
        events: Vec::new(alloc),
        walks: Vec::new(alloc),
    }
}

/// A column for each node that is one.
fn lay_columns(alloc: Global, setup: &Setup, tableau: &mut Tableau) -> Result<Columns, Stuck> {
    let mut columns = Columns {
        of_node: Vec::new(alloc),
        forms: Vec::new(alloc),
        nodes: Vec::new(alloc),
        active: Vec::new(alloc),
    };
    for node in 0..setup.nodes() {
        let column = if setup.is_column(node)? {
            columns.forms.push(NONE)?;
            columns.nodes.push(node)?;
            tableau.add_column()?
        } else {
            NONE
        };
        columns.of_node.push(column)?;
        columns.active.push(NONE)?;
    }
    Ok(columns)
}

impl Search {
    /// Nothing on the trail.
    pub fn new(
        alloc: Global,
        setup: Setup,
        options: Options,
        few: bool,
        fuel: u64,
    ) -> Result<Search, Stuck> {
        let mut tableau = Tableau::new(alloc, few, fuel);
        let columns = lay_columns(alloc, &setup, &mut tableau)?;
        let forms = Forms::new(alloc, setup.slots.len())?;
        let mut active: Vec<bool> = Vec::new(alloc);
        active.resize(setup.paths.len(), false)?;
        Ok(Search {
            alloc,
            options,
            setup,
            forms,
            tableau,
            trail: no_trail(alloc),
            columns,
            paths: Paths {
                active,
                since: Vec::new(alloc),
                dead: Vec::new(alloc),
                last: 0,
            },
            model: no_model(alloc),
            records: Vec::new(alloc),
            decisions: 0,
            conflicts: 0,
            pushes: 0,
        })
    }

    /// How many decisions are in force.
    pub fn level(&self) -> u32 {
        count_of(self.trail.limits.len())
    }

    /// A literal on the trail.
    pub fn entry(&self, place: u32) -> Result<Entry, Stuck> {
        at(self.trail.entries.as_slice(), place)
    }

    /// The literal at a place of the trail.
    pub fn code_at(&self, place: u32) -> Result<Code, Stuck> {
        Ok(self.entry(place)?.code)
    }

    /// The column of a form, which gets a row of the tableau where it has none.
    pub fn column_of(&mut self, form: u32) -> Result<u32, Stuck> {
        let found = self.forms.form(form)?;
        if found.column != NONE {
            return Ok(found.column);
        }
        let mut terms: Vec<(u32, i64)> = Vec::new(self.alloc);
        for term in found.terms.as_slice() {
            terms.push((at(self.columns.of_node.as_slice(), term.0)?, term.1))?;
        }
        let column = if is_single(terms.as_slice()) {
            single(terms.as_slice())
        } else {
            self.columns.nodes.push(NONE)?;
            self.columns.forms.push(NONE)?;
            self.tableau.add_row(terms.as_slice())?
        };
        put(&mut self.columns.forms, column, form)?;
        lent(&mut self.forms.list, form)?.column = column;
        Ok(column)
    }

    /// Whether a form is a divisibility.
    pub fn is_divisibility(&self, form: u32) -> Result<bool, Stuck> {
        Ok(item(self.forms.list.as_slice(), form)?.modulus != NO_MODULUS)
    }
}

/// Whether it is one column.
fn is_single(terms: &[(u32, i64)]) -> bool {
    terms.len() == 1 && single(terms) != NONE
}

fn single(terms: &[(u32, i64)]) -> u32 {
    match terms.first() {
        Some(term) => term.0,
        None => NONE,
    }
}
