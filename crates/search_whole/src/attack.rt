//! The state of an attack.

use search_lines::CubeProof;
use search_rows::Stuck;
use search_trail::Search;
use std::alloc::Global;

/// A point: the value of each node over a denominator.
#[derive(Drop)]
pub struct Offer {
    pub den: i128,
    pub nums: Vec<i128>,
}

/// How much work over the integers is allowed, and what was done.
#[derive(Clone, Copy, PartialEq, Eq)]
pub struct Budget {
    /// How many splits may be in force, and how many there may be in all.
    pub splits: u32,
    pub total: u32,
    /// How many cases an elimination may take.
    pub cases: u64,
    pub done_splits: u32,
    /// How many cuts there were since the last decision, and in all.
    pub cuts_here: u32,
    pub cuts_all: u32,
    /// Whether all points within few bounds were tried.
    pub bruted: bool,
    /// After how many conflicts literals are probed.
    pub next_probe: u64,
}

impl Budget {
    /// Small at first: 4 splits and 2,000 cases. Where that fails, 40 and 20,000, the trail kept.
    pub fn small() -> Budget {
        Budget {
            splits: 4,
            total: 60,
            cases: 2000,
            done_splits: 0,
            cuts_here: 0,
            cuts_all: 0,
            bruted: false,
            next_probe: 50,
        }
    }

    /// The large one in place of the small.
    pub fn grow(&mut self) {
        self.splits = 40;
        self.total = 400;
        self.cases = 20_000;
    }
}

/// The state of an attack.
#[derive(Drop)]
pub struct Attack {
    pub alloc: Global,
    pub search: Search,
    pub proofs: Vec<CubeProof>,
    pub budget: Budget,
}

impl Attack {
    /// Nothing decided.
    pub fn new(alloc: Global, search: Search) -> Attack {
        Attack {
            alloc,
            search,
            proofs: Vec::new(alloc),
            budget: Budget::small(),
        }
    }

    /// How many nodes there are.
    pub fn nodes(&self) -> u32 {
        self.search.setup.nodes()
    }

    /// The value at hand of a node, over the model's denominator.
    pub fn value(&self, node: u32) -> Result<i128, Stuck> {
        match self.search.model.values.get(node as usize) {
            Some(found) => Ok(found.0),
            None => Err(Stuck::Place),
        }
    }
}
