//! Conflicts, what they rest on, and the records that are kept of them. A record holds the decision that it refutes, the
//! literals resolved on above it with their reasons, and the trail places below it. Each is used at one place, so a proof is
//! linear in the conflicts.

use search_rows::Stuck;
use std::alloc::{AllocError, AllocFailed};

/// How a literal came onto the trail.
#[derive(Clone, Copy, Debug, PartialEq, Eq)]
pub enum How {
    Decision,
    /// The negation of a record's decision.
    Lemma(u32),
    /// A definition of a move's node.
    Def(u32, u32),
    /// A leaf of a path, all else being false.
    Tree(u32, u32),
    /// A sum of bounds: where its terms begin in the pool, and how many there are.
    Sum(u32, u32),
}

/// A contradiction, in trail places.
#[derive(Debug, Drop)]
pub enum Conflict {
    /// A path is false.
    Tree(u32),
    /// Two bounds of one form.
    Two(u32, u32),
    /// Bounds with weights whose sum is false.
    Farkas(Vec<(u32, i128)>),
    /// Equalities with weights whose sum has no whole solution: lower bound, upper bound, weight.
    Common(Vec<(u32, u32, i128)>),
    /// Literals with no whole solution, and the number of a proof of it.
    Cube(Vec<u32>, u32),
}

/// Why a search stops.
#[derive(Debug, Drop)]
pub enum Halt {
    Conflict(Conflict),
    Stuck(Stuck),
}

impl From<Stuck> for Halt {
    fn from(e: Stuck) -> Halt {
        Halt::Stuck(e)
    }
}

impl From<AllocError> for Halt {
    fn from(_e: AllocError) -> Halt {
        Halt::Stuck(Stuck::Memory)
    }
}

impl<T: Drop> From<AllocFailed<T>> for Halt {
    fn from(_e: AllocFailed<T>) -> Halt {
        Halt::Stuck(Stuck::Memory)
    }
}

/// The end of a record, in literals.
#[derive(Debug, Drop)]
pub enum End {
    Tree(u32),
    Two(u32, u32),
    Farkas(Vec<(u32, i128)>),
    Common(Vec<(u32, u32, i128)>),
    Cube(Vec<u32>, u32),
}

/// The reason of a literal, in literals.
#[derive(Debug, Drop)]
pub enum Reason {
    Lemma(u32),
    Def(u32, u32),
    Tree(u32, u32),
    Sum(Vec<(u32, i128)>),
}

/// What is kept of a conflict.
#[derive(Debug, Drop)]
pub struct Record {
    /// The decision that it refutes; none where it refutes the system.
    pub decision: u32,
    /// The literals in order, each with its reason.
    pub steps: Vec<(u32, Reason)>,
    pub end: End,
    /// The trail places below the decision that it rests on.
    pub uses: Vec<u32>,
}
