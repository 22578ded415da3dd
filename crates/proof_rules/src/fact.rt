//! Facts as the checker holds them, and what a line leaves.

use crate::clause::Clause;
use crate::left::CasesLeft;
use dom_core::Matrix;
use lin_term::Lit;
use sqlite_items::Items;
use std::rc::Rc;

/// A fact of a context.
#[derive(Drop)]
pub enum Fact<'a> {
    /// A part of the matrix on the path of this number: it is negated, has the path's nodes for its variables, and takes
    /// no memory of its own.
    OnPath(u32, &'a Matrix),
    /// A literal that a line made, or that was built of such a part.
    Known(Rc<Lit>),
    /// A disjunction that a line `learn` made.
    Learnt(Rc<Clause>),
}

/// What is left to close after a line.
#[derive(Drop)]
pub enum Next<'a> {
    /// The same subproof goes on with one more fact.
    Goes(Fact<'a>),
    /// One subproof for each of these parts of a conjunction on a path, which its negation makes a disjunction.
    Cases(u32, &'a [Matrix]),
    /// One subproof for each literal of a disjunction.
    Literals(Rc<Clause>),
    /// A subproof of the literal, and one of its negation.
    Split(Rc<Lit>, Rc<Lit>),
    /// A subproof with all these facts, and one with the last one.
    Learn(Items<Fact<'a>>, Fact<'a>),
    /// The same subproof goes on with these facts alone.
    Cube(Items<Fact<'a>>),
    /// One subproof for each of these cases, in which its literals are the only facts.
    Least(CasesLeft),
    /// The subproof ends.
    Closed,
}
