//! A tree as a list of steps that build it from a stack of trees, parts before wholes and later parts before earlier
//! ones; and what is still to be written out.

use crate::node::{Binary, Leaf, Quantifier, Unary, Variadic};
use lin_truth::VarSort;
use sqlite_items::Items;

/// Takes trees from the stack and puts one onto it; the first part is on top.
#[derive(Drop)]
pub enum Step {
    Leaf(Leaf),
    Variable(u32),
    One(Unary),
    Two(Binary),
    Choice,
    Several(Variadic, usize),
    Binder(Quantifier, Items<VarSort>),
}

/// An entry, with the frame that stands around it.
#[derive(Clone, Copy, Drop)]
pub struct Thing {
    pub node: u32,
    pub frame: u32,
}

/// What stands around entries: what is given for the parameters, and the places of the bindings.
#[derive(Drop)]
pub struct Around {
    pub given: Items<Thing>,
    pub bound: Items<u32>,
}

/// What is still to be done.
#[derive(Drop)]
pub enum Task {
    /// To write out the tree of this thing, below so many variables.
    Write {
        thing: Thing,
        above: u32,
    },
    /// To write out that two entries with this frame are not equal.
    Apart {
        left: u32,
        right: u32,
        frame: u32,
        above: u32,
    },
    /// To put this step down.
    Put(Step),
}
