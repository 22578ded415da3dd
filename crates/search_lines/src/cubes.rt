//! Proofs over literals alone: those of exact elimination over the integers, whose lines are written as they are.

use search_decide::Leaf;

/// A literal that such a proof rests on.
#[derive(Clone, Copy, Debug, PartialEq, Eq)]
pub enum Input {
    /// A literal of the search.
    Lit(u32),
    /// A definition of a move's node.
    Def(u32, u32),
}

/// A proof over literals.
#[derive(Debug, Drop)]
pub struct CubeProof {
    /// Its lines, which number the inputs from 0.
    pub leaf: Leaf,
    /// What it rests on, in order.
    pub inputs: Vec<Input>,
}
