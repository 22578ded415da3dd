//! Variables in scope.

use lin_truth::VarSort;

/// A variable of a goal: its sort, and its place on the path of the normal form, from the outside.
#[derive(Clone, Copy, Debug, PartialEq, Eq, Drop)]
pub struct Bound {
    pub sort: VarSort,
    pub level: u32,
}
