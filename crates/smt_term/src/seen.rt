//! Terms that were read.

ghost use Rattle.std.specs.Prelude.{◌≡◌};
ghost use Rattle.smt_term.specs.Apply.{same_sort};

use lin_truth::VarSort;

/// A term that was read: its sort, and its place in the table of terms.
#[derive(Clone, Copy, Debug)]
pub struct Seen {
    pub sort: VarSort,
    pub node: u32,
}

/// Whether the sorts are the same.
pub fn is_same(a: VarSort, b: VarSort) -> bool
    ensures { result ≡ same_sort a b }
{
    match (a, b) {
        (VarSort::Bool, VarSort::Bool) => true,
        (VarSort::Number, VarSort::Number) => true,
        _ => false,
    }
}
