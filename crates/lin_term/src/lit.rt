//! Literals over rows.

ghost use Rattle.std.specs.Prelude.{◌≡◌, IfOk};
ghost use Rattle.lin_term.specs.Literal.{form_of};

use crate::fault::Memory;
use crate::row::Row;
use std::alloc::Global;

/// A literal: row >= 0, row > 0, the number divides row, the number does not divide row.
/// The modulus of a primitive literal is 1 or more; calls that need it within the cap say so.
#[derive(Debug, Drop)]
pub enum Lit {
    AtLeast(Row),
    Above(Row),
    Divides(u64, Row),
    NotDivides(u64, Row),
}

impl Lit {
    /// The row of the literal.
    pub fn row(&self) -> &Row
        ensures { result.now ≡ form_of self.now }
    {
        match self {
            Lit::AtLeast(row) => row,
            Lit::Above(row) => row,
            Lit::Divides(_, row) => row,
            Lit::NotDivides(_, row) => row,
        }
    }

    /// An equal literal; refuses only for memory.
    pub fn copy(&self, alloc: Global) -> Result<Lit, Memory>
        ensures { IfOk result (λ l. l ≡ self.now) }
    {
        match self {
            Lit::AtLeast(row) => Ok(Lit::AtLeast(row.copy(alloc)?)),
            Lit::Above(row) => Ok(Lit::Above(row.copy(alloc)?)),
            Lit::Divides(d, row) => Ok(Lit::Divides(*d, row.copy(alloc)?)),
            Lit::NotDivides(d, row) => Ok(Lit::NotDivides(*d, row.copy(alloc)?)),
        }
    }
}
