//! Formulas without quantifiers.

ghost use Rattle.std.specs.Prelude.{◌≡◌, ◌↔◌, IfOk, IsTrue};

use lin_term::{Lit, Memory};
use sqlite_items::Items;
use std::alloc::Global;

/// A formula of literals. `And` of nothing is true, `Or` of nothing is false.
#[derive(Debug, Drop)]
pub enum Matrix {
    Lit(Lit),
    And(Items<Matrix>),
    Or(Items<Matrix>),
}

impl Matrix {
    /// An equal matrix; refuses only for memory.
    #[cycle(copy)]
    pub fn copy(&self, alloc: Global) -> Result<Matrix, Memory>
        ensures { IfOk result (λ m. m ≡ self.now) }
    {
        match self {
            Matrix::Lit(lit) => Ok(Matrix::Lit(lit.copy(alloc)?)),
            Matrix::And(parts) => Ok(Matrix::And(copy_all(alloc, parts.as_slice())?)),
            Matrix::Or(parts) => Ok(Matrix::Or(copy_all(alloc, parts.as_slice())?)),
        }
    }

    /// Whether the matrices are equal: the same literals and parts in the same order. Equivalent matrices that are written
    /// in two ways are not.
    #[cycle(same)]
    pub fn is_same(&self, other: &Matrix) -> bool
        ensures { IsTrue result ↔ (self.now ≡ other.now) }
    {
        match self {
            Matrix::Lit(lit) => match other {
                Matrix::Lit(found) => lit.is_same(found),
                _ => false,
            },
            Matrix::And(parts) => match other {
                Matrix::And(others) => are_same(parts.as_slice(), others.as_slice()),
                _ => false,
            },
            Matrix::Or(parts) => match other {
                Matrix::Or(others) => are_same(parts.as_slice(), others.as_slice()),
                _ => false,
            },
        }
    }
}

/// Whether the parts are equal, one by one.
#[cycle(same)]
fn are_same(parts: &[Matrix], others: &[Matrix]) -> bool
    ensures { IsTrue result ↔ (parts.now ≡ others.now) }
{
    if parts.len() != others.len() {
        return false;
    }
    let mut index: usize = 0;
    for part in parts {
        if !part.is_same(&others[index]) {
            return false;
        }
        index += 1;
    }
    true
}

/// Equal parts; refuses only for memory.
#[cycle(copy)]
pub fn copy_all(alloc: Global, parts: &[Matrix]) -> Result<Items<Matrix>, Memory>
    ensures { IfOk result (λ items. items ≡ parts.now) }
{
    let mut copies = Items::new(alloc);
    for part in parts {
        copies.push(part.copy(alloc)?)?;
    }
    Ok(copies)
}
