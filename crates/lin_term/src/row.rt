//! Linear forms over numbered variables.

ghost use Rattle.std.specs.Prelude.{◌≡◌, ◌<◌, ◌≤◌, ◌^◌, ℕ, ℤ, nat_abs, IfOk, List, []};
ghost use Rattle.lin_term.specs.Form.{Form, AreTerms, IsRow, cap};

use crate::fault::Memory;
use smallvec::SmallVec;
use std::alloc::Global;
use std::marker::Model;

/// The greatest size of a kept number: 2^52.
pub const CAP: i64 = 4_503_599_627_370_496;

/// The sort of the variables: rationals or integers.
#[derive(Clone, Copy, Debug, PartialEq, Eq, Drop)]
pub enum Sort {
    Rat,
    Int,
}

/// Variable numbers with their coefficients.
pub type Coefs = SmallVec<(u32, i64), 4>;

/// A linear form: coefficients by variable number, ascending, none 0, and a constant.
/// Its numbers lie in `-CAP..=CAP`, and its variable numbers are below 2^20.
#[derive(Debug, Drop)]
pub struct Row {
    coefs: Coefs,
    constant: i64,
}

impl Model for Row {
    ghost use Rattle.lin_term.specs.Form.{Form, IsRow};

    ghost Value = { Form };

    ghost view = { λ r. record { terms = r.coefs.items; constant = r.constant } };

    ghost invariant = { λ r. IsRow (record { terms = r.coefs.items; constant = r.constant }) };
}

impl Row {
    /// The row without variables; the constant lies in `-CAP..=CAP`.
    pub fn constant(alloc: Global, c: i64) -> Row
        requires { nat_abs c ≤ cap }
        ensures { result ≡ record { terms = []; constant = c } }
    {
        Row {
            coefs: SmallVec::new(alloc),
            constant: c,
        }
    }

    /// The row of these coefficients, which ascend by variable and hold no 0, and this constant. All are in `-CAP..=CAP`,
    /// and the variables are below 2^20.
    pub fn from_parts(coefs: Coefs, constant: i64) -> Row
        requires { IsRow (record { terms = coefs.items; constant = constant }) }
        ensures { result ≡ record { terms = coefs.items; constant = constant } }
    {
        Row { coefs, constant }
    }

    /// The coefficients by variable number, ascending: none 0, in `-CAP..=CAP`, variables below 2^20.
    pub fn coefs(&self) -> &[(u32, i64)]
        ensures terms { result.now ≡ self.now.terms }
        ensures kept { AreTerms 0 result.now }
    {
        self.coefs.as_slice()
    }

    /// The constant, in `-CAP..=CAP`.
    pub fn constant_part(&self) -> i64
        ensures value { result ≡ self.now.constant }
        ensures kept { nat_abs result ≤ cap }
    {
        self.constant
    }

    /// The coefficients and the constant.
    pub(crate) fn into_parts(self) -> (Coefs, i64)
        ensures terms { result.0.items ≡ self.terms }
        ensures constant { result.1 ≡ self.constant }
        ensures row { IsRow self }
    {
        (self.coefs, self.constant)
    }

    /// An equal row; refuses only for memory.
    pub fn copy(&self, alloc: Global) -> Result<Row, Memory>
        ensures { IfOk result (λ r. r ≡ self.now) }
    {
        let coefs = SmallVec::from_slice(alloc, self.coefs.as_slice())?;
        Ok(Row {
            coefs,
            constant: self.constant,
        })
    }
}
