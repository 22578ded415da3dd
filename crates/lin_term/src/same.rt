//! Equality of rows, literals and moves: number by number.

ghost use Rattle.std.specs.Prelude.{◌≡◌, IsTrue, ◌↔◌};
ghost use Rattle.std.specs.Ordering.{int_eq};
ghost use Rattle.lin_term.specs.Same.{same_terms, same_form, same_literal, same_move};

use crate::lit::Lit;
use crate::moves::Move;
use crate::row::Row;

/// Whether the terms are the same, one by one.
fn are_same_terms(a: &[(u32, i64)], b: &[(u32, i64)]) -> bool
    ensures { result ≡ same_terms a.now b.now }
{
    a == b
}

/// Whether the constants are the same.
fn is_same_constant(a: i64, b: i64) -> bool
    ensures { result ≡ int_eq a b }
{
    a == b
}

/// Whether the rows have the same coefficients and constant.
fn is_same_row(a: &Row, b: &Row) -> bool
    ensures { result ≡ same_form a.now b.now }
{
    are_same_terms(a.coefs(), b.coefs()) && is_same_constant(a.constant_part(), b.constant_part())
}

/// Whether the literals are of the same kind, modulus and row.
fn is_same_literal(a: &Lit, b: &Lit) -> bool
    ensures { result ≡ same_literal a.now b.now }
{
    match a {
        Lit::AtLeast(row) => match b {
            Lit::AtLeast(other) => is_same_row(row, other),
            _ => false,
        },
        Lit::Above(row) => match b {
            Lit::Above(other) => is_same_row(row, other),
            _ => false,
        },
        Lit::Divides(d, row) => match b {
            Lit::Divides(e, other) => *d == *e && is_same_row(row, other),
            _ => false,
        },
        Lit::NotDivides(d, row) => match b {
            Lit::NotDivides(e, other) => *d == *e && is_same_row(row, other),
            _ => false,
        },
    }
}

impl Row {
    /// Whether the rows are equal: the same coefficients and the same constant.
    pub fn is_same(&self, other: &Row) -> bool
        ensures value { result ≡ same_form self.now other.now }
        ensures equal { IsTrue result ↔ (self.now ≡ other.now) }
    {
        is_same_row(self, other)
    }
}

impl Lit {
    /// Whether the literals are equal: of the same kind, modulus and row. Equivalent literals that are written in two ways
    /// are not.
    pub fn is_same(&self, other: &Lit) -> bool
        ensures value { result ≡ same_literal self.now other.now }
        ensures equal { IsTrue result ↔ (self.now ≡ other.now) }
    {
        is_same_literal(self, other)
    }
}

/// Whether the moves have the same row and divisor.
fn is_same_move(a: &Move, b: &Move) -> bool
    ensures { result ≡ same_move a.now b.now }
{
    is_same_row(a.row(), b.row()) && a.div() == b.div()
}

impl Move {
    /// Whether the moves are equal: of the same row and divisor. Equal values that are written in two ways are not.
    pub fn is_same(&self, other: &Move) -> bool
        ensures value { result ≡ same_move self.now other.now }
        ensures equal { IsTrue result ↔ (self.now ≡ other.now) }
    {
        is_same_move(self, other)
    }
}
