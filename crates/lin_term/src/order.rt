//! Orders of rows, literals and moves, for sorting.

ghost use Rattle.std.specs.Prelude.{◌≡◌};
ghost use Rattle.std.specs.Ordering.{ordering_then, nat_cmp, int_cmp};
ghost use Rattle.std.specs.Cmp.Lexicographic.{slice_cmp};
ghost use Rattle.lin_term.specs.Literal.{form_of};
ghost use Rattle.lin_term.specs.Order.{IsStrictOrder, term_cmp, form_cmp, literal_cmp, move_cmp, kind_number, modulus_or_none};

use crate::lit::Lit;
use crate::moves::Move;
use crate::row::Row;
use std::cmp::Ordering;

/// The order of two lists of terms: of the first two that differ, else of the lengths.
fn terms_order(a: &[(u32, i64)], b: &[(u32, i64)]) -> Ordering
    ensures { result ≡ slice_cmp term_cmp a.now b.now }
{
    a.cmp(b)
}

/// The order of two constants.
fn constant_order(a: i64, b: i64) -> Ordering
    ensures { result ≡ int_cmp a b }
{
    a.cmp(&b)
}

/// The order of two rows.
fn row_order(a: &Row, b: &Row) -> Ordering
    ensures { result ≡ form_cmp a.now b.now }
{
    match terms_order(a.coefs(), b.coefs()) {
        Ordering::Less => Ordering::Less,
        Ordering::Equal => constant_order(a.constant_part(), b.constant_part()),
        Ordering::Greater => Ordering::Greater,
    }
}

/// The place of the literal's kind among the four.
fn kind(lit: &Lit) -> u32
    ensures { result ≡ kind_number lit.now }
{
    match lit {
        Lit::AtLeast(_) => 0,
        Lit::Above(_) => 1,
        Lit::Divides(_, _) => 2,
        Lit::NotDivides(_, _) => 3,
    }
}

/// The modulus, 0 where there is none.
fn modulus(lit: &Lit) -> u64
    ensures { result ≡ modulus_or_none lit.now }
{
    match lit {
        Lit::AtLeast(_) => 0,
        Lit::Above(_) => 0,
        Lit::Divides(d, _) => *d,
        Lit::NotDivides(d, _) => *d,
    }
}

/// The order of two literals of one kind: by the modulus, then the row.
fn same_kind_order(a: &Lit, b: &Lit) -> Ordering
    ensures { result ≡ ordering_then (nat_cmp (modulus_or_none a.now) (modulus_or_none b.now)) (form_cmp (form_of a.now) (form_of b.now)) }
{
    match modulus(a).cmp(&modulus(b)) {
        Ordering::Less => Ordering::Less,
        Ordering::Equal => row_order(a.row(), b.row()),
        Ordering::Greater => Ordering::Greater,
    }
}

/// The order of two literals.
fn literal_order(a: &Lit, b: &Lit) -> Ordering
    ensures { result ≡ literal_cmp a.now b.now }
{
    match kind(a).cmp(&kind(b)) {
        Ordering::Less => Ordering::Less,
        Ordering::Equal => same_kind_order(a, b),
        Ordering::Greater => Ordering::Greater,
    }
}

/// The order of two moves.
fn move_order(a: &Move, b: &Move) -> Ordering
    ensures { result ≡ move_cmp a.now b.now }
{
    match row_order(a.row(), b.row()) {
        Ordering::Less => Ordering::Less,
        Ordering::Equal => div_order(a, b),
        Ordering::Greater => Ordering::Greater,
    }
}

/// The order of the divisors of two moves.
fn div_order(a: &Move, b: &Move) -> Ordering
    ensures { result ≡ nat_cmp a.now.div b.now.div }
{
    a.div().unsigned_abs().cmp(&b.div().unsigned_abs())
}

impl Row {
    /// The order of two rows, a total one in which only equal rows tie: the coefficients from the first variable on, then
    /// the constant.
    #[tactic(auto, using(crate::proofs::Orders::form_order))]
    pub fn order(&self, other: &Row) -> Ordering
        ensures value { result ≡ form_cmp self.now other.now }
        ensures strict { IsStrictOrder form_cmp }
    {
        row_order(self, other)
    }
}

impl Lit {
    /// The order of two literals, a total one in which only equal literals tie: the kind, the modulus, the row.
    #[tactic(auto, using(crate::proofs::Orders::literal_order))]
    pub fn order(&self, other: &Lit) -> Ordering
        ensures value { result ≡ literal_cmp self.now other.now }
        ensures strict { IsStrictOrder literal_cmp }
    {
        literal_order(self, other)
    }
}

impl Move {
    /// The order of two moves, a total one in which only equal moves tie: the numerator, then the divisor.
    #[tactic(auto, using(crate::proofs::Orders::move_order))]
    pub fn order(&self, other: &Move) -> Ordering
        ensures value { result ≡ move_cmp self.now other.now }
        ensures strict { IsStrictOrder move_cmp }
    {
        move_order(self, other)
    }
}
