//! Sums of inequalities.

ghost use Rattle.std.specs.Prelude.{◌≡◌, ◌≤◌, ◌↔◌, ◌^◌, IsTrue, ℕ, ℤ, pos, ◌≤ℤ◌, ◌+ℤ◌, ◌*ℤ◌, ◌||◌, nat_abs};
ghost use Rattle.lin_term.specs.Form.{AreTerms, cap};
ghost use Rattle.lin_term.specs.Literal.{IsPrimitive};
ghost use Rattle.lin_term.specs.Sum.{IsInequality, sum_of, Combined, MayBe, is_strict as is_strict_literal, inequality_with, combine_fault};
ghost use Rattle.lin_term.specs.Settle.{sum_form};

use crate::blend::product;
use crate::fault::{Short, Wide};
use crate::lit::Lit;
use crate::row::{Row, Sort};
use crate::settle::{divisor_of_sum, inequality_row};
use std::alloc::Global;
use thiserror::Error;

/// Why a sum of two literals is refused.
#[derive(Clone, Copy, Debug, PartialEq, Eq, Error)]
pub enum CombineFault {
    /// The given number is not the divisor of the sum.
    #[error("the given number is not the divisor of the sum")]
    Divisor,
    /// A number of the primitive sum is past the cap.
    #[error("{number} is past the cap")]
    Wide { number: i128 },
    #[error("out of memory")]
    Memory,
}

/// Above the number of every variable.
pub(crate) const NO_VARIABLE: u32 = 1 << 20;

/// The primitive form of the sum of p times a and q times b, Above where one of the two is. Both are primitive
/// inequalities; p and q are in `1..=CAP`, g in `1..=2^105`. Divisor comes only where g is not the divisor of the sum,
/// Wide only where it is and the result has a number past the cap: the first one, coefficients before the constant.
/// Where neither is so, it refuses only for memory.
pub fn combine(
    alloc: Global,
    sort: Sort,
    p: i64,
    a: &Lit,
    q: i64,
    b: &Lit,
    g: i128,
) -> Result<Lit, CombineFault>
    requires a_primitive { IsPrimitive sort a.now }
    requires b_primitive { IsPrimitive sort b.now }
    requires a_inequality { IsInequality a.now }
    requires b_inequality { IsInequality b.now }
    requires p_least { pos 1 ≤ℤ p }
    requires p_greatest { nat_abs p ≤ cap }
    requires q_least { pos 1 ≤ℤ q }
    requires q_greatest { nat_abs q ≤ cap }
    requires g_least { pos 1 ≤ℤ g }
    requires g_greatest { nat_abs g ≤ 2 ^ 105 }
    ensures { Combined sort (sum_of p a.now q b.now) (nat_abs g) result }
{
    let strict = is_either_strict(a, b);
    let left = a.row();
    let right = b.row();
    let constant = sum_of_products(p, left.constant_part(), q, right.constant_part());
    let left = left.coefs();
    let right = right.coefs();
    combined(alloc, sort, strict, p, left, q, right, constant, g)
}

/// The sum as a literal, where g is its divisor.
fn combined(
    alloc: Global,
    sort: Sort,
    strict: bool,
    p: i64,
    left: &[(u32, i64)],
    q: i64,
    right: &[(u32, i64)],
    constant: i128,
    g: i128,
) -> Result<Lit, CombineFault>
    requires strict_in_rat { MayBe sort strict }
    requires p_kept { nat_abs p ≤ cap }
    requires q_kept { nat_abs q ≤ cap }
    requires left_kept { AreTerms 0 left.now }
    requires right_kept { AreTerms 0 right.now }
    requires g_least { pos 1 ≤ℤ g }
    ensures { Combined sort (inequality_with strict (sum_form p left.now q right.now (2 ^ 20) constant)) (nat_abs g) result }
{
    let divisor = divisor_of_sum(sort, p, left, q, right, NO_VARIABLE, constant);
    if !is_divisor(divisor, g) {
        return Err(CombineFault::Divisor);
    }
    match inequality_row(alloc, sort, g, p, left, q, right, NO_VARIABLE, constant) {
        Ok(row) => Ok(inequality(strict, row)),
        Err(fault) => Err(fault_of(fault)),
    }
}

/// Whether the given number is the divisor.
fn is_divisor(divisor: u128, g: i128) -> bool
    ensures { IsTrue result ↔ divisor ≡ nat_abs g }
{
    divisor == g.unsigned_abs()
}

/// A number past the cap, or want of memory, as a fault of a sum.
fn fault_of(fault: Short<Wide>) -> CombineFault
    ensures { result ≡ combine_fault fault }
{
    match fault {
        Short::Fault(wide) => CombineFault::Wide {
            number: wide.number,
        },
        Short::Memory => CombineFault::Memory,
    }
}

/// Whether the literal is Above.
fn is_strict(lit: &Lit) -> bool
    ensures { result ≡ is_strict_literal lit.now }
{
    match lit {
        Lit::Above(_) => true,
        _ => false,
    }
}

/// Whether one of the two literals is Above.
pub(crate) fn is_either_strict(a: &Lit, b: &Lit) -> bool
    ensures { result ≡ (is_strict_literal a.now || is_strict_literal b.now) }
{
    is_strict(a) || is_strict(b)
}

/// The inequality with this row.
pub(crate) fn inequality(strict: bool, row: Row) -> Lit
    ensures { result ≡ inequality_with strict row }
{
    if strict {
        Lit::Above(row)
    } else {
        Lit::AtLeast(row)
    }
}

/// p*a + q*b.
pub(crate) fn sum_of_products(p: i64, a: i64, q: i64, b: i64) -> i128
    requires p_kept { nat_abs p ≤ cap }
    requires a_kept { nat_abs a ≤ cap }
    requires q_kept { nat_abs q ≤ cap }
    requires b_kept { nat_abs b ≤ cap }
    ensures value { result ≡ p *ℤ a +ℤ q *ℤ b }
    ensures size { nat_abs result ≤ 2 ^ 105 }
{
    let left = product(p, a);
    let right = product(q, b);
    left + right
}
