//! Moves from sums of multiples of two rows over a divisor that need not be within the cap.

ghost use Rattle.std.specs.Prelude.{◌≡◌, ◌≤◌, ◌^◌, ℤ, List, pos, ◌≤ℤ◌, ◌+ℤ◌, ◌*ℤ◌, nat_abs};
ghost use Rattle.lin_term.specs.Form.{Form, AreTerms, cap};
ghost use Rattle.lin_term.specs.Move.{Move, move_divisor, lowest};
ghost use Rattle.lin_term.specs.Definition.{move_numbers};
ghost use Rattle.lin_term.specs.Settle.{sum_form};
ghost use Rattle.lin_term.specs.Wide.{Capped, CappedWide};
ghost use Rattle.lin_term.specs.WideMove.{wide_form, wide_start as wide_start_of};

use crate::blend::{common_of_sum, quotients_of_sum};
use crate::combining::{NO_VARIABLE, sum_of_products};
use crate::fault::{Short, Wide};
use crate::moves::{Move, with_definition};
use crate::numbers::{floor_quotient, gcd_of, is_within};
use crate::row::{Row, Sort};
use crate::settle::row_with;
use std::alloc::Global;

/// What the divisor of a move begins with.
fn wide_start(sort: Sort, constant: i128, div: i128) -> u128
    ensures { result ≡ wide_start_of sort (nat_abs constant) (nat_abs div) }
{
    match sort {
        Sort::Rat => gcd_of(div.unsigned_abs(), constant.unsigned_abs()),
        Sort::Int => div.unsigned_abs(),
    }
}

/// The divisor of the move p*left + q*right + constant over div.
fn wide_divisor(
    sort: Sort,
    p: i64,
    left: &[(u32, i64)],
    q: i64,
    right: &[(u32, i64)],
    constant: i128,
    div: i128,
) -> i128
    requires p_kept { nat_abs p ≤ cap }
    requires q_kept { nat_abs q ≤ cap }
    requires left_kept { AreTerms 0 left.now }
    requires right_kept { AreTerms 0 right.now }
    requires least { pos 1 ≤ℤ div }
    ensures value { result ≡ pos (move_divisor sort (record { numer = sum_form p left.now q right.now (2 ^ 20) constant; div = nat_abs div })) }
    ensures least { pos 1 ≤ℤ result }
{
    let start = wide_start(sort, constant, div);
    common_of_sum(start, 0, p, left, q, right, NO_VARIABLE) as i128
}

/// The answer of a call that takes no memory.
fn without_memory(made: Result<Move, Wide>) -> Result<Move, Short<Wide>>
    ensures { (numbers : List ℤ) (m : Move) → CappedWide numbers m made → Capped numbers m result }
{
    match made {
        Ok(term) => Ok(term),
        Err(wide) => Err(Short::Fault(wide)),
    }
}

/// The lowest form of p*left + q*right + constant over div.
fn wide_lowest(
    alloc: Global,
    sort: Sort,
    p: i64,
    left: &[(u32, i64)],
    q: i64,
    right: &[(u32, i64)],
    constant: i128,
    div: i128,
) -> Result<Move, Short<Wide>>
    requires p_kept { nat_abs p ≤ cap }
    requires q_kept { nat_abs q ≤ cap }
    requires left_kept { AreTerms 0 left.now }
    requires right_kept { AreTerms 0 right.now }
    requires least { pos 1 ≤ℤ div }
    ensures { let m = lowest sort (record { numer = sum_form p left.now q right.now (2 ^ 20) constant; div = nat_abs div }) in Capped (move_numbers sort m) m result }
{
    let g = wide_divisor(sort, p, left, q, right, constant, div);
    let number = floor_quotient(div, g);
    if !is_within(number) {
        return Err(Short::Fault(Wide { number }));
    }
    let coefs = match quotients_of_sum(alloc, 0, g, p, left, q, right, NO_VARIABLE) {
        Ok(coefs) => coefs,
        Err(fault) => return Err(fault),
    };
    let row = match row_with(coefs, floor_quotient(constant, g)) {
        Ok(row) => row,
        Err(fault) => return Err(fault),
    };
    without_memory(with_definition(sort, Move::from_parts(row, number as i64)))
}

/// The sum of two products of kept numbers and a number of at most 2^126 in size.
fn wide_constant(p: i64, a: i64, q: i64, b: i64, c: i128) -> i128
    requires p_kept { nat_abs p ≤ cap }
    requires a_kept { nat_abs a ≤ cap }
    requires q_kept { nat_abs q ≤ cap }
    requires b_kept { nat_abs b ≤ cap }
    requires c_size { nat_abs c ≤ 2 ^ 126 }
    ensures { result ≡ (p *ℤ a +ℤ q *ℤ b) +ℤ c }
{
    let sum = sum_of_products(p, a, q, b);
    sum + c
}

impl Move {
    /// The lowest form of (p*left + q*right + c)/div. p and q are in `-CAP..=CAP`, c is at most 2^126 in size, div is 1 or
    /// more. Wide comes exactly where a number of that form or of its two definition literals is past the cap, and names
    /// the first, in the order of `make`; where there is none, it refuses only for memory.
    pub fn from_wide(
        alloc: Global,
        sort: Sort,
        p: i64,
        left: &Row,
        q: i64,
        right: &Row,
        c: i128,
        div: i128,
    ) -> Result<Move, Short<Wide>>
        requires p_kept { nat_abs p ≤ cap }
        requires q_kept { nat_abs q ≤ cap }
        requires c_size { nat_abs c ≤ 2 ^ 126 }
        requires least { pos 1 ≤ℤ div }
        ensures { let m = lowest sort (record { numer = wide_form p left.now q right.now c; div = nat_abs div }) in Capped (move_numbers sort m) m result }
    {
        let constant = wide_constant(p, left.constant_part(), q, right.constant_part(), c);
        let left = left.coefs();
        let right = right.coefs();
        wide_lowest(alloc, sort, p, left, q, right, constant, div)
    }
}
