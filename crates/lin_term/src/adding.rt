//! Sums of multiples of two inequalities over the rationals, where their divisor is not given.

ghost use Rattle.std.specs.Prelude.{◌≡◌, ◌≤◌, ◌||◌, ◌^◌, nat_abs};
ghost use Rattle.lin_term.specs.Form.{Form, cap};
ghost use Rattle.lin_term.specs.Linear.{Rat};
ghost use Rattle.lin_term.specs.Literal.{IsPrimitive, prim};
ghost use Rattle.lin_term.specs.Sum.{sum_of, inequality_with};
ghost use Rattle.lin_term.specs.Wide.{Capped, form_numbers, lit_numbers};

use crate::combining::{NO_VARIABLE, inequality, is_either_strict, sum_of_products};
use crate::fault::{Short, Wide};
use crate::lit::Lit;
use crate::putting::sum_row;
use crate::row::{Row, Sort};
use std::alloc::Global;

/// The inequality, where there is a row.
fn inequality_of(strict: bool, row: Result<Row, Short<Wide>>) -> Result<Lit, Short<Wide>>
    ensures { (f : Form) → Capped (form_numbers f) f row → Capped (lit_numbers (inequality_with strict f)) (inequality_with strict f) result }
{
    match row {
        Ok(row) => Ok(inequality(strict, row)),
        Err(fault) => Err(fault),
    }
}

/// The primitive form over the rationals of the sum of p times a and q times b, Above where one of the two is, else
/// AtLeast. p and q are in `-CAP..=CAP`. Wide names the first number of it past the cap, coefficients before the
/// constant; where there is none, it refuses only for memory.
pub fn add_multiples(alloc: Global, p: i64, a: &Lit, q: i64, b: &Lit) -> Result<Lit, Short<Wide>>
    requires p_kept { nat_abs p ≤ cap }
    requires q_kept { nat_abs q ≤ cap }
    ensures { Capped (lit_numbers (prim Rat (sum_of p a.now q b.now))) (prim Rat (sum_of p a.now q b.now)) result }
{
    let strict = is_either_strict(a, b);
    let left = a.row();
    let right = b.row();
    let constant = sum_of_products(p, left.constant_part(), q, right.constant_part());
    let left = left.coefs();
    let right = right.coefs();
    inequality_of(
        strict,
        sum_row(alloc, Sort::Rat, p, left, q, right, NO_VARIABLE, constant),
    )
}
