//! The rule of sums: two inequalities, each times a positive number, give their sum in primitive form (Farkas' lemma).

ghost use Rattle.std.specs.Prelude.{◌≡◌, ◌&&◌, ◌≤◌, ◌^◌, pos, int_le, nat_abs, Some, IfOk};
ghost use Rattle.lin_term.specs.Form.{cap};
ghost use Rattle.lin_term.specs.Literal.{IsPrimitive, prim};
ghost use Rattle.lin_term.specs.Sum.{sum_of};
ghost use Rattle.cube_rules.specs.Facts.{guard, is_inequality};
ghost use Rattle.cube_rules.specs.Lines.{is_sum};

use crate::literal::is_inequality_literal;
use lin_term::{CombineFault, Lit, Memory, Sort, combine};
use std::alloc::Global;

/// Whether both literals are inequalities, and the multipliers and the divisor are 1 or more.
fn are_summands(p: i64, a: &Lit, q: i64, b: &Lit, g: i128) -> bool
    ensures { result ≡ (is_inequality a.now && is_inequality b.now && int_le (pos 1) p && int_le (pos 1) q && int_le (pos 1) g) }
{
    is_inequality_literal(a) && is_inequality_literal(b) && p >= 1 && q >= 1 && g >= 1
}

/// The primitive form of p times a plus q times b. None exactly where a literal is no inequality, a multiplier or g is
/// below 1, g is not the divisor of the sum, or the result has a number past the cap. The literals are primitive; p and q
/// are within the cap, and g is at most 2^105 in size. It refuses only for memory.
pub fn summed(
    alloc: Global,
    sort: Sort,
    p: i64,
    a: &Lit,
    q: i64,
    b: &Lit,
    g: i128,
) -> Result<Option<Lit>, Memory>
    requires a_primitive { IsPrimitive sort a.now }
    requires b_primitive { IsPrimitive sort b.now }
    requires p_kept { nat_abs p ≤ cap }
    requires q_kept { nat_abs q ≤ cap }
    requires g_kept { nat_abs g ≤ 2 ^ 105 }
    ensures { IfOk result (λ o. o ≡ guard (is_sum sort p a.now q b.now g) (Some (prim sort (sum_of p a.now q b.now)))) }
{
    if !are_summands(p, a, q, b, g) {
        return Ok(None);
    }
    match combine(alloc, sort, p, a, q, b, g) {
        Ok(sum) => Ok(Some(sum)),
        Err(CombineFault::Divisor) => Ok(None),
        Err(CombineFault::Wide { .. }) => Ok(None),
        Err(CombineFault::Memory) => Err(Memory),
    }
}
