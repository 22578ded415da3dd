//! A bound of a variable and a number more, as a move.

ghost use Rattle.std.specs.Prelude.{◌≡◌, ◌≤◌, ◌^◌, ◌+ℤ◌, ◌*ℤ◌, ℕ, ℤ, pos, nat_abs, true, IfOk};
ghost use Rattle.lin_term.specs.Literal.{form_of};
ghost use Rattle.lin_term.specs.Move.{lowest};
ghost use Rattle.lin_term.specs.Definition.{move_numbers};
ghost use Rattle.lin_term.specs.PutIn.{rest_of};
ghost use Rattle.lin_term.specs.Wide.{Capped};
ghost use Rattle.dom_core.specs.Bound.{shifted_lower, shifted_upper};
ghost use Rattle.dom_core.specs.Elimination.{size_at, is_lower, is_upper};

use lin_term::{Lit, Memory, Move, Row, Short, Sort, Wide, coefficient_at};
use std::alloc::Global;

/// The row of the literal without the variable, which it has. It refuses only for memory.
pub fn rest_row(alloc: Global, lit: &Lit, var: u32) -> Result<Row, Memory>
    requires { 1 ≤ size_at var lit.now }
    ensures { IfOk result (λ r. r ≡ rest_of (form_of lit.now) var) }
{
    let row = lit.row();
    let _terms = row.coefs();
    match row.copy(alloc) {
        Ok(copy) => copy.with(var, 0),
        Err(fault) => Err(fault),
    }
}

/// Of a lower literal a*x + l the lowest form of (c - l)/a; c is at most 2^126 in size. Wide names the first number past
/// the cap in the order of `Move::make`; where there is none, it refuses only for memory.
pub fn above_lower(
    alloc: Global,
    sort: Sort,
    lit: &Lit,
    var: u32,
    c: i128,
) -> Result<Move, Short<Wide>>
    requires lower { is_lower var lit.now ≡ true }
    requires size { nat_abs c ≤ 2 ^ 126 }
    ensures { (k : ℕ) (z : ℤ) → c ≡ pos k +ℤ pos (size_at var lit.now) *ℤ z → let m = lowest sort (shifted_lower var lit.now k z) in Capped (move_numbers sort m) m result }
{
    let a = coefficient_at(lit.row(), var);
    match rest_row(alloc, lit, var) {
        Ok(rest) => Move::from_wide(alloc, sort, -1, &rest, 0, &rest, c, a as i128),
        Err(_) => Err(Short::Memory),
    }
}

/// Of an upper literal -b*x + u the lowest form of (u + c)/b, as `above_lower`.
pub fn below_upper(
    alloc: Global,
    sort: Sort,
    lit: &Lit,
    var: u32,
    c: i128,
) -> Result<Move, Short<Wide>>
    requires upper { is_upper var lit.now ≡ true }
    requires size { nat_abs c ≤ 2 ^ 126 }
    ensures { (z : ℤ) → c ≡ pos (size_at var lit.now) *ℤ z → let m = lowest sort (shifted_upper var lit.now z) in Capped (move_numbers sort m) m result }
{
    let row = lit.row();
    let _terms = row.coefs();
    let b = -coefficient_at(row, var);
    match rest_row(alloc, lit, var) {
        Ok(rest) => Move::from_wide(alloc, sort, 1, &rest, 0, &rest, c, b as i128),
        Err(_) => Err(Short::Memory),
    }
}
