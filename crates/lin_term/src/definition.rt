//! The two literals that fix a move's value at a node.

ghost use Rattle.std.specs.Prelude.{◌≡◌, ◌≢◌, ◌<◌, ◌≤◌, ◌^◌, ◌++◌, [], ◌∷◌, pos, ◌-ℤ◌, nat_abs, IfOk};
ghost use Rattle.lin_term.specs.Form.{cap};
ghost use Rattle.lin_term.specs.Linear.{Below, BelowTerms};
ghost use Rattle.lin_term.specs.Definition.{rename_move, upper_literal, lower_literal};
ghost use Rattle.lin_term.specs.Rising.{IsDefinable};

use crate::fault::Memory;
use crate::lit::Lit;
use crate::moves::{Move, definition_constant};
use crate::primitive_form::negated;
use crate::renaming::renamed_row;
use crate::row::{Row, Sort};
use std::alloc::Global;

/// The definition of a move at a node: the node is at least the move's value, and at most it.
#[derive(Debug, Drop)]
pub struct Defined {
    pub upper: Lit,
    pub lower: Lit,
}

/// The two literals, in primitive form, with `names[i]` for variable i of the move. The names ascend and are below the
/// node, which is below 2^20; the move's variables are below their count, and the move is kept, so no number of them is
/// past the cap. It refuses only for memory.
pub fn definition_literals(
    alloc: Global,
    sort: Sort,
    term: &Move,
    node: u32,
    names: &[u32],
) -> Result<Defined, Memory>
    requires { IsDefinable sort term.now names.now node }
    ensures upper { IfOk result (λ d. d.upper ≡ upper_literal sort (rename_move names.now term.now) node) }
    ensures lower { IfOk result (λ d. d.lower ≡ lower_literal sort (rename_move names.now term.now) node) }
{
    let div = term.div();
    let above = definition_constant(sort, term);
    let row = renamed_row(alloc, term.row(), names)?;
    let constant = row.constant_part();
    let upper = negated(alloc, &row)?;
    let upper = with_last(upper, node, div, above)?;
    let lower = with_last(row, node, minus(div), constant)?;
    Ok(Defined {
        upper: Lit::AtLeast(upper),
        lower: Lit::AtLeast(lower),
    })
}

/// A kept number negated.
fn minus(z: i64) -> i64
    requires { nat_abs z ≤ cap }
    ensures value { result ≡ pos 0 -ℤ z }
    ensures size { nat_abs result ≤ cap }
{
    -z
}

/// The row's coefficients with one more behind them, and this constant.
fn with_last(row: Row, var: u32, coef: i64, constant: i64) -> Result<Row, Memory>
    requires below { Below var row }
    requires few { var < 2 ^ 20 }
    requires nonzero { coef ≢ pos 0 }
    requires coef_kept { nat_abs coef ≤ cap }
    requires constant_kept { nat_abs constant ≤ cap }
    ensures { IfOk result (λ r. r ≡ record { terms = row.terms ++ (var, coef) ∷ []; constant = constant }) }
{
    let (mut coefs, _) = row.into_parts();
    match coefs.push((var, coef)) {
        Ok(()) => {}
        Err(_) => return Err(Memory),
    }
    Ok(Row::from_parts(coefs, constant))
}
