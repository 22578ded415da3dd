//! The literals of an elimination over the rationals: those of a cube, and behind them sums that cancel a variable.

ghost use Rattle.std.specs.Prelude.{◌≡◌, ◌<◌, ◌≤◌, true, length, IfOk};
ghost use Rattle.lin_term.specs.Form.{cap};
ghost use Rattle.lin_term.specs.Wide.{Capped, lit_numbers};
ghost use Rattle.dom_core.specs.Adding.{AddsLit};
ghost use Rattle.dom_core.specs.Elimination.{is_lower as is_lower_literal, is_upper as is_upper_literal, size_at, resolvent as resolvent_of};
ghost use Rattle.cube_elim.specs.Stored.{lit_of, IsKept};

use dom_core::add_made;
use lin_term::{Lit, Short, Wide, add_multiples, coefficient_at, gcd_of_words};
use sqlite_items::Items;
use std::alloc::Global;

/// The places of two literals whose sum cancels a variable.
#[derive(Clone, Copy)]
pub(crate) struct Pair {
    pub lower: u32,
    pub upper: u32,
    pub var: u32,
}

/// The literals of a cube, and behind them the sums of pairs.
#[derive(Drop)]
pub(crate) struct Store {
    pub lits: Items<Lit>,
    pub pairs: Items<Pair>,
}

/// The size of the coefficient of the variable.
fn size_of(lit: &Lit, var: u32) -> u64
    ensures value { result ≡ size_at var lit.now }
    ensures kept { result ≤ cap }
{
    coefficient_at(lit.row(), var).unsigned_abs()
}

/// The sum of a lower and an upper literal by the least positive multipliers that cancel the variable.
fn resolvent(alloc: Global, var: u32, lower: &Lit, upper: &Lit) -> Result<Lit, Short<Wide>>
    requires { is_lower_literal var lower.now ≡ true }
    ensures { Capped (lit_numbers (resolvent_of var lower.now upper.now)) (resolvent_of var lower.now upper.now) result }
{
    let a = size_of(lower, var);
    let b = size_of(upper, var);
    let g = gcd_of_words(a, b);
    add_multiples(alloc, (b / g) as i64, lower, (a / g) as i64, upper)
}

/// The sum of a lower and an upper literal that cancels the variable, added to the others.
pub(crate) fn add_sum(
    alloc: Global,
    store: &mut Store,
    lower: u32,
    upper: u32,
    var: u32,
) -> Result<(), Short<Wide>>
    requires lower { lower < length store.old.lits }
    requires upper { upper < length store.old.lits }
    requires below { is_lower_literal var (lit_of store.old.lits lower) ≡ true }
    requires above { is_upper_literal var (lit_of store.old.lits upper) ≡ true }
    ensures adds { AddsLit store.old.lits store.new.lits (resolvent_of var (lit_of store.old.lits lower) (lit_of store.old.lits upper)) result }
    ensures kept { IfOk result (λ u. IsKept store.old store.new) }
{
    let lits = store.lits.as_slice();
    let made = resolvent(alloc, var, &lits[lower as usize], &lits[upper as usize]);
    match add_made(&mut store.lits, made) {
        Ok(()) => {}
        Err(fault) => return Err(fault),
    }
    match store.pairs.push(Pair { lower, upper, var }) {
        Ok(()) => Ok(()),
        Err(_) => Err(Short::Memory),
    }
}
