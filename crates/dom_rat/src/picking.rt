//! The move between the bounds of a variable.

ghost use Rattle.std.specs.Prelude.{suc, ◌≡◌, ◌≤◌, ◌<◌, ◌*◌, pos, ◌≤ℤ◌, nat_abs, true, false, Some, None, length, IfSome, IfOk};
ghost use Rattle.std.specs.Option.{option_map};
ghost use Rattle.lin_term.specs.declared.Sort.TheVariants.{Rat};
ghost use Rattle.lin_term.specs.Form.{cap};
ghost use Rattle.lin_term.specs.Linear.{Below};
ghost use Rattle.lin_term.specs.Move.{IsMove, lowest};
ghost use Rattle.lin_term.specs.Definition.{IsKeptMove, move_numbers};
ghost use Rattle.lin_term.specs.PutIn.{occurs};
ghost use Rattle.lin_term.specs.Wide.{Capped};
ghost use Rattle.dom_core.specs.Bound.{upper_of};
ghost use Rattle.dom_core.specs.Cube.{IsPrimitiveCube};
ghost use Rattle.dom_core.specs.Elimination.{is_lower, is_upper};
ghost use Rattle.dom_core.specs.Pick.{lower_bound, upper_bound, middle as middle_of, between, pick as pick_of, pick_numbers};
ghost use Rattle.dom_core.specs.Reduced.{AreBelow};

use dom_core::{Bound, Cube, above_lower, below_upper, greatest_lower, least_upper, rest_row};
use lin_term::{Lit, Move, Point, Row, Short, Sort, Wide, coefficient_at, product};
use std::alloc::Global;

/// Twice the product of two kept numbers of 1 or more.
fn twice_product(a: i64, b: i64) -> i128
    requires a_least { pos 1 ≤ℤ a }
    requires a_kept { nat_abs a ≤ cap }
    requires b_least { pos 1 ≤ℤ b }
    requires b_kept { nat_abs b ≤ cap }
    ensures value { result ≡ pos (2 * (nat_abs a * nat_abs b)) }
    ensures least { pos 1 ≤ℤ result }
{
    let once = product(a, b);
    once * 2
}

/// The middle of a lower and an upper bound.
fn middle(alloc: Global, var: u32, low: &Lit, up: &Lit) -> Result<Move, Short<Wide>>
    requires lower { is_lower var low.now ≡ true }
    requires upper { is_upper var up.now ≡ true }
    ensures { let m = lowest Rat (middle_of (lower_bound Rat var low.now) (upper_bound var up.now)) in Capped (move_numbers Rat m) m result }
{
    let a = coefficient_at(low.row(), var);
    let b = coefficient_at(up.row(), var);
    let left = match rest_row(alloc, low, var) {
        Ok(left) => left,
        Err(_) => return Err(Short::Memory),
    };
    let right = match rest_row(alloc, up, var) {
        Ok(right) => right,
        Err(_) => return Err(Short::Memory),
    };
    Move::from_wide(
        alloc,
        Sort::Rat,
        b,
        &left,
        a,
        &right,
        0,
        twice_product(a, -b),
    )
}

/// The lower bound and 1 more.
fn above(alloc: Global, var: u32, low: &Lit) -> Result<Move, Short<Wide>>
    requires { is_lower var low.now ≡ true }
    ensures { let m = lowest Rat (between (Some (lower_bound Rat var low.now)) None) in Capped (move_numbers Rat m) m result }
{
    let a = coefficient_at(low.row(), var);
    above_lower(alloc, Sort::Rat, low, var, a as i128)
}

/// The upper bound and 1 less.
fn below(alloc: Global, var: u32, up: &Lit) -> Result<Move, Short<Wide>>
    requires { is_upper var up.now ≡ true }
    ensures { let m = lowest Rat (between None (Some (upper_bound var up.now))) in Capped (move_numbers Rat m) m result }
{
    let c = coefficient_at(up.row(), var);
    below_upper(alloc, Sort::Rat, up, var, c as i128)
}

/// The constant 0.
fn zero(alloc: Global) -> Result<Move, Short<Wide>>
    ensures { let m = lowest Rat (between None None) in Capped (move_numbers Rat m) m result }
{
    match Move::make(Sort::Rat, Row::constant(alloc, 0), 1) {
        Ok(term) => Ok(term),
        Err(wide) => Err(Short::Fault(wide)),
    }
}

/// The move between a lower bound and an upper one, if there is one.
fn above_one(alloc: Global, var: u32, low: &Lit, up: Option<Bound<'_>>) -> Result<Move, Short<Wide>>
    requires lower { is_lower var low.now ≡ true }
    requires upper { IfSome up (λ b. is_upper var b.lit.now ≡ true) }
    ensures { let m = lowest Rat (between (Some (lower_bound Rat var low.now)) (option_map (upper_of var) up.entry)) in Capped (move_numbers Rat m) m result }
{
    match up {
        Some(up) => middle(alloc, var, low, up.lit),
        None => above(alloc, var, low),
    }
}

/// The move below an upper bound, if there is one.
fn below_one(alloc: Global, var: u32, up: Option<Bound<'_>>) -> Result<Move, Short<Wide>>
    requires { IfSome up (λ b. is_upper var b.lit.now ≡ true) }
    ensures { let m = lowest Rat (between None (option_map (upper_of var) up.entry)) in Capped (move_numbers Rat m) m result }
{
    match up {
        Some(up) => below(alloc, var, up.lit),
        None => zero(alloc),
    }
}

/// The move that the literals ask of the variable at the point.
fn picked(alloc: Global, lits: &[Lit], var: u32, point: &Point) -> Result<Move, Short<Wide>>
    requires covers { AreBelow (length point.now.nums) lits.now }
    requires valued { var < length point.now.nums }
    ensures { Capped (pick_numbers Rat var lits.now point.now) (pick_of Rat var lits.now point.now) result }
{
    let low = greatest_lower(Sort::Rat, lits, var, point);
    let up = least_upper(Sort::Rat, lits, var, point);
    match low {
        Some(low) => above_one(alloc, var, low.lit, up),
        None => below_one(alloc, var, up),
    }
}

/// The move that the cube asks of the variable at the point. Wide names the first of its numbers past the cap; where
/// there is none, it refuses only for memory.
pub(crate) fn pick(alloc: Global, cube: &Cube, var: u32, point: &Point) -> Result<Move, Short<Wide>>
    requires primitive { IsPrimitiveCube Rat cube.now }
    requires covers { AreBelow (length point.now.nums) cube.now }
    requires valued { var < length point.now.nums }
    ensures value { Capped (pick_numbers Rat var cube.now point.now) (pick_of Rat var cube.now point.now) result }
    ensures written { IfOk result IsMove }
    ensures kept { IfOk result (λ m. IsKeptMove Rat m) }
    ensures without { IfOk result (λ m. occurs m.numer.terms var ≡ false) }
    ensures earlier { IfOk result (λ m. AreBelow (suc var) cube.now → Below var m.numer) }
{
    picked(alloc, cube.lits(), var, point)
}
