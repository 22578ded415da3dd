//! The move that meets the bounds of a variable and its divisibilities.

ghost use Rattle.std.specs.Prelude.{suc, ◌≡◌, ◌≤◌, ◌<◌, ◌^◌, pos, ◌≤ℤ◌, ◌-ℤ◌, ◌+ℤ◌, ◌*ℤ◌, neg_ℤ, nat_abs, false, length, Some, None, IfOk};
ghost use Rattle.std.specs.Option.{option_map};
ghost use Rattle.lin_term.specs.declared.Sort.TheVariants.{Int};
ghost use Rattle.lin_term.specs.Form.{cap};
ghost use Rattle.lin_term.specs.Linear.{Below, at};
ghost use Rattle.lin_term.specs.Move.{IsMove, lowest};
ghost use Rattle.lin_term.specs.Definition.{IsKeptMove, move_numbers};
ghost use Rattle.lin_term.specs.PutIn.{occurs};
ghost use Rattle.lin_term.specs.Wide.{Capped};
ghost use Rattle.dom_core.specs.Bound.{IsLowerBound, IsUpperBound, lower_of, upper_of};
ghost use Rattle.dom_core.specs.Cube.{IsPrimitiveCube};
ghost use Rattle.dom_core.specs.Pick.{constant_move, congruent, pick as pick_of, pick_numbers};
ghost use Rattle.dom_core.specs.Reduced.{AreBelow};
ghost use Rattle.dom_int.specs.Congruent.{bounded_congruent};

use crate::period::period;
use crate::residue::{difference, residue};
use dom_core::{Bound, Cube, above_lower, below_upper, greatest_lower, least_upper};
use lin_term::{Lit, Move, Point, Row, Short, Sort, Wide, coefficient_at, product};
use std::alloc::Global;

/// The constant of a lower bound that is rounded up and raised by j.
fn raised(a: i64, j: i64) -> i128
    requires a_least { pos 1 ≤ℤ a }
    requires a_kept { nat_abs a ≤ cap }
    requires j_kept { nat_abs j ≤ cap }
    ensures value { result ≡ (a -ℤ pos 1) +ℤ a *ℤ j }
    ensures size { nat_abs result ≤ 2 ^ 105 }
{
    let more = product(a, j);
    (a - 1) as i128 + more
}

/// The least number from the bound on that is `v` modulo n.
fn above<'a>(
    alloc: Global,
    var: u32,
    low: Bound<'a>,
    v: i64,
    n: u64,
    point: &Point,
) -> Result<Move, Short<Wide>>
    requires is { IsLowerBound Int var point.now (Some low) }
    requires v_kept { nat_abs v ≤ cap }
    requires least { 1 ≤ n }
    requires kept { n ≤ cap }
    ensures { let m = lowest Int (congruent n v point.now (Some (lower_of Int var low.entry)) None) in Capped (move_numbers Int m) m result }
{
    let a = coefficient_at(low.lit.row(), var);
    let j = residue(difference(v as i128, low.num), n);
    above_lower(alloc, Sort::Int, low.lit, var, raised(a, j))
}

/// The greatest number up to the bound that is `v` modulo n.
fn below<'a>(
    alloc: Global,
    var: u32,
    up: Bound<'a>,
    v: i64,
    n: u64,
    point: &Point,
) -> Result<Move, Short<Wide>>
    requires is { IsUpperBound Int var point.now (Some up) }
    requires v_kept { nat_abs v ≤ cap }
    requires least { 1 ≤ n }
    requires kept { n ≤ cap }
    ensures { let m = lowest Int (congruent n v point.now None (Some (upper_of var up.entry))) in Capped (move_numbers Int m) m result }
{
    let c = coefficient_at(up.lit.row(), var);
    let j = residue(difference(up.num, v as i128), n);
    below_upper(alloc, Sort::Int, up.lit, var, product(c, j))
}

/// A kept number as a move.
fn constant(alloc: Global, r: i64) -> Result<Move, Short<Wide>>
    requires { nat_abs r ≤ cap }
    ensures { let m = lowest Int (constant_move r) in Capped (move_numbers Int m) m result }
{
    match Move::make(Sort::Int, Row::constant(alloc, r), 1) {
        Ok(term) => Ok(term),
        Err(wide) => Err(Short::Fault(wide)),
    }
}

/// The residue of `v` modulo n.
fn alone(alloc: Global, v: i64, n: u64, point: &Point) -> Result<Move, Short<Wide>>
    requires v_kept { nat_abs v ≤ cap }
    requires least { 1 ≤ n }
    requires kept { n ≤ cap }
    ensures { let m = lowest Int (congruent n v point.now None None) in Capped (move_numbers Int m) m result }
{
    constant(alloc, residue(v as i128, n))
}

/// The move where there is no lower bound.
fn below_or_alone<'a>(
    alloc: Global,
    var: u32,
    up: Option<Bound<'a>>,
    v: i64,
    n: u64,
    point: &Point,
) -> Result<Move, Short<Wide>>
    requires is { IsUpperBound Int var point.now up }
    requires v_kept { nat_abs v ≤ cap }
    requires least { 1 ≤ n }
    requires kept { n ≤ cap }
    ensures { let m = lowest Int (congruent n v point.now None (option_map (upper_of var) up.entry)) in Capped (move_numbers Int m) m result }
{
    match up {
        Some(up) => below(alloc, var, up, v, n, point),
        None => alone(alloc, v, n, point),
    }
}

/// The move that the bounds ask of the variable at the point, where n is the period.
fn congruent_move(
    alloc: Global,
    lits: &[Lit],
    var: u32,
    point: &Point,
    n: u64,
) -> Result<Move, Short<Wide>>
    requires covers { AreBelow (length point.now.nums) lits.now }
    requires valued { var < length point.now.nums }
    requires least { 1 ≤ n }
    requires kept { n ≤ cap }
    ensures { let m = lowest Int (bounded_congruent n var lits.now point.now) in Capped (move_numbers Int m) m result }
{
    let nums = point.nums();
    let v = nums[var as usize];
    match greatest_lower(Sort::Int, lits, var, point) {
        Some(low) => above(alloc, var, low, v, n, point),
        None => below_or_alone(
            alloc,
            var,
            least_upper(Sort::Int, lits, var, point),
            v,
            n,
            point,
        ),
    }
}

/// The move that the literals ask of the variable at the point.
fn picked(alloc: Global, lits: &[Lit], var: u32, point: &Point) -> Result<Move, Short<Wide>>
    requires primitive { IsPrimitiveCube Int lits.now }
    requires covers { AreBelow (length point.now.nums) lits.now }
    requires valued { var < length point.now.nums }
    ensures { Capped (pick_numbers Int var lits.now point.now) (pick_of Int var lits.now point.now) result }
{
    match period(lits, var) {
        Ok(n) => congruent_move(alloc, lits, var, point, n),
        Err(wide) => Err(Short::Fault(wide)),
    }
}

/// The move that the cube asks of the variable at the point. Wide names the first past the cap of the partial periods
/// and then of its numbers; where there is none, it refuses only for memory.
pub(crate) fn pick(alloc: Global, cube: &Cube, var: u32, point: &Point) -> Result<Move, Short<Wide>>
    requires primitive { IsPrimitiveCube Int cube.now }
    requires covers { AreBelow (length point.now.nums) cube.now }
    requires valued { var < length point.now.nums }
    ensures value { Capped (pick_numbers Int var cube.now point.now) (pick_of Int var cube.now point.now) result }
    ensures written { IfOk result IsMove }
    ensures kept { IfOk result (λ m. IsKeptMove Int m) }
    ensures without { IfOk result (λ m. occurs m.numer.terms var ≡ false) }
    ensures earlier { IfOk result (λ m. AreBelow (suc var) cube.now → Below var m.numer) }
{
    picked(alloc, cube.lits(), var, point)
}
