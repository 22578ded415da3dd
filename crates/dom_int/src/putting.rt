//! A move put into a cube, with the residue of its numerator taken from it.

ghost use Rattle.std.specs.Prelude.{ℕ, suc, ◌≡◌, ◌≤◌, ◌<◌, ◌^◌, ◌-ℤ◌, ◌≤ℤ◌, pos, nat_abs, false, length, IfOk};
ghost use Rattle.lin_term.specs.declared.Sort.TheVariants.{Int};
ghost use Rattle.lin_term.specs.declared.Lit.TheVariants.{Divides};
ghost use Rattle.lin_term.specs.Form.{cap};
ghost use Rattle.lin_term.specs.Linear.{Below, dot as dot_of};
ghost use Rattle.lin_term.specs.Literal.{prim, residue as residue_of};
ghost use Rattle.lin_term.specs.PutIn.{occurs, less_residue};
ghost use Rattle.lin_term.specs.Wide.{Capped};
ghost use Rattle.dom_core.specs.Adding.{AddsLit};
ghost use Rattle.dom_core.specs.Cube.{IsPrimitiveCube};
ghost use Rattle.dom_core.specs.PutMove.{put_in as put_in_of, put_in_numbers};
ghost use Rattle.dom_core.specs.Reduced.{AreBelow, IsReduced};

use crate::residue::residue;
use dom_core::{Cube, add_all_substituted, add_made, distinct_cube};
use lin_term::{Lit, Move, Point, Short, Sort, Wide, divides_in, dot};
use sqlite_items::Items;
use std::alloc::Global;

/// The residue of the numerator at the point, from 0 to the divisor less 1.
fn remainder(term: &Move, point: &Point) -> u64
    requires { Below (length point.now.nums) term.now.numer }
    ensures value { result ≡ residue_of (dot_of term.now.numer point.now) term.now.div }
    ensures less { result < term.now.div }
{
    let div = term.div();
    residue(dot(term.row(), point), div as u64) as u64
}

/// A constant less a residue.
fn less(constant: i64, remainder: u64) -> i128
    requires constant_kept { nat_abs constant ≤ cap }
    requires remainder_kept { remainder ≤ cap }
    ensures value { result ≡ constant -ℤ pos remainder }
    ensures size { nat_abs result ≤ 2 ^ 53 }
{
    constant as i128 - remainder as i128
}

/// That the division comes out even, added to the others.
fn add_evenness(
    alloc: Global,
    out: &mut Items<Lit>,
    term: &Move,
    remainder: u64,
) -> Result<(), Short<Wide>>
    requires { remainder < term.now.div }
    ensures { AddsLit out.old out.new (prim Int (Divides term.now.div (less_residue term.now remainder))) result }
{
    let row = term.row();
    let terms = row.coefs();
    let constant = row.constant_part();
    let div = term.div();
    let over = less(constant, remainder);
    add_made(out, divides_in(alloc, terms, over, div))
}

/// The literals with the move in place of the variable, and behind them that the division comes out even, each once.
fn put(
    alloc: Global,
    lits: &[Lit],
    var: u32,
    term: &Move,
    point: &Point,
) -> Result<Cube, Short<Wide>>
    requires primitive { IsPrimitiveCube Int lits.now }
    requires covers { Below (length point.now.nums) term.now.numer }
    ensures { Capped (put_in_numbers Int var term.now point.now lits.now) (put_in_of Int var term.now point.now lits.now) result }
{
    let taken = remainder(term, point);
    let mut out = Items::new(alloc);
    match add_all_substituted(alloc, &mut out, Sort::Int, lits, var, term, taken) {
        Ok(()) => {}
        Err(fault) => return Err(fault),
    }
    match add_evenness(alloc, &mut out, term, taken) {
        Ok(()) => distinct_cube(alloc, out),
        Err(fault) => Err(fault),
    }
}

/// The cube with the move in place of the variable, each literal once. Wide names the first of its numbers past the cap;
/// where there is none, it refuses only for memory.
pub(crate) fn put_in(
    alloc: Global,
    cube: &Cube,
    var: u32,
    term: &Move,
    point: &Point,
) -> Result<Cube, Short<Wide>>
    requires primitive { IsPrimitiveCube Int cube.now }
    requires covers { Below (length point.now.nums) term.now.numer }
    requires without { occurs term.now.numer.terms var ≡ false }
    ensures value { Capped (put_in_numbers Int var term.now point.now cube.now) (put_in_of Int var term.now point.now cube.now) result }
    ensures reduced { IfOk result (λ c. (n : ℕ) → AreBelow n cube.now → Below n term.now.numer → IsReduced Int n var c) }
    ensures last { IfOk result (λ c. AreBelow (suc var) cube.now → Below var term.now.numer → IsReduced Int var var c) }
{
    let row = term.row();
    let _terms = row.coefs();
    let _constant = row.constant_part();
    let _div = term.div();
    put(alloc, cube.lits(), var, term, point)
}
