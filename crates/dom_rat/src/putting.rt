//! A move put into a cube.

ghost use Rattle.std.specs.Prelude.{ℕ, suc, ◌≡◌, false, length, IfOk};
ghost use Rattle.lin_term.specs.declared.Sort.TheVariants.{Rat};
ghost use Rattle.lin_term.specs.Linear.{Below};
ghost use Rattle.lin_term.specs.PutIn.{occurs};
ghost use Rattle.lin_term.specs.Wide.{Capped};
ghost use Rattle.dom_core.specs.Cube.{IsPrimitiveCube};
ghost use Rattle.dom_core.specs.PutMove.{put_in as put_in_of, put_in_numbers};
ghost use Rattle.dom_core.specs.Reduced.{AreBelow, IsReduced};

use dom_core::{Cube, add_all_substituted, distinct_cube};
use lin_term::{Lit, Move, Point, Short, Sort, Wide};
use sqlite_items::Items;
use std::alloc::Global;

/// The literals with the move in place of the variable, each once.
fn put(
    alloc: Global,
    lits: &[Lit],
    var: u32,
    term: &Move,
    point: &Point,
) -> Result<Cube, Short<Wide>>
    requires { IsPrimitiveCube Rat lits.now }
    ensures { Capped (put_in_numbers Rat var term.now point.now lits.now) (put_in_of Rat var term.now point.now lits.now) result }
{
    let _div = term.div();
    let mut out = Items::new(alloc);
    match add_all_substituted(alloc, &mut out, Sort::Rat, lits, var, term, 0) {
        Ok(()) => distinct_cube(alloc, out),
        Err(fault) => Err(fault),
    }
}

/// The cube with the move in place of the variable, each literal once. Wide names the first of its numbers past the cap;
/// where there is none, it refuses only for memory.
pub(crate) fn put_in(
    alloc: Global,
    cube: &Cube,
    var: u32,
    term: &Move,
    point: &Point,
) -> Result<Cube, Short<Wide>>
    requires primitive { IsPrimitiveCube Rat cube.now }
    requires covers { Below (length point.now.nums) term.now.numer }
    requires without { occurs term.now.numer.terms var ≡ false }
    ensures value { Capped (put_in_numbers Rat var term.now point.now cube.now) (put_in_of Rat var term.now point.now cube.now) result }
    ensures reduced { IfOk result (λ c. (n : ℕ) → AreBelow n cube.now → Below n term.now.numer → IsReduced Rat n var c) }
    ensures last { IfOk result (λ c. AreBelow (suc var) cube.now → Below var term.now.numer → IsReduced Rat var var c) }
{
    let row = term.row();
    let _terms = row.coefs();
    let _constant = row.constant_part();
    let _div = term.div();
    put(alloc, cube.lits(), var, term, point)
}
