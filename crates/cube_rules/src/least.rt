//! The rule of least values: a variable is taken out of a cube of integers by cases (Cooper 1972).

ghost use Rattle.std.specs.Prelude.{◌≡◌, ◌&&◌, nat_lt, Some, IfOk};
ghost use Rattle.lin_term.specs.declared.Sort.TheVariants.{Int};
ghost use Rattle.dom_core.specs.Cube.{IsPrimitiveCube};
ghost use Rattle.cube_rules.specs.Facts.{guard};
ghost use Rattle.cube_rules.specs.Lines.{is_int, is_least};

use dom_core::Cube;
use dom_int::Elimination;
use lin_term::{Memory, Short, Sort};
use std::alloc::Global;

/// The elimination, where it has this many cases and all its numbers are within the cap.
fn counted(alloc: Global, cube: Cube, var: u32, count: u64) -> Result<Option<Elimination>, Memory>
    requires { IsPrimitiveCube Int cube }
    ensures { IfOk result (λ o. o ≡ guard (is_least var count cube) (Some (record { cube = cube; variable = var }))) }
{
    match Elimination::prepare(cube, var) {
        Ok(elimination) => checked(alloc, elimination, count),
        Err(_) => Ok(None),
    }
}

/// The same, once the cases are counted. Each case is built and dropped.
fn checked(
    alloc: Global,
    elimination: Elimination,
    count: u64,
) -> Result<Option<Elimination>, Memory>
    ensures { IfOk result (λ o. o ≡ guard (is_least elimination.variable count elimination.cube) (Some elimination)) }
{
    if elimination.count() != count {
        return Ok(None);
    }
    match elimination.check(alloc) {
        Ok(_) => Ok(Some(elimination)),
        Err(Short::Fault(_)) => Ok(None),
        Err(Short::Memory) => Err(Memory),
    }
}

/// The elimination of the variable from the cube of a bare context: its cases are those that are left to be closed.
/// None exactly where the sort is Rat, the context is not bare, the variable is not below `nodes`, there are not
/// `count` cases, or a number of the elimination is past the cap. The literals of the cube are primitive, and a modulus
/// is in `1..=CAP`. It refuses only for memory.
pub fn least_of(
    alloc: Global,
    sort: Sort,
    nodes: u32,
    bare: bool,
    cube: Cube,
    var: u32,
    count: u64,
) -> Result<Option<Elimination>, Memory>
    requires { IsPrimitiveCube sort cube }
    ensures { IfOk result (λ o. o ≡ guard (is_int sort && bare && nat_lt var nodes && is_least var count cube) (Some (record { cube = cube; variable = var }))) }
{
    match sort {
        Sort::Rat => Ok(None),
        Sort::Int => {
            if !bare || var >= nodes {
                return Ok(None);
            }
            counted(alloc, cube, var, count)
        }
    }
}
