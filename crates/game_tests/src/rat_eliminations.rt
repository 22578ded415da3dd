ghost use Rattle.std.specs.Prelude.{◌≡◌, IfOk};
ghost use Rattle.lin_term.specs.declared.Sort.TheVariants.{Rat as rational};
ghost use Rattle.dom_core.specs.Cube.{IsPrimitiveCube};
ghost use Rattle.dom_rat.specs.Example.{between};

use dom_core::{Cube, Domain};
use dom_rat::Rat;
use lin_term::{Lit, Memory, Row};
use smallvec::SmallVec;
use sqlite_items::Items;
use std::alloc::Global;

/// 2x - 1 >= 0, and y - 3x > 0, and y >= 0.
fn bounds(alloc: Global) -> Result<Cube, Memory>
    ensures { IfOk result (λ c. c ≡ between) }
{
    let mut lits = Items::new(alloc);
    let coefs = SmallVec::from_slice(alloc, &[(0, 2)])?;
    lits.push(Lit::AtLeast(Row::from_parts(coefs, -1)))?;
    let coefs = SmallVec::from_slice(alloc, &[(0, -3), (1, 1)])?;
    lits.push(Lit::Above(Row::from_parts(coefs, 0)))?;
    let coefs = SmallVec::from_slice(alloc, &[(1, 1)])?;
    lits.push(Lit::AtLeast(Row::from_parts(coefs, 0)))?;
    Ok(Cube::from_lits(lits))
}

/// The same cube, which is primitive.
fn made(alloc: Global) -> Result<Cube, Memory>
    ensures { IfOk result (λ c. IsPrimitiveCube rational c) }
{
    match bounds(alloc) {
        Ok(cube) => Ok(cube),
        Err(fault) => Err(fault),
    }
}

/// Whether the row is that multiple of variable 1 and that constant.
fn is_line(row: &Row, coef: i64, constant: i64) -> bool {
    row.coefs() == [(1, coef)].as_slice() && row.constant_part() == constant
}

#[test]
fn the_sum_of_two_bounds(rt: HostRuntime) {
    let alloc = rt.alloc();
    let cube = made(alloc).expect(&rt, "memory");
    let cubes = Rat::eliminate(alloc, &cube, 0).expect(&rt, "within the cap");
    match cubes.as_slice() {
        [one] => match one.lits() {
            [Lit::AtLeast(a), Lit::Above(b)] => {
                assert!(rt; is_line(a, 1, 0) && is_line(b, 2, -3));
            }
            _ => panic!(rt; "a literal and a sum"),
        },
        _ => panic!(rt; "one cube"),
    }
}
