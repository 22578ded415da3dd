ghost use Rattle.std.specs.Prelude.{◌≡◌, IfOk};
ghost use Rattle.lin_term.specs.declared.Sort.TheVariants.{Int as whole};
ghost use Rattle.dom_core.specs.Cube.{IsPrimitiveCube};
ghost use Rattle.dom_int.specs.Example.{even_and_odd};

use dom_core::{Cube, Domain};
use dom_int::{Elimination, Int};
use lin_term::{Lit, Memory, Row};
use smallvec::SmallVec;
use sqlite_items::Items;
use std::alloc::Global;

/// 2 divides x, and 2 divides x + 1.
fn both(alloc: Global) -> Result<Cube, Memory>
    ensures { IfOk result (λ c. c ≡ even_and_odd) }
{
    let mut lits = Items::new(alloc);
    let coefs = SmallVec::from_slice(alloc, &[(0, 1)])?;
    lits.push(Lit::Divides(2, Row::from_parts(coefs, 0)))?;
    let coefs = SmallVec::from_slice(alloc, &[(0, 1)])?;
    lits.push(Lit::Divides(2, Row::from_parts(coefs, 1)))?;
    Ok(Cube::from_lits(lits))
}

/// The same cube, which is primitive.
fn made(alloc: Global) -> Result<Cube, Memory>
    ensures { IfOk result (λ c. IsPrimitiveCube whole c) }
{
    match both(alloc) {
        Ok(cube) => Ok(cube),
        Err(fault) => Err(fault),
    }
}

/// Whether the literal is the number's divisibility of a constant.
fn is_divides(lit: &Lit, d: u64, constant: i64) -> bool {
    match lit {
        Lit::Divides(e, row) => *e == d
            && row.coefs().is_empty()
            && row.constant_part() == constant,
        _ => false,
    }
}

#[test]
fn no_number_is_even_and_odd(rt: HostRuntime) {
    let alloc = rt.alloc();
    let cube = made(alloc).expect(&rt, "memory");
    let cubes = Int::eliminate(alloc, &cube, 0).expect(&rt, "within the cap");
    assert!(rt; cubes.len() == 2);
    let elimination = Elimination::prepare(cube, 0).expect(&rt, "within the cap");
    assert!(rt; elimination.count() == 2);
    assert!(rt; elimination.check(alloc).is_ok());
    let first = elimination.case(alloc, 0).expect(&rt, "within the cap");
    match first.lits() {
        [a, b] => {
            assert!(rt; is_divides(a, 1, 0));
            assert!(rt; is_divides(b, 2, 1));
        }
        _ => {
            assert!(rt; false);
        }
    }
}
