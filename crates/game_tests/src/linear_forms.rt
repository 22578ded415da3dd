use lin_form::*;
use lin_truth::{Term, VarSort};
use sqlite_items::{Boxed, Items};
use std::alloc::Global;
use std::test::Fail;

/// Whether x + y/2 is (2*x + y)/2.
fn is_half_sum(alloc: Global) -> Result<bool, FormFault> {
    let x = variable(alloc, 0)?;
    let y = variable(alloc, 1)?;
    let half = scaled(alloc, 1, 2, &y)?;
    let sum = plus(alloc, &x, &half)?;
    Ok(sum.row().coefs() == [(0, 2), (1, 1)].as_slice() && sum.den() == 2)
}

#[test]
fn sums(rt: HostRuntime) -> Result<(), Fail> {
    let holds = is_half_sum(rt.alloc())?;
    assert!(rt; holds);
    Ok(())
}

/// Whether -7 is 2 * -4 + 1, as SMT-LIB's theory Ints has it.
fn is_rounded_down(alloc: Global) -> Result<bool, FormFault> {
    let seven = lowest_value(alloc, -7, 1);
    let quotient = operated(alloc, Operation::Whole, seven, lowest_value(alloc, 2, 1))?;
    let seven = lowest_value(alloc, -7, 1);
    let rest = operated(alloc, Operation::Rest, seven, lowest_value(alloc, 2, 1))?;
    Ok(quotient.constant() == -4 && rest.constant() == 1)
}

#[test]
fn division(rt: HostRuntime) -> Result<(), Fail> {
    let holds = is_rounded_down(rt.alloc())?;
    assert!(rt; holds);
    Ok(())
}

/// Whether 3*y - x over two bound variables is -x + 3*y at their levels.
fn is_direct_difference(alloc: Global) -> Result<bool, FormFault> {
    let three = Term::Number { num: 3, den: 1 };
    let mut factors = Items::new(alloc);
    factors.push(three)?;
    factors.push(Term::Var(1))?;
    let product = Boxed::new(alloc, Term::Times(factors))?;
    let x = Boxed::new(alloc, Term::Var(0))?;
    let sort = VarSort::Number;
    let bounds = [Bound { sort, level: 4 }, Bound { sort, level: 7 }];
    let form = direct_form(alloc, bounds.as_slice(), &Term::Minus(product, x))?;
    Ok(form.row().coefs() == [(4, -1), (7, 3)].as_slice() && form.den() == 1)
}

#[test]
fn terms_without_a_choice(rt: HostRuntime) -> Result<(), Fail> {
    let holds = is_direct_difference(rt.alloc())?;
    assert!(rt; holds);
    Ok(())
}
