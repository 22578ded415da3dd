use lin_form::FormFault;
use lin_term::{Lit, Sort};
use lin_truth::{Term, VarSort};
use norm_form::*;
use sqlite_items::Boxed;
use std::alloc::Global;
use std::test::Fail;

/// Whether x < 1 over the integers is: there is x with -x >= 0.
fn is_primitive_literal(alloc: Global) -> Result<bool, FormFault> {
    let x = Boxed::new(alloc, Term::Var(0))?;
    let one = Boxed::new(alloc, Term::Number { num: 1, den: 1 })?;
    let form = normal_form(alloc, Sort::Int, &[VarSort::Number], &Term::Less(x, one))?;
    match form {
        LevelForm::Exists(inner) => match inner.get() {
            LevelForm::Lit(Lit::AtLeast(row)) => {
                Ok(row.coefs() == [(0, -1)].as_slice() && row.constant_part() == 0)
            }
            _ => Ok(false),
        },
        _ => Ok(false),
    }
}

#[test]
fn literals(rt: HostRuntime) -> Result<(), Fail> {
    let holds = is_primitive_literal(rt.alloc())?;
    assert!(rt; holds);
    Ok(())
}

/// What stands below an `exists`.
fn below_exists(form: &LevelForm) -> Option<&LevelForm> {
    match form {
        LevelForm::Exists(inner) => Some(inner.get()),
        _ => None,
    }
}

fn is_three_parts(form: &LevelForm) -> bool {
    match form {
        LevelForm::And(parts) => parts.len() == 3,
        _ => false,
    }
}

/// Whether three parts stand below two `exists`.
fn has_quotient(form: &LevelForm) -> bool {
    let Some(outer) = below_exists(form) else {
        return false;
    };
    match below_exists(outer) {
        Some(inner) => is_three_parts(inner),
        None => false,
    }
}

/// Whether x div 2 < 1 has a quotient of its own, between two bounds.
fn is_between_bounds(alloc: Global) -> Result<bool, FormFault> {
    let x = Boxed::new(alloc, Term::Var(0))?;
    let two = Boxed::new(alloc, Term::Number { num: 2, den: 1 })?;
    let half = Boxed::new(alloc, Term::Div(x, two))?;
    let one = Boxed::new(alloc, Term::Number { num: 1, den: 1 })?;
    let form = normal_form(alloc, Sort::Int, &[VarSort::Number], &Term::Less(half, one))?;
    Ok(has_quotient(&form))
}

#[test]
fn quotients(rt: HostRuntime) -> Result<(), Fail> {
    let holds = is_between_bounds(rt.alloc())?;
    assert!(rt; holds);
    Ok(())
}
