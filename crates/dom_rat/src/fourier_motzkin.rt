//! Each lower literal with each upper one: the sum that cancels the variable.

ghost use Rattle.std.specs.Prelude.{◌≡◌, ◌≤◌, ℕ, nat_abs, map, filter, [], ◌∷◌, IfOk};
ghost use Rattle.std.specs.List.{AllByRecursion};
ghost use Rattle.lin_term.specs.declared.Sort.TheVariants.{Rat};
ghost use Rattle.lin_term.specs.Form.{cap};
ghost use Rattle.lin_term.specs.Primable.{IsPrimable};
ghost use Rattle.lin_term.specs.PutIn.{coef};
ghost use Rattle.lin_term.specs.Wide.{Capped, lit_numbers};
ghost use Rattle.dom_core.specs.Cube.{IsPrimitiveCube};
ghost use Rattle.dom_core.specs.Elimination.{is_lower as is_lower_literal, is_upper as is_upper_literal, is_free, size_at, resolvent as resolvent_of, fourier_motzkin, cube_numbers, elimination_numbers, eliminated};
ghost use Rattle.dom_core.specs.Adding.{AddsCube};
ghost use Rattle.dom_core.specs.Reduced.{AreBelow, IsReduced};
ghost use Rattle.dom_rat.specs.Sums.{sums_of, all_sums};

use dom_core::{Cube, add_made, is_lower, is_upper};
use lin_term::{Lit, Short, Wide, add_multiples, coefficient_at, gcd_of_words};
use sqlite_items::Items;
use std::alloc::Global;

/// The size of the coefficient of the variable.
fn size_of(lit: &Lit, var: u32) -> u64
    ensures value { result ≡ size_at var lit.now }
    ensures kept { result ≤ cap }
{
    coefficient_at(lit.row(), var).unsigned_abs()
}

/// The sum of a lower and an upper literal by the least positive multipliers that cancel the variable.
fn resolvent(alloc: Global, var: u32, lower: &Lit, upper: &Lit) -> Result<Lit, Short<Wide>>
    requires { 1 ≤ size_at var lower.now }
    ensures { Capped (lit_numbers (resolvent_of var lower.now upper.now)) (resolvent_of var lower.now upper.now) result }
{
    let a = size_of(lower, var);
    let b = size_of(upper, var);
    let g = gcd_of_words(a, b);
    add_multiples(alloc, (b / g) as i64, lower, (a / g) as i64, upper)
}

/// The sum with the literal, added to the others, where it is an upper one.
fn add_if_upper(
    alloc: Global,
    out: &mut Items<Lit>,
    var: u32,
    lower: &Lit,
    lit: &Lit,
) -> Result<(), Short<Wide>>
    requires { 1 ≤ size_at var lower.now }
    ensures { AddsCube out.old out.new (sums_of var lower.now (lit.now ∷ [])) result }
{
    if !is_upper(lit, var) {
        return Ok(());
    }
    add_made(out, resolvent(alloc, var, lower, lit))
}

/// The sums of a lower literal with the upper ones, added to the others.
fn add_sums(
    alloc: Global,
    out: &mut Items<Lit>,
    var: u32,
    lower: &Lit,
    cube: &[Lit],
) -> Result<(), Short<Wide>>
    requires { 1 ≤ size_at var lower.now }
    ensures { AddsCube out.old out.new (sums_of var lower.now cube.now) result }
{
    for lit in cube {
        match add_if_upper(alloc, out, var, lower, lit) {
            Ok(()) => {}
            Err(fault) => return Err(fault),
        }
    }
    Ok(())
}

/// The literal's sums, added to the others, where it is a lower one.
fn add_if_lower(
    alloc: Global,
    out: &mut Items<Lit>,
    var: u32,
    lit: &Lit,
    cube: &[Lit],
) -> Result<(), Short<Wide>>
    ensures { AddsCube out.old out.new (all_sums var cube.now (lit.now ∷ [])) result }
{
    if !is_lower(lit, var) {
        return Ok(());
    }
    add_sums(alloc, out, var, lit, cube)
}

/// The sums of each lower literal with each upper one, added to the others.
fn add_all_sums(
    alloc: Global,
    out: &mut Items<Lit>,
    var: u32,
    cube: &[Lit],
) -> Result<(), Short<Wide>>
    ensures { AddsCube out.old out.new (all_sums var cube.now cube.now) result }
{
    for lit in cube {
        match add_if_lower(alloc, out, var, lit, cube) {
            Ok(()) => {}
            Err(fault) => return Err(fault),
        }
    }
    Ok(())
}

/// Whether the literal does not have the variable.
fn is_without(lit: &Lit, var: u32) -> bool
    ensures { result ≡ is_free var lit.now }
{
    coefficient_at(lit.row(), var) == 0
}

/// A copy of the literal, added to the others, where it does not have the variable.
fn add_if_free(alloc: Global, out: &mut Items<Lit>, var: u32, lit: &Lit) -> Result<(), Short<Wide>>
    requires { IsPrimable Rat lit.now }
    ensures { AddsCube out.old out.new (filter (is_free var) (lit.now ∷ [])) result }
{
    let row = lit.row();
    let _terms = row.coefs();
    let _constant = row.constant_part();
    if !is_without(lit, var) {
        return Ok(());
    }
    match lit.copy(alloc) {
        Ok(copy) => match out.push(copy) {
            Ok(()) => Ok(()),
            Err(_) => Err(Short::Memory),
        },
        Err(_) => Err(Short::Memory),
    }
}

/// Copies of the literals without the variable, added to the others.
fn add_free(alloc: Global, out: &mut Items<Lit>, var: u32, cube: &[Lit]) -> Result<(), Short<Wide>>
    requires { IsPrimitiveCube Rat cube.now }
    ensures { AddsCube out.old out.new (filter (is_free var) cube.now) result }
{
    for lit in cube {
        match add_if_free(alloc, out, var, lit) {
            Ok(()) => {}
            Err(fault) => return Err(fault),
        }
    }
    Ok(())
}

/// The cube without the variable: its literals without it, and the sums of each lower literal with each upper one.
fn eliminated_cube(alloc: Global, cube: &[Lit], var: u32) -> Result<Cube, Short<Wide>>
    requires { IsPrimitiveCube Rat cube.now }
    ensures { Capped (cube_numbers (fourier_motzkin cube.now var)) (fourier_motzkin cube.now var) result }
{
    let mut lits = Items::new(alloc);
    match add_free(alloc, &mut lits, var, cube) {
        Ok(()) => {}
        Err(fault) => return Err(fault),
    }
    match add_all_sums(alloc, &mut lits, var, cube) {
        Ok(()) => Ok(Cube::from_lits(lits)),
        Err(fault) => Err(fault),
    }
}

/// The list of the one eliminated cube. Wide names the first number of it past the cap; where there is none, it refuses
/// only for memory.
pub(crate) fn eliminate(alloc: Global, cube: &Cube, var: u32) -> Result<Items<Cube>, Short<Wide>>
    requires { IsPrimitiveCube Rat cube.now }
    ensures value { Capped (elimination_numbers Rat cube.now var) (eliminated Rat cube.now var) result }
    ensures reduced { IfOk result (λ cs. (n : ℕ) → AreBelow n cube.now → AllByRecursion (IsReduced Rat n var) cs) }
{
    eliminated_list(alloc, cube.lits(), var)
}

/// The same of the cube's literals.
fn eliminated_list(alloc: Global, cube: &[Lit], var: u32) -> Result<Items<Cube>, Short<Wide>>
    requires { IsPrimitiveCube Rat cube.now }
    ensures { Capped (elimination_numbers Rat cube.now var) (eliminated Rat cube.now var) result }
{
    match eliminated_cube(alloc, cube, var) {
        Ok(made) => {
            let mut cubes = Items::new(alloc);
            match cubes.push(made) {
                Ok(()) => Ok(cubes),
                Err(_) => Err(Short::Memory),
            }
        }
        Err(fault) => Err(fault),
    }
}
