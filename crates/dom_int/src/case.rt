//! The cubes of the cases.

ghost use Rattle.std.specs.Prelude.{◌≡◌, ◌<◌, ◌≤◌, ◌^◌, ◌+◌, ◌-ℤ◌, ◌≤ℤ◌, pos, negsuc, nat_abs, not, true, IfOk, length, take, drop, filter, [], ◌∷◌};
ghost use Rattle.lin_term.specs.declared.Sort.TheVariants.{Int};
ghost use Rattle.lin_term.specs.Form.{AreTerms, cap};
ghost use Rattle.lin_term.specs.Linear.{times_terms};
ghost use Rattle.lin_term.specs.Literal.{IsPrimitive, prim};
ghost use Rattle.lin_term.specs.Primable.{IsPrimable};
ghost use Rattle.lin_term.specs.declared.Lit.TheVariants.{Divides};
ghost use Rattle.lin_term.specs.PutIn.{without, put_lit};
ghost use Rattle.lin_term.specs.Wide.{Capped};
ghost use Rattle.dom_core.specs.Cube.{IsPrimitiveCube};
ghost use Rattle.dom_core.specs.Elimination.{put_all, is_lower, is_upper, lower_case, free_case, cube_numbers};
ghost use Rattle.dom_int.specs.Place.{lit_at};
ghost use Rattle.dom_core.specs.Adding.{AddsLit, AddsCube};
ghost use Rattle.dom_int.specs.Case.{term_case};

use dom_core::{Cube, add_made, is_upper};
use lin_term::{Coefs, Lit, Memory, Row, Short, Sort, Wide, coefficient_at, divides_in, put_in};
use smallvec::SmallVec;
use sqlite_items::Items;
use std::alloc::{AllocError, Global};

/// The terms but that of the variable, each with the other sign.
fn opposite_terms(alloc: Global, row: &Row, var: u32) -> Result<Coefs, Memory>
    ensures terms { IfOk result (λ v. v.items ≡ times_terms (negsuc 0) (without row.now.terms var)) }
    ensures kept { IfOk result (λ v. AreTerms 0 v.items) }
{
    let mut terms = SmallVec::with_capacity(alloc, row.coefs().len())?;
    for term in row.coefs() {
        if term.0 != var {
            match terms.push((term.0, -term.1)) {
                Ok(()) => {}
                Err(fault) => return Err(AllocError::from(fault).into()),
            }
        }
    }
    Ok(terms)
}

/// The literal with the term put in, added to the others.
fn add_put(
    alloc: Global,
    out: &mut Items<Lit>,
    lit: &Lit,
    var: u32,
    terms: &[(u32, i64)],
    constant: i128,
    div: i64,
) -> Result<(), Short<Wide>>
    requires primitive { IsPrimitive Int lit.now }
    requires primable { IsPrimable Int lit.now }
    requires terms_kept { AreTerms 0 terms.now }
    requires constant_size { nat_abs constant ≤ 2 ^ 53 }
    requires div_least { pos 1 ≤ℤ div }
    requires div_kept { nat_abs div ≤ cap }
    ensures { AddsLit out.old out.new (put_lit Int var (nat_abs div) (record { terms = terms.now; constant = constant }) lit.now) result }
{
    add_made(
        out,
        put_in(alloc, Sort::Int, lit, var, terms, constant, div),
    )
}

/// The divisibility of the term's numerator, added to the others.
fn add_divides(
    alloc: Global,
    out: &mut Items<Lit>,
    terms: &[(u32, i64)],
    constant: i128,
    div: i64,
) -> Result<(), Short<Wide>>
    requires terms_kept { AreTerms 0 terms.now }
    requires constant_size { nat_abs constant ≤ 2 ^ 53 }
    requires div_least { pos 1 ≤ℤ div }
    requires div_kept { nat_abs div ≤ cap }
    ensures { AddsLit out.old out.new (prim Int (Divides (nat_abs div) (record { terms = terms.now; constant = constant }))) result }
{
    add_made(out, divides_in(alloc, terms, constant, div))
}

/// Each literal with the term put in, added to the others.
fn put_each(
    alloc: Global,
    out: &mut Items<Lit>,
    lits: &[Lit],
    var: u32,
    terms: &[(u32, i64)],
    constant: i128,
    div: i64,
) -> Result<(), Short<Wide>>
    requires primitive { IsPrimitiveCube Int lits.now }
    requires terms_kept { AreTerms 0 terms.now }
    requires constant_size { nat_abs constant ≤ 2 ^ 53 }
    requires div_least { pos 1 ≤ℤ div }
    requires div_kept { nat_abs div ≤ cap }
    ensures { AddsCube out.old out.new (put_all Int var (nat_abs div) (record { terms = terms.now; constant = constant }) lits.now) result }
{
    for lit in lits {
        match add_put(alloc, out, lit, var, terms, constant, div) {
            Ok(()) => {}
            Err(fault) => return Err(fault),
        }
    }
    Ok(())
}

/// The cube with (terms + constant)/div put in, and at one place that div divides the numerator.
fn case_with(
    alloc: Global,
    cube: &[Lit],
    var: u32,
    place: usize,
    terms: &[(u32, i64)],
    constant: i128,
    div: i64,
) -> Result<Cube, Short<Wide>>
    requires primitive { IsPrimitiveCube Int cube.now }
    requires within { place < length cube.now }
    requires terms_kept { AreTerms 0 terms.now }
    requires constant_size { nat_abs constant ≤ 2 ^ 53 }
    requires div_least { pos 1 ≤ℤ div }
    requires div_kept { nat_abs div ≤ cap }
    ensures { Capped (cube_numbers (term_case var (nat_abs div) (record { terms = terms.now; constant = constant }) cube.now place)) (term_case var (nat_abs div) (record { terms = terms.now; constant = constant }) cube.now place) result }
{
    let mut lits = Items::new(alloc);
    match put_each(alloc, &mut lits, &cube[..place], var, terms, constant, div) {
        Ok(()) => {}
        Err(fault) => return Err(fault),
    }
    match add_divides(alloc, &mut lits, terms, constant, div) {
        Ok(()) => {}
        Err(fault) => return Err(fault),
    }
    match put_each(
        alloc,
        &mut lits,
        &cube[place + 1..],
        var,
        terms,
        constant,
        div,
    ) {
        Ok(()) => Ok(Cube::from_lits(lits)),
        Err(fault) => Err(fault),
    }
}

/// k less a kept number.
fn less(k: u64, number: i64) -> i128
    requires k_kept { k ≤ cap }
    requires number_kept { nat_abs number ≤ cap }
    ensures value { result ≡ pos k -ℤ number }
    ensures size { nat_abs result ≤ 2 ^ 53 }
{
    i128::from(k) - i128::from(number)
}

/// The case of the lower literal a*x + l >= 0 at this place and of this k: (k - l)/a for x, and a divides k - l.
pub(crate) fn lower_case(
    alloc: Global,
    cube: &[Lit],
    var: u32,
    place: usize,
    k: u64,
) -> Result<Cube, Short<Wide>>
    requires primitive { IsPrimitiveCube Int cube.now }
    requires within { place < length cube.now }
    requires lower { is_lower var (lit_at cube.now place) ≡ true }
    requires k_kept { k ≤ cap }
    ensures { Capped (cube_numbers (lower_case var (take place cube.now) (lit_at cube.now place) (drop (place + 1) cube.now) k)) (lower_case var (take place cube.now) (lit_at cube.now place) (drop (place + 1) cube.now) k) result }
{
    let row = cube[place].row();
    let a = coefficient_at(row, var);
    let constant = less(k, row.constant_part());
    match opposite_terms(alloc, row, var) {
        Ok(terms) => case_with(alloc, cube, var, place, terms.as_slice(), constant, a),
        Err(_) => Err(Short::Memory),
    }
}

/// The literal with k put in, added to the others, unless it is an upper one.
fn add_unless_upper(
    alloc: Global,
    out: &mut Items<Lit>,
    lit: &Lit,
    var: u32,
    k: u64,
) -> Result<(), Short<Wide>>
    requires primitive { IsPrimitive Int lit.now }
    requires primable { IsPrimable Int lit.now }
    requires k_kept { k ≤ cap }
    ensures { AddsCube out.old out.new (free_case var (lit.now ∷ []) k) result }
{
    if is_upper(lit, var) {
        return Ok(());
    }
    add_put(alloc, out, lit, var, &[], i128::from(k), 1)
}

/// The case without lower literals: k for x, without the upper literals.
pub(crate) fn free_case(alloc: Global, cube: &[Lit], var: u32, k: u64) -> Result<Cube, Short<Wide>>
    requires primitive { IsPrimitiveCube Int cube.now }
    requires k_kept { k ≤ cap }
    ensures { Capped (cube_numbers (free_case var cube.now k)) (free_case var cube.now k) result }
{
    let mut lits = Items::new(alloc);
    for lit in cube {
        match add_unless_upper(alloc, &mut lits, lit, var, k) {
            Ok(()) => {}
            Err(fault) => return Err(fault),
        }
    }
    Ok(Cube::from_lits(lits))
}
