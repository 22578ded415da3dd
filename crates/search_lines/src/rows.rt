//! Literals as lines need them, by a test of their numbers.

ghost use Rattle.std.specs.Prelude.{◌≡◌, ◌≢◌, ◌<◌, ◌≤◌, ◌+◌, ◌^◌, pos, nat_abs, IsTrue, OnOk, IfOk};
ghost use Rattle.lin_term.specs.Form.{AreTerms, cap};
ghost use Rattle.lin_term.specs.Linear.{BelowTerms};
ghost use Rattle.lin_term.specs.Wide.{fits};

use lin_term::{CAP, Coefs, Lit, Row};
use search_rows::{Atom, AtomKind, Stuck};
use smallvec::SmallVec;
use std::alloc::Global;

/// The variables of rows are below this.
const VARIABLES: u32 = 1_048_576;

/// Whether a number is within the cap.
fn is_kept(n: i64) -> bool
    ensures { result ≡ fits n }
{
    n.unsigned_abs() <= CAP as u64
}

/// Whether a number is within the cap, as a size.
#[tactic(auto, using(crate::proofs::Ascending::kept_size))]
fn is_small(n: i64) -> bool
    ensures { IsTrue result → nat_abs n ≤ cap }
{
    is_kept(n)
}

/// Adds a term behind the others, which are of variables below its own.
#[tactic(auto, using(crate::proofs::Ascending::are_more, crate::proofs::Ascending::below_last))]
fn push_term(coefs: &mut Coefs, var: u32, coef: i64) -> Result<(), Stuck>
    requires kept { AreTerms 0 coefs.old.items }
    requires below { BelowTerms var coefs.old.items }
    requires few { var < 2 ^ 20 }
    requires nonzero { coef ≢ pos 0 }
    requires size { nat_abs coef ≤ cap }
    ensures kept { OnOk result (AreTerms 0 coefs.new.items) }
    ensures below { OnOk result (BelowTerms (var + 1) coefs.new.items) }
{
    coefs.push((var, coef))?;
    Ok(())
}

/// Adds a term behind the others, which are of variables below `least`; the next variable that may follow.
#[tactic(auto, using(crate::proofs::Ascending::below_more))]
fn push_tested(coefs: &mut Coefs, least: u32, var: u32, coef: i64) -> Result<u32, Stuck>
    requires kept { AreTerms 0 coefs.old.items }
    requires below { BelowTerms least coefs.old.items }
    ensures kept { OnOk result (AreTerms 0 coefs.new.items) }
    ensures below { IfOk result (λ n. BelowTerms n coefs.new.items) }
{
    if var < least || var >= VARIABLES {
        return Err(Stuck::Place);
    }
    if coef == 0 {
        return Err(Stuck::Place);
    }
    if !is_small(coef) {
        return Err(Stuck::Wide);
    }
    push_term(coefs, var, coef)?;
    Ok(var + 1)
}

/// The coefficients of these terms.
fn coefs_of(alloc: Global, terms: &[(u32, i64)]) -> Result<Coefs, Stuck>
    ensures { IfOk result (λ coefs. AreTerms 0 coefs.items) }
{
    let mut coefs: Coefs = SmallVec::new(alloc);
    let mut least: u32 = 0;
    for term in terms {
        least = push_tested(&mut coefs, least, term.0, term.1)?;
    }
    Ok(coefs)
}

/// The row with these terms and this constant.
fn row_of(alloc: Global, terms: &[(u32, i64)], constant: i64) -> Result<Row, Stuck> {
    let coefs = coefs_of(alloc, terms)?;
    if !is_small(constant) {
        return Err(Stuck::Wide);
    }
    Ok(Row::from_parts(coefs, constant))
}

/// The literal of an atom; stuck where a number is past the cap.
pub fn lit_of(alloc: Global, atom: &Atom) -> Result<Lit, Stuck> {
    let row = row_of(alloc, atom.coefs.as_slice(), atom.constant)?;
    match atom.kind {
        AtomKind::AtLeast => Ok(Lit::AtLeast(row)),
        AtomKind::Above => Ok(Lit::Above(row)),
        AtomKind::Divides(d) => Ok(Lit::Divides(d, row)),
        AtomKind::NotDivides(d) => Ok(Lit::NotDivides(d, row)),
    }
}
