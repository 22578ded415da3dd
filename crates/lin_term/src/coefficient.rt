//! The coefficient of a variable, and another in its place.

ghost use Rattle.std.specs.Prelude.{◌≡◌, ◌<◌, ◌≤◌, ◌^◌, ◌++◌, ℕ, ℤ, nat_abs, length, take, drop, slice_index_or, IfOk};
ghost use Rattle.lin_term.specs.Form.{AreTerms, cap};
ghost use Rattle.lin_term.specs.Linear.{put_front};
ghost use Rattle.lin_term.specs.PutIn.{coef as coef_of};
ghost use Rattle.lin_term.specs.Replaced.{replaced, past};

use crate::fault::Memory;
use crate::row::{Coefs, Row};

/// The coefficient of a variable, in `-CAP..=CAP`; 0 exactly where it does not occur.
pub fn coefficient_at(row: &Row, var: u32) -> i64
    ensures value { result ≡ coef_of row.now.terms var }
    ensures size { nat_abs result ≤ cap }
{
    for term in row.coefs() {
        if term.0 == var {
            return term.1;
        }
        if term.0 > var {
            return 0;
        }
    }
    0
}

impl Row {
    /// The row with this coefficient for the variable, which is below 2^20; 0 takes the variable out. The coefficient is
    /// not past the cap. It refuses only for memory.
    pub fn with(self, var: u32, coef: i64) -> Result<Row, Memory>
        requires few { var < 2 ^ 20 }
        requires kept { nat_abs coef ≤ cap }
        ensures { IfOk result (λ r. r ≡ replaced self var coef) }
    {
        let (coefs, constant) = self.into_parts();
        let place = place_of(coefs.as_slice(), var);
        let coefs = put_at(taken_out(coefs, place, var), place, var, coef)?;
        Ok(Row::from_parts(coefs, constant))
    }
}

/// The number of terms before the variable.
fn place_of(coefs: &[(u32, i64)], var: u32) -> usize
    requires { AreTerms 0 coefs.now }
    ensures within { result ≤ length coefs.now }
    ensures before { (k : ℕ) (d : ℕ × ℤ) → k < result → (slice_index_or coefs.now k d).0 < var }
    ensures from { (k : ℕ) (d : ℕ × ℤ) → result ≤ k → k < length coefs.now → var ≤ (slice_index_or coefs.now k d).0 }
{
    coefs.partition_point(|term| term.0 < var)
}

/// The terms without the variable, which is not after the place.
fn taken_out(coefs: Coefs, place: usize, var: u32) -> Coefs
    requires { place ≤ length coefs.items }
    ensures { result.items ≡ take place coefs.items ++ past var (drop place coefs.items) }
{
    let mut coefs = coefs;
    match coefs.as_slice().get(place) {
        Some(term) => {
            if term.0 == var {
                let _old = coefs.remove(place);
            }
            coefs
        }
        None => coefs,
    }
}

/// The terms with one more at the place, unless its coefficient is 0.
fn put_at(coefs: Coefs, place: usize, var: u32, coef: i64) -> Result<Coefs, Memory>
    requires { place ≤ length coefs.items }
    ensures { IfOk result (λ v. v.items ≡ take place coefs.items ++ put_front var coef (drop place coefs.items)) }
{
    if coef == 0 {
        return Ok(coefs);
    }
    let mut coefs = coefs;
    match coefs.insert(place, (var, coef)) {
        Ok(()) => Ok(coefs),
        Err(_) => Err(Memory),
    }
}
