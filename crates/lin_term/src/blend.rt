//! Sums of multiples of two rows, in i128: one ascending merge, no wide list is kept.

ghost use Rattle.std.specs.Prelude.{◌≡◌, ◌+◌, ◌<◌, ◌≤◌, ◌^◌, ℕ, ℤ, pos, ◌≤ℤ◌, ◌+ℤ◌, ◌*ℤ◌, nat_abs, IfSome, IfNone, [], length, drop};
ghost use Rattle.lin_term.specs.Form.{AreTerms, cap};
ghost use Rattle.lin_term.specs.Linear.{put_front};
ghost use Rattle.lin_term.specs.Literal.{quotient_terms, gcd, gcd_terms};
ghost use Rattle.lin_term.specs.Blend.{reduce_by, residue_by, sum_terms, unless, IsHead};
ghost use Rattle.lin_term.specs.Items.{CappedTerms, AddsCapped};

use crate::fault::{Short, Wide};
use crate::numbers::{floor_quotient, gcd_of, is_within};
use crate::row::Coefs;
use smallvec::SmallVec;
use std::alloc::Global;

/// The product of two numbers in `-CAP..=CAP`; it is at most 2^104 in size.
pub fn product(p: i64, a: i64) -> i128
    requires p_kept { nat_abs p ≤ cap }
    requires a_kept { nat_abs a ≤ cap }
    ensures value { result ≡ p *ℤ a }
    ensures size { nat_abs result ≤ 2 ^ 104 }
{
    p as i128 * a as i128
}

/// The product with a term's coefficient, and 0 at one variable.
fn product_unless(q: i64, term: (u32, i64), skip: u32) -> i128
    requires q_kept { nat_abs q ≤ cap }
    requires term_kept { nat_abs term.1 ≤ cap }
    ensures value { result ≡ q *ℤ unless skip term }
    ensures size { nat_abs result ≤ 2 ^ 104 }
{
    if term.0 == skip {
        0
    } else {
        product(q, term.1)
    }
}

/// The first term of a sum, and how many terms of each side it takes.
#[derive(Clone, Copy)]
struct Head {
    var: u32,
    coef: i128,
    left: usize,
    right: usize,
}

fn head_of_both(x: (u32, i128), y: (u32, i128)) -> Head
    requires x_wide { nat_abs x.1 ≤ 2 ^ 104 }
    requires y_wide { nat_abs y.1 ≤ 2 ^ 104 }
    ensures head { IsHead x y result.var result.coef result.left result.right }
    ensures size { nat_abs result.coef ≤ 2 ^ 105 }
{
    if x.0 < y.0 {
        Head {
            var: x.0,
            coef: x.1,
            left: 1,
            right: 0,
        }
    } else if y.0 < x.0 {
        Head {
            var: y.0,
            coef: y.1,
            left: 0,
            right: 1,
        }
    } else {
        Head {
            var: x.0,
            coef: x.1 + y.1,
            left: 1,
            right: 1,
        }
    }
}

/// The first term of p times the left terms and q times the right ones without a variable.
fn find_head(p: i64, left: &[(u32, i64)], q: i64, right: &[(u32, i64)], skip: u32) -> Option<Head>
    requires p_kept { nat_abs p ≤ cap }
    requires q_kept { nat_abs q ≤ cap }
    requires left_kept { AreTerms 0 left.now }
    requires right_kept { AreTerms 0 right.now }
    ensures some { IfSome result (λ h. sum_terms p left.now q right.now skip ≡ put_front h.var h.coef (sum_terms p (drop h.left left.now) q (drop h.right right.now) skip)) }
    ensures within { IfSome result (λ h. (h.left ≤ length left.now) × (h.right ≤ length right.now) × (1 ≤ h.left + h.right)) }
    ensures size { IfSome result (λ h. nat_abs h.coef ≤ 2 ^ 105) }
    ensures none { IfNone result ((left.now ≡ []) × (right.now ≡ [])) }
{
    match (left, right) {
        ([], []) => None,
        ([x, ..], []) => Some(Head {
            var: x.0,
            coef: product(p, x.1),
            left: 1,
            right: 0,
        }),
        ([], [y, ..]) => Some(Head {
            var: y.0,
            coef: product_unless(q, *y, skip),
            left: 0,
            right: 1,
        }),
        ([x, ..], [y, ..]) => {
            let x = (x.0, product(p, x.1));
            let y = (y.0, product_unless(q, *y, skip));
            Some(head_of_both(x, y))
        }
    }
}

/// A coefficient modulo a number, and the coefficient itself where the number is 0.
pub(crate) fn reduced(coef: i128, modulus: i128) -> i128
    requires least { pos 0 ≤ℤ modulus }
    ensures { result ≡ residue_by (nat_abs modulus) coef }
{
    if modulus == 0 {
        coef
    } else {
        coef.rem_euclid(modulus)
    }
}

/// The greatest common divisor of `start` and the coefficients of p times the left terms and q times the right ones
/// without variable `skip`, modulo `modulus`, which is 0 or more; 0 leaves them as they are. p and q are in
/// `-CAP..=CAP`, the terms are as those of a row.
pub fn common_of_sum(
    start: u128,
    modulus: i128,
    p: i64,
    left: &[(u32, i64)],
    q: i64,
    right: &[(u32, i64)],
    skip: u32,
) -> u128
    requires modulus_least { pos 0 ≤ℤ modulus }
    requires p_kept { nat_abs p ≤ cap }
    requires q_kept { nat_abs q ≤ cap }
    requires left_kept { AreTerms 0 left.now }
    requires right_kept { AreTerms 0 right.now }
    ensures { result ≡ gcd start (gcd_terms (reduce_by (nat_abs modulus) (sum_terms p left.now q right.now skip))) }
{
    let mut common = start;
    let mut i = 0;
    let mut j = 0;
    while let Some(head) = find_head(p, &left[i..], q, &right[j..], skip) {
        if common == 1 {
            return 1;
        }
        common = gcd_of(common, reduced(head.coef, modulus).unsigned_abs());
        i += head.left;
        j += head.right;
    }
    common
}

/// Adds a term divided by a number, unless its coefficient is 0.
fn push_quotient(out: &mut Coefs, var: u32, coef: i128, g: i128) -> Result<(), Short<Wide>>
    requires { pos 1 ≤ℤ g }
    ensures { AddsCapped out.old out.new (quotient_terms (put_front var coef []) (nat_abs g)) result }
{
    if coef == 0 {
        return Ok(());
    }
    let number = floor_quotient(coef, g);
    if !is_within(number) {
        return Err(Short::Fault(Wide { number }));
    }
    out.push((var, number as i64))?;
    Ok(())
}

/// The terms of p times the left terms and q times the right ones without variable `skip`, modulo `modulus` (0 or more;
/// 0 leaves them as they are), divided by g (1 or more) and rounded down. p and q are in `-CAP..=CAP`, the terms are as
/// those of a row. Wide names the first result past the cap; where there is none, it refuses only for memory.
pub fn quotients_of_sum(
    alloc: Global,
    modulus: i128,
    g: i128,
    p: i64,
    left: &[(u32, i64)],
    q: i64,
    right: &[(u32, i64)],
    skip: u32,
) -> Result<Coefs, Short<Wide>>
    requires modulus_least { pos 0 ≤ℤ modulus }
    requires least { pos 1 ≤ℤ g }
    requires p_kept { nat_abs p ≤ cap }
    requires q_kept { nat_abs q ≤ cap }
    requires left_kept { AreTerms 0 left.now }
    requires right_kept { AreTerms 0 right.now }
    ensures { CappedTerms (quotient_terms (reduce_by (nat_abs modulus) (sum_terms p left.now q right.now skip)) (nat_abs g)) result }
{
    let mut out = SmallVec::with_capacity(alloc, left.len().max(right.len()))?;
    let mut i = 0;
    let mut j = 0;
    while let Some(head) = find_head(p, &left[i..], q, &right[j..], skip) {
        let coef = reduced(head.coef, modulus);
        match push_quotient(&mut out, head.var, coef, g) {
            Ok(()) => {}
            Err(fault) => return Err(fault),
        }
        i += head.left;
        j += head.right;
    }
    Ok(out)
}
