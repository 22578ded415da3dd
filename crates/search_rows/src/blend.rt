//! Rows combined, and primitive forms. A primitive row over the rationals has no common divisor; over the integers its
//! coefficients have none, and the constant is rounded down; a divisibility has its numbers below the modulus, and no
//! common divisor with it.

use crate::atom::{Atom, AtomKind};
use crate::stuck::Stuck;
use lin_term::{Sort, gcd_of, is_within};
use std::alloc::Global;

fn times(p: i64, a: i64) -> i128 {
    p as i128 * a as i128
}

/// The next term of p times one row and q times the other, from these places on, and the places behind it.
fn next_term(
    p: i64,
    left: Option<&(u32, i64)>,
    q: i64,
    right: Option<&(u32, i64)>,
) -> Result<Option<(u32, i128, bool, bool)>, Stuck> {
    match left {
        None => match right {
            None => Ok(None),
            Some(b) => Ok(Some((b.0, times(q, b.1), false, true))),
        },
        Some(a) => match right {
            None => Ok(Some((a.0, times(p, a.1), true, false))),
            Some(b) => {
                if a.0 < b.0 {
                    Ok(Some((a.0, times(p, a.1), true, false)))
                } else if b.0 < a.0 {
                    Ok(Some((b.0, times(q, b.1), false, true)))
                } else {
                    let sum = times(p, a.1).checked_add(times(q, b.1)).ok_or(Stuck::Wide)?;
                    Ok(Some((a.0, sum, true, true)))
                }
            }
        },
    }
}

/// The terms of p times one row and q times the other, those that cancel left out.
pub fn blended(
    alloc: Global,
    p: i64,
    left: &[(u32, i64)],
    q: i64,
    right: &[(u32, i64)],
) -> Result<Vec<(u32, i128)>, Stuck> {
    let mut out: Vec<(u32, i128)> = Vec::new(alloc);
    let mut i: usize = 0;
    let mut j: usize = 0;
    for _ in 0..u64::MAX {
        let Some((var, coef, from_left, from_right)) = next_term(p, left.get(i), q, right.get(j))?
        else {
            return Ok(out);
        };
        if coef != 0 {
            out.push((var, coef))?;
        }
        if from_left {
            i = i.wrapping_add(1);
        }
        if from_right {
            j = j.wrapping_add(1);
        }
    }
    Err(Stuck::Place)
}

/// The greatest common divisor of a number and the coefficients.
fn common(start: u128, terms: &[(u32, i128)]) -> u128 {
    let mut g = start;
    for term in terms {
        if g == 1 {
            return 1;
        }
        g = gcd_of(g, term.1.unsigned_abs());
    }
    g
}

fn kept(n: i128) -> Result<i64, Stuck> {
    if is_within(n) {
        Ok(n as i64)
    } else {
        Err(Stuck::Wide)
    }
}

fn floor(n: i128, g: i128) -> Result<i128, Stuck> {
    n.checked_div_euclid(g).ok_or(Stuck::Wide)
}

fn residue(n: i128, m: i128) -> Result<i128, Stuck> {
    n.checked_rem_euclid(m).ok_or(Stuck::Place)
}

/// The primitive form of an inequality, and what its numbers were divided by.
fn inequality(
    alloc: Global,
    sort: Sort,
    kind: AtomKind,
    terms: &[(u32, i128)],
    constant: i128,
) -> Result<(Atom, i128), Stuck> {
    let start: u128 = match sort {
        Sort::Rat => constant.unsigned_abs(),
        Sort::Int => 0,
    };
    let found = common(start, terms);
    let g: i128 = if found == 0 {
        1
    } else {
        i128::try_from(found).ok().ok_or(Stuck::Wide)?
    };
    let mut coefs: Vec<(u32, i64)> = Vec::new(alloc);
    for term in terms {
        coefs.push((term.0, kept(floor(term.1, g)?)?))?;
    }
    let mut last = floor(constant, g)?;
    if coefs.is_empty() && sort == Sort::Int {
        last = if last < 0 { -1 } else { 0 };
    }
    let constant = kept(last)?;
    Ok((
        Atom {
            kind,
            coefs,
            constant,
        },
        g,
    ))
}

/// The coefficients and the constant of a divisibility modulo d, and all over their common divisor with d; the last is
/// the modulus.
fn reduced(
    alloc: Global,
    d: u64,
    terms: &[(u32, i128)],
    constant: i128,
) -> Result<(Vec<(u32, i64)>, i64, u64), Stuck> {
    let m = d as i128;
    let last = residue(constant, m)?;
    let mut g = gcd_of(m.unsigned_abs(), last.unsigned_abs());
    for term in terms {
        g = gcd_of(g, residue(term.1, m)?.unsigned_abs());
    }
    let g = i128::try_from(g).ok().ok_or(Stuck::Wide)?;
    let mut coefs = Vec::new(alloc);
    for term in terms {
        let c = residue(term.1, m)?;
        if c != 0 {
            coefs.push((term.0, kept(floor(c, g)?)?))?;
        }
    }
    let last = kept(floor(last, g)?)?;
    let m = kept(floor(m, g)?)?;
    Ok((coefs, last, m.unsigned_abs()))
}

/// The primitive form of an atom with these terms and this constant; stuck where a number passes the cap, or a modulus
/// is 0.
pub fn primitive(
    alloc: Global,
    sort: Sort,
    kind: AtomKind,
    terms: &[(u32, i128)],
    constant: i128,
) -> Result<Atom, Stuck> {
    match kind {
        AtomKind::AtLeast | AtomKind::Above => {
            let (atom, _g) = inequality(alloc, sort, kind, terms, constant)?;
            Ok(atom)
        }
        AtomKind::Divides(d) => {
            let (coefs, constant, d) = reduced(alloc, d, terms, constant)?;
            let kind = AtomKind::Divides(d);
            Ok(Atom {
                kind,
                coefs,
                constant,
            })
        }
        AtomKind::NotDivides(d) => {
            let (coefs, constant, d) = reduced(alloc, d, terms, constant)?;
            let kind = AtomKind::NotDivides(d);
            Ok(Atom {
                kind,
                coefs,
                constant,
            })
        }
    }
}

/// The primitive sum of p times one inequality and q times another, and what its numbers were divided by; stuck where a
/// number passes the cap.
pub fn add(
    alloc: Global,
    sort: Sort,
    p: i64,
    a: &Atom,
    q: i64,
    b: &Atom,
) -> Result<(Atom, i128), Stuck> {
    let terms = blended(alloc, p, a.coefs.as_slice(), q, b.coefs.as_slice())?;
    let constant = times(p, a.constant)
        .checked_add(times(q, b.constant))
        .ok_or(Stuck::Wide)?;
    let kind = if a.is_strict() || b.is_strict() {
        AtomKind::Above
    } else {
        AtomKind::AtLeast
    };
    inequality(alloc, sort, kind, terms.as_slice(), constant)
}
