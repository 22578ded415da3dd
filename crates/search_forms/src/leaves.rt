//! Literals over nodes as literals over forms. A leaf's literal depends on the node of its highest variable alone, so it is kept
//! by node and leaf, made when first looked at, and shared by all paths through the node.

use crate::code::{Code, Known};
use crate::forms::{Forms, NO_MODULUS};
use crate::setup::Setup;
use crate::wide_row::{WideRow, linear, renamed};
use lin_term::Sort;
use search_rows::{Atom, AtomKind, Stuck};
use search_simplex::{
    NONE, at, difference, floor, gcd, item, lent, negative, product, put, quotient, small, sum,
};
use std::alloc::Global;

/// The greatest common divisor of the coefficients, negative where the first one is.
fn signed_divisor(terms: &[(u32, i128)]) -> Result<i128, Stuck> {
    let mut g: i128 = 0;
    for term in terms {
        if g == 1 {
            break;
        }
        g = gcd(g, term.1)?;
    }
    match terms.first() {
        None => Ok(1),
        Some(first) => { if first.1 < 0 { negative(g) } else { Ok(g) } }
    }
}

/// The terms over a divisor.
fn key_of(alloc: Global, terms: &[(u32, i128)], g: i128) -> Result<Vec<(u32, i64)>, Stuck> {
    let mut out: Vec<(u32, i64)> = Vec::new(alloc);
    for term in terms {
        out.push((term.0, small(quotient(term.1, g)?)?))?;
    }
    Ok(out)
}

fn truth_known(truth: bool) -> Known {
    if truth { Known::True } else { Known::False }
}

impl Forms {
    /// The literal that a row is 0 or more, or above 0.
    pub fn row_code(&mut self, sort: Sort, row: &WideRow, strict: bool) -> Result<Known, Stuck> {
        if row.terms.is_empty() {
            let holds = row.constant > 0 || (row.constant == 0 && !strict);
            return Ok(truth_known(holds));
        }
        let g = signed_divisor(row.terms.as_slice())?;
        let key = key_of(self.alloc, row.terms.as_slice(), g)?;
        let (form, _new) = self.intern(key, NO_MODULUS, 0)?;
        match sort {
            Sort::Int => self.whole_code(form, g, row.constant),
            Sort::Rat => self.rational_code(form, g, row.constant, strict),
        }
    }

    /// g*form + k >= 0 over the integers.
    fn whole_code(&mut self, form: u32, g: i128, k: i128) -> Result<Known, Stuck> {
        if g > 0 {
            let least = negative(floor(k, g)?)?;
            return Ok(Known::Lit(double(self.mark(form, small(least)?, 1, false)?, 0)?));
        }
        let most = floor(k, negative(g)?)?;
        let above = small(sum(most, 1)?)?;
        Ok(Known::Lit(double(self.mark(form, above, 1, false)?, 1)?))
    }

    /// g*form + k >= 0, or > 0.
    fn rational_code(&mut self, form: u32, g: i128, k: i128, strict: bool) -> Result<Known, Stuck> {
        let size = if g > 0 { g } else { negative(g)? };
        let num = if g > 0 { negative(k)? } else { k };
        let common = gcd(num, size)?;
        let num = small(quotient(num, common)?)?;
        let den = small(quotient(size, common)?)?;
        if g > 0 {
            return Ok(Known::Lit(double(self.mark(form, num, den, strict)?, 0)?));
        }
        Ok(Known::Lit(double(self.mark(form, num, den, !strict)?, 1)?))
    }

    /// The literal of a divisibility over nodes.
    pub fn divides_code(
        &mut self,
        terms: Vec<(u32, i64)>,
        constant: i64,
        d: u64,
        side: u32,
    ) -> Result<Known, Stuck> {
        let (form, _new) = self.intern(terms, d, constant)?;
        Ok(Known::Lit(double(self.mark(form, 1, 1, false)?, side)?))
    }

    /// The literal of one over nodes.
    pub fn code_of(&mut self, setup: &Setup, atom: &Atom) -> Result<Known, Stuck> {
        if let Some(truth) = atom.truth() {
            return Ok(truth_known(truth));
        }
        match atom.kind {
            AtomKind::Divides(d) => {
                let terms = Vec::from_slice(self.alloc, atom.coefs.as_slice())?;
                self.divides_code(terms, atom.constant, d, 0)
            }
            AtomKind::NotDivides(d) => {
                let terms = Vec::from_slice(self.alloc, atom.coefs.as_slice())?;
                self.divides_code(terms, atom.constant, d, 1)
            }
            AtomKind::AtLeast | AtomKind::Above => {
                let terms = atom.coefs.as_slice();
                let row = linear(self.alloc, setup.subs.as_slice(), terms, atom.constant)?;
                self.row_code(setup.sort, &row, atom.is_strict())
            }
        }
    }

    /// The literal of a leaf on a path, where it was worked out.
    pub fn leaf_known(&self, setup: &Setup, path: u32, leaf: u32) -> Result<Known, Stuck> {
        let slot = setup.slot(path, leaf)?;
        if slot == NONE {
            return match item(setup.shape.leaves.as_slice(), leaf)?.truth() {
                Some(truth) => Ok(truth_known(truth)),
                None => Err(Stuck::Place),
            };
        }
        at(self.store.as_slice(), slot)
    }

    /// The literal of a leaf on a path.
    pub fn leaf(&mut self, setup: &Setup, path: u32, leaf: u32) -> Result<Known, Stuck> {
        let known = self.leaf_known(setup, path, leaf)?;
        if known != Known::Unset {
            return Ok(known);
        }
        let atom = item(setup.shape.leaves.as_slice(), leaf)?;
        let named = Atom {
            kind: atom.kind,
            coefs: renamed(self.alloc, atom.coefs.as_slice(), setup.names(path)?)?,
            constant: atom.constant,
        };
        let made = self.code_of(setup, &named)?;
        let slot = setup.slot(path, leaf)?;
        put(&mut self.store, slot, made)?;
        if let Known::Lit(code) = made {
            lent(&mut self.uses, code)?.push(slot)?;
        }
        Ok(made)
    }

    /// The literal over nodes of a code; primitive. Over the integers f < n is -f + n - 1 >= 0.
    pub fn atom_of(&self, setup: &Setup, code: Code) -> Result<Atom, Stuck> {
        let mark = self.threshold(code / 2)?;
        let form = self.form(mark.form)?;
        let low = code % 2 == 0;
        if form.modulus != NO_MODULUS {
            let d = form.modulus;
            return Ok(Atom {
                kind: if low {
                    AtomKind::Divides(d)
                } else {
                    AtomKind::NotDivides(d)
                },
                coefs: Vec::from_slice(self.alloc, form.terms.as_slice())?,
                constant: form.constant,
            });
        }
        let sign: i128 = if low {
            mark.den as i128
        } else {
            negative(mark.den as i128)?
        };
        let mut coefs: Vec<(u32, i64)> = Vec::new(self.alloc);
        for term in form.terms.as_slice() {
            coefs.push((term.0, small(product(term.1 as i128, sign)?)?))?;
        }
        let num = mark.num as i128;
        let constant = if low {
            negative(num)?
        } else if setup.is_int() {
            difference(num, 1)?
        } else {
            num
        };
        let strict = !setup.is_int() && low == mark.strict;
        Ok(Atom {
            kind: if strict {
                AtomKind::Above
            } else {
                AtomKind::AtLeast
            },
            coefs,
            constant: small(constant)?,
        })
    }
}

/// The code of a threshold's lower or upper side.
fn double(mark: u32, side: u32) -> Result<u32, Stuck> {
    mark.checked_mul(2)
        .ok_or(Stuck::Place)?
        .checked_add(side)
        .ok_or(Stuck::Place)
}
