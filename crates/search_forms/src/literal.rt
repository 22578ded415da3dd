//! Literals over nodes or positions.

use lin_term::Sort;
use search_rows::{Atom, AtomKind, Stuck, primitive};
use search_simplex::{difference, floor, negative, product};
use std::alloc::Global;

/// The terms with the other sign.
fn turned(alloc: Global, atom: &Atom) -> Result<Vec<(u32, i128)>, Stuck> {
    let mut out: Vec<(u32, i128)> = Vec::new(alloc);
    for term in atom.coefs.as_slice() {
        out.push((term.0, negative(term.1 as i128)?))?;
    }
    Ok(out)
}

/// The terms as they are.
fn kept(alloc: Global, atom: &Atom) -> Result<Vec<(u32, i128)>, Stuck> {
    let mut out: Vec<(u32, i128)> = Vec::new(alloc);
    for term in atom.coefs.as_slice() {
        out.push((term.0, term.1 as i128))?;
    }
    Ok(out)
}

/// The negation of a literal, primitive.
pub fn negation(alloc: Global, sort: Sort, atom: &Atom) -> Result<Atom, Stuck> {
    let back = negative(atom.constant as i128)?;
    match atom.kind {
        AtomKind::AtLeast => {
            let terms = turned(alloc, atom)?;
            match sort {
                Sort::Rat => primitive(alloc, sort, AtomKind::Above, terms.as_slice(), back),
                Sort::Int => {
                    let less = difference(back, 1)?;
                    primitive(alloc, sort, AtomKind::AtLeast, terms.as_slice(), less)
                }
            }
        }
        AtomKind::Above => {
            let terms = turned(alloc, atom)?;
            primitive(alloc, sort, AtomKind::AtLeast, terms.as_slice(), back)
        }
        AtomKind::Divides(d) => {
            let terms = kept(alloc, atom)?;
            let kind = AtomKind::NotDivides(d);
            primitive(alloc, sort, kind, terms.as_slice(), atom.constant as i128)
        }
        AtomKind::NotDivides(d) => {
            let terms = kept(alloc, atom)?;
            let kind = AtomKind::Divides(d);
            primitive(alloc, sort, kind, terms.as_slice(), atom.constant as i128)
        }
    }
}

/// Whether d times the denominator divides a number.
fn divides(d: u64, value: i128, den: i128) -> Result<bool, Stuck> {
    let by = product(d as i128, den)?;
    Ok(product(floor(value, by)?, by)? == value)
}

/// The truth of a literal where its row is value/den.
pub fn holds_at(kind: AtomKind, value: i128, den: i128) -> Result<bool, Stuck> {
    match kind {
        AtomKind::AtLeast => Ok(value >= 0),
        AtomKind::Above => Ok(value > 0),
        AtomKind::Divides(d) => divides(d, value, den),
        AtomKind::NotDivides(d) => Ok(!divides(d, value, den)?),
    }
}
