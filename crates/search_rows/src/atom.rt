//! A literal of a search.

use crate::stuck::Stuck;
use lin_term::Lit;
use std::alloc::Global;

/// What an atom says of its row.
#[derive(Clone, Copy, Debug, PartialEq, Eq)]
pub enum AtomKind {
    /// It is 0 or more.
    AtLeast,
    /// It is above 0.
    Above,
    /// It is a multiple of this number.
    Divides(u64),
    /// It is no multiple of this number.
    NotDivides(u64),
}

/// A row and what is said of it.
#[derive(Debug, Drop)]
pub struct Atom {
    /// What is said.
    pub kind: AtomKind,
    /// The variables, ascending, each with its coefficient other than 0.
    pub coefs: Vec<(u32, i64)>,
    /// The constant of the row.
    pub constant: i64,
}

fn kind_of(lit: &Lit) -> AtomKind {
    match lit {
        Lit::AtLeast(_) => AtomKind::AtLeast,
        Lit::Above(_) => AtomKind::Above,
        Lit::Divides(d, _) => AtomKind::Divides(*d),
        Lit::NotDivides(d, _) => AtomKind::NotDivides(*d),
    }
}

impl Atom {
    /// The atom of a literal; stuck only for memory.
    pub fn of(alloc: Global, lit: &Lit) -> Result<Atom, Stuck> {
        let row = lit.row();
        let coefs = Vec::from_slice(alloc, row.coefs())?;
        Ok(Atom {
            kind: kind_of(lit),
            coefs,
            constant: row.constant_part(),
        })
    }

    /// An equal atom; stuck only for memory.
    pub fn copy(&self, alloc: Global) -> Result<Atom, Stuck> {
        let coefs = Vec::from_slice(alloc, self.coefs.as_slice())?;
        Ok(Atom {
            kind: self.kind,
            coefs,
            constant: self.constant,
        })
    }

    /// The coefficient of a variable, 0 where it does not occur. The search is from the highest variable down.
    pub fn coefficient(&self, var: u32) -> i64 {
        for term in self.coefs.as_slice().iter().rev() {
            if term.0 <= var {
                return if term.0 == var { term.1 } else { 0 };
            }
        }
        0
    }

    /// The highest variable, none where the row is a constant.
    pub fn highest(&self) -> Option<u32> {
        match self.coefs.as_slice().last() {
            Some(term) => Some(term.0),
            None => None,
        }
    }

    /// Whether it is an inequality.
    pub fn is_bound(&self) -> bool {
        match self.kind {
            AtomKind::AtLeast | AtomKind::Above => true,
            AtomKind::Divides(_) | AtomKind::NotDivides(_) => false,
        }
    }

    /// Whether it is a strict inequality.
    pub fn is_strict(&self) -> bool {
        match self.kind {
            AtomKind::Above => true,
            AtomKind::AtLeast | AtomKind::Divides(_) | AtomKind::NotDivides(_) => false,
        }
    }

    /// The truth of an atom without variables, none where it has some.
    pub fn truth(&self) -> Option<bool> {
        if !self.coefs.is_empty() {
            return None;
        }
        match self.kind {
            AtomKind::AtLeast => Some(self.constant >= 0),
            AtomKind::Above => Some(self.constant > 0),
            AtomKind::Divides(d) => is_multiple(d, self.constant),
            AtomKind::NotDivides(d) => match is_multiple(d, self.constant) {
                Some(divides) => Some(!divides),
                None => None,
            },
        }
    }

    /// Whether the rows have the same terms.
    pub fn has_terms_of(&self, other: &Atom) -> bool {
        self.coefs.as_slice() == other.coefs.as_slice()
    }

    /// Whether both are inequalities that are not strict, and each row is the other's negation.
    pub fn is_opposite(&self, other: &Atom) -> bool {
        if self.kind != AtomKind::AtLeast || other.kind != AtomKind::AtLeast {
            return false;
        }
        if self.constant as i128 + other.constant as i128 != 0 {
            return false;
        }
        are_opposite(self.coefs.as_slice(), other.coefs.as_slice())
    }
}

/// Whether d divides the number; none where d is 0.
fn is_multiple(d: u64, n: i64) -> Option<bool> {
    match (n as i128).checked_rem_euclid(d as i128) {
        Some(r) => Some(r == 0),
        None => None,
    }
}

/// Whether the terms have the same variables and opposite coefficients.
fn are_opposite(left: &[(u32, i64)], right: &[(u32, i64)]) -> bool {
    if left.len() != right.len() {
        return false;
    }
    for place in 0..left.len() {
        let Some(a) = left.get(place) else {
            return false;
        };
        let Some(b) = right.get(place) else {
            return false;
        };
        if a.0 != b.0 {
            return false;
        }
        if a.1 as i128 + b.1 as i128 != 0 {
            return false;
        }
    }
    true
}
