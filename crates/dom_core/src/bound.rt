//! Bounds of a variable at a point.

use lin_term::Lit;

/// A literal that bounds a variable, and the bound's value at a point times the point's denominator, as `num/div`; over
/// the integers rounded to a whole number.
#[derive(Clone, Copy)]
pub struct Bound<'a> {
    pub lit: &'a Lit,
    pub num: i128,
    pub div: i64,
}
