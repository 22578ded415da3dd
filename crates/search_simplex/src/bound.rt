//! A bound of a column.

/// The bound num/den + eps*e of a column, e being an infinitesimal: `scaled` is its numerator over the common scale, and `at`
/// names who set it.
#[derive(Clone, Copy, Debug, PartialEq, Eq)]
pub struct Bound {
    /// The numerator.
    pub num: i64,
    /// The denominator, 1 or more.
    pub den: i64,
    /// How many infinitesimals are added.
    pub eps: i64,
    /// The numerator over the common scale.
    pub scaled: i128,
    /// Who set it.
    pub at: u32,
}
