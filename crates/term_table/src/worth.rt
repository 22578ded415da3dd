//! What is known of an entry as a constant term.

/// What is known of a term as a constant term.
#[derive(Clone, Copy, Debug, PartialEq, Eq, Drop)]
pub enum Worth {
    /// It is no constant term.
    Free,
    /// A constant term with more nodes than a goal may have; it is not worked out.
    Large,
    /// Working it out has a step with a number past the cap.
    Wide,
    /// Its value in lowest terms, with a denominator of 1 or more.
    Value { num: i64, den: i64 },
}
