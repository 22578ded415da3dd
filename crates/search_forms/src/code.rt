//! Codes of literals: twice the number of the threshold, and one more where it is the upper side.

/// A literal: form >= threshold where it is even, form < threshold where it is odd.
pub type Code = u32;

/// A literal that was worked out, or its truth where it has no columns.
#[derive(Clone, Copy, Debug, PartialEq, Eq)]
pub enum Known {
    /// Not worked out.
    Unset,
    True,
    False,
    /// A literal.
    Lit(u32),
}

/// The truth of a literal under the bounds in force.
#[derive(Clone, Copy, Debug, PartialEq, Eq)]
pub enum Truth {
    True,
    False,
    Open,
}

impl Truth {
    /// The truth of the negation.
    pub fn flipped(self) -> Truth {
        match self {
            Truth::True => Truth::False,
            Truth::False => Truth::True,
            Truth::Open => Truth::Open,
        }
    }
}

/// The negation of a literal.
pub fn opposite(code: Code) -> Code {
    code ^ 1
}

/// The threshold of a literal.
pub fn threshold_of(code: Code) -> u32 {
    code / 2
}

/// Whether it is a lower bound.
pub fn is_low(code: Code) -> bool {
    code % 2 == 0
}
