//! The terms of a goal.

use sqlite_items::{Boxed, Items};

/// The sort of a variable: Bool, or the number sort of the logic.
#[derive(Clone, Copy, Debug, PartialEq, Eq, Drop)]
pub enum VarSort {
    Bool,
    Number,
}

/// A term or formula. `Var(i)` is the variable at place i from the outside: first the declared constants, then the
/// bindings on the way down, in order. In a `Goal` a number is in lowest terms and within the cap, its denominator 1 or more.
#[derive(Debug, Drop)]
pub enum Term {
    True,
    False,
    Number { num: i64, den: i64 },
    Var(u32),
    Negative(Boxed<Term>),
    Abs(Boxed<Term>),
    Not(Boxed<Term>),
    Divisible(u64, Boxed<Term>),
    Minus(Boxed<Term>, Boxed<Term>),
    Quotient(Boxed<Term>, Boxed<Term>),
    Div(Boxed<Term>, Boxed<Term>),
    Mod(Boxed<Term>, Boxed<Term>),
    Less(Boxed<Term>, Boxed<Term>),
    AtMost(Boxed<Term>, Boxed<Term>),
    Greater(Boxed<Term>, Boxed<Term>),
    AtLeast(Boxed<Term>, Boxed<Term>),
    Equal(Boxed<Term>, Boxed<Term>),
    Xor(Boxed<Term>, Boxed<Term>),
    Implies(Boxed<Term>, Boxed<Term>),
    Ite(Boxed<Term>, Boxed<Term>, Boxed<Term>),
    Plus(Items<Term>),
    Times(Items<Term>),
    And(Items<Term>),
    Or(Items<Term>),
    Forall(Items<VarSort>, Boxed<Term>),
    Exists(Items<VarSort>, Boxed<Term>),
}
