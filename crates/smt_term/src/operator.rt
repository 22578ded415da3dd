//! The operators of terms, as a table with a line for each.

ghost use Rattle.std.specs.Prelude.{◌≡◌, slice_get};
ghost use Rattle.smt_term.specs.Operator as spec;

use lin_term::Sort;
use ss_names::operators;
use term_table::{Binary, Unary, Variadic};

/// The logics that have an operator.
#[derive(Clone, Copy, Debug, PartialEq, Eq)]
pub enum Within {
    All,
    Reals,
    Integers,
}

/// The sorts of an operator's arguments.
#[derive(Clone, Copy, Debug, PartialEq, Eq)]
pub enum Takes {
    /// All are formulas.
    Formulas,
    /// All are numbers.
    Numbers,
    /// All are of one sort.
    Alike,
    /// A formula, and then two of one sort.
    Choice,
}

/// The sort of an application.
#[derive(Clone, Copy, Debug, PartialEq, Eq)]
pub enum Gives {
    Formula,
    Number,
    /// That of the last argument.
    Last,
}

/// How an application is made of its arguments.
#[derive(Clone, Copy, Debug, PartialEq, Eq)]
pub enum Shape {
    /// None: `true` or `false`.
    Truth(bool),
    /// One argument.
    One(Unary),
    /// All arguments in one node.
    Several(Variadic),
    /// Each with the next, and all these hold.
    Chain(Binary),
    /// No two are equal.
    Pairwise,
    /// From the left, two at a time.
    Left(Binary),
    /// From the right, two at a time.
    Right(Binary),
    /// Of one argument its negative, of more the difference from the left.
    Difference,
    /// One of two by a condition.
    Choice,
}

/// Which arguments have to be constant terms.
#[derive(Clone, Copy, Debug, PartialEq, Eq)]
pub enum Linear {
    /// None.
    Free,
    /// All but one.
    Factors,
    /// All but the first, and none of them is 0.
    Divisors,
}

/// An operator of the theories Core, Reals and Ints (SMT-LIB 2.6), or one of the constants `true` and `false`.
#[derive(Clone, Copy, Debug)]
pub struct Operator {
    pub within: Within,
    /// The least number of arguments.
    pub least: usize,
    /// The greatest number of arguments, where there is one.
    pub most: Option<usize>,
    pub takes: Takes,
    pub gives: Gives,
    pub shape: Shape,
    pub linear: Linear,
}

// A line: an operator's word, its logics, the least and the greatest number of its arguments, their sorts, the sort of the
// application, its shape, and which arguments have to be constant terms.
macro_rules! line {
    ($word:literal: $within:ident, $least:expr, $most:expr, $takes:ident, $gives:ident, $shape:expr, $linear:ident) => {
        Some(Operator {
            within: Within::$within,
            least: $least,
            most: $most,
            takes: Takes::$takes,
            gives: Gives::$gives,
            shape: $shape,
            linear: Linear::$linear,
        })
    };
}

// The line of each word of the table of operators, in its order. `true` and `false` take no number of arguments.
fn line_of(row: usize) -> Option<Operator>
    ensures { result ≡ slice_get spec.lines row }
{
    match row {
        0 => line!("true": All, 1, Some(0), Formulas, Formula, Shape::Truth(true), Free),
        1 => line!("false": All, 1, Some(0), Formulas, Formula, Shape::Truth(false), Free),
        2 => line!("not": All, 1, Some(1), Formulas, Formula, Shape::One(Unary::Not), Free),
        3 => line!("and": All, 1, None, Formulas, Formula, Shape::Several(Variadic::And), Free),
        4 => line!("or": All, 1, None, Formulas, Formula, Shape::Several(Variadic::Or), Free),
        5 => line!("xor": All, 2, None, Formulas, Formula, Shape::Left(Binary::Xor), Free),
        6 => line!("=>": All, 2, None, Formulas, Formula, Shape::Right(Binary::Implies), Free),
        7 => line!("=": All, 2, None, Alike, Formula, Shape::Chain(Binary::Equal), Free),
        8 => line!("distinct": All, 2, None, Alike, Formula, Shape::Pairwise, Free),
        9 => line!("ite": All, 3, Some(3), Choice, Last, Shape::Choice, Free),
        10 => line!("<": All, 2, None, Numbers, Formula, Shape::Chain(Binary::Less), Free),
        11 => line!("<=": All, 2, None, Numbers, Formula, Shape::Chain(Binary::AtMost), Free),
        12 => line!(">": All, 2, None, Numbers, Formula, Shape::Chain(Binary::Greater), Free),
        13 => line!(">=": All, 2, None, Numbers, Formula, Shape::Chain(Binary::AtLeast), Free),
        14 => line!("+": All, 2, None, Numbers, Number, Shape::Several(Variadic::Plus), Free),
        15 => line!("-": All, 1, None, Numbers, Number, Shape::Difference, Free),
        16 => line!("*": All, 2, None, Numbers, Number, Shape::Several(Variadic::Times), Factors),
        17 => line!("/": Reals, 2, None, Numbers, Number, Shape::Left(Binary::Quotient), Divisors),
        18 => line!("div": Integers, 2, None, Numbers, Number, Shape::Left(Binary::Div), Divisors),
        19 =>
            line!("mod": Integers, 2, Some(2), Numbers, Number, Shape::Left(Binary::Mod), Divisors),
        20 => line!("abs": Integers, 1, Some(1), Numbers, Number, Shape::One(Unary::Abs), Free),
        _ => None,
    }
}

fn is_within(within: Within, logic: Sort) -> bool
    ensures { result ≡ spec.is_within within logic }
{
    match (within, logic) {
        (Within::All, _) => true,
        (Within::Reals, Sort::Rat) => true,
        (Within::Reals, Sort::Int) => false,
        (Within::Integers, Sort::Rat) => false,
        (Within::Integers, Sort::Int) => true,
    }
}

fn of_logic(op: Operator, logic: Sort) -> Option<Operator>
    ensures { result ≡ spec.of_logic logic op }
{
    if is_within(op.within, logic) {
        Some(op)
    } else {
        None
    }
}

/// The operator that a name spells; None exactly where the table of operators has no such word, or the logic does not
/// have that operator.
pub fn operator_named(logic: Sort, name: &[u8]) -> Option<Operator>
    ensures { result ≡ spec.operator_named logic name.now }
{
    let row = match operators().find_bytes(name) {
        None => return None,
        Some(row) => row,
    };
    match line_of(row) {
        None => None,
        Some(op) => of_logic(op, logic),
    }
}
