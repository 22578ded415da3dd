//! Steps of working a constant term out. A value that is missing stays so: there is none of a term that is no constant
//! term, nor behind a step with a number past the cap.

ghost use Rattle.std.specs.Prelude.{◌≡◌, Some};
ghost use Rattle.lin_truth.specs.Value.{v_plus, v_times, zero_value, one_value};
ghost use Rattle.lin_truth.specs.Worked.{step_two};
ghost use Rattle.term_table.specs.Known as spec;

use crate::node::{Binary, Leaf, Unary, Variadic};
use crate::ratio::{absolute, div, minus, negative, over, plus, rest, times_each, written};
use lin_term::Fraction;

/// The value of a leaf.
pub fn known_leaf(leaf: &Leaf) -> Option<Fraction>
    ensures { result ≡ spec.known_leaf leaf.now }
{
    match leaf {
        Leaf::Number { num, den } => written(*num, *den),
        Leaf::True => None,
        Leaf::False => None,
        Leaf::Constant(_) => None,
    }
}

/// The value of an operator with one part.
pub fn known_one(op: Unary, x: Option<Fraction>) -> Option<Fraction>
    ensures { result ≡ spec.known_one op x }
{
    let Some(x) = x else {
        return None;
    };
    match op {
        Unary::Negative => negative(x),
        Unary::Abs => absolute(x),
        Unary::Not => None,
        Unary::Divisible(_) => None,
    }
}

/// The value of an operator with two parts.
pub fn known_two(op: Binary, x: Option<Fraction>, y: Option<Fraction>) -> Option<Fraction>
    ensures { result ≡ spec.known_two op x y }
{
    let Some(x) = x else {
        return None;
    };
    let Some(y) = y else {
        return None;
    };
    match op {
        Binary::Minus => minus(x, y),
        Binary::Quotient => over(x, y),
        Binary::Div => div(x, y),
        Binary::Mod => rest(x, y),
        Binary::Less => None,
        Binary::AtMost => None,
        Binary::Greater => None,
        Binary::AtLeast => None,
        Binary::Equal => None,
        Binary::Xor => None,
        Binary::Implies => None,
    }
}

fn added(x: Option<Fraction>, y: Option<Fraction>) -> Option<Fraction>
    ensures { result ≡ step_two v_plus x y }
{
    match (x, y) {
        (Some(x), Some(y)) => plus(x, y),
        _ => None,
    }
}

fn multiplied(x: Option<Fraction>, y: Option<Fraction>) -> Option<Fraction>
    ensures { result ≡ step_two v_times x y }
{
    match (x, y) {
        (Some(x), Some(y)) => times_each(x, y),
        _ => None,
    }
}

/// The sum, two at a time from the left.
fn sum(parts: &[Option<Fraction>]) -> Option<Fraction>
    ensures { result ≡ spec.known_sum parts.now (Some zero_value) }
{
    let mut all = written(0, 1);
    let mut left = parts;
    while let [part, more @ ..] = left {
        all = added(all, *part);
        left = more;
    }
    all
}

/// The product, two at a time from the left.
fn product(parts: &[Option<Fraction>]) -> Option<Fraction>
    ensures { result ≡ spec.known_product parts.now (Some one_value) }
{
    let mut all = written(1, 1);
    let mut left = parts;
    while let [part, more @ ..] = left {
        all = multiplied(all, *part);
        left = more;
    }
    all
}

/// The value of an operator with any number of parts.
pub fn known_several(op: Variadic, parts: &[Option<Fraction>]) -> Option<Fraction>
    ensures { result ≡ spec.known_several op parts.now }
{
    match op {
        Variadic::Plus => sum(parts),
        Variadic::Times => product(parts),
        Variadic::And => None,
        Variadic::Or => None,
    }
}
