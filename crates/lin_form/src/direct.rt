//! Terms without a choice, worked out without lists of cases.

ghost use Rattle.std.specs.Prelude.{◌≡◌, IfSome};
ghost use Rattle.lin_truth.specs.Term.{amount, variable as variable_of};
ghost use Rattle.lin_truth.specs.View.{den_of, tree_of, trees_of};
ghost use Rattle.lin_truth.specs.Value.{zero_value, one_value};
ghost use Rattle.lin_form.specs.Direct.{direct as direct_lin, direct_sum as sum_lin, direct_product as product_lin, made, made_sum, made_product, multiple as multiple_terms};
ghost use Rattle.lin_form.specs.Low.{as_lin};
ghost use Rattle.lin_form.specs.Outcome.{Formed};

use crate::constant::{constant_form, nothing};
use crate::fault::FormFault;
use crate::form::LinForm;
use crate::kinds::is_constant;
use crate::leaf::{level_of, multiple, number, variable};
use crate::scope::Bound;
use crate::step::{Operation, negated, operated, quotient, stepped};
use lin_term::Row;
use lin_truth::Term;
use std::alloc::Global;

/// The form of a term without a choice, in a scope; an `ite` or a formula in it counts as 0. Refuses where a form on the
/// way has a number past 2^52 (`Number`, only there), or for memory. An `abs`, `div` or `mod`, and a divisor, is what
/// `constant_form` gives.
#[cycle(direct_form)]
pub fn direct_form(alloc: Global, ctx: &[Bound], term: &Term) -> Result<LinForm, FormFault>
    ensures { Formed (made (tree_of term.now) ctx.now) (direct_lin (tree_of term.now) ctx.now) result }
{
    match term {
        Term::Number { num, den } => number(alloc, *num, *den),
        Term::Var(i) => variable(alloc, level_of(ctx, *i)),
        Term::Negative(t) => {
            let x = direct_form(alloc, ctx, t.get());
            negated(alloc, x)
        }
        Term::Minus(a, b) => {
            let x = direct_form(alloc, ctx, a.get());
            let y = direct_form(alloc, ctx, b.get());
            operated(alloc, Operation::Minus, x, y)
        }
        Term::Quotient(a, b) => {
            if is_constant(term) {
                return constant_form(alloc, term);
            }
            let x = direct_form(alloc, ctx, a.get());
            let y = constant_form(alloc, b.get());
            quotient(alloc, x, y)
        }
        Term::Plus(ts) => direct_sum(alloc, ctx, ts.as_slice()),
        Term::Times(ts) => direct_product(alloc, ctx, ts.as_slice()),
        Term::Abs(_) => constant_form(alloc, term),
        Term::Div(_, _) => constant_form(alloc, term),
        Term::Mod(_, _) => constant_form(alloc, term),
        _ => Ok(nothing(alloc)),
    }
}

/// The sum from left to right.
#[cycle(direct_form)]
fn direct_sum(alloc: Global, ctx: &[Bound], terms: &[Term]) -> Result<LinForm, FormFault>
    ensures { Formed (made_sum (trees_of terms.now) ctx.now (as_lin zero_value)) (sum_lin (trees_of terms.now) ctx.now (as_lin zero_value)) result }
{
    let mut total = LinForm::whole(Row::constant(alloc, 0));
    for term in terms {
        let next = direct_form(alloc, ctx, term);
        total = match stepped(alloc, Operation::Plus, &total, next) {
            Ok(total) => total,
            Err(fault) => return Err(fault),
        };
    }
    Ok(total)
}

/// A whole number and a variable, where these are the two terms.
fn number_and_variable(first: &Term, second: &Term) -> Option<(i64, u32)>
    ensures { IfSome result (λ m. (tree_of first.now ≡ amount (record { num = m.0; den = 1 })) × (tree_of second.now ≡ variable_of m.1)) }
{
    match first {
        Term::Number { num, den } => match second {
            Term::Var(i) => whole_number(*num, *den, *i),
            _ => None,
        },
        _ => None,
    }
}

/// The number and the place, where the denominator is 1.
fn whole_number(num: i64, den: i64, place: u32) -> Option<(i64, u32)>
    ensures { IfSome result (λ m. (den_of den ≡ 1) × (m.0 ≡ num) × (m.1 ≡ place)) }
{
    if den == 1 { Some((num, place)) } else { None }
}

/// A whole number and a variable, where the terms are these two.
fn multiple_in(terms: &[Term]) -> Option<(i64, u32)>
    ensures { IfSome result (λ m. trees_of terms.now ≡ multiple_terms m.0 m.1) }
{
    match terms {
        [first, second] => number_and_variable(first, second),
        _ => None,
    }
}

/// The product from left to right.
#[cycle(direct_form)]
fn direct_product(alloc: Global, ctx: &[Bound], terms: &[Term]) -> Result<LinForm, FormFault>
    ensures { Formed (made_product (trees_of terms.now) ctx.now (as_lin one_value)) (product_lin (trees_of terms.now) ctx.now (as_lin one_value)) result }
{
    if let Some((num, place)) = multiple_in(terms) {
        return multiple(alloc, ctx, num, place);
    }
    let mut total = LinForm::whole(Row::constant(alloc, 1));
    for term in terms {
        let next = direct_form(alloc, ctx, term);
        total = match stepped(alloc, Operation::Times, &total, next) {
            Ok(total) => total,
            Err(fault) => return Err(fault),
        };
    }
    Ok(total)
}
