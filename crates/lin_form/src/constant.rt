//! Constant terms, worked out from left to right in lowest terms.

ghost use Rattle.std.specs.Prelude.{◌≡◌, ◌∷◌, ◌++◌, [], List};
ghost use Rattle.lin_truth.specs.Value.{zero_value, one_value};
ghost use Rattle.lin_truth.specs.View.{tree_of, trees_of};
ghost use Rattle.lin_form.specs.Lin.{Lin};
ghost use Rattle.lin_form.specs.Low.{as_lin, low, low_sum, low_product, steps, sum_steps, product_steps};
ghost use Rattle.lin_form.specs.Outcome.{Formed};

use crate::fault::FormFault;
use crate::form::LinForm;
use crate::leaf::number;
use crate::step::{Operation, absolute, negated, operated, stepped};
use lin_term::Row;
use lin_truth::Term;
use std::alloc::Global;

/// The value of a constant term, as a form without variables, worked out from left to right in lowest terms; a variable,
/// an `ite` or a formula in it counts as 0. Refuses where a step on the way has a number past 2^52 (`Number`, only there),
/// or for memory, which is also the answer to a number with a denominator below 1, as no goal has it.
#[cycle(constant_form)]
pub fn constant_form(alloc: Global, term: &Term) -> Result<LinForm, FormFault>
    ensures { Formed (steps (tree_of term.now)) (as_lin (low (tree_of term.now))) result }
{
    match term {
        Term::Number { num, den } => number(alloc, *num, *den),
        Term::Negative(t) => {
            let x = constant_form(alloc, t.get());
            negated(alloc, x)
        }
        Term::Abs(t) => {
            let x = constant_form(alloc, t.get());
            absolute(alloc, x)
        }
        Term::Minus(a, b) => {
            let x = constant_form(alloc, a.get());
            let y = constant_form(alloc, b.get());
            operated(alloc, Operation::Minus, x, y)
        }
        Term::Quotient(a, b) => {
            let x = constant_form(alloc, a.get());
            let y = constant_form(alloc, b.get());
            operated(alloc, Operation::Over, x, y)
        }
        Term::Div(a, b) => {
            let x = constant_form(alloc, a.get());
            let y = constant_form(alloc, b.get());
            operated(alloc, Operation::Whole, x, y)
        }
        Term::Mod(a, b) => {
            let x = constant_form(alloc, a.get());
            let y = constant_form(alloc, b.get());
            operated(alloc, Operation::Rest, x, y)
        }
        Term::Plus(ts) => constant_sum(alloc, ts.as_slice()),
        Term::Times(ts) => constant_product(alloc, ts.as_slice()),
        _ => Ok(nothing(alloc)),
    }
}

/// The form 0.
pub(crate) fn nothing(alloc: Global) -> LinForm
    ensures { result ≡ as_lin zero_value }
{
    LinForm::whole(Row::constant(alloc, 0))
}

/// The sum from left to right.
#[cycle(constant_form)]
fn constant_sum(alloc: Global, terms: &[Term]) -> Result<LinForm, FormFault>
    ensures { Formed (sum_steps (trees_of terms.now) zero_value) (as_lin (low_sum (trees_of terms.now) zero_value)) result }
{
    let mut total = LinForm::whole(Row::constant(alloc, 0));
    for term in terms {
        let next = constant_form(alloc, term);
        total = match stepped(alloc, Operation::Plus, &total, next) {
            Ok(total) => total,
            Err(fault) => return Err(fault),
        };
    }
    Ok(total)
}

/// The product from left to right.
#[cycle(constant_form)]
fn constant_product(alloc: Global, terms: &[Term]) -> Result<LinForm, FormFault>
    ensures { Formed (product_steps (trees_of terms.now) one_value) (as_lin (low_product (trees_of terms.now) one_value)) result }
{
    let mut total = LinForm::whole(Row::constant(alloc, 1));
    for term in terms {
        let next = constant_form(alloc, term);
        total = match stepped(alloc, Operation::Times, &total, next) {
            Ok(total) => total,
            Err(fault) => return Err(fault),
        };
    }
    Ok(total)
}
