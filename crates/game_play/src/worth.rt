//! The value of a row and of a move at the values of earlier variables.

ghost use Rattle.std.specs.Prelude.{◌≡◌, ◌≤◌, ◌*◌, ℤ, pos, ◌≤ℤ◌, ◌*ℤ◌, nat_abs, length};
ghost use Rattle.lin_term.specs.Form.{cap};
ghost use Rattle.lin_term.specs.Fraction.{value_numbers};
ghost use Rattle.lin_term.specs.Linear.{Below};
ghost use Rattle.lin_term.specs.Wide.{CappedWide};
ghost use Rattle.game_play.specs.Worth.{whole as whole_of, product_with, quotient_with, row_worth, row_steps, move_worth, move_steps};

use lin_term::{Fraction, Move, Row, Sort, Wide, floor_quotient, product};

/// A kept number as a fraction.
fn whole(number: i64) -> Fraction
    requires { nat_abs number ≤ cap }
    ensures { result ≡ whole_of number }
{
    match Fraction::make(number as i128, 1) {
        Ok(fraction) => fraction,
        Err(_) => unreachable!(),
    }
}

/// A kept number times a value, in lowest terms.
fn multiple(coef: i64, value: Fraction) -> Result<Fraction, Wide>
    requires { nat_abs coef ≤ cap }
    ensures { let v = product_with coef value in CappedWide (value_numbers v) v result }
{
    let num = product(coef, value.num());
    Fraction::make(num, value.den() as i128)
}

/// The row's value at the values of its variables, worked out from the constant on, one variable after the other: the
/// product, then the sum so far, each in lowest terms. Wide names the first number of these past the cap, a numerator
/// before its denominator.
pub fn row_value(row: &Row, values: &[Fraction]) -> Result<Fraction, Wide>
    requires { Below (length values.now) row.now }
    ensures { CappedWide (row_steps values.now row.now) (row_worth values.now row.now) result }
{
    let mut sum = whole(row.constant_part());
    for (var, coef) in row.coefs() {
        let next = match multiple(*coef, values[*var as usize]) {
            Ok(next) => next,
            Err(wide) => return Err(wide),
        };
        sum = match sum.sum(next) {
            Ok(sum) => sum,
            Err(wide) => return Err(wide),
        };
    }
    Ok(sum)
}

/// A value over a divisor in `1..=CAP`, in lowest terms; in Int rounded down.
fn quotient(sort: Sort, value: Fraction, div: i64) -> Result<Fraction, Wide>
    requires least { pos 1 ≤ℤ div }
    requires kept { nat_abs div ≤ cap }
    ensures { let v = quotient_with sort value (nat_abs div) in CappedWide (value_numbers v) v result }
{
    let below = product(value.den(), div);
    let num = value.num() as i128;
    match sort {
        Sort::Rat => Fraction::make(num, below),
        Sort::Int => Fraction::make(floor_quotient(num, below), 1),
    }
}

/// The move's value at the values of earlier variables: that of its row, then over its divisor. Wide names the first
/// number past the cap.
pub fn move_value(sort: Sort, term: &Move, values: &[Fraction]) -> Result<Fraction, Wide>
    requires { Below (length values.now) term.now.numer }
    ensures { CappedWide (move_steps sort term.now values.now) (move_worth sort term.now values.now) result }
{
    let value = match row_value(term.row(), values) {
        Ok(value) => value,
        Err(wide) => return Err(wide),
    };
    quotient(sort, value, term.div())
}
