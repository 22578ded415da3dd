//! Moves: a linear form over a divisor.

ghost use Rattle.std.specs.Prelude.{◌≡◌, ◌≤◌, ◌^◌, ℤ, pos, nat_abs, ◌≤ℤ◌, IfOk, IsTrue, ◌↔◌, ◌/◌, length};
ghost use Rattle.lin_term.specs.Form.{Form, AreTerms, cap};
ghost use Rattle.lin_term.specs.Linear.{Below};
ghost use Rattle.lin_term.specs.Literal.{quotient, quotient_terms};
ghost use Rattle.lin_term.specs.Move.{IsMove, move_divisor, lowest, IsLowest};
ghost use Rattle.lin_term.specs.Definition.{move_numbers, rename_move, IsKeptMove};
ghost use Rattle.lin_term.specs.Rising.{IsRisingAt};
ghost use Rattle.lin_term.specs.Upper.{upper_constant as upper_constant_of};
ghost use Rattle.lin_term.specs.Wide.{CappedWide};

use crate::fault::{Memory, Wide};
use crate::numbers::{common_divisor, floor_of_words, gcd_of_words};
use crate::primitive_form::divide_all;
use crate::renaming::renamed_row;
use crate::row::{CAP, Coefs, Row, Sort};
use std::alloc::Global;
use std::marker::Model;

/// The value `row / div`, rounded down in Int. The divisor lies in `1..=CAP`.
#[derive(Debug, Drop)]
pub struct Move {
    row: Row,
    div: i64,
}

impl Model for Move {
    ghost use Rattle.std.specs.Prelude.{◌≤◌, pos, nat_abs, ◌≤ℤ◌};
    ghost use Rattle.lin_term.specs.Form.{cap};
    ghost use Rattle.lin_term.specs.Move.{Move};

    ghost Value = { Move };

    ghost view = { λ m. record { numer = m.row; div = nat_abs m.div } };

    ghost invariant = { λ m. (pos 1 ≤ℤ m.div) × (nat_abs m.div ≤ cap) };
}

impl Move {
    /// The move in lowest form; the divisor lies in `1..=CAP`. Wide comes exactly where a number of that form or of its two
    /// definition literals is past the cap, and names the first: divisor, coefficients, constant, literal 0, literal 1. It
    /// takes no memory.
    pub fn make(sort: Sort, row: Row, div: i64) -> Result<Move, Wide>
        requires least { pos 1 ≤ℤ div }
        requires greatest { nat_abs div ≤ cap }
        ensures { let m = lowest sort (record { numer = row; div = nat_abs div }) in CappedWide (move_numbers sort m) m result }
    {
        with_definition(sort, lowest_form(sort, row, div))
    }

    /// Whether the move is in lowest form, and its numbers and those of its definition literals are within the cap.
    pub fn is_kept(&self, sort: Sort) -> bool
        ensures { IsTrue result ↔ IsKeptMove sort self.now }
    {
        let row = self.row();
        let g = divisor_of(sort, row.coefs(), row.constant_part(), self.div());
        let number = definition_constant(sort, self);
        is_one_and_within(g, number)
    }

    /// The move as written, in lowest form or not; the divisor lies in `1..=CAP`.
    pub fn from_parts(row: Row, div: i64) -> Move
        requires least { pos 1 ≤ℤ div }
        requires greatest { nat_abs div ≤ cap }
        ensures { result ≡ record { numer = row; div = nat_abs div } }
    {
        Move { row, div }
    }

    /// The numerator.
    pub fn row(&self) -> &Row
        ensures { result.now ≡ self.now.numer }
    {
        &self.row
    }

    /// The divisor, in `1..=CAP`.
    pub fn div(&self) -> i64
        ensures value { result ≡ pos self.now.div }
        ensures least { pos 1 ≤ℤ result }
        ensures greatest { nat_abs result ≤ cap }
    {
        self.div
    }

    /// An equal move; refuses only for memory.
    pub fn copy(&self, alloc: Global) -> Result<Move, Memory>
        ensures { IfOk result (λ m. m ≡ self.now) }
    {
        let row = self.row.copy(alloc)?;
        Ok(Move { row, div: self.div })
    }

    /// The move with `names[i]` for variable i, with names as for `renamed_row`. It refuses only for memory.
    pub fn renamed(&self, alloc: Global, names: &[u32]) -> Result<Move, Memory>
        requires rising { IsRisingAt names.now self.now.numer.terms (2 ^ 20) }
        requires below { Below (length names.now) self.now.numer }
        ensures { IfOk result (λ m. m ≡ rename_move names.now self.now) }
    {
        let row = renamed_row(alloc, &self.row, names)?;
        Ok(Move { row, div: self.div })
    }
}

/// The divisor of a move: in Rat of all its numbers, in Int of its divisor and coefficients.
fn divisor_of(sort: Sort, coefs: &[(u32, i64)], constant: i64, div: i64) -> u64
    requires kept { AreTerms 0 coefs.now }
    requires least { pos 1 ≤ℤ div }
    ensures { result ≡ move_divisor sort (record { numer = record { terms = coefs.now; constant = constant }; div = nat_abs div }) }
{
    let div = div.unsigned_abs();
    match sort {
        Sort::Rat => common_divisor(gcd_of_words(div, constant.unsigned_abs()), coefs),
        Sort::Int => common_divisor(div, coefs),
    }
}

/// The move in lowest form.
fn lowest_form(sort: Sort, row: Row, div: i64) -> Move
    requires least { pos 1 ≤ℤ div }
    requires greatest { nat_abs div ≤ cap }
    ensures { result ≡ lowest sort (record { numer = row; div = nat_abs div }) }
{
    let (coefs, constant) = row.into_parts();
    let g = divisor_of(sort, coefs.as_slice(), constant, div);
    divided_move(coefs, constant, div, g as i64)
}

/// All numbers divided by a divisor of the coefficients and of the divisor, the constant rounded down.
fn divided_move(coefs: Coefs, constant: i64, div: i64, g: i64) -> Move
    requires kept { AreTerms 0 coefs.items }
    requires constant_kept { nat_abs constant ≤ cap }
    requires g_least { pos 1 ≤ℤ g }
    requires exact { AreTerms 0 (quotient_terms coefs.items (nat_abs g)) }
    requires div_least { 1 ≤ nat_abs div / nat_abs g }
    requires div_greatest { nat_abs div ≤ cap }
    requires div_positive { pos 1 ≤ℤ div }
    ensures { result ≡ record { numer = quotient (record { terms = coefs.items; constant = constant }) (nat_abs g); div = nat_abs div / nat_abs g } }
{
    let mut coefs = coefs;
    divide_all(coefs.as_mut_slice(), g);
    let row = Row::from_parts(coefs, floor_of_words(constant, g));
    Move::from_parts(row, floor_of_words(div, g))
}

/// The constant of definition literal 0: of div*v - row in Rat, of div*v + div - 1 - row in Int.
fn upper_constant(sort: Sort, constant: i64, div: i64) -> i64
    requires constant_kept { nat_abs constant ≤ cap }
    requires div_least { pos 1 ≤ℤ div }
    requires div_greatest { nat_abs div ≤ cap }
    ensures value { result ≡ upper_constant_of sort constant (nat_abs div) }
    ensures size { nat_abs result ≤ 2 ^ 53 }
{
    match sort {
        Sort::Rat => -constant,
        Sort::Int => div - 1 - constant,
    }
}

/// The constant of a move's definition literal 0.
pub(crate) fn definition_constant(sort: Sort, term: &Move) -> i64
    ensures value { result ≡ upper_constant_of sort term.now.numer.constant term.now.div }
    ensures size { nat_abs result ≤ 2 ^ 53 }
    ensures of_move { IsMove term.now }
{
    let _coefs = term.row().coefs();
    upper_constant(sort, term.row().constant_part(), term.div())
}

/// The test of a kept move: its divisor is 1, and the number is not past the cap.
fn is_one_and_within(g: u64, number: i64) -> bool
    ensures { IsTrue result ↔ (g ≡ 1) × (number ≤ℤ pos cap) }
{
    g == 1 && number <= CAP
}

/// The move, which is in lowest form, where its definition is within the cap. Of the definition's numbers only the
/// constant of literal 0 can be past it, and only above.
pub(crate) fn with_definition(sort: Sort, term: Move) -> Result<Move, Wide>
    requires { IsLowest sort term }
    ensures { CappedWide (move_numbers sort term) term result }
{
    let number = definition_constant(sort, &term);
    if number > CAP {
        return Err(Wide {
            number: number as i128,
        });
    }
    Ok(term)
}
