//! Bounded linear arithmetic: rows, literals and moves, exact or refused by the first number past the cap.
#![tactic(auto)]

mod adding;
mod blend;
mod closed;
mod coefficient;
mod combining;
mod definition;
mod fault;
mod fraction;
mod lit;
mod moves;
mod numbers;
mod order;
mod point;
mod primitive_form;
mod putting;
mod renaming;
mod row;
mod same;
mod settle;
mod wide_move;

pub use adding::add_multiples;
pub use blend::{common_of_sum, product, quotients_of_sum};
pub use closed::closed_truth;
pub use coefficient::coefficient_at;
pub use combining::{CombineFault, combine};
pub use definition::{Defined, definition_literals};
pub use fault::{Memory, Short, Wide};
pub use fraction::{Fraction, compare_fractions};
pub use lit::Lit;
pub use moves::Move;
pub use numbers::{floor_quotient, gcd_of, gcd_of_words, is_within};
pub use point::{Point, dot, literal_holds};
pub use primitive_form::{negate, primitive};
pub use putting::{divides_in, put_in, substitute};
pub use renaming::{renamed, renamed_row};
pub use row::{CAP, Coefs, Row, Sort};
