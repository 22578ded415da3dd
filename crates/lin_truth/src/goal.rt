//! The question of one check-sat.

ghost use Rattle.std.specs.Prelude.{◌≡◌, IfOk};
ghost use Rattle.lin_truth.specs.Goal.{Goal, IsGoal};
ghost use Rattle.lin_truth.specs.View.{tree_of};

use crate::term::{Term, VarSort};
use lin_term::Sort;
use sqlite_items::Items;
use std::marker::Model;

/// A closed formula: there are values for the declared constants that make the body true.
/// The type keeps that the body is well formed: sorts fit, places are in range, numbers are within the cap and in
/// lowest terms, at most one factor of a product is no constant term, and each divisor is a constant term other than 0.
#[derive(Debug, Drop)]
pub struct Goal {
    sort: Sort,
    line: u64,
    column: u64,
    consts: Items<VarSort>,
    body: Term,
}

impl Model for Goal {
    ghost use Rattle.lin_truth.specs.Goal.{Goal, IsGoal};
    ghost use Rattle.lin_truth.specs.contracts.term.Term as t;
    ghost use Rattle.std.specs.Coded.{codes};

    ghost Value = { Goal };

    ghost coded = { Prim.hlevel (codes, t.the_row.coded) };

    ghost view = { λ g. record { sort = g.sort; line = g.line; column = g.column; consts = g.consts; body = g.body } };

    ghost invariant = { λ g. IsGoal (record { sort = g.sort; line = g.line; column = g.column; consts = g.consts; body = g.body }) };
}

impl Goal {
    /// The goal of these parts. The body must be a well-formed formula over the constants, with numbers in lowest terms
    /// within 2^52. The place is that of its check-sat, from 1, columns in bytes.
    pub fn make(sort: Sort, line: u64, column: u64, consts: Items<VarSort>, body: Term) -> Goal
        requires { IsGoal (record { sort = sort; line = line; column = column; consts = consts; body = body }) }
        ensures { result ≡ record { sort = sort; line = line; column = column; consts = consts; body = body } }
    {
        Goal {
            sort,
            line,
            column,
            consts,
            body,
        }
    }

    /// The sort of its numbers.
    pub fn sort(&self) -> Sort
        ensures { result ≡ self.now.sort }
    {
        self.sort
    }

    /// The line of its check-sat, from 1.
    pub fn line(&self) -> u64
        ensures { result ≡ self.now.line }
    {
        self.line
    }

    /// The column of its check-sat in bytes, from 1.
    pub fn column(&self) -> u64
        ensures { result ≡ self.now.column }
    {
        self.column
    }

    /// The sorts of the declared constants, in the order of declaration.
    pub fn consts(&self) -> &[VarSort]
        ensures { result.now ≡ self.now.consts }
    {
        self.consts.as_slice()
    }

    /// The conjunction of the assertions, over the constants.
    pub fn body(&self) -> &Term
        ensures value { result.now ≡ self.now.body }
        ensures kept { IsGoal self.now }
    {
        &self.body
    }
}
