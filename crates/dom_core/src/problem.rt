//! A prefix over a matrix.

ghost use Rattle.std.specs.Prelude.{◌≡◌, ◌≤◌, ◌↔◌, IfOk, IsTrue, length};
ghost use Rattle.lin_term.specs.Wide.{Capped};
ghost use Rattle.dom_core.specs.Game.{IsMatrix, dual};
ghost use Rattle.dom_core.specs.View.{matrix_of};
ghost use Rattle.dom_core.specs.Problem.{WrittenProblem, IsProblem, problem_of, IsTrueProblem};
ghost use Rattle.dom_core.specs.Negation.{IsPrimitiveMatrix, negation_numbers};

use crate::domain::Domain;
use crate::matrix::Matrix;
use crate::negation::{negated, wide_negation};
use crate::quant::{Quant, flipped, is_same_prefix};
use lin_term::{Memory, Short, Wide};
use sqlite_items::Items;
use std::alloc::Global;
use std::marker::{Model, PhantomData};

/// A prefix of at most 1,024 variables and a matrix over them. Each literal is primitive, its variables are below the
/// length of the prefix, and its negation is within the cap.
#[derive(Drop)]
pub struct Problem<D: Domain> {
    prefix: Items<Quant>,
    matrix: Matrix,
    of: PhantomData<D>,
}

impl<D: Domain> Model for Problem<D> {
    ghost use Rattle.dom_core.specs.Problem.{WrittenProblem, IsProblem};
    ghost use Rattle.dom_core.specs.contracts.matrix.Matrix as m;
    ghost use Rattle.std.specs.Coded.{codes};

    ghost Value = { WrittenProblem };

    ghost coded = { Prim.hlevel (codes, m.the_row.coded) };

    ghost view = { λ p. record { prefix = p.prefix; matrix = p.matrix } };

    ghost invariant = { λ p. IsProblem D.SORT (record { prefix = p.prefix; matrix = p.matrix }) };
}

impl<D: Domain> Problem<D> {
    /// The problem of at most 1,024 variables and a matrix of primitive literals over them. Wide names the first number
    /// past the cap of a literal's negation, literals from left to right; where there is none, it refuses only for memory.
    pub fn make(
        alloc: Global,
        prefix: Items<Quant>,
        matrix: Matrix,
    ) -> Result<Problem<D>, Short<Wide>>
        requires few { length prefix ≤ 1024 }
        requires over { IsMatrix (matrix_of matrix) D.SORT (length prefix) }
        requires primitive { IsPrimitiveMatrix (matrix_of matrix) D.SORT }
        ensures { Capped (negation_numbers (matrix_of matrix) D.SORT) (record { prefix = prefix; matrix = matrix }) result }
    {
        match wide_negation(alloc, D::SORT, &matrix)? {
            Some(number) => Err(Short::Fault(Wide { number })),
            None => Ok(Problem::from_parts(prefix, matrix)),
        }
    }

    /// The problem of parts that meet all that the type keeps: at most 1,024 variables, and each literal primitive, its
    /// variables below the length of the prefix, its negation within the cap.
    pub fn from_parts(prefix: Items<Quant>, matrix: Matrix) -> Problem<D>
        requires { IsProblem D.SORT (record { prefix = prefix; matrix = matrix }) }
        ensures { result ≡ record { prefix = prefix; matrix = matrix } }
    {
        Problem {
            prefix,
            matrix,
            of: PhantomData,
        }
    }

    /// Who chooses each variable, from the outside in.
    pub fn prefix(&self) -> &[Quant]
        ensures { result.now ≡ self.now.prefix }
    {
        self.prefix.as_slice()
    }

    /// The formula that Exists wants true.
    pub fn matrix(&self) -> &Matrix
        ensures value { result.now ≡ self.now.matrix }
        ensures kept { IsProblem D.SORT self.now }
    {
        &self.matrix
    }

    /// An equal problem; refuses only for memory.
    pub fn copy(&self, alloc: Global) -> Result<Problem<D>, Memory>
        ensures { IfOk result (λ p. p ≡ self.now) }
    {
        let prefix = Items::from_slice(alloc, self.prefix.as_slice())?;
        let matrix = self.matrix.copy(alloc)?;
        Ok(Problem {
            prefix,
            matrix,
            of: PhantomData,
        })
    }

    /// Whether the problems are equal: the same prefix, and the same matrix as it is written.
    pub fn is_same(&self, other: &Problem<D>) -> bool
        ensures { IsTrue result ↔ (self.now ≡ other.now) }
    {
        is_same_prefix(self.prefix(), other.prefix()) && self.matrix().is_same(other.matrix())
    }

    /// The problem in which the players have changed places: each quantifier flipped, the matrix negated, with its
    /// parts in the same order. Refuses only for memory.
    pub fn dual(&self, alloc: Global) -> Result<Problem<D>, Memory>
        ensures value { IfOk result (λ p. problem_of p ≡ dual D.SORT (problem_of self.now)) }
        // It is true exactly where the problem is not.
        ensures contrary { IfOk result (λ p. IsTrueProblem D.SORT p ↔ ¬ IsTrueProblem D.SORT self.now) }
        // Its own dual is the problem.
        ensures inverse { IfOk result (λ p. dual D.SORT (problem_of p) ≡ problem_of self.now) }
    {
        let prefix = flipped(alloc, self.prefix.as_slice())?;
        let matrix = negated(alloc, D::SORT, &self.matrix)?;
        Ok(Problem::from_parts(prefix, matrix))
    }
}
