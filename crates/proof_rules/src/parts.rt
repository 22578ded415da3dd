//! Facts read by their parts. A part on a path is negated, so its conjunctions are the matrix's disjunctions.

ghost use Rattle.std.specs.Prelude.{◌≡◌, ℕ, Some, option_map, option_and_then, slice_get, map, IfOk};
ghost use Rattle.std.specs.Option.{option_copied};
ghost use Rattle.lin_term.specs.declared.Sort.{Sort};
ghost use Rattle.dom_core.specs.Cube.{IsPrimitiveCube};
ghost use Rattle.dom_core.specs.View.{matrix_of, matrices_of};
ghost use Rattle.lose_system.specs.Written.{WrittenSystem};
ghost use Rattle.cube_rules.specs.Facts as facts_of;
ghost use Rattle.cube_rules.specs.Lines.{cases_line, leaves};
ghost use Rattle.cube_rules.specs.Context.{Context};
ghost use Rattle.proof_rules.specs.Held.{fact_of, next_of, or_part as or_part_of, and_parts as and_parts_of, IsFact, IsKeptNext, Leaves};

use crate::clause::Clause;
use crate::fact::{Fact, Next};
use dom_core::Matrix;
use lin_term::{Lit, Memory};
use std::rc::Rc;

/// The i-th part of a disjunction.
fn or_part(matrix: &Matrix, i: u32) -> Option<&Matrix>
    ensures { option_map (λ x. matrix_of x.now) result ≡ or_part_of i (matrix_of matrix.now) }
{
    match matrix {
        Matrix::Or(parts) => parts.get(i as usize),
        _ => None,
    }
}

/// The parts of a conjunction.
fn and_parts(matrix: &Matrix) -> Option<&[Matrix]>
    ensures { option_map (λ x. matrices_of x.now) result ≡ and_parts_of (matrix_of matrix.now) }
{
    match matrix {
        Matrix::And(parts) => Some(parts.as_slice()),
        _ => None,
    }
}

/// The literal, where the matrix is one.
pub fn literal_of(matrix: &Matrix) -> Option<&Lit>
    ensures { option_copied result ≡ facts_of.literal_of (matrix_of matrix.now) }
{
    match matrix {
        Matrix::Lit(lit) => Some(lit),
        _ => None,
    }
}

/// The i-th child of a fact that is a conjunction.
pub fn and_child<'a>(fact: &Fact<'a>, i: u32) -> Option<Fact<'a>>
    ensures value { (s : Sort) (w : WrittenSystem) → option_map (fact_of s w) result ≡ facts_of.and_child i (fact_of s w fact.now) }
    ensures kept { (s : Sort) (w : WrittenSystem) → IsFact s w fact.now → (f : _) → result ≡ Some f → IsFact s w f }
{
    match fact {
        Fact::OnPath(k, matrix) => {
            let matrix = *matrix;
            match or_part(matrix, i) {
                Some(part) => Some(Fact::OnPath(*k, part)),
                None => None,
            }
        }
        Fact::Known(_) | Fact::Learnt(_) => None,
    }
}

/// A subproof for each literal of a learnt disjunction, where it has `count` of them.
fn clause_cases<'a>(clause: &Rc<Clause>, count: u64) -> Result<Option<Next<'a>>, Memory>
    ensures value { IfOk result (λ o. (s : Sort) (w : WrittenSystem) (c : Context) → option_map (next_of s w c) o ≡ cases_line c count (leaves clause.now.value)) }
    ensures kept { IfOk result (λ o. (s : Sort) (w : WrittenSystem) → IsPrimitiveCube s clause.now.value → (n : _) → o ≡ Some n → IsKeptNext s w n) }
{
    if clause.len() as u64 == count {
        Ok(Some(Next::Literals(clause.clone()?)))
    } else {
        Ok(None)
    }
}

/// A subproof for each child, where the fact is a disjunction with `count` children.
pub fn or_cases<'a>(fact: &Fact<'a>, count: u64) -> Result<Option<Next<'a>>, Memory>
    ensures value { IfOk result (λ o. (s : Sort) (w : WrittenSystem) (c : Context) → option_map (next_of s w c) o ≡ option_and_then (cases_line c count) (facts_of.or_children (fact_of s w fact.now))) }
    ensures kept { IfOk result (λ o. (s : Sort) (w : WrittenSystem) → IsFact s w fact.now → (n : _) → o ≡ Some n → IsKeptNext s w n) }
{
    match fact {
        Fact::OnPath(k, matrix) => {
            let matrix = *matrix;
            match and_parts(matrix) {
                Some(parts) => {
                    if parts.len() as u64 == count {
                        Ok(Some(Next::Cases(*k, parts)))
                    } else {
                        Ok(None)
                    }
                }
                None => Ok(None),
            }
        }
        Fact::Known(_) => Ok(None),
        Fact::Learnt(clause) => clause_cases(clause, count),
    }
}
