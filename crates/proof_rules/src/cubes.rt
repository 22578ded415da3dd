//! The rule that keeps some facts alone.

ghost use Rattle.std.specs.Prelude.{◌≡◌, ℕ, Bool, is_some, option_map, IfOk};
ghost use Rattle.lin_term.specs.declared.Sort.{Sort};
ghost use Rattle.dom_core.specs.View.{matrix_of};
ghost use Rattle.lose_system.specs.Written.{WrittenSystem};
ghost use Rattle.cube_rules.specs.Facts as facts_of;
ghost use Rattle.cube_rules.specs.Lines.{cube_line};
ghost use Rattle.proof_rules.specs.Held.{fact_of, context_of, IsFact, AreFacts, Leaves};

use crate::fact::{Fact, Next};
use crate::literals::fact_at;
use dom_core::Matrix;
use lin_term::Memory;
use sqlite_items::Items;
use std::alloc::Global;

/// The fact once more; it takes no memory of its own.
fn again<'a>(fact: &Fact<'a>) -> Result<Fact<'a>, Memory>
    ensures value { IfOk result (λ f. (s : Sort) (w : WrittenSystem) → fact_of s w f ≡ fact_of s w fact.now) }
    ensures kept { IfOk result (λ f. (s : Sort) (w : WrittenSystem) → IsFact s w fact.now → IsFact s w f) }
{
    match fact {
        Fact::OnPath(path, matrix) => Ok(Fact::OnPath(*path, *matrix)),
        Fact::Known(lit) => Ok(Fact::Known(lit.clone()?)),
        Fact::Learnt(clause) => Ok(Fact::Learnt(clause.clone()?)),
    }
}

/// Whether the fact is a literal.
fn is_literal(fact: &Fact<'_>) -> bool
    ensures { (s : Sort) (w : WrittenSystem) → result ≡ is_some (facts_of.literal_of (fact_of s w fact.now)) }
{
    match fact {
        Fact::Known(_) => true,
        Fact::Learnt(_) => false,
        Fact::OnPath(_, matrix) => {
            let matrix = *matrix;
            is_leaf(matrix)
        }
    }
}

fn is_leaf(matrix: &Matrix) -> bool
    ensures { result ≡ is_some (facts_of.literal_of (matrix_of matrix.now)) }
{
    match matrix {
        Matrix::Lit(_) => true,
        _ => false,
    }
}

/// `cube`: at least one fact, all of them literals, which alone stay.
pub fn cube<'a>(
    alloc: Global,
    facts: &[Fact<'a>],
    numbers: &[u32],
) -> Result<Option<Next<'a>>, Memory>
    ensures { IfOk result (λ o. (s : Sort) (w : WrittenSystem) (bare : Bool) → AreFacts s w facts.now → Leaves s w (context_of s w bare facts.now) (cube_line (context_of s w bare facts.now) numbers.now) o) }
{
    let mut kept = Items::new(alloc);
    for number in numbers {
        let Some(fact) = fact_at(facts, *number) else {
            return Ok(None);
        };
        if !is_literal(fact) {
            return Ok(None);
        }
        kept.push(again(fact)?)?;
    }
    if numbers.is_empty() {
        return Ok(None);
    }
    Ok(Some(Next::Cube(kept)))
}
