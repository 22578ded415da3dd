//! The rule of disjunctions that are proved once and read further down.

ghost use Rattle.std.specs.Prelude.{◌≡◌, true, IfOk};
ghost use Rattle.lin_term.specs.declared.Sort.{Sort};
ghost use Rattle.lose_system.specs.Written.{WrittenSystem};
ghost use Rattle.dom_core.specs.Cube.{IsPrimitiveCube};
ghost use Rattle.game_tree.specs.Skeleton.{nodes};
ghost use Rattle.game_tree.specs.View.{skeleton_of};
ghost use Rattle.cube_rules.specs.declared.Step.TheVariants as step;
ghost use Rattle.cube_rules.specs.Limits.{is_within};
ghost use Rattle.cube_rules.specs.Lines.{learn_line, either_of};
ghost use Rattle.proof_rules.specs.Held.{fact_of, context_of, IsFact, Leaves};

use crate::clause::Clause;
use crate::fact::{Fact, Next};
use crate::literals::shared;
use cube_rules::split_in_two;
use dom_core::Domain;
use lin_term::{Lit, Memory};
use lose_system::System;
use sqlite_items::Items;
use std::alloc::Global;
use std::rc::Rc;

/// The disjunction as a fact: a literal, where it has one.
fn either<'a>(alloc: Global, clause: Clause) -> Result<Fact<'a>, Memory>
    ensures value { IfOk result (λ f. (s : Sort) (w : WrittenSystem) → fact_of s w f ≡ either_of clause) }
    ensures kept { IfOk result (λ f. (s : Sort) (w : WrittenSystem) → IsPrimitiveCube s clause → IsFact s w f) }
{
    if clause.len() == 1 {
        let Some(literal) = clause.literal(0)? else {
            unreachable!();
        };
        return Ok(Fact::Known(literal));
    }
    match Rc::new(alloc, clause) {
        Ok(place) => Ok(Fact::Learnt(place)),
        Err(_) => Err(Memory),
    }
}

/// `learn`: in an open context a subproof of the literals' negations, and one of their disjunction. Each literal and its
/// negation are held once, whatever lines read them.
pub fn learn<'a, D: Domain>(
    alloc: Global,
    system: &System<'a, D>,
    bare: bool,
    lits: &[Lit],
) -> Result<Option<Next<'a>>, Memory>
    requires { is_within (step.Learn lits.now) ≡ true }
    ensures { IfOk result (λ o. (facts : _) → Leaves D.SORT system.now (context_of D.SORT system.now bare facts) (learn_line D.SORT (nodes (skeleton_of system.now.tree)) (context_of D.SORT system.now bare facts) lits.now) o) }
{
    if bare {
        return Ok(None);
    }
    let nodes = system.node_count();
    let mut clause = Clause::new(alloc);
    let mut negations = Items::new(alloc);
    for lit in lits {
        let Some(both) = split_in_two(alloc, D::SORT, nodes, lit)? else {
            return Ok(None);
        };
        let (literal, negation) = both;
        clause.push(shared(alloc, literal)?)?;
        negations.push(Fact::Known(shared(alloc, negation)?))?;
    }
    let fact = either(alloc, clause)?;
    Ok(Some(Next::Learn(negations, fact)))
}
