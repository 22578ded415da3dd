//! The rules, one function each: what the line leaves, or none where it breaks its rule.

ghost use Rattle.std.specs.Prelude.{◌≡◌, ℕ, Bool, true, false, IfOk};
ghost use Rattle.lin_term.specs.declared.Sort.{Sort};
ghost use Rattle.lose_system.specs.Written.{WrittenSystem, system_of};
ghost use Rattle.cube_rules.specs.declared.Step.TheVariants as step;
ghost use Rattle.cube_rules.specs.Lines.{cube_step};
ghost use Rattle.proof_rules.specs.Rules.{path_line, def_line};
ghost use Rattle.proof_rules.specs.Held.{context_of, AreFacts, Leaves};

use crate::fact::{Fact, Next};
use crate::literals::{fact_at, literal_at, shared};
use crate::parts::{and_child, or_cases};
use cube_rules::is_false_literal;
use dom_core::Domain;
use lin_term::Memory;
use lose_system::System;
use std::alloc::Global;

/// `path`: the negated matrix of a path, in an open context.
pub fn path<'a, D: Domain>(system: &System<'a, D>, bare: bool, k: u32) -> Option<Next<'a>>
    ensures { (facts : _) → Leaves D.SORT system.now (context_of D.SORT system.now bare facts) (path_line (system_of D.SORT system.now) (context_of D.SORT system.now bare facts) k) result }
{
    if bare || k >= system.path_count() {
        return None;
    }
    Some(Next::Goes(Fact::OnPath(k, system.matrix())))
}

/// `def`: a definition literal of a move, in an open context.
pub fn def<'a, D: Domain>(
    alloc: Global,
    system: &System<'a, D>,
    bare: bool,
    node: u32,
    which: u32,
) -> Result<Option<Next<'a>>, Memory>
    ensures { IfOk result (λ o. (facts : _) → Leaves D.SORT system.now (context_of D.SORT system.now bare facts) (def_line (system_of D.SORT system.now) (context_of D.SORT system.now bare facts) node which) o) }
{
    if bare {
        return Ok(None);
    }
    match system.definition(alloc, node, which)? {
        Some(lit) => Ok(Some(Next::Goes(Fact::Known(shared(alloc, lit)?)))),
        None => Ok(None),
    }
}

/// `part`: a child of a fact that is a conjunction.
pub fn part<'a>(facts: &[Fact<'a>], f: u32, i: u32) -> Option<Next<'a>>
    ensures { (s : Sort) (w : WrittenSystem) (bare : Bool) (n : ℕ) → AreFacts s w facts.now → Leaves s w (context_of s w bare facts.now) (cube_step s n (context_of s w bare facts.now) (step.Part f i)) result }
{
    let Some(fact) = fact_at(facts, f) else {
        return None;
    };
    match and_child(fact, i) {
        Some(child) => Some(Next::Goes(child)),
        None => None,
    }
}

/// `cases`: a subproof for each child of a fact that is a disjunction.
pub fn cases<'a>(facts: &[Fact<'a>], f: u32, count: u64) -> Result<Option<Next<'a>>, Memory>
    ensures { IfOk result (λ o. (s : Sort) (w : WrittenSystem) (bare : Bool) (n : ℕ) → AreFacts s w facts.now → Leaves s w (context_of s w bare facts.now) (cube_step s n (context_of s w bare facts.now) (step.Cases f count)) o) }
{
    let Some(fact) = fact_at(facts, f) else {
        return Ok(None);
    };
    or_cases(fact, count)
}

/// `false`: a fact that is a literal without variables and false.
pub fn falsity<'a, D: Domain>(
    alloc: Global,
    system: &System<'a, D>,
    facts: &[Fact<'a>],
    f: u32,
) -> Result<Option<Next<'a>>, Memory>
    requires { AreFacts D.SORT system.now facts.now }
    ensures { IfOk result (λ o. (bare : Bool) (n : ℕ) → Leaves D.SORT system.now (context_of D.SORT system.now bare facts.now) (cube_step D.SORT n (context_of D.SORT system.now bare facts.now) (step.False f)) o) }
{
    let Some(lit) = literal_at(alloc, system, facts, f)? else {
        return Ok(None);
    };
    if is_false_literal(&lit) {
        Ok(Some(Next::Closed))
    } else {
        Ok(None)
    }
}
