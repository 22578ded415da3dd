//! What a line leaves, by its rule.

ghost use Rattle.std.specs.Prelude.{◌≡◌, true, IfOk, IfSome};
ghost use Rattle.lose_system.specs.Written.{system_of};
ghost use Rattle.cube_rules.specs.Limits.{IsStep, is_within};
ghost use Rattle.proof_rules.specs.Rules.{apply as apply_rule};
ghost use Rattle.proof_rules.specs.Held.{context_of, AreFacts, Leaves};

use crate::cubes::cube;
use crate::fact::{Fact, Next};
use crate::learn::learn;
use crate::least::least;
use crate::lines::{cases, def, falsity, part, path};
use crate::made::{split, sum};
use cube_rules::{Step, within};
use dom_core::Domain;
use lin_term::Memory;
use lose_system::System;
use std::alloc::Global;

/// What a line within its limits leaves, or none where it breaks its rule.
fn by_kind<'a, D: Domain>(
    alloc: Global,
    system: &System<'a, D>,
    bare: bool,
    facts: &[Fact<'a>],
    step: &Step,
) -> Result<Option<Next<'a>>, Memory>
    requires facts { AreFacts D.SORT system.now facts.now }
    requires within { is_within step.now ≡ true }
    ensures { IfOk result (λ o. Leaves D.SORT system.now (context_of D.SORT system.now bare facts.now) (apply_rule D.SORT (system_of D.SORT system.now) (context_of D.SORT system.now bare facts.now) step.now) o) }
{
    match step {
        Step::Path(k) => Ok(path(system, bare, *k)),
        Step::Def(node, which) => def(alloc, system, bare, *node, *which),
        Step::Part(f, i) => Ok(part(facts, *f, *i)),
        Step::Cases(f, count) => cases(facts, *f, *count),
        Step::Sum(p, f, q, h, g) => sum(alloc, system, facts, *p, *f, *q, *h, *g),
        Step::Split(lit) => split(alloc, system, lit),
        Step::Cube(numbers) => cube(alloc, facts, numbers.as_slice()),
        Step::Least(node, count) => least(alloc, system, bare, facts, *node, *count),
        Step::Learn(lits) => learn(alloc, system, bare, lits.as_slice()),
        Step::False(f) => falsity(alloc, system, facts, *f),
    }
}

/// What a line leaves, or none where it breaks its rule.
pub fn apply<'a, D: Domain>(
    alloc: Global,
    system: &System<'a, D>,
    bare: bool,
    facts: &[Fact<'a>],
    step: &Step,
) -> Result<Option<Next<'a>>, Memory>
    requires { AreFacts D.SORT system.now facts.now }
    ensures leaves { IfOk result (λ o. Leaves D.SORT system.now (context_of D.SORT system.now bare facts.now) (apply_rule D.SORT (system_of D.SORT system.now) (context_of D.SORT system.now bare facts.now) step.now) o) }
    ensures step { IfOk result (λ o. IfSome o (λ _. IsStep step.now)) }
{
    if !within(step) {
        return Ok(None);
    }
    by_kind(alloc, system, bare, facts, step)
}
