//! The rules that make literals: sums and splits.

ghost use Rattle.std.specs.Prelude.{◌≡◌, ◌≤◌, ◌^◌, ℕ, ℤ, nat_abs, Bool, None, IfOk};
ghost use Rattle.lin_term.specs.Form.{cap};
ghost use Rattle.lin_term.specs.Wide.{first_past, lit_numbers};
ghost use Rattle.game_tree.specs.Skeleton.{nodes};
ghost use Rattle.game_tree.specs.View.{skeleton_of};
ghost use Rattle.cube_rules.specs.Context.{Context};
ghost use Rattle.cube_rules.specs.declared.Step.TheVariants as step;
ghost use Rattle.cube_rules.specs.Lines.{cube_step, split_line};
ghost use Rattle.proof_rules.specs.Held.{context_of, AreFacts, Leaves};

use crate::fact::{Fact, Next};
use crate::literals::{literal_at, shared};
use cube_rules::{split_in_two, summed};
use dom_core::Domain;
use lin_term::{Lit, Memory};
use lose_system::System;
use std::alloc::Global;

/// `sum`: p times fact f and q times fact h, divided by g.
pub fn sum<'a, D: Domain>(
    alloc: Global,
    system: &System<'a, D>,
    facts: &[Fact<'a>],
    p: i64,
    f: u32,
    q: i64,
    h: u32,
    g: i128,
) -> Result<Option<Next<'a>>, Memory>
    requires facts { AreFacts D.SORT system.now facts.now }
    requires p_kept { nat_abs p ≤ cap }
    requires q_kept { nat_abs q ≤ cap }
    requires g_kept { nat_abs g ≤ 2 ^ 105 }
    ensures { IfOk result (λ o. (bare : Bool) (n : ℕ) → Leaves D.SORT system.now (context_of D.SORT system.now bare facts.now) (cube_step D.SORT n (context_of D.SORT system.now bare facts.now) (step.Sum p f q h g)) o) }
{
    let Some(a) = literal_at(alloc, system, facts, f)? else {
        return Ok(None);
    };
    let Some(b) = literal_at(alloc, system, facts, h)? else {
        return Ok(None);
    };
    match summed(alloc, D::SORT, p, &a, q, &b, g)? {
        Some(lit) => Ok(Some(Next::Goes(Fact::Known(shared(alloc, lit)?)))),
        None => Ok(None),
    }
}

/// `split`: a subproof of the literal and one of its negation.
pub fn split<'a, D: Domain>(
    alloc: Global,
    system: &System<'a, D>,
    lit: &Lit,
) -> Result<Option<Next<'a>>, Memory>
    requires { first_past (lit_numbers lit.now) ≡ None }
    ensures { IfOk result (λ o. (c : Context) → Leaves D.SORT system.now c (split_line D.SORT (nodes (skeleton_of system.now.tree)) c lit.now) o) }
{
    match split_in_two(alloc, D::SORT, system.node_count(), lit)? {
        Some(both) => {
            let (first, second) = both;
            let first = shared(alloc, first)?;
            let second = shared(alloc, second)?;
            Ok(Some(Next::Split(first, second)))
        }
        None => Ok(None),
    }
}
