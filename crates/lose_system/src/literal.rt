//! Literals at the nodes of a path.

ghost use Rattle.std.specs.Prelude.{◌≡◌, ◌^◌, None, IfOk, length};
ghost use Rattle.lin_term.specs.Linear.{Below};
ghost use Rattle.lin_term.specs.Literal.{IsPrimitive, neg, form_of, rename_lit};
ghost use Rattle.lin_term.specs.Wide.{first_past, lit_numbers};
ghost use Rattle.lin_term.specs.Rising.{IsRising, IsDefinable};
ghost use Rattle.lin_term.specs.Definition.{definition as definition_of};
ghost use Rattle.lose_system.specs.Losing.{literal_number};

use dom_core::Domain;
use lin_term::{Defined, Lit, Memory, Move, Short, Sort, negate, renamed};
use std::alloc::Global;

/// The negation of a primitive literal, in primitive form, with `names[i]` for variable i. The negation is within the
/// cap; the names ascend and are below 2^20, and the literal's variables are below their count. It refuses only for
/// memory.
#[tactic(auto, using(crate::proofs::Seen::neg_below))]
pub fn negated(alloc: Global, sort: Sort, lit: &Lit, names: &[u32]) -> Result<Lit, Memory>
    requires rising { IsRising names.now (2 ^ 20) }
    requires below { Below (length names.now) (form_of lit.now) }
    requires primitive { IsPrimitive sort lit.now }
    requires within { first_past (lit_numbers (neg sort lit.now)) ≡ None }
    ensures { IfOk result (λ l. l ≡ rename_lit names.now (neg sort lit.now)) }
{
    match negate(alloc, sort, lit) {
        Ok(negation) => renamed(alloc, &negation, names),
        Err(Short::Memory) => Err(Memory),
        Err(Short::Fault(_)) => unreachable!(),
    }
}

/// Definition literal `which` of a move's node; none exactly where `which` is above 1. It refuses only for memory.
pub fn defining<D: Domain>(
    alloc: Global,
    term: &Move,
    node: u32,
    names: &[u32],
    which: u32,
) -> Result<Option<Lit>, Memory>
    requires { IsDefinable D.SORT term.now names.now node }
    ensures { IfOk result (λ o. o ≡ literal_number which (definition_of D.SORT term.now names.now node)) }
{
    let Defined { upper, lower } = D::definition(alloc, term, node, names)?;
    match which {
        0 => Ok(Some(upper)),
        1 => Ok(Some(lower)),
        _ => Ok(None),
    }
}
