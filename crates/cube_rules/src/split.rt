//! The rule of splits: a literal or its negation holds.

ghost use Rattle.std.specs.Prelude.{◌≡◌, None, Some, IfOk};
ghost use Rattle.lin_term.specs.Literal.{neg};
ghost use Rattle.lin_term.specs.Wide.{first_past, lit_numbers};
ghost use Rattle.cube_rules.specs.Facts.{guard};
ghost use Rattle.cube_rules.specs.Lines.{is_split};

use crate::literal::{has_variables_below, is_primitive_literal};
use lin_term::{Lit, Memory, Short, Sort, negate};
use std::alloc::Global;

/// The negation of a literal that may be split upon.
pub(crate) fn negation_of(
    alloc: Global,
    sort: Sort,
    nodes: u32,
    lit: &Lit,
) -> Result<Option<Lit>, Memory>
    requires kept { first_past (lit_numbers lit.now) ≡ None }
    ensures { IfOk result (λ o. o ≡ guard (is_split sort nodes lit.now) (Some (neg sort lit.now))) }
{
    if !is_primitive_literal(alloc, sort, lit)? {
        return Ok(None);
    }
    if !has_variables_below(lit, nodes) {
        return Ok(None);
    }
    match negate(alloc, sort, lit) {
        Ok(negation) => Ok(Some(negation)),
        Err(Short::Fault(_)) => Ok(None),
        Err(Short::Memory) => Err(Memory),
    }
}

/// A copy of the literal, and its negation in primitive form. None exactly where the literal is not primitive, a
/// variable is not below `nodes`, or the negation has a number past the cap. The literal's own numbers are within it. It
/// refuses only for memory.
pub fn split_in_two(
    alloc: Global,
    sort: Sort,
    nodes: u32,
    lit: &Lit,
) -> Result<Option<(Lit, Lit)>, Memory>
    requires kept { first_past (lit_numbers lit.now) ≡ None }
    ensures { IfOk result (λ o. o ≡ guard (is_split sort nodes lit.now) (Some (lit.now, neg sort lit.now))) }
{
    match negation_of(alloc, sort, nodes, lit)? {
        Some(negation) => Ok(Some((lit.copy(alloc)?, negation))),
        None => Ok(None),
    }
}
