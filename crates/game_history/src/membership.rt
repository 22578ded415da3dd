//! Whether literals are ones of a losing system. It takes time in proportion to the product of the literals and of the system.

ghost use Rattle.std.specs.Prelude.{◌≡◌, ◌↔◌, IsTrue, IfOk, length};
ghost use Rattle.dom_core.specs.View.{matrix_of, matrices_of};
ghost use Rattle.lose_system.specs.Losing.{definition_at};
ghost use Rattle.lose_system.specs.Written.{system_of};
ghost use Rattle.game_tree.specs.Among.{IsAmong, EachIs, SomeIs};
ghost use Rattle.game_history.specs.Legal.{definition_literals, IsOfMatrix, IsOfSome, IsOfSystem};
ghost use Rattle.game_history.specs.Literals.{IsLiteralOf};

use dom_core::{Domain, Matrix};
use lin_term::{Lit, Memory};
use lose_system::System;
use std::alloc::Global;

/// Whether the literal is one of the matrix. It calls itself once a level.
#[cycle(literals)]
fn has_literal(matrix: &Matrix, lit: &Lit) -> bool
    ensures { IsTrue result ↔ IsOfMatrix lit.now (matrix_of matrix.now) }
{
    match matrix {
        Matrix::Lit(own) => lit.is_same(own),
        Matrix::And(parts) => some_has_literal(parts.as_slice(), lit),
        Matrix::Or(parts) => some_has_literal(parts.as_slice(), lit),
    }
}

/// Whether one of the parts has it.
#[cycle(literals)]
fn some_has_literal(parts: &[Matrix], lit: &Lit) -> bool
    ensures { IsTrue result ↔ IsOfSome lit.now (matrices_of parts.now) }
{
    for part in parts {
        if has_literal(part, lit) {
            return true;
        }
    }
    false
}

/// Whether the literal is one of the two of a node's definition.
#[tactic(auto, using(crate::proofs::OfSystem::no_definition, crate::proofs::OfSystem::no_lower, crate::proofs::OfSystem::is_upper, crate::proofs::OfSystem::lower_says))]
fn is_at_node<D: Domain>(
    alloc: Global,
    system: &System<'_, D>,
    node: u32,
    lit: &Lit,
) -> Result<bool, Memory>
    ensures { IfOk result (λ b. IsTrue b ↔ IsLiteralOf (definition_at (system_of D.SORT system.now).defs node) lit.now) }
{
    let Some(upper) = system.definition(alloc, node, 0)? else {
        return Ok(false);
    };
    if lit.is_same(&upper) {
        return Ok(true);
    }
    let Some(lower) = system.definition(alloc, node, 1)? else {
        return Ok(false);
    };
    Ok(lit.is_same(&lower))
}

/// Whether the literal is one of a definition.
fn is_definition<D: Domain>(
    alloc: Global,
    system: &System<'_, D>,
    lit: &Lit,
) -> Result<bool, Memory>
    ensures { IfOk result (λ b. IsTrue b ↔ IsAmong lit.now (definition_literals (system_of D.SORT system.now).defs)) }
{
    for node in 0..system.node_count() {
        let here = is_at_node(alloc, system, node, lit)?;
        if here {
            return Ok(true);
        }
    }
    Ok(false)
}

/// Whether the literal is one of a path's matrix.
fn is_of_path<D: Domain>(alloc: Global, system: &System<'_, D>, lit: &Lit) -> Result<bool, Memory>
    ensures { IfOk result (λ b. IsTrue b ↔ SomeIs (IsOfMatrix lit.now) (system_of D.SORT system.now).paths) }
{
    for k in 0..system.path_count() {
        let Some(matrix) = system.path(alloc, k)? else {
            return Ok(false);
        };
        if has_literal(&matrix, lit) {
            return Ok(true);
        }
    }
    Ok(false)
}

/// Whether the literal is one of the system.
#[tactic(auto, using(crate::proofs::OfSystem::first_says, crate::proofs::OfSystem::second_says, crate::proofs::OfSystem::refuted))]
fn is_of_system<D: Domain>(alloc: Global, system: &System<'_, D>, lit: &Lit) -> Result<bool, Memory>
    ensures { IfOk result (λ b. IsTrue b ↔ IsOfSystem (system_of D.SORT system.now) lit.now) }
{
    let defines = is_definition(alloc, system, lit)?;
    if defines {
        return Ok(true);
    }
    is_of_path(alloc, system, lit)
}

/// Whether all literals are ones of the system: definition literals, or literals of a path's matrix. It refuses only for memory.
pub fn are_of_system<D: Domain>(
    alloc: Global,
    system: &System<'_, D>,
    lits: &[Lit],
) -> Result<bool, Memory>
    ensures { IfOk result (λ b. IsTrue b ↔ EachIs (IsOfSystem (system_of D.SORT system.now)) lits.now) }
{
    for lit in lits {
        let one = is_of_system(alloc, system, lit)?;
        if !one {
            return Ok(false);
        }
    }
    Ok(true)
}
