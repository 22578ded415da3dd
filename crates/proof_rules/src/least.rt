//! The rule of least values: a variable is taken out of the cube of a bare context (Cooper 1972).

ghost use Rattle.std.specs.Prelude.{◌≡◌, map, IfOk, IfSome};
ghost use Rattle.dom_core.specs.Cube.{IsPrimitiveCube};
ghost use Rattle.game_tree.specs.Skeleton.{nodes};
ghost use Rattle.game_tree.specs.View.{skeleton_of};
ghost use Rattle.cube_rules.specs.Facts.{all_literals};
ghost use Rattle.cube_rules.specs.Lines.{least_line};
ghost use Rattle.proof_rules.specs.Held.{fact_of, context_of, AreFacts, Leaves};

use crate::fact::{Fact, Next};
use crate::left::CasesLeft;
use crate::literals::literal;
use cube_rules::least_of;
use dom_core::{Cube, Domain};
use lin_term::Memory;
use lose_system::System;
use sqlite_items::Items;
use std::alloc::Global;

/// The facts as a cube, where all are literals.
fn cube_of<D: Domain>(
    alloc: Global,
    system: &System<'_, D>,
    facts: &[Fact<'_>],
) -> Result<Option<Cube>, Memory>
    requires { AreFacts D.SORT system.now facts.now }
    ensures value { IfOk result (λ o. o ≡ all_literals (map (fact_of D.SORT system.now) facts.now)) }
    ensures primitive { IfOk result (λ o. IfSome o (λ c. IsPrimitiveCube D.SORT c)) }
{
    let mut lits = Items::new(alloc);
    for fact in facts {
        let Some(lit) = literal(alloc, system, fact)? else {
            return Ok(None);
        };
        lits.push(lit.copy(alloc)?)?;
    }
    Ok(Some(Cube::from_lits(lits)))
}

/// `least`: a subproof for each case of the node. The cases are counted before any is built, and each is built once to
/// see that its numbers are within the cap, and once more when its turn comes.
pub fn least<'a, D: Domain>(
    alloc: Global,
    system: &System<'a, D>,
    bare: bool,
    facts: &[Fact<'a>],
    node: u32,
    count: u64,
) -> Result<Option<Next<'a>>, Memory>
    requires { AreFacts D.SORT system.now facts.now }
    ensures { IfOk result (λ o. Leaves D.SORT system.now (context_of D.SORT system.now bare facts.now) (least_line D.SORT (nodes (skeleton_of system.now.tree)) (context_of D.SORT system.now bare facts.now) node count) o) }
{
    let Some(cube) = cube_of(alloc, system, facts)? else {
        return Ok(None);
    };
    let nodes = system.node_count();
    let Some(elimination) = least_of(alloc, D::SORT, nodes, bare, cube, node, count)? else {
        return Ok(None);
    };
    match CasesLeft::all(elimination) {
        Some(left) => Ok(Some(Next::Least(left))),
        None => Ok(Some(Next::Closed)),
    }
}
