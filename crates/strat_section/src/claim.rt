//! The section that claims a won game.

ghost use Rattle.std.specs.Prelude.{◌≡◌, IfOk, map};
ghost use Rattle.dom_core.specs.Game.{Problem};
ghost use Rattle.dom_core.specs.Problem.{problem_of};
ghost use Rattle.dom_core.specs.Sides.{problem_for};
ghost use Rattle.strat_text.specs.Spelling.{IsSection};
ghost use Rattle.strat_text.specs.Sections.{HasLines};
ghost use Rattle.strat_check.specs.Section.{is_mine};
ghost use Rattle.strat_check.specs.Accepted.{Accepts};
ghost use Rattle.strat_section.specs.Claim.{claim_of};

use cube_rules::Step;
use dom_core::{Domain, Quant, Side};
use lin_term::Memory;
use proof_rules::Won;
use sqlite_items::Items;
use std::alloc::{AllocError, Global};
use strat_text::Section;

/// Whether a variable belongs to the player of Exists.
fn is_mine(quant: Quant) -> bool
    ensures { result ≡ is_mine quant }
{
    match quant {
        Quant::Exists => true,
        Quant::Forall => false,
    }
}

/// True for each variable of Exists.
fn turns(alloc: Global, prefix: &[Quant]) -> Result<Items<bool>, AllocError>
    ensures { IfOk result (λ ts. ts ≡ map is_mine prefix.now) }
{
    let mut all = Items::new(alloc);
    for quant in prefix {
        all.push(is_mine(*quant))?;
    }
    Ok(all)
}

/// Equal lines, in order.
fn copied(alloc: Global, proof: &[Step]) -> Result<Items<Step>, Memory>
    ensures { IfOk result (λ steps. steps ≡ proof.now) }
{
    let mut all = Items::new(alloc);
    for step in proof {
        all.push(step.copy(alloc)?)?;
    }
    Ok(all)
}

/// The section that claims for this player the game that its winner, who is Exists in the problem, has won: the turns of
/// the prefix, the skeleton, and the lines, copied. It did not stand in a file, so its line is 0. A file of version 2 can
/// hold it, and it is accepted for each problem whose form for this player is the won one: the problem itself for Exists,
/// its dual for Forall. It refuses only for memory.
pub fn section_of<D: Domain>(alloc: Global, won: &Won<D>, side: Side) -> Result<Section, Memory>
    ensures value { IfOk result (λ x. x ≡ claim_of side won.now) }
    ensures written { IfOk result IsSection }
    ensures lines { IfOk result (HasLines 2) }
    ensures accepted { IfOk result (λ x. (P : Problem) → problem_for D.SORT side P ≡ problem_of won.now.problem → Accepts D.SORT P side x) }
{
    let problem = won.problem();
    let turns = turns(alloc, problem.prefix())?;
    let tree = won.skeleton().tree().copy(alloc)?;
    let proof = copied(alloc, won.proof())?;
    let _kept = problem.matrix();
    Ok(Section::Claimed {
        side,
        turns,
        tree,
        proof,
        line: 0,
    })
}
