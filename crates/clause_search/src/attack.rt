//! What an attack is.

ghost use Rattle.std.specs.Prelude.{IfOk};
ghost use Rattle.clause_search.specs.Attacks.{IsAttack};

use cube_elim::WideCube;
use cube_rules::Step;
use dom_core::Domain;
use lin_term::{Memory, Point};
use lose_system::System;
use search_attack::Values;
use sqlite_items::Items;
use std::alloc::Global;

/// What an attack on a losing system ends with.
#[derive(Drop)]
pub enum Attack<D: Domain> {
    /// A point that solves the system.
    Point(Point),
    /// Lines that refute the system; a file can hold them, and none of them is idle.
    Refuted(Items<Step>),
    /// A wide cube of literals of a branch. Each branch has no solution, or has a wide cube among its literals.
    Wide(WideCube<D>),
}

/// Who attacks losing systems.
pub trait Attacker<D: Domain> {
    /// A point that solves the system, lines that refute it, or a wide cube of it where no branch is solved within the cap.
    /// `order` changes which branches are tried first, and nothing else. It refuses only for memory.
    fn attack(&self, alloc: Global, system: &System<'_, D>, order: u64) -> Result<Attack<D>, Memory>
        ensures { IfOk result (IsAttack D.SORT system.now) };

    /// The same. The search may begin at the values kept, and a point that it finds may take their place.
    fn attack_from(
        &self,
        alloc: Global,
        system: &System<'_, D>,
        order: u64,
        values: &mut Values,
    ) -> Result<Attack<D>, Memory>
        ensures { IfOk result (IsAttack D.SORT system.now) };
}
