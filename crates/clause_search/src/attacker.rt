//! The attacker of the program: ways first, each answer certified, then the plain search.

ghost use Rattle.std.specs.Prelude.{IfOk, IfSome};
ghost use Rattle.clause_search.specs.Attacks.{IsAttack};

use crate::attack::{Attack, Attacker};
use crate::plain::attack_plainly;
use crate::refuted::refuted;
use cube_rules::Step;
use dom_core::Domain;
use lin_term::{Memory, Short};
use lose_system::System;
use proof_rules::check;
use search_attack::{Candidate, Values, fast_way};
use std::alloc::Global;

/// How many steps the fast way may take.
const FAST_FUEL: u64 = 4_611_686_018_427_387_904;

/// What a second try of the fast way changes: it starts from nothing, with the last children and the lowest columns first.
const OTHER: u64 = 13;

/// What is needed of the steps, where `check` accepts them.
fn tested<D: Domain>(
    alloc: Global,
    system: &System<'_, D>,
    steps: &[Step],
) -> Result<Option<Attack<D>>, Memory>
    ensures { IfOk result (λ o. IfSome o (IsAttack D.SORT system.now)) }
{
    match check(alloc, system, steps) {
        Ok(()) => Ok(Some(refuted(alloc, system, steps)?)),
        Err(Short::Memory) => Err(Memory),
        Err(Short::Fault(_)) => Ok(None),
    }
}

/// A candidate, where it stands the test.
fn certified<D: Domain>(
    alloc: Global,
    system: &System<'_, D>,
    candidate: Candidate,
) -> Result<Option<Attack<D>>, Memory>
    ensures { IfOk result (λ o. IfSome o (IsAttack D.SORT system.now)) }
{
    match candidate {
        Candidate::Point(point) => {
            if system.is_solved_by(alloc, &point)? {
                Ok(Some(Attack::Point(point)))
            } else {
                Ok(None)
            }
        }
        Candidate::Steps(lines) => tested(alloc, system, lines.as_slice()),
    }
}

/// What the fast way finds, where it stands the test.
fn fast<D: Domain>(
    alloc: Global,
    system: &System<'_, D>,
    order: u64,
    values: &mut Values,
) -> Result<Option<Attack<D>>, Memory>
    ensures { IfOk result (λ o. IfSome o (IsAttack D.SORT system.now)) }
{
    match fast_way(alloc, system, order, FAST_FUEL, values) {
        Ok(candidate) => certified(alloc, system, candidate),
        Err(_) => Ok(None),
    }
}

/// The program's attacker: a way whose answers are tested, and where it gives up the plain search.
#[derive(Clone, Copy, Debug, Drop)]
pub struct PlainAttacker;

impl<D: Domain> Attacker<D> for PlainAttacker {
    fn attack(
        &self,
        alloc: Global,
        system: &System<'_, D>,
        order: u64,
    ) -> Result<Attack<D>, Memory> {
        let mut values = Values::new(alloc);
        self.attack_from(alloc, system, order, &mut values)
    }

    fn attack_from(
        &self,
        alloc: Global,
        system: &System<'_, D>,
        order: u64,
        values: &mut Values,
    ) -> Result<Attack<D>, Memory> {
        if let Some(attack) = fast(alloc, system, order, values)? {
            return Ok(attack);
        }
        if let Some(attack) = fast(alloc, system, order ^ OTHER, values)? {
            return Ok(attack);
        }
        attack_plainly(alloc, system)
    }
}
