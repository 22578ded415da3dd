//! Lists of literals without repeats. A literal that is there already is found by order, so n literals take n log n
//! comparisons.

ghost use Rattle.std.specs.Prelude.{◌≡◌, ◌++◌, ◌∷◌, [], not, List, length, None, IfOk, OnOk};
ghost use Rattle.std.specs.List.{list_any, list_all};
ghost use Rattle.lin_term.specs.declared.Lit.{Lit as a_literal};
ghost use Rattle.lin_term.specs.Same.{same_literal};
ghost use Rattle.lin_term.specs.Wide.{Capped, first_past};
ghost use Rattle.dom_core.specs.Distinct.{HasLits, new_places as places_of_new, at_places};
ghost use Rattle.dom_core.specs.Elimination.{cube_numbers};
ghost use Rattle.dom_core.specs.PutMove.{with_new};

use crate::cube::Cube;
use crate::key::Key;
use lin_term::{Lit, Memory, Short, Wide};
use sqlite_items::Items;
use std::alloc::{AllocFailed, Global};
use std::collections::BTreeSet;

/// Whether the literal is new to the set, which has it from then on.
fn is_new<'a>(seen: &mut BTreeSet<Key<'a>>, lit: &'a Lit) -> Result<bool, AllocFailed<Key<'a>>>
    ensures fresh { (c : List a_literal) → HasLits seen.old c → IfOk result (λ fresh. fresh ≡ not (list_any (same_literal lit.entry.now) c)) }
    ensures then { (c : List a_literal) → HasLits seen.old c → OnOk result (HasLits seen.new (c ++ lit.entry.now ∷ [])) }
{
    seen.insert(Key { lit })
}

/// The literals as a set.
fn keys_of<'a>(alloc: Global, lits: &'a [Lit]) -> Result<BTreeSet<Key<'a>>, Memory>
    ensures { IfOk result (λ set. HasLits set lits.entry.now) }
{
    let mut seen = BTreeSet::new(alloc);
    for lit in lits {
        match is_new(&mut seen, lit) {
            Ok(_) => {}
            Err(_) => return Err(Memory),
        }
    }
    Ok(seen)
}

/// For each literal of the second list whether neither the first nor one before it in the second equals it.
fn new_places<'a>(alloc: Global, old: &'a [Lit], more: &'a [Lit]) -> Result<Items<bool>, Memory>
    ensures { IfOk result (λ places. places ≡ places_of_new old.entry.now more.entry.now) }
{
    let mut seen = match keys_of(alloc, old) {
        Ok(seen) => seen,
        Err(fault) => return Err(fault),
    };
    let mut places = Items::new(alloc);
    for lit in more {
        let fresh = match is_new(&mut seen, lit) {
            Ok(fresh) => fresh,
            Err(_) => return Err(Memory),
        };
        match places.push(fresh) {
            Ok(()) => {}
            Err(_) => return Err(Memory),
        }
    }
    Ok(places)
}

/// Whether each place is one of a new literal.
fn are_all_new(places: &[bool]) -> bool
    ensures { result ≡ list_all (λ place. place) places.now }
{
    places.iter().all(|place| *place)
}

/// A copy of the literal, added to the others, where it is new.
fn add_if_new(alloc: Global, out: &mut Items<Lit>, lit: &Lit, fresh: bool) -> Result<(), Memory>
    ensures { OnOk result (out.new ≡ out.old ++ at_places (fresh ∷ []) (lit.now ∷ [])) }
{
    if !fresh {
        return Ok(());
    }
    match lit.copy(alloc) {
        Ok(copy) => match out.push(copy) {
            Ok(()) => Ok(()),
            Err(_) => Err(Memory),
        },
        Err(fault) => Err(fault),
    }
}

/// Copies of the literals at the places, added to the others.
fn add_at_places(
    alloc: Global,
    out: &mut Items<Lit>,
    lits: &[Lit],
    places: &[bool],
) -> Result<(), Memory>
    requires { length places.now ≡ length lits.now }
    ensures { OnOk result (out.new ≡ out.old ++ at_places places.now lits.now) }
{
    for index in 0..lits.len() {
        match add_if_new(alloc, out, &lits[index], places[index]) {
            Ok(()) => {}
            Err(fault) => return Err(fault),
        }
    }
    Ok(())
}

/// The literals of the second list that are not there yet, behind the first. It refuses only for memory.
pub fn add_new(alloc: Global, out: Items<Lit>, more: Items<Lit>) -> Result<Items<Lit>, Memory>
    ensures { IfOk result (λ ls. ls ≡ with_new out more) }
{
    let mut out = out;
    let places = match new_places(alloc, out.as_slice(), more.as_slice()) {
        Ok(places) => places,
        Err(fault) => return Err(fault),
    };
    if are_all_new(places.as_slice()) {
        return match out.append(more) {
            Ok(()) => Ok(out),
            Err(_) => Err(Memory),
        };
    }
    match add_at_places(alloc, &mut out, more.as_slice(), places.as_slice()) {
        Ok(()) => Ok(out),
        Err(fault) => Err(fault),
    }
}

/// The cube of the literals, each once. It refuses only for memory.
pub fn distinct_cube(alloc: Global, lits: Items<Lit>) -> Result<Cube, Short<Wide>>
    requires { first_past (cube_numbers lits) ≡ None }
    ensures { Capped (cube_numbers (with_new [] lits)) (with_new [] lits) result }
{
    match add_new(alloc, Items::new(alloc), lits) {
        Ok(lits) => Ok(Cube::from_lits(lits)),
        Err(_) => Err(Short::Memory),
    }
}
