//! At which place a move stands among branches, found by the order of moves.

ghost use Rattle.std.specs.Prelude.{◌≡◌, ◌<◌, ◌^◌, IfOk, OnOk, IfSome, List, length};
ghost use Rattle.lin_term.specs.Move.{Move as MoveValue};
ghost use Rattle.game_tree.specs.Gather.{place as place_of, home as home_of, with_new_move, homes_from, moves_of};
ghost use Rattle.game_tree.specs.Known.{Knows};

use crate::key::MoveKey;
use crate::tree::Branch;
use lin_term::Move;
use std::alloc::{AllocError, Global};
use std::collections::BTreeMap;

/// The place at which the move is known; where it is not, it is from now on known at this one, behind the others.
fn place_or<'a>(
    known: &mut BTreeMap<MoveKey<'a>, usize>,
    term: &'a Move,
    at: usize,
) -> Result<usize, AllocError>
    ensures { (ms : List MoveValue) → Knows known.old ms → at ≡ length ms → IfOk result (λ i. (i ≡ home_of ms term.entry.now) × Knows known.new (with_new_move ms term.entry.now)) }
{
    let key = MoveKey { term };
    match known.get(&key) {
        Some(place) => return Ok(*place),
        None => {}
    }
    known.insert(key, at)?;
    Ok(at)
}

/// The first place of each move.
pub fn known_places<'a>(
    alloc: Global,
    branches: &'a [Branch],
) -> Result<BTreeMap<MoveKey<'a>, usize>, AllocError>
    ensures { IfOk result (λ map. Knows map (moves_of branches.entry.now)) }
{
    let mut known = BTreeMap::new(alloc);
    for i in 0..branches.len() {
        let _place = place_or(&mut known, &branches[i].term, i)?;
    }
    Ok(known)
}

/// How many groups there are when a move has gone to its place.
fn groups_then(count: usize, home: usize) -> usize
    requires { count < 2 ^ 63 }
    ensures { (ms : List MoveValue) (m : MoveValue) → count ≡ length ms → home ≡ home_of ms m → result ≡ length (with_new_move ms m) }
{
    if home == count {
        return count + 1;
    }
    count
}

/// For each of the others the place of its move among the branches and the new moves, which stand behind them.
pub fn homes(
    alloc: Global,
    branches: &[Branch],
    others: &[Branch],
) -> Result<Vec<usize>, AllocError>
    ensures { IfOk result (λ v. v.items ≡ homes_from (moves_of branches.now) (moves_of others.now)) }
{
    let mut known = known_places(alloc, branches)?;
    let mut count = branches.len();
    let mut homes = Vec::new(alloc);
    for other in others {
        let home = place_or(&mut known, &other.term, count)?;
        count = groups_then(count, home);
        homes.push(home)?;
    }
    Ok(homes)
}

/// The first place of the move, found one by one.
pub fn first_place(branches: &[Branch], term: &Move) -> Option<usize>
    ensures value { result ≡ place_of term.now (moves_of branches.now) }
    ensures within { IfSome result (λ i. i < length branches.now) }
{
    for i in 0..branches.len() {
        if branches[i].term.is_same(term) {
            return Some(i);
        }
    }
    None
}
