//! One variable taken out of a cube over the rationals: the sums of each lower literal with each upper one.

ghost use Rattle.std.specs.Prelude.{◌≡◌, ◌<◌, ◌≤◌, ◌-◌, ◌++◌, true, length, IfOk};
ghost use Rattle.std.specs.List.{AllByRecursion, range_with_len};
ghost use Rattle.lin_term.specs.declared.Sort.TheVariants.{Rat};
ghost use Rattle.dom_core.specs.Adding.{AddsCube};
ghost use Rattle.dom_core.specs.Cube.{IsCube};
ghost use Rattle.dom_core.specs.Elimination.{is_lower, is_upper};
ghost use Rattle.dom_core.specs.Reduced.{AreRows};
ghost use Rattle.cube_elim.specs.Stored.{lit_of, lits_of, AreIn, IsKept};
ghost use Rattle.cube_elim.specs.Summed.{row_of, rows_of, TakesOut};

use crate::parts::{Parts, parted};
use crate::store::{Store, add_sum};
use lin_term::{Memory, Short, Wide};
use sqlite_items::Items;
use std::alloc::Global;

/// The places of a cube's literals, and those of the cube without the variable.
#[derive(Drop)]
pub(crate) struct Without {
    pub parts: Parts,
    pub next: Items<u32>,
}

/// The sums of a lower literal with the upper ones, added to the others.
fn add_row(
    alloc: Global,
    store: &mut Store,
    lower: u32,
    uppers: &[u32],
    var: u32,
) -> Result<(), Short<Wide>>
    requires lower_in { lower < length store.old.lits }
    requires upper_in { AreIn (length store.old.lits) uppers.now }
    requires lower { is_lower var (lit_of store.old.lits lower) ≡ true }
    requires upper { AllByRecursion (λ l. is_upper var l ≡ true) (lits_of store.old.lits uppers.now) }
    ensures adds { AddsCube store.old.lits store.new.lits (row_of var (lit_of store.old.lits lower) (lits_of store.old.lits uppers.now)) result }
    ensures kept { IfOk result (λ u. IsKept store.old store.new) }
{
    for upper in uppers {
        match add_sum(alloc, store, lower, *upper, var) {
            Ok(()) => {}
            Err(fault) => return Err(fault),
        }
    }
    Ok(())
}

/// The sums of each lower literal with each upper one, added to the others.
fn add_rows(
    alloc: Global,
    store: &mut Store,
    lowers: &[u32],
    uppers: &[u32],
    var: u32,
) -> Result<(), Short<Wide>>
    requires lower_in { AreIn (length store.old.lits) lowers.now }
    requires upper_in { AreIn (length store.old.lits) uppers.now }
    requires lower { AllByRecursion (λ l. is_lower var l ≡ true) (lits_of store.old.lits lowers.now) }
    requires upper { AllByRecursion (λ l. is_upper var l ≡ true) (lits_of store.old.lits uppers.now) }
    ensures adds { AddsCube store.old.lits store.new.lits (rows_of var (lits_of store.old.lits lowers.now) (lits_of store.old.lits uppers.now)) result }
    ensures kept { IfOk result (λ u. IsKept store.old store.new) }
{
    for lower in lowers {
        match add_row(alloc, store, *lower, uppers, var) {
            Ok(()) => {}
            Err(fault) => return Err(fault),
        }
    }
    Ok(())
}

/// The places, and behind them those from one to another. A place past 32 bits is want of memory.
fn and_from(alloc: Global, free: &[u32], from: usize, to: usize) -> Result<Items<u32>, Memory>
    requires { from ≤ to }
    ensures { IfOk result (λ ids. ids ≡ free.now ++ range_with_len from (to - from)) }
{
    if to > u32::MAX as usize {
        return Err(Memory);
    }
    let mut ids = Items::from_slice(alloc, free)?;
    for place in from..to {
        ids.push(place as u32)?;
    }
    Ok(ids)
}

/// The cube at these places without the variable: its literals without it, and the sums of each lower literal with each
/// upper one, which are added to the store. Wide names the first number of the elimination past the cap.
pub(crate) fn take_out(
    alloc: Global,
    store: &mut Store,
    ids: &[u32],
    var: u32,
) -> Result<Without, Short<Wide>>
    requires within { AreIn (length store.old.lits) ids.now }
    requires rational { IsCube Rat (lits_of store.old.lits ids.now) }
    requires rows { AreRows (lits_of store.old.lits ids.now) }
    ensures without { TakesOut var store.old.lits store.new.lits ids.now result }
    ensures kept { IfOk result (λ w. IsKept store.old store.new) }
{
    let parts = match parted(alloc, store.lits.as_slice(), ids, var) {
        Ok(parts) => parts,
        Err(_) => return Err(Short::Memory),
    };
    let from = store.lits.len();
    match add_rows(
        alloc,
        store,
        parts.lower.as_slice(),
        parts.upper.as_slice(),
        var,
    ) {
        Ok(()) => {}
        Err(fault) => return Err(fault),
    }
    match and_from(alloc, parts.free.as_slice(), from, store.lits.len()) {
        Ok(next) => Ok(Without { parts, next }),
        Err(_) => Err(Short::Memory),
    }
}
