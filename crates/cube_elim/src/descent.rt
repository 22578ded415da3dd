//! Over the rationals: a cube decided by taking out one variable after the other.

ghost use Rattle.std.specs.Prelude.{◌≡◌, ◌<◌, ◌≤◌, ◌+◌, suc, max, true, false, length, IfOk, IfSome, IfNone};
ghost use Rattle.std.specs.List.{AllByRecursion};
ghost use Rattle.lin_term.specs.declared.Sort.TheVariants.{Rat};
ghost use Rattle.lin_term.specs.Literal.{form_of};
ghost use Rattle.lin_term.specs.Linear.{origin};
ghost use Rattle.lin_term.specs.Point.{IsKeptPoint};
ghost use Rattle.lin_term.specs.Truth.{truth_of};
ghost use Rattle.dom_core.specs.Cube.{IsPrimitiveCube};
ghost use Rattle.dom_core.specs.Reduced.{AreBelow, AreRows};
ghost use Rattle.cube_rules.specs.Lines.{is_false};
ghost use Rattle.cube_elim.specs.Determined.{height};
ghost use Rattle.cube_elim.specs.Values.{with_zeros};
ghost use Rattle.cube_elim.specs.Stored.{lits_of, AreIn};
ghost use Rattle.cube_elim.specs.Reaching.{IsFalseAt, IsPastCap, IsPointWith, Keeps, Reaches};

use crate::climb::climb;
use crate::height::{greater, height_of_literal};
use crate::next::{origin_point, with_more};
use crate::store::Store;
use crate::sums::{Without, take_out};
use cube_rules::is_false_literal;
use lin_term::{Lit, Memory, Point, Short, Wide};
use std::alloc::Global;

/// The point that a cube determines, the place of a literal that is false, or a number past the cap.
#[derive(Drop)]
pub(crate) enum Reached {
    Point(Point),
    False(u32),
    Wide(Wide),
}

/// The place of the first literal without variables that is false.
fn first_false(lits: &[Lit], ids: &[u32]) -> Option<u32>
    requires { AreIn (length lits.now) ids.now }
    ensures some { IfSome result (λ id. IsFalseAt lits.now id) }
    ensures none { IfNone result (AllByRecursion (λ l. is_false (truth_of l) ≡ false) (lits_of lits.now ids.now)) }
{
    for id in ids {
        if is_false_literal(&lits[*id as usize]) {
            return Some(*id);
        }
    }
    None
}

/// 1 above the highest variable of the literals, 0 where they have none.
fn height_at(lits: &[Lit], ids: &[u32]) -> u32
    requires { AreIn (length lits.now) ids.now }
    ensures { result ≡ height (lits_of lits.now ids.now) }
{
    let mut top = 0;
    for id in ids {
        top = greater(top, height_of_literal(&lits[*id as usize]));
    }
    top
}

/// The point with 0 for so many more variables, as the end of a search.
fn point_with_more(alloc: Global, point: &Point, more: u32) -> Result<Reached, Memory>
    ensures value { IfOk result (IsPointWith point.now more) }
    ensures kept { IsKeptPoint point.now }
{
    Ok(Reached::Point(with_more(alloc, point, more)?))
}

/// The number past the cap that ends a search.
fn past_cap(fault: Short<Wide>) -> Result<Reached, Memory>
    ensures { IfOk result (IsPastCap fault) }
{
    match fault {
        Short::Fault(wide) => Ok(Reached::Wide(wide)),
        Short::Memory => Err(Memory),
    }
}

/// Decides the cube at these places, of primitive literals with variables below n: by the point that it determines, by a
/// literal that is false, of the store with the sums of the eliminations, or by a number past the cap. Variables that do
/// not occur are passed over, so the depth of the calls is at most the count of those that do.
pub(crate) fn search(
    alloc: Global,
    store: &mut Store,
    ids: &[u32],
    n: u32,
) -> Result<Reached, Memory>
    requires within { AreIn (length store.old.lits) ids.now }
    requires primitive { IsPrimitiveCube Rat (lits_of store.old.lits ids.now) }
    requires below { AreBelow n (lits_of store.old.lits ids.now) }
    requires rows { AreRows (lits_of store.old.lits ids.now) }
    ensures ends { IfOk result (Reaches n (lits_of store.old.lits ids.now) store.new.lits) }
    ensures kept { IfOk result (Keeps store.old store.new) }
{
    match first_false(store.lits.as_slice(), ids) {
        Some(id) => return Ok(Reached::False(id)),
        None => {}
    }
    let height = height_at(store.lits.as_slice(), ids);
    if height == 0 {
        return point_with_more(alloc, &origin_point(alloc), n);
    }
    let var = height - 1;
    let without = match take_out(alloc, store, ids, var) {
        Ok(without) => without,
        Err(fault) => return past_cap(fault),
    };
    let Without { parts, next } = without;
    let reached = match search(alloc, store, next.as_slice(), var) {
        Ok(reached) => reached,
        Err(_) => return Err(Memory),
    };
    match reached {
        Reached::Point(point) => match climb(alloc, store.lits.as_slice(), &parts, var, &point) {
            Ok(higher) => point_with_more(alloc, &higher, n - height),
            Err(fault) => past_cap(fault),
        },
        Reached::False(id) => Ok(Reached::False(id)),
        Reached::Wide(wide) => Ok(Reached::Wide(wide)),
    }
}
