//! One more value of a point.

ghost use Rattle.std.specs.Prelude.{◌≡◌, ◌≤◌, ◌<◌, ◌+◌, ℕ, ℤ, pos, nat_abs, IfOk, length, get_or};
ghost use Rattle.lin_term.specs.Form.{cap};
ghost use Rattle.lin_term.specs.Linear.{origin};
ghost use Rattle.lin_term.specs.Point.{AreWithin, IsKeptPoint};
ghost use Rattle.dom_core.specs.Elimination.{cooper, delta};
ghost use Rattle.dom_core.specs.Reduced.{AreBelow};
ghost use Rattle.cube_elim.specs.Determined.{case_values};
ghost use Rattle.cube_elim.specs.Values.{added, no_value, with_zeros};
ghost use Rattle.cube_elim.specs.Ending.{Steps};

use crate::case_value::value_in_case;
use crate::found::Found;
use lin_term::{Lit, Memory, Point, Wide, is_within};
use sqlite_items::Items;
use std::alloc::Global;

/// The point of no variables; refuses only for memory.
pub(crate) fn origin_point(alloc: Global) -> Point
    ensures { result ≡ origin }
{
    Point::from_parts(Items::new(alloc), 1)
}

/// The point of whole numbers with one more at the end.
fn with_number(alloc: Global, point: &Point, z: i64) -> Result<Point, Memory>
    requires { nat_abs z ≤ cap }
    ensures { IfOk result (λ q. q ≡ added point.now z) }
{
    let mut nums = Items::from_slice(alloc, point.nums())?;
    nums.push(z)?;
    Ok(Point::from_parts(nums, 1))
}

/// The point with the value of the variable in the case of this number, or the value where it is past the cap.
pub(crate) fn with_case(
    alloc: Global,
    cube: &[Lit],
    var: u32,
    count: u64,
    index: u64,
    point: &Point,
) -> Result<Found, Memory>
    requires whole { point.now.den ≡ 1 }
    requires size { length point.now.nums ≡ var }
    requires below { AreBelow (var + 1) cube.now }
    requires cases { count ≡ length (cooper cube.now var) }
    requires kept { count ≤ cap }
    requires within { index < count }
    requires period { 1 ≤ delta cube.now var }
    ensures steps { IfOk result (Steps point.now (get_or (case_values var cube.now) index no_value point.now)) }
    ensures kept { IfOk result (λ f. AreWithin point.now.nums) }
{
    let _nums = point.nums();
    let trial = with_number(alloc, point, 0)?;
    let value = value_in_case(cube, var, count, index, &trial);
    if !is_within(value) {
        return Ok(Found::Wide(Wide { number: value }));
    }
    Ok(Found::Point(with_number(alloc, point, value as i64)?))
}

/// The point with 0 for so many more variables.
pub(crate) fn with_more(alloc: Global, point: &Point, more: u32) -> Result<Point, Memory>
    ensures value { IfOk result (λ q. q ≡ with_zeros point.now more) }
    ensures kept { IsKeptPoint point.now }
{
    let _den = point.den();
    let mut nums = Items::from_slice(alloc, point.nums())?;
    for index in 0..more {
        nums.push(0)?;
    }
    Ok(Point::from_parts(nums, point.den()))
}
