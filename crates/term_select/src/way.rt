//! The values of the nodes on a way down.

ghost use Rattle.std.specs.Prelude.{◌≡◌, IfOk};
ghost use Rattle.lin_term.specs.Fixing.{at_names};
ghost use Rattle.lin_term.specs.Linear.{at};
ghost use Rattle.lin_term.specs.Point.{AreWithin};

use lin_term::{Memory, Point};
use sqlite_items::Items;
use std::alloc::Global;

/// The number at the place, 0 past the end.
fn number_at(nums: &[i64], place: u32) -> i64
    ensures { result ≡ at nums.now place }
{
    match nums.get(place as usize) {
        Some(number) => *number,
        None => 0,
    }
}

/// The point that has the values of these nodes, in this order; refuses only for memory.
pub fn values_at(alloc: Global, point: &Point, nodes: &[u32]) -> Result<Point, Memory>
    ensures { IfOk result (λ p. p ≡ at_names nodes.now point.now) }
{
    let all = point.nums();
    let mut nums = Items::new(alloc);
    for node in nodes {
        nums.push(number_at(all, *node))?;
    }
    Ok(Point::from_parts(nums, point.den()))
}
