//! The point of an offer.

ghost use Rattle.std.specs.Prelude.{◌≡◌, IfOk, OnOk};
ghost use Rattle.lin_term.specs.Point.{AreWithin};
ghost use Rattle.lin_term.specs.Wide.{fits};

use lin_term::{CAP, Point, is_within};
use search_rows::Stuck;
use search_simplex::small;
use search_whole::Offer;
use sqlite_items::Items;
use std::alloc::Global;

/// Whether a number is within the cap.
fn is_kept(n: i64) -> bool
    ensures { result ≡ fits n }
{
    n.unsigned_abs() <= CAP as u64
}

/// One more numerator.
fn push_within(nums: &mut Items<i64>, n: i64) -> Result<(), Stuck>
    requires { AreWithin nums.old }
    ensures { OnOk result (AreWithin nums.new) }
{
    if !is_kept(n) {
        return Err(Stuck::Wide);
    }
    nums.push(n)?;
    Ok(())
}

/// The numerator at a place.
fn num_at(offer: &Offer, place: usize) -> Result<i64, Stuck> {
    match offer.nums.get(place) {
        Some(num) => small(*num),
        None => Err(Stuck::Place),
    }
}

/// The numerators.
fn nums_of(alloc: Global, offer: &Offer) -> Result<Items<i64>, Stuck>
    ensures { IfOk result (λ nums. AreWithin nums) }
{
    let mut nums = Items::new(alloc);
    for place in 0..offer.nums.len() {
        let n = num_at(offer, place)?;
        push_within(&mut nums, n)?;
    }
    Ok(nums)
}

/// The point of an offer; stuck where a number passes the cap.
pub fn point_of(alloc: Global, offer: &Offer) -> Result<Point, Stuck> {
    let nums = nums_of(alloc, offer)?;
    let den = small(offer.den)?;
    if den < 1 {
        return Err(Stuck::Place);
    }
    if !is_within(den as i128) {
        return Err(Stuck::Wide);
    }
    Ok(Point::from_parts(nums, den))
}
