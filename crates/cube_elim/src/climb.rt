//! One more value of a point over the rationals, over the least common denominator.

ghost use Rattle.std.specs.Prelude.{◌≡◌, ◌≤◌, ◌<◌, ◌^◌, ◌*◌, ◌/◌, ◌+◌, ◌++◌, ◌∷◌, [], ℤ, pos, ◌*ℤ◌, nat_abs, true, map, length, IfOk};
ghost use Rattle.std.specs.List.{AllByRecursion};
ghost use Rattle.lin_term.specs.Form.{cap};
ghost use Rattle.lin_term.specs.Literal.{gcd};
ghost use Rattle.lin_term.specs.Point.{AreWithin};
ghost use Rattle.lin_term.specs.Wide.{Capped};
ghost use Rattle.dom_core.specs.Elimination.{is_lower, is_upper};
ghost use Rattle.dom_core.specs.Reduced.{AreBelow};
ghost use Rattle.cube_elim.specs.Stored.{lits_of, AreIn};
ghost use Rattle.cube_elim.specs.Determined.{whole, last_value, with_value};
ghost use Rattle.cube_elim.specs.Values.{with_zeros};
ghost use Rattle.cube_elim.specs.Between.{bounded_values, numbers_of};
ghost use Rattle.cube_elim.specs.Climbing.{AddsNumber, AddsNumbers};

use crate::parts::Parts;
use crate::value::next_value;
use lin_term::{CAP, Fraction, Lit, Memory, Point, Short, Wide, gcd_of_words, is_within, product};
use sqlite_items::Items;
use std::alloc::Global;

/// A number times a factor, added to the others where it is within the cap.
fn add_multiple(nums: &mut Items<i64>, num: i64, factor: u64) -> Result<(), Short<Wide>>
    requires num { nat_abs num ≤ cap }
    requires factor { factor ≤ cap }
    ensures { AddsNumber nums.old nums.new (num *ℤ pos factor) result }
{
    let z = product(num, factor as i64);
    if !is_within(z) {
        return Err(Short::Fault(Wide { number: z }));
    }
    match nums.push(z as i64) {
        Ok(()) => Ok(()),
        Err(_) => Err(Short::Memory),
    }
}

/// The numbers times a factor, added to the others.
fn add_scaled(out: &mut Items<i64>, nums: &[i64], factor: u64) -> Result<(), Short<Wide>>
    requires within { AreWithin nums.now }
    requires factor { factor ≤ cap }
    ensures { AddsNumbers out.old out.new (map (λ z. z *ℤ pos factor) nums.now) result }
{
    for num in nums {
        match add_multiple(out, *num, factor) {
            Ok(()) => {}
            Err(fault) => return Err(fault),
        }
    }
    Ok(())
}

/// The greatest common divisor of the two denominators.
fn common_divisor(point: &Point, value: Fraction) -> u64
    ensures value { result ≡ gcd point.now.den value.den }
    ensures point_least { 1 ≤ point.now.den }
    ensures value_least { 1 ≤ value.den }
{
    gcd_of_words(point.den().unsigned_abs(), value.den().unsigned_abs())
}

/// The point's denominator divided by a number.
fn point_part(point: &Point, divisor: u64) -> u64
    requires { 1 ≤ divisor }
    ensures value { result ≡ point.now.den / divisor }
    ensures kept { result ≤ cap }
{
    point.den().unsigned_abs() / divisor
}

/// The value's denominator divided by a number.
fn value_part(value: Fraction, divisor: u64) -> u64
    requires { 1 ≤ divisor }
    ensures value { result ≡ value.den / divisor }
    ensures kept { result ≤ cap }
{
    value.den().unsigned_abs() / divisor
}

/// The point's denominator times a factor.
fn common_den(point: &Point, factor: u64) -> u128
    requires { factor ≤ cap }
    ensures value { result ≡ point.now.den * factor }
    ensures size { result ≤ 2 ^ 104 }
{
    u128::from(point.den().unsigned_abs()) * u128::from(factor)
}

/// The point's numbers times a factor, and behind them the value's numerator times another. Wide names the first past
/// the cap.
fn numbers_with(
    alloc: Global,
    point: &Point,
    factor: u64,
    value: Fraction,
    over: u64,
) -> Result<Items<i64>, Short<Wide>>
    requires factor { factor ≤ cap }
    requires over { over ≤ cap }
    ensures { let zs = map (λ z. z *ℤ pos factor) point.now.nums ++ (value.num *ℤ pos over) ∷ [] in Capped zs zs result }
{
    let mut out = Items::new(alloc);
    match add_scaled(&mut out, point.nums(), factor) {
        Ok(()) => {}
        Err(fault) => return Err(fault),
    }
    match add_multiple(&mut out, value.num(), over) {
        Ok(()) => Ok(out),
        Err(fault) => Err(fault),
    }
}

/// The point of these numbers over the denominator.
fn point_of(nums: Items<i64>, den: u128) -> Point
    requires within { AreWithin nums }
    requires least { 1 ≤ den }
    requires kept { den ≤ cap }
    ensures { result ≡ record { den = den; nums = nums } }
{
    Point::from_parts(nums, den as i64)
}

/// The point with one more value, over the least common denominator. Wide names the first past the cap of the common
/// denominator and the numbers over it.
fn point_with(alloc: Global, point: &Point, value: Fraction) -> Result<Point, Short<Wide>>
    ensures { let q = with_value point.now value in Capped (pos q.den ∷ q.nums) q result }
{
    let divisor = common_divisor(point, value);
    let factor = value_part(value, divisor);
    let over = point_part(point, divisor);
    let common = common_den(point, factor);
    if common > CAP as u128 {
        return Err(Short::Fault(Wide {
            number: common as i128,
        }));
    }
    match numbers_with(alloc, point, factor, value, over) {
        Ok(nums) => Ok(point_of(nums, common)),
        Err(fault) => Err(fault),
    }
}

/// The point with 0 for one more variable.
fn with_zero(alloc: Global, point: &Point) -> Result<Point, Memory>
    ensures { IfOk result (λ q. q ≡ with_zeros point.now 1) }
{
    let mut nums = Items::from_slice(alloc, point.nums())?;
    nums.push(0)?;
    Ok(Point::from_parts(nums, point.den()))
}

/// The point with its next value by the bounds. Wide names the first past the cap of the numbers of the value, or of the
/// two bounds and their middle, of the common denominator, and of the numbers over it.
pub(crate) fn climb(
    alloc: Global,
    lits: &[Lit],
    parts: &Parts,
    var: u32,
    point: &Point,
) -> Result<Point, Short<Wide>>
    requires lower_in { AreIn (length lits.now) parts.now.lower }
    requires upper_in { AreIn (length lits.now) parts.now.upper }
    requires lower_below { AreBelow (length point.now.nums + 1) (lits_of lits.now parts.now.lower) }
    requires upper_below { AreBelow (length point.now.nums + 1) (lits_of lits.now parts.now.upper) }
    requires lower { AllByRecursion (λ l. is_lower var l ≡ true) (lits_of lits.now parts.now.lower) }
    requires upper { AllByRecursion (λ l. is_upper var l ≡ true) (lits_of lits.now parts.now.upper) }
    ensures { let vs = bounded_values var (with_zeros point.now 1) (lits_of lits.now parts.now.lower) (lits_of lits.now parts.now.upper) in let q = with_value point.now (last_value (whole (pos 0)) vs) in Capped (numbers_of vs ++ pos q.den ∷ q.nums) q result }
{
    let trial = match with_zero(alloc, point) {
        Ok(trial) => trial,
        Err(_) => return Err(Short::Memory),
    };
    match next_value(lits, parts, var, &trial) {
        Ok(value) => point_with(alloc, point, value),
        Err(wide) => Err(Short::Fault(wide)),
    }
}
