//! Points, and the values of rows and the truth of literals at them.

ghost use Rattle.std.specs.Prelude.{◌≡◌, ◌≤◌, ◌*◌, ◌%◌, ◌↔◌, ◌^◌, IsTrue, ℕ, ℤ, pos, ◌≤ℤ◌, nat_abs, IfOk, length};
ghost use Rattle.lin_term.specs.Form.{cap};
ghost use Rattle.lin_term.specs.Linear.{Below, dot as dot_of};
ghost use Rattle.lin_term.specs.Literal.{Holds, form_of};
ghost use Rattle.lin_term.specs.Point.{AreWithin};

use crate::blend::product;
use crate::fault::Memory;
use crate::lit::Lit;
use crate::row::Row;
use sqlite_items::Items;
use std::alloc::Global;
use std::marker::Model;

/// The values `nums[i] / den` of the variables, one denominator for all. The numbers are in `-CAP..=CAP`, the denominator
/// in `1..=CAP`; at a point of integers it is 1.
#[derive(Drop)]
pub struct Point {
    nums: Items<i64>,
    den: u64,
}

impl Model for Point {
    ghost use Rattle.lin_term.specs.Linear as linear;
    ghost use Rattle.lin_term.specs.Point.{IsKeptPoint};

    ghost Value = { linear.Point };

    ghost view = { λ p. record { den = p.den; nums = p.nums } };

    ghost invariant = { λ p. IsKeptPoint (record { den = p.den; nums = p.nums }) };
}

impl Point {
    /// The point of the values `nums[i] / den`; the numbers are in `-CAP..=CAP`, den in `1..=CAP`.
    pub fn from_parts(nums: Items<i64>, den: i64) -> Point
        requires within { AreWithin nums }
        requires least { pos 1 ≤ℤ den }
        requires greatest { nat_abs den ≤ cap }
        ensures { result ≡ record { den = nat_abs den; nums = nums } }
    {
        Point {
            nums,
            den: den as u64,
        }
    }

    /// The numerators by variable number, in `-CAP..=CAP`.
    pub fn nums(&self) -> &[i64]
        ensures value { result.now ≡ self.now.nums }
        ensures kept { AreWithin result.now }
    {
        self.nums.as_slice()
    }

    /// The denominator, in `1..=CAP`.
    pub fn den(&self) -> i64
        ensures value { result ≡ pos self.now.den }
        ensures least { pos 1 ≤ℤ result }
        ensures greatest { nat_abs result ≤ cap }
    {
        self.den as i64
    }

    /// An equal point; refuses only for memory.
    pub fn copy(&self, alloc: Global) -> Result<Point, Memory>
        ensures { IfOk result (λ p. p ≡ self.now) }
    {
        let nums = Items::from_slice(alloc, self.nums.as_slice())?;
        Ok(Point {
            nums,
            den: self.den,
        })
    }
}

/// The row's value at the point, times the point's denominator. Each variable of the row has a value.
pub fn dot(row: &Row, point: &Point) -> i128
    requires { Below (length point.now.nums) row.now }
    ensures { result ≡ dot_of row.now point.now }
{
    let nums = point.nums();
    let mut sum = product(row.constant_part(), point.den());
    for (var, coef) in row.coefs() {
        sum += product(*coef, nums[*var as usize]);
    }
    sum
}

/// Whether the literal holds at the point. Each variable of the literal has a value.
pub fn literal_holds(lit: &Lit, point: &Point) -> bool
    requires { Below (length point.now.nums) (form_of lit.now) }
    ensures { IsTrue result ↔ Holds lit.now point.now }
{
    let value = dot(lit.row(), point);
    match lit {
        Lit::AtLeast(_) => value >= 0,
        Lit::Above(_) => value > 0,
        Lit::Divides(d, _) => is_multiple(value, *d, point.den()),
        Lit::NotDivides(d, _) => !is_multiple(value, *d, point.den()),
    }
}

/// Whether d*den divides z; where d is 0, whether z is 0.
fn is_multiple(z: i128, d: u64, den: i64) -> bool
    requires least { pos 1 ≤ℤ den }
    requires greatest { nat_abs den ≤ cap }
    ensures { IsTrue result ↔ nat_abs z % (d * nat_abs den) ≡ 0 }
{
    if d == 0 {
        z == 0
    } else {
        z.unsigned_abs() % (d as u128 * den as u128) == 0
    }
}
