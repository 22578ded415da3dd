//! A point of the values at hand over the rationals: the infinitesimal is the greatest power of a half at which all paths are
//! met.

use search_forms::Sub;
use search_rows::Stuck;
use search_simplex::{at, item, lcm, product, quotient, sum};
use search_trail::Halt;
use search_whole::{Attack, Offer, lowest};

/// How small the infinitesimal may get: 2^-56.
const HALVES: u32 = 56;

/// The value of a node from those of the columns, which are over one denominator.
fn sub_value(sub: &Sub, nums: &[i128], den: i128) -> Result<(i128, i128), Stuck> {
    let mut total = product(sub.constant as i128, den)?;
    for term in sub.terms.as_slice() {
        total = sum(total, product(term.1 as i128, at(nums, term.0)?)?)?;
    }
    lowest(total, product(den, sub.den as i128)?)
}

/// The columns' values where the infinitesimal is 1 over a power of 2, and their denominator.
fn columns_at(attack: &Attack, power: i128) -> Result<Offer, Stuck> {
    let scale = attack.search.tableau.scale as i128;
    let mut nums: Vec<i128> = Vec::new(attack.alloc);
    for value in attack.search.model.values.as_slice() {
        nums.push(sum(product(value.0, power)?, product(value.1, scale)?)?)?;
    }
    Ok(Offer {
        den: product(attack.search.model.den, power)?,
        nums,
    })
}

/// The values of all nodes over their least common denominator.
pub fn all_at(attack: &Attack, columns: &Offer) -> Result<Offer, Stuck> {
    let mut fractions: Vec<(i128, i128)> = Vec::new(attack.alloc);
    let mut den: i128 = 1;
    for node in 0..attack.nodes() {
        let sub = item(attack.search.setup.subs.as_slice(), node)?;
        let found = sub_value(sub, columns.nums.as_slice(), columns.den)?;
        den = lcm(den, found.1)?;
        fractions.push(found)?;
    }
    let mut nums: Vec<i128> = Vec::new(attack.alloc);
    for found in fractions.as_slice() {
        nums.push(product(found.0, quotient(den, found.1)?)?)?;
    }
    Ok(Offer { den, nums })
}

/// Whether a value at hand has infinitesimals.
fn has_eps(attack: &Attack) -> bool {
    for value in attack.search.model.values.as_slice() {
        if value.1 != 0 {
            return true;
        }
    }
    false
}

/// The point of the values at hand.
pub fn rational_point(attack: &Attack) -> Result<Offer, Halt> {
    let exact = !has_eps(attack);
    let mut power: i128 = 1;
    for _ in 0..HALVES {
        let offer = all_at(attack, &columns_at(attack, power)?)?;
        if exact
            || attack
                .search
                .failed_at(offer.den, offer.nums.as_slice())?
                .is_none()
        {
            return Ok(offer);
        }
        power = product(power, 2)?;
    }
    Err(Halt::Stuck(Stuck::Wide))
}
