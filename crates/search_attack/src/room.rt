//! The room that bounds leave a value, and which value in it is taken.

use search_rows::Stuck;
use search_simplex::{difference, floor, negative, product, sum};
use search_whole::{Fraction, lowest, plus, times};

/// A bound of a value, and whether it is excluded.
#[derive(Clone, Copy, Debug, PartialEq, Eq)]
pub struct Limit {
    pub value: Fraction,
    pub strict: bool,
}

/// What a value may be.
#[derive(Clone, Copy, Debug, PartialEq, Eq)]
pub struct Room {
    pub low: Option<Limit>,
    pub high: Option<Limit>,
}

/// How a fraction stands to another: below 0 where it is less.
fn against(a: Fraction, b: Fraction) -> Result<i8, Stuck> {
    let left = product(a.0, b.1)?;
    let right = product(b.0, a.1)?;
    if left == right {
        return Ok(0);
    }
    Ok(if left < right { -1 } else { 1 })
}

/// Whether a value is within the room.
pub fn is_inside(room: &Room, value: Fraction) -> Result<bool, Stuck> {
    if let Some(low) = room.low {
        let side = against(value, low.value)?;
        if side < 0 || (side == 0 && low.strict) {
            return Ok(false);
        }
    }
    if let Some(high) = room.high {
        let side = against(value, high.value)?;
        if side > 0 || (side == 0 && high.strict) {
            return Ok(false);
        }
    }
    Ok(true)
}

/// The narrower of two limits: `above` where the greater one is.
pub fn narrower(old: Option<Limit>, new: Limit, above: bool) -> Result<Option<Limit>, Stuck> {
    let Some(known) = old else {
        return Ok(Some(new));
    };
    let side = against(new.value, known.value)?;
    let better = if above { side > 0 } else { side < 0 };
    if better || (side == 0 && new.strict) {
        return Ok(Some(new));
    }
    Ok(old)
}

/// A whole number.
pub fn whole(n: i128) -> Fraction {
    (n, 1)
}

/// The first of two values that lies inside.
fn first_inside(room: &Room, a: Fraction, b: Fraction) -> Result<Option<Fraction>, Stuck> {
    if is_inside(room, a)? {
        return Ok(Some(a));
    }
    if is_inside(room, b)? {
        return Ok(Some(b));
    }
    Ok(None)
}

/// The value beside another over the least power of 2 at which there is one inside.
fn over_halves(room: &Room, from: Fraction) -> Result<Option<Fraction>, Stuck> {
    let mut den: i128 = 1;
    for _ in 0..40 {
        den = product(den, 2)?;
        let below = floor(product(from.0, den)?, from.1)?;
        let above = lowest(sum(below, 1)?, den)?;
        if let Some(found) = first_inside(room, above, lowest(below, den)?)? {
            return Ok(Some(found));
        }
    }
    Ok(None)
}

/// The middle of a room with two sides.
fn between(
    room: &Room,
    low: Fraction,
    high: Fraction,
    is_int: bool,
) -> Result<Option<Fraction>, Stuck> {
    let middle = times(plus(low, high)?, 1, 2)?;
    let below = floor(middle.0, middle.1)?;
    if let Some(found) = first_inside(room, whole(below), whole(sum(below, 1)?))? {
        return Ok(Some(found));
    }
    if is_int {
        return Ok(None);
    }
    if against(low, high)? == 0 {
        return Ok(Some(middle));
    }
    match over_halves(room, middle)? {
        Some(found) => Ok(Some(found)),
        None => Ok(Some(middle)),
    }
}

fn ceiling(a: Fraction) -> Result<i128, Stuck> {
    negative(floor(negative(a.0)?, a.1)?)
}

/// The middle of a room.
pub fn middle_of(room: &Room, is_int: bool) -> Result<Option<Fraction>, Stuck> {
    match room.low {
        None => match room.high {
            None => Ok(None),
            Some(high) => Ok(Some(whole(difference(ceiling(high.value)?, 1)?))),
        },
        Some(low) => match room.high {
            None => Ok(Some(whole(sum(floor(low.value.0, low.value.1)?, 1)?))),
            Some(high) => between(room, low.value, high.value, is_int),
        },
    }
}

/// A simple value near the lower bound, where that is not below 0.
fn near_low(room: &Room) -> Result<Option<Fraction>, Stuck> {
    let Some(low) = room.low else {
        return Ok(None);
    };
    if low.value.0 < 0 {
        return Ok(None);
    }
    let below = floor(low.value.0, low.value.1)?;
    first_inside(room, whole(below), whole(sum(below, 1)?))
}

/// The same near the upper bound, where that is not above 0.
fn near_high(room: &Room) -> Result<Option<Fraction>, Stuck> {
    let Some(high) = room.high else {
        return Ok(None);
    };
    if high.value.0 > 0 {
        return Ok(None);
    }
    let above = ceiling(high.value)?;
    first_inside(room, whole(above), whole(difference(above, 1)?))
}

/// A value over a small power of 2.
fn broken(room: &Room) -> Result<Option<Fraction>, Stuck> {
    let Some(low) = room.low else {
        return Ok(None);
    };
    if let Some(high) = room.high {
        if against(low.value, high.value)? == 0 {
            return Ok(Some(low.value));
        }
    }
    over_halves(room, low.value)
}

/// 0, or a simple value near a bound.
pub fn simple_of(room: &Room, is_int: bool) -> Result<Option<Fraction>, Stuck> {
    if is_inside(room, whole(0))? {
        return Ok(Some(whole(0)));
    }
    if let Some(found) = near_low(room)? {
        return Ok(Some(found));
    }
    if let Some(found) = near_high(room)? {
        return Ok(Some(found));
    }
    if is_int { Ok(None) } else { broken(room) }
}
