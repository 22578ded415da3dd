//! Nicer points. Measured on 36 games: with the middle 3.7 s and 31 decided within 4 s each, with the simplex' own vertex 5.0 s and 29.
//! How: the opponent's values are moved one after the other, the last one first, to the middle of what a choice of
//! literals that holds leaves them, or to a simple value. Where the point at hand passes the cap, this is the second try.

use crate::rational::all_at;
use crate::room::{Limit, Room, is_inside, middle_of, narrower, simple_of, whole};
use search_forms::{Code, Kind, Known, NO_MODULUS};
use search_rows::Stuck;
use search_simplex::{NONE, at, difference, item, lcm, lent, negative, product, put, quotient};
use search_whole::{Attack, Fraction, Offer, lowest, plus, times};

/// How a point is made nicer.
#[derive(Clone, Copy, Debug, PartialEq, Eq)]
pub enum Nicer {
    /// The middle between the bounds, a whole number near it where there is one.
    Middle,
    /// 0, or the whole number at a bound that is nearest to 0.
    Simple,
}

/// Whether a rounded move stands in the way.
fn has_rounded(attack: &Attack) -> Result<bool, Stuck> {
    for node in 0..attack.nodes() {
        if attack.search.setup.is_move(node)? && attack.search.setup.is_column(node)? {
            return Ok(true);
        }
    }
    Ok(false)
}

/// The first child of a disjunction that values meet.
fn met_child(attack: &Attack, path: u32, parent: u32, offer: &Offer) -> Result<u32, Stuck> {
    let mut child = attack.search.setup.shape.first(parent)?;
    for _ in 0..attack.search.setup.shape.kinds.len() {
        let found = child.ok_or(Stuck::Place)?;
        if attack
            .search
            .is_met_at(path, found, offer.den, offer.nums.as_slice())?
        {
            return Ok(found);
        }
        child = attack.search.setup.shape.next(parent, found)?;
    }
    Err(Stuck::Place)
}

/// The literals of a path that are enough for it, among those that hold; marked.
fn note_literals(
    attack: &mut Attack,
    path: u32,
    offer: &Offer,
    marks: &mut Vec<bool>,
) -> Result<(), Stuck> {
    let mut work: Vec<u32> = Vec::new(attack.alloc);
    work.push(0)?;
    for _ in 0..u32::MAX {
        let Some(node) = work.pop() else {
            return Ok(());
        };
        match attack.search.setup.shape.kind(node)? {
            Kind::Leaf(leaf) => {
                if let Known::Lit(code) = attack
                    .search
                    .forms
                    .leaf(&attack.search.setup, path, leaf)?
                {
                    mark(marks, code)?;
                }
            }
            Kind::And => {
                let children = attack.search.setup.shape.children(attack.alloc, node)?;
                work.extend_from_slice(children.as_slice())?;
            }
            Kind::Or => work.push(met_child(attack, path, node, offer)?)?,
        }
    }
    Err(Stuck::Fuel)
}

/// The literals that are enough, by the nodes that stand in them; none where a divisibility is among them.
fn literals_by_node(attack: &mut Attack, offer: &Offer) -> Result<Option<Vec<Vec<u32>>>, Stuck> {
    let mut marks: Vec<bool> = Vec::new(attack.alloc);
    for path in 0..attack.search.setup.path_count() {
        note_literals(attack, path, offer, &mut marks)?;
    }
    let mut out: Vec<Vec<u32>> = Vec::new(attack.alloc);
    for _ in 0..attack.nodes() {
        out.push(Vec::new(attack.alloc))?;
    }
    let mut code: u32 = 0;
    for is_marked in marks.as_slice() {
        if *is_marked && !note_code(attack, code, &mut out)? {
            return Ok(None);
        }
        code = code.wrapping_add(1);
    }
    Ok(Some(out))
}

/// A literal stands with each node of its form; false where it is a divisibility.
fn note_code(attack: &Attack, code: Code, out: &mut Vec<Vec<u32>>) -> Result<bool, Stuck> {
    let form = attack
        .search
        .forms
        .form(attack.search.forms.form_of(code)?)?;
    if form.modulus != NO_MODULUS {
        return Ok(false);
    }
    for term in form.terms.as_slice() {
        lent(out, term.0)?.push(code)?;
    }
    Ok(true)
}

/// What a literal's bound is, and whether it is excluded.
fn limit_of(attack: &Attack, code: Code) -> Result<Limit, Stuck> {
    let mark = attack.search.forms.threshold(code / 2)?;
    let low = code % 2 == 0;
    let num = mark.num as i128;
    if attack.search.setup.is_int() {
        let value = whole(if low { num } else { difference(num, 1)? });
        return Ok(Limit {
            value,
            strict: false,
        });
    }
    Ok(Limit {
        value: (num, mark.den as i128),
        strict: low == mark.strict,
    })
}

/// The room that a literal leaves a node, beside a room that is known.
fn narrowed(
    attack: &Attack,
    room: Room,
    code: Code,
    node: u32,
    now: &[Fraction],
) -> Result<Room, Stuck> {
    let limit = limit_of(attack, code)?;
    let form = attack
        .search
        .forms
        .form(attack.search.forms.form_of(code)?)?;
    let mut rest = limit.value;
    let mut c: i128 = 0;
    for term in form.terms.as_slice() {
        if term.0 == node {
            c = term.1 as i128;
        } else {
            rest = plus(rest, times(at(now, term.0)?, negative(term.1 as i128)?, 1)?)?;
        }
    }
    let new = Limit {
        value: times(rest, 1, c)?,
        strict: limit.strict,
    };
    let mut out = room;
    if (code % 2 == 0) == (c > 0) {
        out.low = narrower(room.low, new, true)?;
    } else {
        out.high = narrower(room.high, new, false)?;
    }
    Ok(out)
}

/// A node's value moved.
fn move_node(
    attack: &Attack,
    how: Nicer,
    node: u32,
    codes: &[u32],
    now: &mut Vec<Fraction>,
) -> Result<(), Stuck> {
    let mut room = Room {
        low: None,
        high: None,
    };
    for code in codes {
        room = narrowed(attack, room, *code, node, now.as_slice())?;
    }
    let is_int = attack.search.setup.is_int();
    let found = match how {
        Nicer::Middle => middle_of(&room, is_int)?,
        Nicer::Simple => simple_of(&room, is_int)?,
    };
    let Some(value) = found else {
        return Ok(());
    };
    if is_inside(&room, value)? {
        put(now, node, value)?;
    }
    Ok(())
}

/// The values of the columns of a point, as fractions.
fn fractions(attack: &Attack, offer: &Offer) -> Result<Vec<Fraction>, Stuck> {
    let mut out: Vec<Fraction> = Vec::new(attack.alloc);
    for num in offer.nums.as_slice() {
        out.push(lowest(*num, offer.den)?)?;
    }
    Ok(out)
}

/// The columns over one denominator.
fn together(attack: &Attack, now: &[Fraction]) -> Result<Offer, Stuck> {
    let mut den: i128 = 1;
    for node in 0..attack.nodes() {
        if at(attack.search.columns.of_node.as_slice(), node)? != NONE {
            den = lcm(den, at(now, node)?.1)?;
        }
    }
    let mut nums: Vec<i128> = Vec::new(attack.alloc);
    for node in 0..attack.nodes() {
        if at(attack.search.columns.of_node.as_slice(), node)? == NONE {
            nums.push(0)?;
        } else {
            let value = at(now, node)?;
            nums.push(product(value.0, quotient(den, value.1)?)?)?;
        }
    }
    Ok(Offer { den, nums })
}

/// A nicer point that meets all paths too, if there is one.
fn made_nicer(attack: &mut Attack, how: Nicer, offer: &Offer) -> Result<Option<Offer>, Stuck> {
    if attack.search.setup.is_int() && has_rounded(attack)? {
        return Ok(None);
    }
    let Some(codes) = literals_by_node(attack, offer)? else {
        return Ok(None);
    };
    let mut now = fractions(attack, offer)?;
    for node in (0..attack.nodes()).rev() {
        if at(attack.search.columns.of_node.as_slice(), node)? != NONE {
            let own = item(codes.as_slice(), node)?;
            move_node(attack, how, node, own.as_slice(), &mut now)?;
        }
    }
    let columns = together(attack, now.as_slice())?;
    let all = all_at(attack, &columns)?;
    if attack
        .search
        .failed_at(all.den, all.nums.as_slice())?
        .is_some()
    {
        return Ok(None);
    }
    Ok(Some(all))
}

/// The same; numbers too wide are no answer.
pub fn nicer_or_none(
    attack: &mut Attack,
    how: Nicer,
    offer: &Offer,
) -> Result<Option<Offer>, Stuck> {
    match made_nicer(attack, how, offer) {
        Ok(found) => Ok(found),
        Err(Stuck::Memory) => Err(Stuck::Memory),
        Err(_) => Ok(None),
    }
}

/// Marks a literal.
fn mark(marks: &mut Vec<bool>, code: Code) -> Result<(), Stuck> {
    let place = code as usize;
    if place >= marks.len() {
        marks.resize(place.saturating_add(1), false)?;
    }
    put(marks, code, true)
}
