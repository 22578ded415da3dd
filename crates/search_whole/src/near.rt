//! Whole values of all nodes that meet the literals in force, by a short search near the values at hand: the opponent's nodes in
//! preorder, each between the bounds of the forms that it ends, with residues tested as soon as they can be. Tried before
//! elimination. Measured: a hard set 0.072 s -> 0.022 s, a set of congruences from not in 10 s to 2 s.

use crate::attack::Attack;
use search_forms::{NO_MODULUS, holds_at};
use search_rows::{AtomKind, Stuck};
use search_simplex::{
    NONE, at, difference, floor, item, lcm, lent, negative, product, put, size, sum,
};
use search_trail::move_value;

/// The greatest period that is followed.
const PERIOD: i128 = 400;

/// What the search knows: by node the forms that it ends, and its period; the opponent's nodes.
#[derive(Drop)]
struct Near {
    bounds: Vec<Vec<u32>>,
    divisibilities: Vec<Vec<u32>>,
    periods: Vec<i128>,
    /// The opponent's nodes, ascending.
    opponents: Vec<u32>,
    /// The opponent's node at or before each node.
    owners: Vec<u32>,
    values: Vec<i128>,
    /// What is left to try at each opponent's node on the way.
    candidates: Vec<Vec<i128>>,
    tries: u64,
}

/// What a try came to.
#[derive(Clone, Copy, PartialEq, Eq)]
enum Tried {
    Met,
    Failed,
    /// Nothing is left to try.
    Over,
}

/// The least and the greatest value, as far as they are known.
#[derive(Clone, Copy, PartialEq, Eq)]
struct Window {
    low: Option<i128>,
    high: Option<i128>,
}

impl Window {
    fn raise(&mut self, least: i128) {
        self.low = match self.low {
            None => Some(least),
            Some(old) => Some(old.max(least)),
        };
    }

    fn lower(&mut self, most: i128) {
        self.high = match self.high {
            None => Some(most),
            Some(old) => Some(old.min(most)),
        };
    }

    fn has(&self, value: i128) -> bool {
        let above = match self.low {
            None => true,
            Some(low) => value >= low,
        };
        let below = match self.high {
            None => true,
            Some(high) => value <= high,
        };
        above && below
    }

    fn nearest(&self, value: i128) -> i128 {
        let raised = match self.low {
            None => value,
            Some(low) => value.max(low),
        };
        match self.high {
            None => raised,
            Some(high) => raised.min(high),
        }
    }
}

/// The value of a row, but for one node; and the coefficient of that.
fn part_value(
    terms: &[(u32, i64)],
    constant: i64,
    node: u32,
    values: &[i128],
) -> Result<(i128, i64), Stuck> {
    let mut total: i128 = constant as i128;
    let mut c: i64 = 0;
    for term in terms {
        if term.0 == node {
            c = term.1;
        } else {
            total = sum(total, product(term.1 as i128, at(values, term.0)?)?)?;
        }
    }
    Ok((total, c))
}

impl Attack {
    /// The period of the opponent's node of each variable of a divisibility.
    fn note_periods(&self, near: &mut Near, terms: &[(u32, i64)], d: i128) -> Result<(), Stuck> {
        for term in terms {
            let owner = at(near.owners.as_slice(), term.0)?;
            let old = at(near.periods.as_slice(), owner)?;
            if old < PERIOD {
                put(&mut near.periods, owner, lcm(old, d)?)?;
            }
        }
        Ok(())
    }

    fn note_form(&self, near: &mut Near, form: u32) -> Result<(), Stuck> {
        let found = self.search.forms.form(form)?;
        if found.low == NONE && found.high == NONE {
            return Ok(());
        }
        let Some(last) = found.terms.as_slice().last() else {
            return Ok(());
        };
        if found.modulus == NO_MODULUS {
            lent(&mut near.bounds, last.0)?.push(form)?;
            return Ok(());
        }
        lent(&mut near.divisibilities, last.0)?.push(form)?;
        self.note_periods(near, found.terms.as_slice(), found.modulus as i128)
    }

    fn note_node(&self, near: &mut Near, node: u32) -> Result<(), Stuck> {
        if !self.search.setup.is_move(node)? {
            near.opponents.push(node)?;
        }
        let owner = match near.opponents.as_slice().last() {
            Some(found) => *found,
            None => 0,
        };
        near.owners.push(owner)?;
        near.bounds.push(Vec::new(self.alloc))?;
        near.divisibilities.push(Vec::new(self.alloc))?;
        near.periods.push(1)?;
        near.values.push(0)?;
        Ok(())
    }

    fn near(&self) -> Result<Near, Stuck> {
        let mut near = Near {
            bounds: Vec::new(self.alloc),
            divisibilities: Vec::new(self.alloc),
            periods: Vec::new(self.alloc),
            opponents: Vec::new(self.alloc),
            owners: Vec::new(self.alloc),
            values: Vec::new(self.alloc),
            candidates: Vec::new(self.alloc),
            tries: 0,
        };
        for node in 0..self.nodes() {
            self.note_node(&mut near, node)?;
        }
        for form in 0..size(self.search.forms.list.len())? {
            self.note_form(&mut near, form)?;
        }
        Ok(near)
    }

    /// The least value of a form in force.
    fn low(&self, form: u32) -> Result<Option<i128>, Stuck> {
        let mark = self.search.forms.form(form)?.low_mark;
        if mark == NONE {
            return Ok(None);
        }
        Ok(Some(self.search.forms.threshold(mark)?.num as i128))
    }

    /// The greatest value of a form in force.
    fn high(&self, form: u32) -> Result<Option<i128>, Stuck> {
        let mark = self.search.forms.form(form)?.high_mark;
        if mark == NONE {
            return Ok(None);
        }
        Ok(Some(difference(self.search.forms.threshold(mark)?.num as i128, 1)?))
    }

    fn is_bound_met(&self, near: &Near, form: u32) -> Result<bool, Stuck> {
        let terms = self.search.forms.form(form)?.terms.as_slice();
        let (value, _c) = part_value(terms, 0, NONE, near.values.as_slice())?;
        let window = Window {
            low: self.low(form)?,
            high: self.high(form)?,
        };
        Ok(window.has(value))
    }

    fn is_divisibility_met(&self, near: &Near, form: u32) -> Result<bool, Stuck> {
        let found = self.search.forms.form(form)?;
        let (value, _c) = part_value(
            found.terms.as_slice(),
            found.constant,
            NONE,
            near.values.as_slice(),
        )?;
        let holds = holds_at(AtomKind::Divides(found.modulus), value, 1)?;
        Ok(holds == (found.low != NONE))
    }

    /// The value of a node that is a move, and whether all forms that a node ends are met.
    fn settle_node(&self, near: &mut Near, node: u32) -> Result<bool, Stuck> {
        if let Some(defined) = item(self.search.setup.defs.as_slice(), node)? {
            let value = move_value(defined, node, near.values.as_slice())?;
            put(&mut near.values, node, value)?;
        }
        self.is_node_met(near, node)
    }

    /// Whether all forms that a node ends are met.
    fn is_node_met(&self, near: &Near, node: u32) -> Result<bool, Stuck> {
        for form in item(near.divisibilities.as_slice(), node)?.as_slice() {
            if !self.is_divisibility_met(near, *form)? {
                return Ok(false);
            }
        }
        for form in item(near.bounds.as_slice(), node)?.as_slice() {
            if !self.is_bound_met(near, *form)? {
                return Ok(false);
            }
        }
        Ok(true)
    }

    fn settle(&self, near: &mut Near, from: u32, to: u32) -> Result<bool, Stuck> {
        for node in from..to {
            if !self.settle_node(near, node)? {
                return Ok(false);
            }
        }
        Ok(true)
    }

    /// The node behind those that an opponent's node settles.
    fn behind(&self, near: &Near, k: u32) -> Result<u32, Stuck> {
        let next = k.checked_add(1).ok_or(Stuck::Place)?;
        match near.opponents.get(next as usize) {
            Some(node) => Ok(*node),
            None => Ok(self.nodes()),
        }
    }

    /// A form's bounds on a node that it ends.
    fn narrow(&self, near: &Near, form: u32, node: u32, window: &mut Window) -> Result<(), Stuck> {
        let terms = self.search.forms.form(form)?.terms.as_slice();
        let (rest, c) = part_value(terms, 0, node, near.values.as_slice())?;
        if c == 0 {
            return Ok(());
        }
        let by = i128::try_from(c.unsigned_abs()).ok().ok_or(Stuck::Wide)?;
        if let Some(low) = self.low(form)? {
            let left = difference(low, rest)?;
            if c > 0 {
                window.raise(negative(floor(negative(left)?, by)?)?);
            } else {
                window.lower(floor(negative(left)?, by)?);
            }
        }
        if let Some(high) = self.high(form)? {
            let left = difference(high, rest)?;
            if c > 0 {
                window.lower(floor(left, by)?);
            } else {
                window.raise(negative(floor(left, by)?)?);
            }
        }
        Ok(())
    }

    fn window(&self, near: &Near, node: u32) -> Result<Window, Stuck> {
        let mut window = Window {
            low: None,
            high: None,
        };
        for form in item(near.bounds.as_slice(), node)?.as_slice() {
            self.narrow(near, *form, node, &mut window)?;
        }
        Ok(window)
    }

    /// The values of a node that are tried, the nearest last.
    fn candidates(&self, near: &Near, node: u32) -> Result<Vec<i128>, Stuck> {
        let window = self.window(near, node)?;
        let middle = window.nearest(at(self.search.model.floors.as_slice(), node)?);
        let want = product(at(near.periods.as_slice(), node)?.min(PERIOD), 2)?.max(4);
        let mut out: Vec<i128> = Vec::new(self.alloc);
        let mut distance: i128 = 0;
        for _ in 0..1000u32 {
            if distance >= want {
                break;
            }
            let above = sum(middle, distance)?;
            if window.has(above) {
                out.push(above)?;
            }
            let below = difference(middle, distance)?;
            if distance > 0 && window.has(below) {
                out.push(below)?;
            }
            distance = sum(distance, 1)?;
        }
        out.as_mut_slice().reverse();
        Ok(out)
    }

    /// The next value of the last node that has some left is tried.
    fn try_one(&self, near: &mut Near) -> Result<Tried, Stuck> {
        let count = size(near.candidates.len())?;
        let Some(k) = count.checked_sub(1) else {
            return Ok(Tried::Over);
        };
        let Some(value) = lent(&mut near.candidates, k)?.pop() else {
            let _empty = near.candidates.pop();
            return Ok(Tried::Failed);
        };
        near.tries = near.tries.saturating_add(1);
        let most = 2000u64.saturating_add(300u64.saturating_mul(near.opponents.len() as u64));
        if near.tries > most {
            return Ok(Tried::Over);
        }
        let node = at(near.opponents.as_slice(), k)?;
        put(&mut near.values, node, value)?;
        let end = self.behind(near, k)?;
        Ok(if self.settle(near, node, end)? {
            Tried::Met
        } else {
            Tried::Failed
        })
    }

    /// Values are tried until one is met; false where none is left.
    fn try_next(&self, near: &mut Near) -> Result<bool, Stuck> {
        for _ in 0..u32::MAX {
            match self.try_one(near)? {
                Tried::Met => return Ok(true),
                Tried::Over => return Ok(false),
                Tried::Failed => {}
            }
        }
        Ok(false)
    }

    /// The next opponent's node gets its values; what that came to.
    fn try_node(&self, near: &mut Near) -> Result<Tried, Stuck> {
        let k = size(near.candidates.len())?;
        if k as usize >= near.opponents.len() {
            return Ok(Tried::Met);
        }
        let node = at(near.opponents.as_slice(), k)?;
        let list = self.candidates(near, node)?;
        near.candidates.push(list)?;
        Ok(if self.try_next(near)? {
            Tried::Failed
        } else {
            Tried::Over
        })
    }

    /// Whole values of all nodes that meet the literals in force, if a short search finds some.
    pub fn near_values(&self) -> Result<Option<Vec<i128>>, Stuck> {
        let mut near = self.near()?;
        let first = match near.opponents.as_slice().first() {
            Some(node) => *node,
            None => self.nodes(),
        };
        if !self.settle(&mut near, 0, first)? {
            return Ok(None);
        }
        for _ in 0..u32::MAX {
            match self.try_node(&mut near)? {
                Tried::Met => return Ok(Some(near.values)),
                Tried::Over => return Ok(None),
                Tried::Failed => {}
            }
        }
        Ok(None)
    }
}
