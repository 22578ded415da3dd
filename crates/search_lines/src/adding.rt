//! Sums of bounds with weights, added up so that the highest variable cancels first; where the numbers get too wide the other way
//! round, at last by elimination.

use crate::facts::Dag;
use search_rows::{Atom, Stuck};
use search_simplex::{gcd, product, quotient};
use std::alloc::Global;

/// The most sums that one variable may give.
const MOST: usize = 200;

/// Whether the coefficient has the other sign.
fn cancels(atom: &Atom, var: u32, c: i64) -> bool {
    let d = atom.coefficient(var);
    d != 0 && (d > 0) != (c > 0)
}

/// Takes the item at a place out.
fn taken(rest: &mut Vec<(u32, i128)>, place: usize) -> Result<(u32, i128), Stuck> {
    if place < rest.len() {
        Ok(rest.remove(place))
    } else {
        Err(Stuck::Place)
    }
}

impl Dag {
    /// The place of an item in which the highest variable of a sum cancels, else the first.
    fn next_place(&self, total: u32, rest: &[(u32, i128)]) -> Result<usize, Stuck> {
        let Some(last) = self.atom(total)?.coefs.as_slice().last() else {
            return Ok(0);
        };
        for place in 0..rest.len() {
            let Some(found) = rest.get(place) else {
                return Ok(0);
            };
            if cancels(self.atom(found.0)?, last.0, last.1) {
                return Ok(place);
            }
        }
        Ok(0)
    }

    /// The sum of facts with weights; it ends early at a false one.
    pub fn add_up(&mut self, items: &[(u32, i128)]) -> Result<u32, Stuck> {
        let mut rest: Vec<(u32, i128)> = Vec::new(self.alloc);
        rest.extend_from_slice(items)?;
        let (first, weight) = taken(&mut rest, 0)?;
        let mut total = first;
        let mut scale = weight;
        for _ in 0..items.len() {
            if rest.is_empty() || self.is_false(total)? {
                return Ok(total);
            }
            let place = self.next_place(total, rest.as_slice())?;
            let (fact, m) = taken(&mut rest, place)?;
            let g = gcd(scale, m)?;
            let (sum, k) = self.sum(quotient(scale, g)?, total, quotient(m, g)?, fact)?;
            total = sum;
            scale = product(g, k)?;
        }
        Ok(total)
    }

    /// The line `false` of a sum with weights, none where it is not false or too wide.
    fn summed(&mut self, items: &[(u32, i128)]) -> Result<Option<u32>, Stuck> {
        match self.add_up(items) {
            Ok(fact) => {
                if self.is_false(fact)? {
                    Ok(Some(self.false_node(fact)?))
                } else {
                    Ok(None)
                }
            }
            Err(Stuck::Memory) => Err(Stuck::Memory),
            Err(_) => Ok(None),
        }
    }

    /// The end of a context by bounds with weights.
    pub fn farkas(&mut self, items: &[(u32, i128)]) -> Result<u32, Stuck> {
        if let Some(node) = self.summed(items)? {
            return Ok(node);
        }
        let mut back: Vec<(u32, i128)> = Vec::new(self.alloc);
        back.extend_from_slice(items)?;
        back.as_mut_slice().reverse();
        if let Some(node) = self.summed(back.as_slice())? {
            return Ok(node);
        }
        let mut facts: Vec<u32> = Vec::new(self.alloc);
        for each in items {
            facts.push(each.0)?;
        }
        self.eliminate(facts)
    }

    /// A false fact among some.
    fn false_among(&self, facts: &[u32]) -> Result<Option<u32>, Stuck> {
        for fact in facts {
            if self.is_false(*fact)? {
                return Ok(Some(*fact));
            }
        }
        Ok(None)
    }

    /// The highest variable of facts.
    fn top(&self, facts: &[u32]) -> Result<u32, Stuck> {
        let mut top: Option<u32> = None;
        for fact in facts {
            if let Some(var) = self.atom(*fact)?.highest() {
                top = match top {
                    None => Some(var),
                    Some(old) => Some(old.max(var)),
                };
            }
        }
        top.ok_or(Stuck::Place)
    }

    /// The sums of each lower with each upper bound of a variable, and what is left.
    fn paired(&mut self, facts: &[u32], var: u32) -> Result<Vec<u32>, Stuck> {
        let mut out: Vec<u32> = Vec::new(self.alloc);
        let mut lower: Vec<u32> = Vec::new(self.alloc);
        let mut upper: Vec<u32> = Vec::new(self.alloc);
        for fact in facts {
            let c = self.atom(*fact)?.coefficient(var);
            if c == 0 {
                out.push(*fact)?;
            } else if c > 0 {
                lower.push(*fact)?;
            } else {
                upper.push(*fact)?;
            }
        }
        if lower.len().saturating_mul(upper.len()) > MOST {
            return Err(Stuck::Fuel);
        }
        for low in lower.as_slice() {
            for high in upper.as_slice() {
                out.push(self.pair(*low, *high, var)?)?;
            }
        }
        Ok(out)
    }

    /// The sum of two facts in which a variable cancels.
    pub fn pair(&mut self, low: u32, high: u32, var: u32) -> Result<u32, Stuck> {
        let x = self.atom(low)?.coefficient(var).unsigned_abs() as i128;
        let y = self.atom(high)?.coefficient(var).unsigned_abs() as i128;
        let g = gcd(x, y)?;
        let (fact, _g) = self.sum(quotient(y, g)?, low, quotient(x, g)?, high)?;
        Ok(fact)
    }

    /// The end of a context by elimination, the highest variable first.
    fn eliminate(&mut self, facts: Vec<u32>) -> Result<u32, Stuck> {
        let mut now = facts;
        for _ in 0..u32::MAX {
            if let Some(fact) = self.false_among(now.as_slice())? {
                return self.false_node(fact);
            }
            let var = self.top(now.as_slice())?;
            now = self.paired(now.as_slice(), var)?;
        }
        Err(Stuck::Fuel)
    }
}

/// Items with their weights over the common divisor.
pub fn lowered(alloc: Global, items: &[(u32, i128)]) -> Result<Vec<(u32, i128)>, Stuck> {
    let mut g: i128 = 0;
    for each in items {
        g = gcd(g, each.1)?;
    }
    let mut out: Vec<(u32, i128)> = Vec::new(alloc);
    for each in items {
        out.push((each.0, quotient(each.1, g)?))?;
    }
    Ok(out)
}
