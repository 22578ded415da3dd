//! Values kept from one attack to the next: an attack on a grown skeleton starts where the last one ended.
//! Measured on 36 games: 11.1 s from nothing, 4.8 s with values kept.

use search_forms::{Defined, Setup};
use search_rows::Stuck;
use search_simplex::{NONE, Tableau, at, gcd, item, lcm, put, quotient, small};
use search_trail::Columns;
use search_whole::Offer;
use std::alloc::Global;

/// The greatest denominator of a value that is kept.
const FINEST: i64 = 1_048_576;

/// The greatest common denominator of the values that an attack starts at; it leaves the tableau's scale room to grow.
const WIDEST: i128 = 4_294_967_296;

/// Odd, and without a pattern.
const SPREAD: u64 = 11_400_714_819_323_198_485;

/// Values of the opponent's nodes, found by the ways to them: the position and the moves before it.
#[derive(Debug, Drop)]
pub struct Values {
    /// A key, a numerator and a denominator, ascending by key.
    list: Vec<(u64, (i64, i64))>,
}

fn mixed(h: u64, n: u64) -> u64 {
    (h.rotate_left(5) ^ n).wrapping_mul(SPREAD)
}

/// The key of a move's node, from that of the node above.
fn move_key(above: u64, defined: &Defined, node: u32, setup: &Setup) -> Result<u64, Stuck> {
    let mut h = mixed(above, defined.den.cast_unsigned());
    h = mixed(h, defined.at_most.constant.cast_unsigned());
    for term in defined.at_most.coefs.as_slice() {
        if term.0 != node {
            let position = at(setup.positions.as_slice(), term.0)?;
            h = mixed(mixed(h, position as u64), term.1.cast_unsigned());
        }
    }
    Ok(mixed(h, 2))
}

/// The key of a node, from that of the node above.
fn key_of(above: u64, node: u32, setup: &Setup) -> Result<u64, Stuck> {
    match item(setup.defs.as_slice(), node)? {
        None => Ok(mixed(above, 1)),
        Some(defined) => move_key(above, defined, node, setup),
    }
}

/// The keys of the nodes of one path.
fn path_keys(keys: &mut Vec<u64>, path: &[u32], setup: &Setup) -> Result<(), Stuck> {
    let mut above: u64 = 1;
    for node in path {
        let old = at(keys.as_slice(), *node)?;
        let key = if old == 0 {
            key_of(above, *node, setup)?
        } else {
            old
        };
        put(keys, *node, key)?;
        above = key;
    }
    Ok(())
}

/// The keys of all nodes.
pub fn keys_of(alloc: Global, setup: &Setup) -> Result<Vec<u64>, Stuck> {
    let mut keys: Vec<u64> = Vec::new(alloc);
    keys.resize(setup.defs.len(), 0)?;
    for path in setup.paths.as_slice() {
        path_keys(&mut keys, path.as_slice(), setup)?;
    }
    Ok(keys)
}

/// Starts a column at a value that is not 0, where the common denominator stays small.
fn start_column(tableau: &mut Tableau, column: u32, value: (i64, i64)) -> Result<(), Stuck> {
    if value.0 == 0 || column == NONE {
        return Ok(());
    }
    let scale = lcm(tableau.scale as i128, value.1 as i128)?;
    if scale > WIDEST {
        return Ok(());
    }
    tableau.start_at(column, value.0, value.1)
}

impl Values {
    /// No value.
    pub fn new(alloc: Global) -> Values {
        Values {
            list: Vec::new(alloc),
        }
    }

    /// The value of a key, by halves.
    fn find(&self, key: u64) -> Option<(i64, i64)> {
        let mut from: usize = 0;
        let mut to = self.list.len();
        for _ in 0..64 {
            if from >= to {
                return None;
            }
            let middle = from / 2 + to / 2 + (from % 2 + to % 2) / 2;
            let Some(found) = self.list.get(middle) else {
                return None;
            };
            if found.0 == key {
                return Some(found.1);
            }
            if found.0 < key {
                from = middle.wrapping_add(1);
            } else {
                to = middle;
            }
        }
        None
    }

    /// The first value known at each position.
    fn by_position(
        &self,
        alloc: Global,
        setup: &Setup,
        keys: &[u64],
    ) -> Result<Vec<(i64, i64)>, Stuck> {
        let mut out: Vec<(i64, i64)> = Vec::new(alloc);
        let width = match setup.paths.as_slice().first() {
            Some(names) => names.len(),
            None => 0,
        };
        out.resize(width, (0, 0))?;
        for node in 0..setup.nodes() {
            if let Some(found) = self.find(at(keys, node)?) {
                let position = at(setup.positions.as_slice(), node)?;
                if at(out.as_slice(), position)?.1 == 0 {
                    put(&mut out, position, found)?;
                }
            }
        }
        Ok(out)
    }

    /// Starts the columns of the opponent's nodes at the values kept; a node that is new at the first one of its position.
    pub fn start(
        &self,
        alloc: Global,
        setup: &Setup,
        keys: &[u64],
        columns: &Columns,
        tableau: &mut Tableau,
    ) -> Result<(), Stuck> {
        if self.list.is_empty() {
            return Ok(());
        }
        let places = self.by_position(alloc, setup, keys)?;
        for node in 0..setup.nodes() {
            if !setup.is_move(node)? {
                let value = match self.find(at(keys, node)?) {
                    Some(found) => found,
                    None => at(places.as_slice(), at(setup.positions.as_slice(), node)?)?,
                };
                let column = at(columns.of_node.as_slice(), node)?;
                start_column(tableau, column, value)?;
            }
        }
        Ok(())
    }

    /// Keeps the values of a point in place of all others.
    pub fn keep(&mut self, setup: &Setup, keys: &[u64], offer: &Offer) -> Result<(), Stuck> {
        self.list.clear();
        for node in 0..setup.nodes() {
            if !setup.is_move(node)? {
                let num = at(offer.nums.as_slice(), node)?;
                let g = gcd(num, offer.den)?;
                let den = small(quotient(offer.den, g)?)?;
                if den <= FINEST {
                    self.list
                        .push((at(keys, node)?, (small(quotient(num, g)?)?, den)))?;
                }
            }
        }
        self.list.sort()?;
        Ok(())
    }
}
