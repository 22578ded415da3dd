//! The way itself.

use crate::candidate::Candidate;
use crate::offered::point_of;
use crate::polishing::{Nicer, nicer_or_none};
use crate::running::{Done, run};
use crate::values::{Values, keys_of};
use dom_core::Domain;
use lin_term::Point;
use lose_system::System;
use search_forms::Setup;
use search_lines::refuting_lines;
use search_rows::Stuck;
use search_trail::{Options, Search};
use search_whole::{Attack, Offer};
use std::alloc::Global;

/// The options of an order.
fn options_of(order: u64) -> Options {
    Options {
        turned: order % 2 == 1,
        theory: true,
        rows: 100,
        cuts: 8,
        first: order / 2 % 2 == 1,
    }
}

/// How wide the numbers of a point are.
fn width(point: &Point) -> u32 {
    let mut most: u64 = 0;
    for num in point.nums() {
        most = most.max(num.unsigned_abs());
    }
    let room = most
        .leading_zeros()
        .saturating_add(point.den().unsigned_abs().leading_zeros());
    128_u32.saturating_sub(room)
}

/// The point of an offer, none past the cap.
fn point_or_none(alloc: Global, offer: &Offer) -> Result<Option<Point>, Stuck> {
    match point_of(alloc, offer) {
        Ok(point) => Ok(Some(point)),
        Err(Stuck::Memory) => Err(Stuck::Memory),
        Err(_) => Ok(None),
    }
}

/// The nicer point, where there is one within the cap.
fn nicer_point(attack: &mut Attack, how: Nicer, offer: &Offer) -> Result<Option<Point>, Stuck> {
    let alloc = attack.alloc;
    match nicer_or_none(attack, how, offer)? {
        None => Ok(None),
        Some(found) => point_or_none(alloc, &found),
    }
}

/// The nicer point, where it was not looked for yet.
fn untried_point(
    attack: &mut Attack,
    how: Nicer,
    tried: bool,
    offer: &Offer,
) -> Result<Option<Point>, Stuck> {
    if tried {
        return Ok(None);
    }
    nicer_point(attack, how, offer)
}

/// The less wide of two points.
fn less_wide(a: Option<Point>, b: Option<Point>) -> Option<Point> {
    match a {
        None => b,
        Some(x) => match b {
            None => Some(x),
            Some(y) => if width(&y) < width(&x) {
                Some(y)
            } else {
                Some(x)
            },
        },
    }
}

/// The point made nicer as the order says.
fn nicest(
    attack: &mut Attack,
    offer: &Offer,
    middle: bool,
    simple: bool,
) -> Result<Option<Point>, Stuck> {
    let first = untried_point(attack, Nicer::Middle, !middle, offer)?;
    let second = untried_point(attack, Nicer::Simple, !simple, offer)?;
    Ok(less_wide(first, second))
}

/// A point made nicer as the order says; else as it is, and past the cap nicer in another way.
fn finished(attack: &mut Attack, offer: Offer, order: u64) -> Result<Candidate, Stuck> {
    let middle = order / 16 % 2 == 0;
    let simple = order / 32 % 2 == 1;
    if let Some(point) = nicest(attack, &offer, middle, simple)? {
        return Ok(Candidate::Point(point));
    }
    if let Some(point) = point_or_none(attack.alloc, &offer)? {
        return Ok(Candidate::Point(point));
    }
    if let Some(point) = untried_point(attack, Nicer::Simple, simple, &offer)? {
        return Ok(Candidate::Point(point));
    }
    match untried_point(attack, Nicer::Middle, middle, &offer)? {
        Some(point) => Ok(Candidate::Point(point)),
        None => Err(Stuck::Wide),
    }
}

/// The values of a point kept.
fn keep(
    values: &mut Values,
    attack: &Attack,
    keys: &[u64],
    candidate: &Candidate,
) -> Result<(), Stuck> {
    match candidate {
        Candidate::Steps(_) => Ok(()),
        Candidate::Point(point) => {
            let mut nums: Vec<i128> = Vec::new(attack.alloc);
            for num in point.nums() {
                nums.push(*num as i128)?;
            }
            let offer = Offer {
                den: point.den() as i128,
                nums,
            };
            values.keep(&attack.search.setup, keys, &offer)
        }
    }
}

/// The fast way: a bounded simplex with a trail; a path comes in only where the values at hand fail it, and conflicts are kept as
/// records. It starts at the values kept of earlier attacks, and a point that it finds takes their place. `order` changes which
/// children and columns are taken first, where the search starts, and which point is taken. Stuck where the fuel is spent (a step of the
/// tableau costs about one), past the width of a number, and for memory.
pub fn fast_way<D: Domain>(
    alloc: Global,
    system: &System<'_, D>,
    order: u64,
    fuel: u64,
    values: &mut Values,
) -> Result<Candidate, Stuck> {
    let setup = Setup::of(alloc, system)?;
    let few = order / 4 % 2 == 0;
    let keys = keys_of(alloc, &setup)?;
    let mut search = Search::new(alloc, setup, options_of(order), few, fuel)?;
    if order / 8 % 2 == 0 {
        values.start(
            alloc,
            &search.setup,
            keys.as_slice(),
            &search.columns,
            &mut search.tableau,
        )?;
    }
    let mut attack = Attack::new(alloc, search);
    match run(&mut attack)? {
        Done::Point(offer) => {
            let candidate = finished(&mut attack, offer, order)?;
            keep(values, &attack, keys.as_slice(), &candidate)?;
            Ok(candidate)
        }
        Done::Refuted => {
            let lines = refuting_lines(alloc, &attack.search, attack.proofs.as_slice())?;
            Ok(Candidate::Steps(lines))
        }
    }
}
