//! The loop of an attack.

use crate::probing::probe_all;
use crate::rational::rational_point;
use search_forms::{Known, Truth};
use search_rows::Stuck;
use search_trail::{Conflict, Halt};
use search_whole::{Attack, Offer};

/// Up to how many paths all take part from the beginning.
const FEW: u32 = 8;

/// After how many conflicts all points are tried, if they are few.
const TRIED: u64 = 15;

/// What an attack ends with.
#[derive(Drop)]
pub enum Done {
    Point(Offer),
    Refuted,
}

/// All paths take part, where they are few.
fn begin(attack: &mut Attack) -> Result<(), Stuck> {
    let count = attack.search.setup.path_count();
    if count > FEW {
        return Ok(());
    }
    for path in 0..count {
        attack.search.activate_path(path)?;
    }
    Ok(())
}

/// A path that the values at hand fail comes in, or a literal that it needs is decided on.
fn help(attack: &mut Attack, path: u32) -> Result<Option<Offer>, Halt> {
    if !attack.search.is_active(path)? {
        attack.search.activate_path(path)?;
        return Ok(None);
    }
    let known = attack.search.choose(path)?;
    if is_settled_divisibility(attack, known)? {
        return attack.eliminate(false);
    }
    attack.decide_open(known)?;
    Ok(None)
}

/// Whether a literal is a divisibility that is in force, and that the rounded values fail.
fn is_settled_divisibility(attack: &Attack, known: Known) -> Result<bool, Stuck> {
    let Known::Lit(code) = known else {
        return Ok(false);
    };
    let form = attack.search.forms.form_of(code)?;
    Ok(attack.search.is_divisibility(form)? && attack.search.forms.truth(code)? == Truth::True)
}

/// One step on from where nothing waits: a point, or a decision.
fn extend(attack: &mut Attack) -> Result<Option<Offer>, Halt> {
    attack.search.read_model()?;
    if let Some(path) = attack.search.failing_path()? {
        return help(attack, path);
    }
    if attack.search.setup.is_int() {
        return attack.whole_point();
    }
    Ok(Some(rational_point(attack)?))
}

fn step(attack: &mut Attack) -> Result<Option<Offer>, Halt> {
    attack.search.propagate()?;
    extend(attack)
}

/// Takes a conflict in; whether the attack is done.
fn learn(attack: &mut Attack, conflict: Conflict) -> Result<Option<Done>, Stuck> {
    if attack.search.analyse(conflict)? {
        return Ok(Some(Done::Refuted));
    }
    if attack.search.setup.is_int() && attack.search.conflicts == TRIED {
        if let Some(offer) = attack.brute()? {
            return Ok(Some(Done::Point(offer)));
        }
    }
    if attack.search.conflicts < attack.budget.next_probe {
        return Ok(None);
    }
    attack.budget.next_probe = attack.budget.next_probe.saturating_mul(6);
    if probe_all(attack)? {
        return Ok(Some(Done::Refuted));
    }
    Ok(None)
}

/// One turn.
fn turn(attack: &mut Attack) -> Result<Option<Done>, Stuck> {
    match step(attack) {
        Ok(Some(offer)) => Ok(Some(Done::Point(offer))),
        Ok(None) => Ok(None),
        Err(Halt::Conflict(conflict)) => learn(attack, conflict),
        Err(Halt::Stuck(why)) => Err(why),
    }
}

/// The attack.
pub fn run(attack: &mut Attack) -> Result<Done, Stuck> {
    begin(attack)?;
    for _ in 0..u64::MAX {
        if let Some(done) = turn(attack)? {
            return Ok(done);
        }
    }
    Err(Stuck::Fuel)
}
