//! Probing at level 0, after 50 conflicts and then after six times as many: every open literal that occurs is tried, and one that
//! gives a conflict at once is false for good. Measured: 65,536 conflicts and 4.0 s -> 62 conflicts and 2 ms, where the lemma lies
//! among the literals that exist and no order of decisions finds it.

use search_forms::Truth;
use search_rows::Stuck;
use search_simplex::{item, size};
use search_trail::{Conflict, Halt};
use search_whole::Attack;

/// Up to how many thresholds there may be.
const MOST: usize = 3000;

/// What a probe came to.
#[derive(Clone, Copy, PartialEq, Eq)]
enum Probe {
    /// The system is refuted.
    Refuted,
    /// Something new at level 0.
    New,
    Nothing,
}

/// What was done so far.
fn spent(attack: &Attack) -> u64 {
    let pivots = attack.search.tableau.pivots.saturating_mul(10);
    let decisions = attack.search.decisions.saturating_mul(5);
    attack
        .search
        .pushes
        .saturating_add(pivots)
        .saturating_add(decisions)
}

/// Propagates and takes conflicts in, until there is none; whether the system is refuted.
fn settle_all(attack: &mut Attack) -> Result<bool, Stuck> {
    for _ in 0..u64::MAX {
        match attack.search.propagate() {
            Ok(()) => return Ok(false),
            Err(Halt::Stuck(why)) => return Err(why),
            Err(Halt::Conflict(conflict)) => {
                if attack.search.analyse(conflict)? {
                    return Ok(true);
                }
            }
        }
    }
    Err(Stuck::Fuel)
}

fn decide_and_settle(attack: &mut Attack, code: u32) -> Result<(), Halt> {
    attack.search.decide(code)?;
    attack.search.propagate()
}

/// A conflict of a probe.
fn take_probe(attack: &mut Attack, conflict: Conflict) -> Result<Probe, Stuck> {
    if attack.search.analyse(conflict)? || settle_all(attack)? {
        return Ok(Probe::Refuted);
    }
    attack.search.back(0)?;
    Ok(Probe::New)
}

/// Whether a literal is worth a try: open, and in a leaf, or its negation is.
fn is_worth(attack: &Attack, code: u32) -> Result<bool, Stuck> {
    if attack.search.forms.truth(code)? != Truth::Open {
        return Ok(false);
    }
    let uses = attack.search.forms.uses.as_slice();
    Ok(!item(uses, code)?.is_empty() || !item(uses, code ^ 1)?.is_empty())
}

/// Tries one literal.
fn probe_one(attack: &mut Attack, code: u32) -> Result<Probe, Stuck> {
    if !is_worth(attack, code)? {
        return Ok(Probe::Nothing);
    }
    match decide_and_settle(attack, code) {
        Ok(()) => {
            attack.search.back(0)?;
            Ok(Probe::Nothing)
        }
        Err(Halt::Conflict(conflict)) => take_probe(attack, conflict),
        Err(Halt::Stuck(why)) => Err(why),
    }
}

/// Tries all literals once.
fn probe_round(attack: &mut Attack, stop: u64) -> Result<Probe, Stuck> {
    let count = attack.search.forms.thresholds.len();
    if count > MOST {
        return Ok(Probe::Nothing);
    }
    let mut found = Probe::Nothing;
    for code in 0..size(count.saturating_mul(2))? {
        if spent(attack) > stop {
            return Ok(Probe::Nothing);
        }
        match probe_one(attack, code)? {
            Probe::Refuted => return Ok(Probe::Refuted),
            Probe::New => found = Probe::New,
            Probe::Nothing => {}
        }
    }
    Ok(found)
}

/// Probes; whether the system is refuted.
pub fn probe_all(attack: &mut Attack) -> Result<bool, Stuck> {
    attack.search.back(0)?;
    if settle_all(attack)? {
        return Ok(true);
    }
    attack.search.back(0)?;
    let stop = spent(attack).saturating_mul(3).saturating_add(1000);
    for _ in 0..3 {
        match probe_round(attack, stop)? {
            Probe::Refuted => return Ok(true),
            Probe::Nothing => return Ok(false),
            Probe::New => {}
        }
    }
    Ok(false)
}
