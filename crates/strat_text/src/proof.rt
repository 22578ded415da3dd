//! The proof of a section.

ghost use Rattle.std.specs.Prelude.{◌≡◌, ◌<◌, ◌+◌, ◌^◌, IfOk};
ghost use Rattle.lin_term.specs.Form.{cap};
ghost use Rattle.strat_words.specs.Spot.{Gives};
ghost use Rattle.strat_words.specs.View.{spot};
ghost use Rattle.strat_words.specs.Many.{times, state_behind};
ghost use Rattle.strat_text.specs.Proof as spec;

use crate::line::step;
use cube_rules::Step;
use sqlite_items::Items;
use std::alloc::Global;
use strat_words::{Cursor, FileFault, count, ends, first_is, next_fault};

fn open_behind(waiting: u128, line: &Step) -> u128
    requires { waiting < 2 ^ 127 }
    ensures behind { result ≡ spec.open_behind waiting line.now }
    ensures within { result < waiting + 2 ^ 64 }
{
    if waiting == 0 {
        0
    } else {
        waiting - 1 + line.parts() as u128
    }
}

fn proof_line(
    alloc: Global,
    version: u32,
    at: Cursor<'_>,
    waiting: u128,
) -> Result<(Step, Cursor<'_>), FileFault>
    ensures { Gives (λ x. (x.0, spot x.1)) result (spec.proof_line version waiting (spot at.entry)) }
{
    if waiting == 0 {
        return Err(next_fault(at));
    }
    step(alloc, version, at)
}

fn lines(
    alloc: Global,
    version: u32,
    at: Cursor<'_>,
    count: u64,
) -> Result<(Items<Step>, u128, Cursor<'_>), FileFault>
    requires { count < 2 ^ 53 }
    ensures gives { Gives (λ x. (x.0, spot x.2)) result (times (spec.proof_line version) spec.open_behind count 1 (spot at.entry)) }
    ensures open { IfOk result (λ x. x.1 ≡ state_behind spec.open_behind 1 x.0) }
{
    let mut all = Items::new(alloc);
    let mut rest = at;
    let mut waiting = 1u128;
    for _ in 0..count {
        let (item, after) = proof_line(alloc, version, rest, waiting)?;
        waiting = open_behind(waiting, &item);
        all.push(item)?;
        rest = after;
    }
    Ok((all, waiting, rest))
}

/// The proof of a section in a file of that version.
#[tactic(auto, unfolding(crate::specs::Proof::proof))]
pub fn proof(
    alloc: Global,
    version: u32,
    at: Cursor<'_>,
) -> Result<(Items<Step>, Cursor<'_>), FileFault>
    ensures { Gives (λ x. (x.0, spot x.1)) result (spec.proof version (spot at.entry)) }
{
    let after = first_is(at, b"proof")?;
    let (n, after) = count(after, 1)?;
    let after = ends(after)?;
    let (all, waiting, after) = lines(alloc, version, after, n)?;
    if waiting != 0 {
        return Err(next_fault(after));
    }
    Ok((all, after))
}
