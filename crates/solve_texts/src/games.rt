//! The journal of outcomes.

ghost use Rattle.std.specs.Prelude.{◌≡◌, ◌++◌, OnOk, IfOk, length};
ghost use Rattle.std.specs.List.{flat_map};
ghost use Rattle.game_board.specs.Entries.{entries_of};
ghost use Rattle.solve_texts.specs.Journal.{entry_text, game_text, goal_text, goal_texts, journal_text};

use crate::entries::put_entry;
use crate::solved::Solved;
use dom_core::{Domain, Quant};
use game_board::Entry;
use lin_term::Memory;
use sqlite_items::Items;
use std::alloc::{AllocError, Global};
use strat_words::put_natural;
use team_work::Outcome;

fn put_entries<D: Domain>(
    out: &mut Vec<u8>,
    prefix: &[Quant],
    entries: &[Entry<D>],
) -> Result<(), AllocError>
    ensures { OnOk result (out.new.items ≡ out.old.items ++ flat_map (entry_text prefix.now) (entries_of entries.now)) }
{
    for entry in entries {
        put_entry(out, prefix, entry)?;
    }
    Ok(())
}

/// The game of the goal of this number.
fn put_game<D: Domain>(
    out: &mut Vec<u8>,
    prefix: &[Quant],
    number: u64,
    outcome: &Outcome<D>,
) -> Result<(), AllocError>
    ensures { OnOk result (out.new.items ≡ out.old.items ++ game_text prefix.now number outcome.now.rounds (entries_of outcome.now.journal)) }
{
    out.extend_from_slice(b"goal")?;
    put_natural(out, number)?;
    out.extend_from_slice(b"\nrounds")?;
    put_natural(out, outcome.rounds as u64)?;
    out.push(b'\n')?;
    put_entries(out, prefix, outcome.journal.as_slice())?;
    Ok(())
}

fn put_goal(
    out: &mut Vec<u8>,
    prefix: &[Quant],
    number: u64,
    solved: &Solved,
) -> Result<(), AllocError>
    ensures { OnOk result (out.new.items ≡ out.old.items ++ goal_text prefix.now number solved.now) }
{
    match solved {
        Solved::Rat(outcome) => put_game(out, prefix, number, outcome),
        Solved::Int(outcome) => put_game(out, prefix, number, outcome),
    }
}

fn put_goals(
    out: &mut Vec<u8>,
    prefixes: &[Items<Quant>],
    outcomes: &[Solved],
) -> Result<(), AllocError>
    requires { length prefixes.now ≡ length outcomes.now }
    ensures { OnOk result (out.new.items ≡ out.old.items ++ goal_texts 0 prefixes.now outcomes.now) }
{
    for number in 0..outcomes.len() {
        put_goal(
            out,
            prefixes[number].as_slice(),
            number as u64,
            &outcomes[number],
        )?;
    }
    Ok(())
}

fn journal_bytes(
    alloc: Global,
    prefixes: &[Items<Quant>],
    outcomes: &[Solved],
) -> Result<Vec<u8>, AllocError>
    requires { length prefixes.now ≡ length outcomes.now }
    ensures { IfOk result (λ v. v.items ≡ journal_text prefixes.now outcomes.now) }
{
    let mut out = Vec::from_slice(alloc, b"simsat-journal 1\n")?;
    put_goals(&mut out, prefixes, outcomes)?;
    out.extend_from_slice(b"end\n")?;
    Ok(out)
}

/// The bytes of the journal: for each goal its number, its budget of rounds and the entries of its history. Each outcome
/// stands beside the prefix of its goal's problem. It refuses only for memory.
pub fn journal(
    alloc: Global,
    prefixes: &[Items<Quant>],
    outcomes: &[Solved],
) -> Result<Vec<u8>, Memory>
    requires { length prefixes.now ≡ length outcomes.now }
    ensures { IfOk result (λ v. v.items ≡ journal_text prefixes.now outcomes.now) }
{
    match journal_bytes(alloc, prefixes, outcomes) {
        Ok(out) => Ok(out),
        Err(_) => Err(Memory),
    }
}
