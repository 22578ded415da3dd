//! What is printed of the problem that is made by itself.

ghost use Rattle.std.specs.Prelude.{◌≡◌, ◌≤◌, ◌++◌, ℕ, OnOk, IfOk, codes};
ghost use Rattle.lin_term.specs.declared.Sort.TheVariants.{Rat as rationals};
ghost use Rattle.strat_words.specs.Spelled as spelled;
ghost use Rattle.strat_text.specs.TreeText.{text_line};
ghost use Rattle.team_work.specs.Outcome.{IsOutcome};
ghost use Rattle.solve_texts.specs.Generated.{generated, generated_text, verdict_word};

use crate::newest::newest_nodes;
use crate::tally::rounds_in;
use dom_core::Domain;
use dom_rat::Rat;
use lin_term::Memory;
use std::alloc::{AllocError, Global};
use strat_words::put_natural;
use team_work::{Outcome, Verdict};

/// The one word of a verdict.
fn put_word<D: Domain>(out: &mut Vec<u8>, verdict: &Verdict<D>) -> Result<(), AllocError>
    ensures { OnOk result (out.new.items ≡ out.old.items ++ verdict_word verdict.now) }
{
    match verdict {
        Verdict::Sat(_) => out.extend_from_slice(b"sat"),
        Verdict::Unsat(_) => out.extend_from_slice(b"unsat"),
        Verdict::Unknown(_) => out.extend_from_slice(b"unknown"),
    }
}

fn four_lines<D: Domain>(
    alloc: Global,
    n: u32,
    verdict: &Verdict<D>,
    rounds: u64,
    nodes: u64,
) -> Result<Vec<u8>, AllocError>
    ensures { IfOk result (λ v. v.items ≡ text_line (codes "generated" ++ spelled.natural n) ++ (text_line (verdict_word verdict.now) ++ (text_line (codes "rounds" ++ spelled.natural rounds) ++ text_line (codes "nodes" ++ spelled.natural nodes)))) }
{
    let mut out = Vec::from_slice(alloc, b"generated")?;
    put_natural(&mut out, n as u64)?;
    out.push(b'\n')?;
    put_word(&mut out, verdict)?;
    out.extend_from_slice(b"\nrounds")?;
    put_natural(&mut out, rounds)?;
    out.extend_from_slice(b"\nnodes")?;
    put_natural(&mut out, nodes)?;
    out.push(b'\n')?;
    Ok(out)
}

/// The four lines of an outcome of the problem of this size, at most 512: the size, the one word of the verdict, the rounds that
/// were played, and the nodes of the newest version of Exists. It refuses only for memory.
#[tactic(auto, using(crate::proofs::Replaying::rounds_are))]
pub fn generated_lines(alloc: Global, n: u32, outcome: &Outcome<Rat>) -> Result<Vec<u8>, Memory>
    requires few { n ≤ 512 }
    requires outcome { (B : ℕ) × IsOutcome rationals (generated n) B outcome.now }
    ensures { IfOk result (λ v. v.items ≡ generated_text n outcome.now) }
{
    let entries = outcome.journal.as_slice();
    let nodes = newest_nodes(alloc, n, entries)?;
    let text = four_lines(alloc, n, &outcome.verdict, rounds_in(entries), nodes)?;
    Ok(text)
}
