//! What is printed of outcomes.

ghost use Rattle.std.specs.Prelude.{◌≡◌, ◌++◌, OnOk, IfOk};
ghost use Rattle.solve_texts.specs.Texts.{side_word, cause, verdict_lines, goal_lines, lines as lines_of};

use crate::solved::Solved;
use dom_core::{Domain, Side};
use game_board::Why;
use lin_term::Memory;
use std::alloc::{AllocError, Global};
use strat_words::{put_natural, put_signed};
use team_work::Verdict;

/// The side's word, with a space before it.
pub fn put_side(out: &mut Vec<u8>, side: Side) -> Result<(), AllocError>
    ensures { OnOk result (out.new.items ≡ out.old.items ++ side_word side) }
{
    match side {
        Side::Exists => out.extend_from_slice(b" exists"),
        Side::Forall => out.extend_from_slice(b" forall"),
    }
}

/// Why there is no verdict.
fn put_cause<D: Domain>(out: &mut Vec<u8>, why: &Why<D>) -> Result<(), AllocError>
    ensures { OnOk result (out.new.items ≡ out.old.items ++ cause why.now) }
{
    match why {
        Why::Coefficient(note) => {
            out.extend_from_slice(b"; coefficient")?;
            put_side(out, note.side)?;
            put_natural(out, note.version as u64)?;
            put_signed(out, note.why.number())
        }
        Why::Rounds(rounds) => {
            out.extend_from_slice(b"; rounds")?;
            put_natural(out, *rounds as u64)
        }
        Why::Nodes(nodes) => {
            out.extend_from_slice(b"; nodes")?;
            put_natural(out, *nodes)
        }
    }
}

/// The lines of a verdict.
fn put_verdict<D: Domain>(out: &mut Vec<u8>, verdict: &Verdict<D>) -> Result<(), AllocError>
    ensures { OnOk result (out.new.items ≡ out.old.items ++ verdict_lines verdict.now) }
{
    match verdict {
        Verdict::Sat(_) => out.extend_from_slice(b"sat\n"),
        Verdict::Unsat(_) => out.extend_from_slice(b"unsat\n"),
        Verdict::Unknown(why) => {
            out.extend_from_slice(b"unknown\n")?;
            put_cause(out, why)?;
            out.push(b'\n')?;
            Ok(())
        }
    }
}

fn put_solved(out: &mut Vec<u8>, solved: &Solved) -> Result<(), AllocError>
    ensures { OnOk result (out.new.items ≡ out.old.items ++ goal_lines solved.now) }
{
    match solved {
        Solved::Rat(outcome) => put_verdict(out, &outcome.verdict),
        Solved::Int(outcome) => put_verdict(out, &outcome.verdict),
    }
}

/// The lines of all goals, put behind the text; refuses only for memory.
pub fn put_lines(out: &mut Vec<u8>, outcomes: &[Solved]) -> Result<(), AllocError>
    ensures { OnOk result (out.new.items ≡ out.old.items ++ lines_of outcomes.now) }
{
    for solved in outcomes {
        put_solved(out, solved)?;
    }
    Ok(())
}

/// The lines of all goals: the verdict of each, and behind `unknown` its cause. It refuses only for memory.
pub fn lines(alloc: Global, outcomes: &[Solved]) -> Result<Vec<u8>, Memory>
    ensures { IfOk result (λ v. v.items ≡ lines_of outcomes.now) }
{
    let mut out = Vec::new(alloc);
    put_lines(&mut out, outcomes)?;
    Ok(out)
}
