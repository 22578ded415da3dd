//! The moves of a node.

ghost use Rattle.std.specs.Prelude.{◌≡◌, ◌≤◌, ◌^◌, ◌++◌, ◌∷◌, [], List, not, IfOk, OnOk};
ghost use Rattle.std.specs.List.{list_any};
ghost use Rattle.std.specs.Str.{bytes_eq};
ghost use Rattle.lin_term.specs.Move.{Move};
ghost use Rattle.strat_words.specs.Spot.{Gives};
ghost use Rattle.strat_words.specs.View.{spot};
ghost use Rattle.strat_text.specs.Seen.{HasMoves};
ghost use Rattle.strat_text.specs.Tree as spec;
ghost use Rattle.strat_text.specs.Written as written;

use crate::form::row;
use lin_term::Move;
use std::alloc::{AllocFailed, Global};
use std::collections::BTreeSet;
use strat_words::{Cursor, FileFault, count, ends, first_is, last_fault, no_more};

/// A move, its text, and the place behind it.
pub type Line<'a> = (Move, &'a [u8], Cursor<'a>);

/// The words of a move line over the variables below `pos`.
#[tactic(auto, unfolding(crate::specs::Tree::move_words))]
fn move_words(alloc: Global, at: Cursor<'_>, pos: u32) -> Result<(Move, Cursor<'_>), FileFault>
    requires { pos ≤ 2 ^ 20 }
    ensures { Gives (λ x. (x.0, spot x.1)) result (spec.move_words pos (spot at.entry)) }
{
    let after = first_is(at, b"m")?;
    let (div, after) = count(after, 1)?;
    let (form, after) = row(alloc, after, pos)?;
    let after = no_more(after)?;
    Ok((Move::from_parts(form, div as i64), after))
}

/// The same, with their text.
fn move_text(alloc: Global, at: Cursor<'_>, pos: u32) -> Result<Line<'_>, FileFault>
    requires { pos ≤ 2 ^ 20 }
    ensures gives { Gives (λ x. (x.0, spot x.2)) result (spec.move_words pos (spot at.entry)) }
    ensures text { IfOk result (λ x. x.1.now ≡ written.move_words x.0) }
{
    let (term, after) = move_words(alloc, at, pos)?;
    let text = &at.rest[..at.rest.len() - after.rest.len()];
    Ok((term, text, after))
}

/// Whether the text is new to the set, which has it from then on. The set is a tree: no file makes it slow.
fn is_new<'a>(seen: &mut BTreeSet<&'a [u8]>, text: &'a [u8]) -> Result<bool, AllocFailed<&'a [u8]>>
    ensures fresh { (ms : List Move) → HasMoves seen.old ms → IfOk result (λ fresh. fresh ≡ not (list_any (λ m. bytes_eq text.entry.now (written.move_words m)) ms)) }
    ensures then { (ms : List Move) (m : Move) → HasMoves seen.old ms → text.entry.now ≡ written.move_words m → OnOk result (HasMoves seen.new (ms ++ m ∷ [])) }
{
    seen.insert(text)
}

/// A move line over the variables below `pos`. A move whose text is seen already is a fault at its last word.
#[tactic(auto, unfolding(crate::specs::Tree::move_line))]
pub fn move_line<'a>(
    alloc: Global,
    at: Cursor<'a>,
    pos: u32,
    seen: &mut BTreeSet<&'a [u8]>,
) -> Result<(Move, Cursor<'a>), FileFault>
    requires { pos ≤ 2 ^ 20 }
    ensures gives { (ms : List Move) → HasMoves seen.old ms → Gives (λ x. (x.0, spot x.1)) result (spec.move_line pos ms (spot at.entry)) }
    ensures then { (ms : List Move) → HasMoves seen.old ms → IfOk result (λ x. HasMoves seen.new (ms ++ x.0 ∷ [])) }
{
    let (term, text, after) = move_text(alloc, at, pos)?;
    if !is_new(seen, text)? {
        return Err(last_fault(after));
    }
    let after = ends(after)?;
    Ok((term, after))
}
