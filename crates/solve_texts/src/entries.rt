//! The entries of a journal.

ghost use Rattle.std.specs.Prelude.{◌≡◌, ◌++◌, ◌∷◌, OnOk, length, codes, drop};
ghost use Rattle.std.specs.List.{flat_map};
ghost use Rattle.game_tree.specs.View.{skeleton_of};
ghost use Rattle.game_board.specs.Entries.{wideness_of, entry_of};
ghost use Rattle.strat_text.specs.Written as spelled;
ghost use Rattle.strat_text.specs.TreeText.{text_line};
ghost use Rattle.solve_texts.specs.Texts.{side_word};
ghost use Rattle.solve_texts.specs.Journal.{prefix_for, played_text, note_text, entry_text};

use crate::tree::{put_literal, put_tree, put_turns};
use crate::verdicts::put_side;
use dom_core::{Domain, Quant, Side};
use game_board::{Entry, Wideness};
use game_tree::Skeleton;
use lin_term::{Lit, Point};
use std::alloc::AllocError;
use strat_words::{put_natural, put_signed};

/// The word of an entry, its side and a version.
fn put_head(out: &mut Vec<u8>, word: &[u8], side: Side, version: u32) -> Result<(), AllocError>
    ensures { OnOk result (out.new.items ≡ out.old.items ++ (word.now ++ (side_word side ++ spelled.natural version))) }
{
    out.extend_from_slice(word)?;
    put_side(out, side)?;
    put_natural(out, version as u64)?;
    Ok(())
}

/// The turns of the side and the lines of its skeleton, behind the end of a line. The prefix is that of the problem.
fn put_played<D: Domain>(
    out: &mut Vec<u8>,
    prefix: &[Quant],
    side: Side,
    skeleton: &Skeleton<D>,
) -> Result<(), AllocError>
    ensures { OnOk result (out.new.items ≡ out.old.items ++ (10 ∷ played_text (prefix_for side prefix.now) (skeleton_of skeleton.now.tree))) }
{
    out.extend_from_slice(b"\nturns ")?;
    put_turns(out, side, prefix)?;
    out.push(b'\n')?;
    put_tree(out, skeleton.tree())?;
    Ok(())
}

/// A literal on a line of its own.
fn put_literal_line(out: &mut Vec<u8>, lit: &Lit) -> Result<(), AllocError>
    ensures { OnOk result (out.new.items ≡ out.old.items ++ text_line (drop 1 (spelled.literal lit.now))) }
{
    put_literal(out, lit)?;
    out.push(b'\n')?;
    Ok(())
}

fn put_literals(out: &mut Vec<u8>, lits: &[Lit]) -> Result<(), AllocError>
    ensures { OnOk result (out.new.items ≡ out.old.items ++ flat_map (λ l. text_line (drop 1 (spelled.literal l))) lits.now) }
{
    for lit in lits {
        put_literal_line(out, lit)?;
    }
    Ok(())
}

/// A cube: how many literals, and each on a line.
fn put_cube(out: &mut Vec<u8>, lits: &[Lit]) -> Result<(), AllocError>
    ensures { OnOk result (out.new.items ≡ out.old.items ++ (text_line (codes " cube" ++ spelled.natural (length lits.now)) ++ flat_map (λ l. text_line (drop 1 (spelled.literal l))) lits.now)) }
{
    out.extend_from_slice(b" cube")?;
    put_natural(out, lits.len() as u64)?;
    out.push(b'\n')?;
    put_literals(out, lits)?;
    Ok(())
}

fn put_number(out: &mut Vec<u8>, number: &i64) -> Result<(), AllocError>
    ensures { OnOk result (out.new.items ≡ out.old.items ++ spelled.signed number.now) }
{
    put_signed(out, *number as i128)
}

fn put_numbers(out: &mut Vec<u8>, numbers: &[i64]) -> Result<(), AllocError>
    ensures { OnOk result (out.new.items ≡ out.old.items ++ flat_map spelled.signed numbers.now) }
{
    for number in numbers {
        put_number(out, number)?;
    }
    Ok(())
}

/// The line of a point: its denominator and its numerators.
fn put_point(out: &mut Vec<u8>, point: &Point) -> Result<(), AllocError>
    ensures { OnOk result (out.new.items ≡ out.old.items ++ text_line (codes "point" ++ (spelled.natural point.now.den ++ flat_map spelled.signed point.now.nums))) }
{
    out.extend_from_slice(b"point")?;
    put_signed(out, point.den() as i128)?;
    put_numbers(out, point.nums())?;
    out.push(b'\n')?;
    Ok(())
}

/// The position of a choice, and its point.
fn put_choice(out: &mut Vec<u8>, var: u32, point: &Point) -> Result<(), AllocError>
    ensures { OnOk result (out.new.items ≡ out.old.items ++ (text_line (codes " choice" ++ spelled.natural var) ++ text_line (codes "point" ++ (spelled.natural point.now.den ++ flat_map spelled.signed point.now.nums)))) }
{
    out.extend_from_slice(b" choice")?;
    put_natural(out, var as u64)?;
    out.push(b'\n')?;
    put_point(out, point)?;
    Ok(())
}

/// The line of the number past the cap.
fn put_past(out: &mut Vec<u8>, number: i128) -> Result<(), AllocError>
    ensures { OnOk result (out.new.items ≡ out.old.items ++ text_line (codes "number" ++ spelled.signed number)) }
{
    out.extend_from_slice(b"number")?;
    put_signed(out, number)?;
    out.push(b'\n')?;
    Ok(())
}

fn put_note<D: Domain>(out: &mut Vec<u8>, why: &Wideness<D>) -> Result<(), AllocError>
    ensures { OnOk result (out.new.items ≡ out.old.items ++ note_text (wideness_of why.now)) }
{
    match why {
        Wideness::Cube(wide) => {
            put_cube(out, wide.cube().lits())?;
            put_past(out, wide.number())
        }
        Wideness::Choice(choice) => {
            put_choice(out, choice.var, &choice.point)?;
            put_past(out, choice.number)
        }
    }
}

/// The lines of an entry in the game of a problem with this prefix.
pub fn put_entry<D: Domain>(
    out: &mut Vec<u8>,
    prefix: &[Quant],
    entry: &Entry<D>,
) -> Result<(), AllocError>
    ensures { OnOk result (out.new.items ≡ out.old.items ++ entry_text prefix.now (entry_of entry.now)) }
{
    match entry {
        Entry::Added {
            side,
            version,
            paths,
            made,
        } => {
            put_head(out, b"added", *side, *version)?;
            put_natural(out, *made as u64)?;
            put_played(out, prefix, *side, paths)
        }
        Entry::Held {
            side,
            version,
            paths,
        } => {
            put_head(out, b"held", *side, *version)?;
            put_played(out, prefix, *side, paths)
        }
        Entry::Spent {
            side,
            version,
            paths,
        } => {
            put_head(out, b"spent", *side, *version)?;
            put_played(out, prefix, *side, paths)
        }
        Entry::TooLarge {
            side,
            version,
            paths,
            nodes,
        } => {
            put_head(out, b"large", *side, *version)?;
            put_natural(out, *nodes)?;
            put_played(out, prefix, *side, paths)
        }
        Entry::Noted { side, version, why } => {
            put_head(out, b"noted", *side, *version)?;
            put_note(out, why)
        }
        Entry::Won { side, version } => {
            put_head(out, b"won", *side, *version)?;
            out.push(b'\n')?;
            Ok(())
        }
        Entry::Found { side, tree } => {
            out.extend_from_slice(b"found")?;
            put_side(out, *side)?;
            put_played(out, prefix, *side, tree)
        }
    }
}
