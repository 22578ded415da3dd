//! Trees, turns and literals, as the strategy file writes them.

ghost use Rattle.std.specs.Prelude.{◌≡◌, ◌++◌, OnOk, drop, map};
ghost use Rattle.std.specs.List.{flat_map};
ghost use Rattle.game_tree.specs.View.{skeleton_of, branches_of};
ghost use Rattle.strat_text.specs.TreeText.{tree_text, branch_text};
ghost use Rattle.strat_text.specs.Written as spelled;
ghost use Rattle.strat_check.specs.Section.{turns_of};
ghost use Rattle.solve_texts.specs.Journal.{prefix_for};
ghost use Rattle.solve_texts.specs.Pieces.{side_letter, branch_lines};

use dom_core::{Quant, Side};
use game_tree::{Branch, Tree};
use lin_term::{Lit, Move, Row};
use std::alloc::AllocError;
use strat_words::{put_natural, put_signed};

fn put_term(out: &mut Vec<u8>, term: &(u32, i64)) -> Result<(), AllocError>
    ensures { OnOk result (out.new.items ≡ out.old.items ++ spelled.term term.now) }
{
    put_signed(out, term.1 as i128)?;
    put_natural(out, term.0 as u64)?;
    Ok(())
}

fn put_terms(out: &mut Vec<u8>, terms: &[(u32, i64)]) -> Result<(), AllocError>
    ensures { OnOk result (out.new.items ≡ out.old.items ++ flat_map spelled.term terms.now) }
{
    for term in terms {
        put_term(out, term)?;
    }
    Ok(())
}

fn put_row(out: &mut Vec<u8>, row: &Row) -> Result<(), AllocError>
    ensures { OnOk result (out.new.items ≡ out.old.items ++ spelled.row row.now) }
{
    put_signed(out, row.constant_part() as i128)?;
    put_terms(out, row.coefs())?;
    Ok(())
}

/// A literal, without the space before it.
pub fn put_literal(out: &mut Vec<u8>, lit: &Lit) -> Result<(), AllocError>
    ensures { OnOk result (out.new.items ≡ out.old.items ++ drop 1 (spelled.literal lit.now)) }
{
    match lit {
        Lit::AtLeast(row) => {
            out.extend_from_slice(b">=")?;
            put_row(out, row)
        }
        Lit::Above(row) => {
            out.extend_from_slice(b">")?;
            put_row(out, row)
        }
        Lit::Divides(d, row) => {
            out.extend_from_slice(b"|")?;
            put_natural(out, *d)?;
            put_row(out, row)
        }
        Lit::NotDivides(d, row) => {
            out.extend_from_slice(b"!|")?;
            put_natural(out, *d)?;
            put_row(out, row)
        }
    }
}

fn put_move(out: &mut Vec<u8>, term: &Move) -> Result<(), AllocError>
    ensures { OnOk result (out.new.items ≡ out.old.items ++ spelled.move_words term.now) }
{
    out.extend_from_slice(b"m")?;
    put_signed(out, term.div() as i128)?;
    put_row(out, term.row())?;
    Ok(())
}

/// The lines of a tree. It calls itself once a level.
#[cycle(put_tree)]
#[tactic(auto, using(crate::proofs::Trees::text_end, crate::proofs::Trees::text_theirs))]
pub fn put_tree(out: &mut Vec<u8>, tree: &Tree) -> Result<(), AllocError>
    ensures { OnOk result (out.new.items ≡ out.old.items ++ tree_text (skeleton_of tree.now)) }
{
    match tree {
        Tree::End => Ok(()),
        Tree::Theirs(rest) => {
            out.extend_from_slice(b"t\n")?;
            put_tree(out, rest.get())
        }
        Tree::Mine(branches) => {
            out.extend_from_slice(b"o")?;
            put_natural(out, branches.len() as u64)?;
            out.push(b'\n')?;
            put_branches(out, branches.as_slice())?;
            Ok(())
        }
    }
}

/// A move and what stands below it.
#[cycle(put_tree)]
fn put_branch(out: &mut Vec<u8>, branch: &Branch) -> Result<(), AllocError>
    ensures { OnOk result (out.new.items ≡ out.old.items ++ branch_lines branch.now) }
{
    put_move(out, &branch.term)?;
    out.push(b'\n')?;
    put_tree(out, &branch.rest)?;
    Ok(())
}

#[cycle(put_tree)]
fn put_branches(out: &mut Vec<u8>, branches: &[Branch]) -> Result<(), AllocError>
    ensures { OnOk result (out.new.items ≡ out.old.items ++ branch_text (branches_of branches.now)) }
{
    for branch in branches {
        put_branch(out, branch)?;
    }
    Ok(())
}

/// The letter of a variable: `o` for one that the side chooses, `t` for one of the other player.
fn letter(side: Side, quant: Quant) -> u8
    ensures { result ≡ side_letter side quant }
{
    match side {
        Side::Exists => match quant {
            Quant::Exists => b'o',
            Quant::Forall => b't',
        },
        Side::Forall => match quant {
            Quant::Exists => b't',
            Quant::Forall => b'o',
        },
    }
}

fn put_letters(out: &mut Vec<u8>, side: Side, prefix: &[Quant]) -> Result<(), AllocError>
    ensures { OnOk result (out.new.items ≡ out.old.items ++ map (side_letter side) prefix.now) }
{
    for quant in prefix {
        out.push(letter(side, *quant))?;
    }
    Ok(())
}

/// The side's letters of a prefix, or `-` for none.
#[tactic(auto, using(crate::proofs::Lettering::no_turns))]
pub fn put_turns(out: &mut Vec<u8>, side: Side, prefix: &[Quant]) -> Result<(), AllocError>
    ensures { OnOk result (out.new.items ≡ out.old.items ++ spelled.turns_word (turns_of (prefix_for side prefix.now))) }
{
    match prefix {
        [] => out.push(b'-')?,
        [_, ..] => put_letters(out, side, prefix)?,
    }
    Ok(())
}
