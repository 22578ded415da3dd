//! Writing a strategy file.

ghost use Rattle.std.specs.Prelude.{◌≡◌, ◌++◌, ◌∷◌, OnOk, IfOk, codes, map};
ghost use Rattle.std.specs.List.{flat_map, concat};
ghost use Rattle.cube_rules.specs.declared.step.Step.TheVariants.{Sum};
ghost use Rattle.strat_text.specs.Written as spelled;
ghost use Rattle.strat_text.specs.Spelling.{AreSections, Spells};

use crate::section::{Section, Sections};
use cube_rules::Step;
use game_tree::{Branch, Side, Tree};
use lin_term::{Lit, Memory, Move, Row};
use std::alloc::{AllocError, Global};
use strat_words::{put_natural, put_signed};

fn put_term(out: &mut Vec<u8>, term: &(u32, i64)) -> Result<(), AllocError>
    ensures { OnOk result (out.new.items ≡ out.old.items ++ spelled.term term.now) }
{
    put_signed(out, term.1 as i128)?;
    put_natural(out, term.0 as u64)?;
    Ok(())
}

fn put_terms(out: &mut Vec<u8>, terms: &[(u32, i64)]) -> Result<(), AllocError>
    ensures { OnOk result (out.new.items ≡ out.old.items ++ flat_map spelled.term terms.now) }
{
    for term in terms {
        put_term(out, term)?;
    }
    Ok(())
}

fn put_row(out: &mut Vec<u8>, row: &Row) -> Result<(), AllocError>
    ensures { OnOk result (out.new.items ≡ out.old.items ++ spelled.row row.now) }
{
    put_signed(out, row.constant_part() as i128)?;
    put_terms(out, row.coefs())?;
    Ok(())
}

fn put_literal(out: &mut Vec<u8>, lit: &Lit) -> Result<(), AllocError>
    ensures { OnOk result (out.new.items ≡ out.old.items ++ spelled.literal lit.now) }
{
    match lit {
        Lit::AtLeast(row) => {
            out.extend_from_slice(b" >=")?;
            put_row(out, row)
        }
        Lit::Above(row) => {
            out.extend_from_slice(b" >")?;
            put_row(out, row)
        }
        Lit::Divides(d, row) => {
            out.extend_from_slice(b" |")?;
            put_natural(out, *d)?;
            put_row(out, row)
        }
        Lit::NotDivides(d, row) => {
            out.extend_from_slice(b" !|")?;
            put_natural(out, *d)?;
            put_row(out, row)
        }
    }
}

fn put_literals(out: &mut Vec<u8>, lits: &[Lit]) -> Result<(), AllocError>
    ensures { OnOk result (out.new.items ≡ out.old.items ++ flat_map spelled.literal lits.now) }
{
    for lit in lits {
        put_literal(out, lit)?;
    }
    Ok(())
}

fn put_indices(out: &mut Vec<u8>, facts: &[u32]) -> Result<(), AllocError>
    ensures { OnOk result (out.new.items ≡ out.old.items ++ flat_map spelled.natural facts.now) }
{
    for fact in facts {
        put_natural(out, *fact as u64)?;
    }
    Ok(())
}

fn put_product(out: &mut Vec<u8>, p: &i64, f: &u32) -> Result<(), AllocError>
    ensures { OnOk result (out.new.items ≡ out.old.items ++ (spelled.signed p.now ++ spelled.natural f.now)) }
{
    put_signed(out, *p as i128)?;
    put_natural(out, *f as u64)?;
    Ok(())
}

fn put_wide(out: &mut Vec<u8>, z: &i128) -> Result<(), AllocError>
    ensures { OnOk result (out.new.items ≡ out.old.items ++ spelled.signed z.now) }
{
    put_signed(out, *z)
}

fn put_sum(
    out: &mut Vec<u8>,
    p: &i64,
    f: &u32,
    q: &i64,
    h: &u32,
    g: &i128,
) -> Result<(), AllocError>
    ensures { OnOk result (out.new.items ≡ out.old.items ++ spelled.arguments (Sum p.now f.now q.now h.now g.now)) }
{
    put_product(out, p, f)?;
    put_product(out, q, h)?;
    put_wide(out, g)?;
    Ok(())
}

fn put_arguments(out: &mut Vec<u8>, step: &Step) -> Result<(), AllocError>
    ensures { OnOk result (out.new.items ≡ out.old.items ++ spelled.arguments step.now) }
{
    match step {
        Step::Path(k) => put_natural(out, *k as u64),
        Step::Def(v, i) => put_two(out, *v as u64, *i as u64),
        Step::Part(f, i) => put_two(out, *f as u64, *i as u64),
        Step::Cases(f, n) => put_two(out, *f as u64, *n),
        Step::Sum(p, f, q, h, g) => put_sum(out, p, f, q, h, g),
        Step::Split(lit) => put_literal(out, lit),
        Step::Cube(facts) => put_indices(out, facts.as_slice()),
        Step::Least(v, n) => put_two(out, *v as u64, *n),
        Step::Learn(lits) => put_literals(out, lits.as_slice()),
        Step::False(f) => put_natural(out, *f as u64),
    }
}

fn put_two(out: &mut Vec<u8>, a: u64, b: u64) -> Result<(), AllocError>
    ensures { OnOk result (out.new.items ≡ out.old.items ++ (spelled.natural a ++ spelled.natural b)) }
{
    put_natural(out, a)?;
    put_natural(out, b)?;
    Ok(())
}

fn put_step(out: &mut Vec<u8>, step: &Step) -> Result<(), AllocError>
    ensures { OnOk result (out.new.items ≡ out.old.items ++ spelled.step step.now) }
{
    out.extend_from_slice(step.kind().name().as_bytes())?;
    put_arguments(out, step)?;
    out.push(b'\n')?;
    Ok(())
}

fn put_steps(out: &mut Vec<u8>, steps: &[Step]) -> Result<(), AllocError>
    ensures { OnOk result (out.new.items ≡ out.old.items ++ flat_map spelled.step steps.now) }
{
    for step in steps {
        put_step(out, step)?;
    }
    Ok(())
}

fn put_proof(out: &mut Vec<u8>, steps: &[Step]) -> Result<(), AllocError>
    ensures { OnOk result (out.new.items ≡ out.old.items ++ spelled.proof steps.now) }
{
    out.extend_from_slice(b"proof")?;
    put_natural(out, steps.len() as u64)?;
    out.push(b'\n')?;
    put_steps(out, steps)?;
    Ok(())
}

fn put_move(out: &mut Vec<u8>, term: &Move) -> Result<(), AllocError>
    ensures { OnOk result (out.new.items ≡ out.old.items ++ spelled.move_words term.now) }
{
    out.extend_from_slice(b"m")?;
    put_signed(out, term.div() as i128)?;
    put_row(out, term.row())?;
    Ok(())
}

#[cycle(put_tree)]
fn put_tree(out: &mut Vec<u8>, tree: &Tree) -> Result<(), AllocError>
    ensures { OnOk result (out.new.items ≡ out.old.items ++ spelled.tree tree.now) }
{
    match tree {
        Tree::End => Ok(()),
        Tree::Theirs(below) => {
            out.extend_from_slice(b"t\n")?;
            put_tree(out, below.get())
        }
        Tree::Mine(branches) => {
            out.extend_from_slice(b"o")?;
            put_natural(out, branches.len() as u64)?;
            out.push(b'\n')?;
            put_branches(out, branches.as_slice())
        }
    }
}

#[cycle(put_tree)]
fn put_branch(out: &mut Vec<u8>, branch: &Branch) -> Result<(), AllocError>
    ensures { OnOk result (out.new.items ≡ out.old.items ++ spelled.branch branch.now) }
{
    put_move(out, &branch.term)?;
    out.push(b'\n')?;
    put_tree(out, &branch.rest)?;
    Ok(())
}

#[cycle(put_tree)]
fn put_branches(out: &mut Vec<u8>, branches: &[Branch]) -> Result<(), AllocError>
    ensures { OnOk result (out.new.items ≡ out.old.items ++ concat (map spelled.branch branches.now)) }
{
    for branch in branches {
        put_branch(out, branch)?;
    }
    Ok(())
}

fn put_letters(out: &mut Vec<u8>, turns: &[bool]) -> Result<(), AllocError>
    ensures { OnOk result (out.new.items ≡ out.old.items ++ map spelled.letter turns.now) }
{
    for own in turns {
        out.push(if *own { b'o' } else { b't' })?;
    }
    Ok(())
}

fn put_turns(out: &mut Vec<u8>, turns: &[bool]) -> Result<(), AllocError>
    ensures { OnOk result (out.new.items ≡ out.old.items ++ spelled.turns_word turns.now) }
{
    match turns {
        [] => out.push(b'-')?,
        [_, ..] => put_letters(out, turns)?,
    }
    Ok(())
}

fn put_verdict(out: &mut Vec<u8>, side: Side) -> Result<(), AllocError>
    ensures { OnOk result (out.new.items ≡ out.old.items ++ spelled.verdict side) }
{
    match side {
        Side::Exists => out.extend_from_slice(b" sat"),
        Side::Forall => out.extend_from_slice(b" unsat"),
    }
}

fn put_body(
    out: &mut Vec<u8>,
    turns: &[bool],
    tree: &Tree,
    proof: &[Step],
) -> Result<(), AllocError>
    ensures { OnOk result (out.new.items ≡ out.old.items ++ (codes "turns " ++ (spelled.turns_word turns.now ++ (10 ∷ (spelled.tree tree.now ++ spelled.proof proof.now))))) }
{
    out.extend_from_slice(b"turns ")?;
    put_turns(out, turns)?;
    out.push(b'\n')?;
    put_tree(out, tree)?;
    put_proof(out, proof)?;
    Ok(())
}

fn put_claims(out: &mut Vec<u8>, section: &Section) -> Result<(), AllocError>
    ensures { OnOk result (out.new.items ≡ out.old.items ++ spelled.claims section.now) }
{
    match section {
        Section::Unknown => out.extend_from_slice(b" unknown\n"),
        Section::Claimed {
            side,
            turns,
            tree,
            proof,
            ..
        } => {
            put_verdict(out, *side)?;
            out.push(b'\n')?;
            put_body(out, turns.as_slice(), tree, proof.as_slice())
        }
    }
}

fn put_section(out: &mut Vec<u8>, number: u64, section: &Section) -> Result<(), AllocError>
    ensures { OnOk result (out.new.items ≡ out.old.items ++ spelled.section number section.now) }
{
    out.extend_from_slice(b"goal")?;
    put_natural(out, number)?;
    put_claims(out, section)?;
    Ok(())
}

fn put_sections(out: &mut Vec<u8>, sections: &[Section]) -> Result<(), AllocError>
    ensures { OnOk result (out.new.items ≡ out.old.items ++ spelled.sections_from 0 sections.now) }
{
    for number in 0..sections.len() {
        put_section(out, number as u64, &sections[number])?;
    }
    Ok(())
}

/// The one spelling of sections that can be written (`AreSections`), in their version; refuses only for memory.
pub fn write_file(alloc: Global, sections: &Sections) -> Result<Vec<u8>, Memory>
    requires { AreSections sections.now.list }
    ensures value { IfOk result (λ v. v.items ≡ spelled.spelling sections.now) }
    ensures spells { IfOk result (λ v. Spells v.items sections.now) }
{
    match spelling(alloc, sections.version(), sections.as_slice()) {
        Ok(bytes) => Ok(bytes),
        Err(_) => Err(Memory),
    }
}

fn spelling(alloc: Global, version: u32, sections: &[Section]) -> Result<Vec<u8>, AllocError>
    ensures { IfOk result (λ v. v.items ≡ spelled.spelling (record { version = version; list = sections.now })) }
{
    let mut out = Vec::from_slice(alloc, b"simsat-strategy")?;
    put_natural(&mut out, version as u64)?;
    out.extend_from_slice(b"\ngoals")?;
    put_natural(&mut out, sections.len() as u64)?;
    out.push(b'\n')?;
    put_sections(&mut out, sections)?;
    out.extend_from_slice(b"end\n")?;
    Ok(out)
}
