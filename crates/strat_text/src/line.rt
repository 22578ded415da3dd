//! The lines of a proof.

ghost use Rattle.std.specs.Prelude.{◌≡◌, ◌≤◌, ◌<◌, length, IfOk};
ghost use Rattle.strat_words.specs.Spot.{Gives};
ghost use Rattle.strat_words.specs.View.{spot};
ghost use Rattle.strat_text.specs.Line as spec;
ghost use Rattle.strat_text.specs.Sections.{has_kind};

use crate::form::literal;
use cube_rules::{DIVISOR_CAP, Kind, Step};
use lin_term::Lit;
use sqlite_items::Items;
use std::alloc::Global;
use strat_words::{
    Cursor, FileFault, count, ends, first, goes_on, index, kept, last_fault, next_fault,
    number_follows, signed,
};

fn indices(alloc: Global, at: Cursor<'_>) -> Result<(Items<u32>, Cursor<'_>), FileFault>
    ensures { Gives (λ x. (x.0, spot x.1)) result (spec.indices (spot at.entry)) }
{
    let mut all = Items::new(alloc);
    let mut rest = at;
    while number_follows(rest) {
        let (item, after) = index(rest)?;
        all.push(item)?;
        rest = after;
    }
    Ok((all, rest))
}

fn literals(alloc: Global, at: Cursor<'_>) -> Result<(Items<Lit>, Cursor<'_>), FileFault>
    ensures { Gives (λ x. (x.0, spot x.1)) result (spec.literals (spot at.entry)) }
{
    let mut all = Items::new(alloc);
    let mut rest = at;
    while goes_on(rest) {
        let (item, after) = literal(alloc, rest)?;
        all.push(item)?;
        rest = after;
    }
    Ok((all, rest))
}

fn two(at: Cursor<'_>) -> Result<(u32, u32, Cursor<'_>), FileFault>
    ensures { Gives (λ x. (x.0, x.1, spot x.2)) result (spec.two_indices (spot at.entry)) }
{
    let (a, after) = index(at)?;
    let (b, after) = index(after)?;
    Ok((a, b, after))
}

fn parts(at: Cursor<'_>) -> Result<(u32, u64, Cursor<'_>), FileFault>
    ensures { Gives (λ x. (x.0, x.1, spot x.2)) result (spec.index_and_count (spot at.entry)) }
{
    let (a, after) = index(at)?;
    let (n, after) = count(after, 0)?;
    Ok((a, n, after))
}

#[tactic(auto, unfolding(crate::specs::Line::sum_line))]
fn sum_line(at: Cursor<'_>) -> Result<(Step, Cursor<'_>), FileFault>
    ensures { Gives (λ x. (x.0, spot x.1)) result (spec.sum_line (spot at.entry)) }
{
    let (p, after) = kept(at)?;
    let (f, after) = index(after)?;
    let (q, after) = kept(after)?;
    let (h, after) = index(after)?;
    let (g, after) = signed(after, DIVISOR_CAP + 1)?;
    Ok((Step::Sum(p, f, q, h, g), after))
}

#[tactic(auto, unfolding(crate::specs::Line::cube_line))]
fn cube_line(alloc: Global, at: Cursor<'_>) -> Result<(Step, Cursor<'_>), FileFault>
    ensures { Gives (λ x. (x.0, spot x.1)) result (spec.cube_line (spot at.entry)) }
{
    if !number_follows(at) {
        return Err(next_fault(at));
    }
    let (facts, after) = indices(alloc, at)?;
    Ok((Step::Cube(facts), after))
}

#[tactic(auto, unfolding(crate::specs::Line::learn_line))]
fn learn_line(alloc: Global, at: Cursor<'_>) -> Result<(Step, Cursor<'_>), FileFault>
    ensures { Gives (λ x. (x.0, spot x.1)) result (spec.learn_line (spot at.entry)) }
{
    if !goes_on(at) {
        return Err(next_fault(at));
    }
    let (lits, after) = literals(alloc, at)?;
    Ok((Step::Learn(lits), after))
}

fn step_of<'a>(alloc: Global, kind: Kind, at: Cursor<'a>) -> Result<(Step, Cursor<'a>), FileFault>
    ensures { Gives (λ x. (x.0, spot x.1)) result (spec.step_of kind (spot at.entry)) }
{
    match kind {
        Kind::Path => {
            let (k, after) = index(at)?;
            Ok((Step::Path(k), after))
        }
        Kind::Def => {
            let (v, i, after) = two(at)?;
            Ok((Step::Def(v, i), after))
        }
        Kind::Part => {
            let (f, i, after) = two(at)?;
            Ok((Step::Part(f, i), after))
        }
        Kind::Cases => {
            let (f, n, after) = parts(at)?;
            Ok((Step::Cases(f, n), after))
        }
        Kind::Sum => sum_line(at),
        Kind::Split => {
            let (lit, after) = literal(alloc, at)?;
            Ok((Step::Split(lit), after))
        }
        Kind::Cube => cube_line(alloc, at),
        Kind::Least => {
            let (v, n, after) = parts(at)?;
            Ok((Step::Least(v, n), after))
        }
        Kind::Learn => learn_line(alloc, at),
        Kind::False => {
            let (f, after) = index(at)?;
            Ok((Step::False(f), after))
        }
    }
}

/// Whether the version of the file has lines of the kind: `learn` came with version 2.
fn has_kind(version: u32, kind: Kind) -> bool
    ensures { result ≡ has_kind version kind }
{
    match kind {
        Kind::Learn => version >= 2,
        _ => true,
    }
}

fn kind_in(version: u32, word: &[u8]) -> Option<Kind>
    ensures { result ≡ spec.kind_in version word.now }
{
    let kind = Kind::named(word)?;
    if has_kind(version, kind) {
        Some(kind)
    } else {
        None
    }
}

/// A line of a proof in a file of that version.
#[tactic(auto, unfolding(crate::specs::Line::step))]
pub fn step(alloc: Global, version: u32, at: Cursor<'_>) -> Result<(Step, Cursor<'_>), FileFault>
    ensures { Gives (λ x. (x.0, spot x.1)) result (spec.step version (spot at.entry)) }
{
    let (name, after) = first(at)?;
    let Some(kind) = kind_in(version, name) else {
        return Err(last_fault(after));
    };
    let (step, after) = step_of(alloc, kind, after)?;
    let after = ends(after)?;
    Ok((step, after))
}
