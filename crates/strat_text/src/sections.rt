//! Reading a strategy file.

ghost use Rattle.std.specs.Prelude.{◌≡◌, ◌≤◌, ◌<◌, ◌^◌, ◌==◌, ℕ, length, IfOk, IfSome, map, Ok, Err};
ghost use Rattle.std.specs.List.{list_all, AllByRecursion};
ghost use Rattle.strat_words.specs.Spot.{Gives};
ghost use Rattle.strat_words.specs.View.{spot};
ghost use Rattle.strat_words.specs.declared.FileFault.TheVariants.{Bad};
ghost use Rattle.strat_words.specs.Many.{times};
ghost use Rattle.strat_text.specs.Fault.{NoneShares};
ghost use Rattle.strat_text.specs.File as spec;
ghost use Rattle.strat_text.specs.Sections.{Sections, IsVersion, HasLines};
ghost use Rattle.strat_text.specs.Spelling.{Spells, without_lines, line_of};

use crate::preorder::tree;
use crate::proof::proof;
use crate::section::{Section, Sections};
use game_tree::Side;
use itoa::Buffer;
use sqlite_items::Items;
use std::alloc::{AllocError, Global};
use strat_words::{
    Cursor, FileFault, count, ends, first_is, last_fault, next, next_fault, next_is, start,
};

fn all_turns(word: &[u8]) -> bool
    ensures { result ≡ list_all spec.is_turn word.now }
{
    word.iter().all(|b| *b == b'o' || *b == b't')
}

fn letters(alloc: Global, word: &[u8]) -> Result<Items<bool>, AllocError>
    ensures { IfOk result (λ ts. ts ≡ map (λ b. b == 111) word.now) }
{
    let mut all = Items::new(alloc);
    for b in word {
        all.push(*b == b'o')?;
    }
    Ok(all)
}

fn turns_of(alloc: Global, word: &[u8]) -> Result<Option<Items<bool>>, AllocError>
    ensures value { IfOk result (λ ts. ts ≡ spec.turns_of word.now) }
    ensures short { IfOk result (λ ts. IfSome ts (λ ts. length ts ≤ 1024)) }
{
    if word == b"-".as_slice() {
        Ok(Some(Items::new(alloc)))
    } else if !word.is_empty() && all_turns(word) && word.len() < 1025 {
        Ok(Some(letters(alloc, word)?))
    } else {
        Ok(None)
    }
}

#[tactic(auto, unfolding(crate::specs::File::turns))]
fn turns(alloc: Global, at: Cursor<'_>) -> Result<(Items<bool>, Cursor<'_>), FileFault>
    ensures gives { Gives (λ x. (x.0, spot x.1)) result (spec.turns (spot at.entry)) }
    ensures short { IfOk result (λ x. length x.0 ≤ 1024) }
{
    let after = first_is(at, b"turns")?;
    let (word, after) = next(after)?;
    let Some(turns) = turns_of(alloc, word)? else {
        return Err(last_fault(after));
    };
    let after = ends(after)?;
    Ok((turns, after))
}

fn verdict_of(word: &[u8]) -> Option<Option<Side>>
    ensures { result ≡ spec.verdict_of word.now }
{
    if word == b"sat".as_slice() {
        Some(Some(Side::Exists))
    } else if word == b"unsat".as_slice() {
        Some(Some(Side::Forall))
    } else if word == b"unknown".as_slice() {
        Some(None)
    } else {
        None
    }
}

#[tactic(auto, unfolding(crate::specs::File::claimed))]
fn claimed(
    alloc: Global,
    version: u32,
    at: Cursor<'_>,
    side: Side,
    line: u64,
) -> Result<(Section, Cursor<'_>), FileFault>
    requires { line < 2 ^ 63 }
    ensures gives { Gives (λ x. (x.0, spot x.1)) result (spec.claimed version side line (spot at.entry)) }
    ensures line { IfOk result (λ x. line_of x.0 < 2 ^ 63) }
{
    let (turns, after) = turns(alloc, at)?;
    let (tree, after) = tree(alloc, after, turns.as_slice(), 0)?;
    let (proof, after) = proof(alloc, version, after)?;
    Ok((
        Section::Claimed {
            side,
            turns,
            tree,
            proof,
            line,
        },
        after,
    ))
}

#[tactic(auto, unfolding(crate::specs::File::section))]
fn section(
    alloc: Global,
    version: u32,
    at: Cursor<'_>,
    number: u64,
) -> Result<(Section, Cursor<'_>), FileFault>
    ensures gives { Gives (λ x. (x.0, spot x.1)) result (spec.section version number (spot at.entry)) }
    ensures line { IfOk result (λ x. line_of x.0 < 2 ^ 63) }
{
    let after = first_is(at, b"goal")?;
    let mut buffer = Buffer::new();
    let after = next_is(after, buffer.format(number).as_bytes())?;
    let (word, after) = next(after)?;
    let Some(verdict) = verdict_of(word) else {
        return Err(last_fault(after));
    };
    let after = ends(after)?;
    match verdict {
        None => Ok((Section::Unknown, after)),
        Some(side) => claimed(alloc, version, after, side, at.line),
    }
}

fn sections(
    alloc: Global,
    version: u32,
    at: Cursor<'_>,
    count: u64,
) -> Result<(Items<Section>, Cursor<'_>), FileFault>
    ensures gives { Gives (λ x. (x.0, spot x.1)) result (times (spec.section version) spec.next_number count 0 (spot at.entry)) }
    ensures lines { IfOk result (λ x. AllByRecursion (λ y. line_of y < 2 ^ 63) x.0) }
    ensures versioned { IfOk result (λ x. AllByRecursion (HasLines version) x.0) }
{
    let mut all = Items::new(alloc);
    let mut rest = at;
    for number in 0..count {
        let (item, after) = section(alloc, version, rest, number)?;
        all.push(item)?;
        rest = after;
    }
    Ok((all, rest))
}

fn version_of(word: &[u8]) -> Option<u32>
    ensures value { result ≡ spec.version_of word.now }
    ensures known { IfSome result IsVersion }
{
    if word == b"1".as_slice() {
        Some(1)
    } else if word == b"2".as_slice() {
        Some(2)
    } else {
        None
    }
}

/// The version as the next word.
fn version(at: Cursor<'_>) -> Result<(u32, Cursor<'_>), FileFault>
    ensures gives { Gives (λ x. (x.0, spot x.1)) result (spec.version (spot at.entry)) }
    ensures known { IfOk result (λ x. IsVersion x.0) }
{
    let (word, after) = next(at)?;
    match version_of(word) {
        Some(version) => Ok((version, after)),
        None => Err(last_fault(after)),
    }
}

#[tactic(auto, unfolding(crate::specs::File::file))]
fn file(alloc: Global, at: Cursor<'_>) -> Result<Sections, FileFault>
    ensures gives { Gives (λ xs. xs) result (spec.file (spot at.entry)) }
    ensures lines { IfOk result (λ xs. AllByRecursion (λ y. line_of y < 2 ^ 63) xs.list) }
{
    let after = first_is(at, b"simsat-strategy")?;
    let (version, after) = version(after)?;
    let after = ends(after)?;
    let after = first_is(after, b"goals")?;
    let (n, after) = count(after, 0)?;
    let after = ends(after)?;
    let (all, after) = sections(alloc, version, after, n)?;
    let after = first_is(after, b"end")?;
    let after = ends(after)?;
    if !after.rest.is_empty() {
        return Err(next_fault(after));
    }
    Ok(Sections::from_parts(version, all))
}

/// The sections that the bytes spell, each with its line, below 2^63; else `Bad` with the line and the word of the
/// first fault, or `Memory`, which no clause ties to the bytes.
pub fn read_file(alloc: Global, bytes: &[u8]) -> Result<Sections, FileFault>
    // What is read is spelled so.
    ensures found { IfOk result (λ xs. Spells bytes.now xs) }
    // What is spelled so is read, unless memory runs out.
    ensures only { (xs : Sections) → Spells bytes.now xs → Gives without_lines result (Ok (without_lines xs)) }
    // Which fault it is, and the line of each section.
    ensures exact { Gives (λ xs. xs) result (spec.reading bytes.now) }
    // No file that is the same through the word of the fault is spelled by sections.
    ensures none { (l w : ℕ) → result ≡ Err (Bad l w) → NoneShares bytes.now (record { line = l; word = w }) }
    // The lines are far from the greatest u64.
    ensures lines { IfOk result (λ xs. AllByRecursion (λ y. line_of y < 2 ^ 63) xs.list) }
{
    all(alloc, bytes)
}

fn all(alloc: Global, bytes: &[u8]) -> Result<Sections, FileFault>
    ensures gives { Gives (λ xs. xs) result (spec.reading bytes.now) }
    ensures lines { IfOk result (λ xs. AllByRecursion (λ y. line_of y < 2 ^ 63) xs.list) }
{
    file(alloc, start(bytes))
}
