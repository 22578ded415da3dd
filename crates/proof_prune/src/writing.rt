//! The lines that stay.

ghost use Rattle.std.specs.Prelude.{◌≡◌, ◌++◌, ◌∷◌, [], slice_get, OnOk, IfOk};
ghost use Rattle.proof_prune.specs.Cutting.{passes};
ghost use Rattle.proof_prune.specs.Writing.{fitted, line_written, line_copied, names_behind, item_lines, item_names, written};

use crate::cutting::added;
use crate::item::Item;
use crate::renumbering::{fit, grow, renumber};
use cube_rules::Step;
use lin_term::Memory;
use sqlite_items::Items;
use std::alloc::{AllocError, Global};

/// The line of this number, with the new numbers of its facts; none past the last line.
fn write_line(
    alloc: Global,
    proof: &[Step],
    line: usize,
    names: &mut Vec<u64>,
    lines: &mut Items<Step>,
) -> Result<(), Memory>
    ensures lines { OnOk result (lines.new ≡ lines.old ++ line_written names.old.items (slice_get proof.now line)) }
    ensures names { OnOk result (names.new.items ≡ names_behind names.old.items (slice_get proof.now line)) }
{
    match proof.get(line) {
        Some(step) => {
            lines.push(renumber(alloc, step, names.as_slice())?)?;
            grow(names, added(step))?;
            Ok(())
        }
        None => Ok(()),
    }
}

/// The line of this number as it is; none past the last line.
fn copy_line(
    alloc: Global,
    proof: &[Step],
    line: usize,
    lines: &mut Items<Step>,
) -> Result<(), Memory>
    ensures { OnOk result (lines.new ≡ lines.old ++ line_copied (slice_get proof.now line)) }
{
    match proof.get(line) {
        Some(step) => {
            lines.push(step.copy(alloc)?)?;
            Ok(())
        }
        None => Ok(()),
    }
}

/// The lines of one item; how many items behind it are cut out.
fn write_item(
    alloc: Global,
    proof: &[Step],
    item: Item,
    names: &mut Vec<u64>,
    lines: &mut Items<Step>,
) -> Result<usize, Memory>
    ensures lines { OnOk result (lines.new ≡ lines.old ++ item_lines proof.now names.old.items item) }
    ensures names { OnOk result (names.new.items ≡ item_names proof.now names.old.items item) }
    ensures passes { IfOk result (λ cut. cut ≡ passes item) }
{
    match item {
        Item::Line(line, facts) => {
            fit(names, facts)?;
            write_line(alloc, proof, line, names, lines)?;
            Ok(0)
        }
        Item::Behind(line) => {
            copy_line(alloc, proof, line, lines)?;
            Ok(0)
        }
        Item::Read(_) => Ok(0),
        Item::Hole(facts, cut) => {
            fit(names, facts)?;
            Ok(cut)
        }
    }
}

/// The number of the first fact.
fn first_names(alloc: Global) -> Result<Vec<u64>, AllocError>
    ensures { IfOk result (λ names. names.items ≡ 0 ∷ []) }
{
    let mut names = Vec::new(alloc);
    names.push(0)?;
    Ok(names)
}

/// The lines of all items.
pub fn write(alloc: Global, proof: &[Step], items: &[Item]) -> Result<Items<Step>, Memory>
    ensures { IfOk result (λ lines. lines ≡ written proof.now (0 ∷ []) 0 items.now) }
{
    let mut names = first_names(alloc)?;
    let mut lines = Items::new(alloc);
    let mut place = 0;
    while place < items.len() {
        let cut = match write_item(alloc, proof, items[place], &mut names, &mut lines) {
            Ok(cut) => cut,
            Err(error) => return Err(error),
        };
        if cut >= items.len() - place - 1 {
            return Ok(lines);
        }
        place += cut + 1;
    }
    Ok(lines)
}
