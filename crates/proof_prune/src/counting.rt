//! How often facts are read.

ghost use Rattle.std.specs.Prelude.{◌≡◌, ◌<◌, ◌^◌, ◌+◌, ◌++◌, ◌∷◌, [], length, map, OnOk};
ghost use Rattle.cube_rules.specs.declared.Step.{Step};
ghost use Rattle.proof_prune.specs.declared.item.Item.TheVariants.{Read};
ghost use Rattle.proof_prune.specs.Counting.{facts_read, counted, uncounted, all_unread, AtMost};

use crate::item::Item;
use cube_rules::Step;
use std::alloc::AllocError;

/// The fact is read once more; one that has no count is passed over.
fn count(counts: &mut Vec<u64>, fact: u32, most: usize)
    requires few { AtMost most counts.old.items }
    requires room { most + 1 < 2 ^ 64 }
    ensures counts { counts.new.items ≡ counted (fact ∷ []) counts.old.items }
    ensures few { AtMost (most + 1) counts.new.items }
{
    if (fact as usize) < counts.len() {
        counts[fact as usize] += 1;
    }
}

/// The fact is read once less.
pub fn uncount(counts: &mut Vec<u64>, fact: u32, most: usize)
    requires { AtMost most counts.old.items }
    ensures counts { counts.new.items ≡ uncounted (fact ∷ []) counts.old.items }
    ensures few { AtMost most counts.new.items }
{
    if (fact as usize) < counts.len() {
        counts[fact as usize] = counts[fact as usize].saturating_sub(1);
    }
}

/// The fact is read.
fn read(counts: &mut Vec<u64>, items: &mut Vec<Item>, fact: u32) -> Result<(), AllocError>
    requires { AtMost (length items.old.items) counts.old.items }
    ensures counts { OnOk result (counts.new.items ≡ counted (fact ∷ []) counts.old.items) }
    ensures items { OnOk result (items.new.items ≡ items.old.items ++ Read fact ∷ []) }
    ensures few { OnOk result (AtMost (length items.new.items) counts.new.items) }
{
    let most = items.len();
    items.push(Item::Read(fact))?;
    count(counts, fact, most);
    Ok(())
}

/// The facts are read.
fn read_all(counts: &mut Vec<u64>, items: &mut Vec<Item>, facts: &[u32]) -> Result<(), AllocError>
    requires { AtMost (length items.old.items) counts.old.items }
    ensures counts { OnOk result (counts.new.items ≡ counted facts.now counts.old.items) }
    ensures items { OnOk result (items.new.items ≡ items.old.items ++ map Read facts.now) }
    ensures few { OnOk result (AtMost (length items.new.items) counts.new.items) }
{
    for fact in facts {
        match read(counts, items, *fact) {
            Ok(()) => {}
            Err(error) => return Err(error),
        }
    }
    Ok(())
}

/// Two facts are read.
fn read_both(
    counts: &mut Vec<u64>,
    items: &mut Vec<Item>,
    fact: u32,
    other: u32,
) -> Result<(), AllocError>
    requires { AtMost (length items.old.items) counts.old.items }
    ensures counts { OnOk result (counts.new.items ≡ counted (fact ∷ other ∷ []) counts.old.items) }
    ensures items { OnOk result (items.new.items ≡ items.old.items ++ Read fact ∷ Read other ∷ []) }
    ensures few { OnOk result (AtMost (length items.new.items) counts.new.items) }
{
    match read(counts, items, fact) {
        Ok(()) => {}
        Err(error) => return Err(error),
    }
    read(counts, items, other)
}

/// The facts that the line reads are read.
pub fn read_line(
    counts: &mut Vec<u64>,
    items: &mut Vec<Item>,
    step: &Step,
) -> Result<(), AllocError>
    requires { AtMost (length items.old.items) counts.old.items }
    ensures counts { OnOk result (counts.new.items ≡ counted (facts_read step.now) counts.old.items) }
    ensures items { OnOk result (items.new.items ≡ items.old.items ++ map Read (facts_read step.now)) }
    ensures few { OnOk result (AtMost (length items.new.items) counts.new.items) }
{
    match step {
        Step::Part(fact, _) => read(counts, items, *fact),
        Step::Cases(fact, _) => read(counts, items, *fact),
        Step::Sum(_, fact, _, other, _) => read_both(counts, items, *fact, *other),
        Step::Cube(facts) => read_all(counts, items, facts.as_slice()),
        Step::False(fact) => read(counts, items, *fact),
        Step::Path(_) => Ok(()),
        Step::Def(_, _) => Ok(()),
        Step::Split(_) => Ok(()),
        Step::Least(_, _) => Ok(()),
        Step::Learn(_) => Ok(()),
    }
}

/// Whether none of these facts is read.
pub fn are_unread(counts: &[u64]) -> bool
    ensures { result ≡ all_unread counts.now }
{
    counts.iter().all(|count| *count == 0)
}
