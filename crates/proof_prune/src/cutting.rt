//! The walk over the lines of a proof: what stays.

ghost use Rattle.std.specs.Prelude.{◌≡◌, ◌<◌, ◌^◌, ◌+◌, ◌-◌, ◌++◌, ◌∷◌, [], true, false, if◌then◌else◌, length, take, drop, reverse, replicate, OnOk, IfOk};
ghost use Rattle.cube_rules.specs.Lines.{parts};
ghost use Rattle.proof_rules.specs.Idle as idle;
ghost use Rattle.proof_idle.specs.Walk.{added};
ghost use Rattle.proof_prune.specs.declared.item.Item.TheVariants.{Line, Behind};
ghost use Rattle.proof_prune.specs.Counting.{uncounted, counted, facts_read, all_unread, AtMost};
ghost use Rattle.proof_prune.specs.Cutting.{item_reads, passes, reads_from, line_items, reads_before, cut_items, is_spare, counts_left, items_left, gone_on, part_closed, parts_opened, line_entered, line_passed, cut_step, cut, uncut, cutting};

use crate::counting::{are_unread, read_line, uncount};
use crate::item::{Around, Item};
use cube_rules::Step;
use std::alloc::{AllocError, Global};

/// Where the walk stands: how often each fact is read, what stays so far, the lines that have subproofs left, the innermost
/// last, how many subproofs are passed over, and whether they stay.
#[derive(Drop)]
struct Walk {
    counts: Vec<u64>,
    items: Vec<Item>,
    around: Vec<Around>,
    skip: u128,
    copies: bool,
}

/// How many facts the first subproof of the line has besides.
pub fn added(step: &Step) -> usize
    ensures { result ≡ added step.now }
{
    match step {
        Step::Learn(lits) => lits.len(),
        Step::Path(_) => 1,
        Step::Def(_, _) => 1,
        Step::Part(_, _) => 1,
        Step::Cases(_, _) => 1,
        Step::Sum(_, _, _, _, _) => 1,
        Step::Split(_) => 1,
        Step::Cube(_) => 1,
        Step::Least(_, _) => 1,
        Step::False(_) => 1,
    }
}

/// Whether the line is `cube`.
fn is_cube(step: &Step) -> bool
    ensures { result ≡ idle.is_cube step.now }
{
    match step {
        Step::Cube(_) => true,
        Step::Path(_) => false,
        Step::Def(_, _) => false,
        Step::Part(_, _) => false,
        Step::Cases(_, _) => false,
        Step::Sum(_, _, _, _, _) => false,
        Step::Split(_) => false,
        Step::Least(_, _) => false,
        Step::Learn(_) => false,
        Step::False(_) => false,
    }
}

/// The item is read no more; how many items behind it are cut out.
fn forget_item(counts: &mut Vec<u64>, item: Item, most: usize) -> usize
    requires { AtMost most counts.old.items }
    ensures counts { counts.new.items ≡ uncounted (item_reads item) counts.old.items }
    ensures few { AtMost most counts.new.items }
    ensures passes { result ≡ passes item }
{
    match item {
        Item::Read(fact) => {
            uncount(counts, fact, most);
            0
        }
        Item::Hole(_, cut) => cut,
        Item::Line(_, _) => 0,
        Item::Behind(_) => 0,
    }
}

/// Where the items from `at` to `end` end.
fn stop(items: &[Item], end: usize) -> usize
    ensures { result ≡ length (take end items.now) }
{
    if end < items.len() { end } else { items.len() }
}

/// What stands there of the items from `at` to `end` is read no more; each item that stays is visited once.
fn forget(counts: &mut Vec<u64>, items: &[Item], at: usize, end: usize, most: usize)
    requires { AtMost most counts.old.items }
    ensures counts { counts.new.items ≡ uncounted (reads_from 0 (drop at (take end items.now))) counts.old.items }
    ensures few { AtMost most counts.new.items }
{
    let stop = stop(items, end);
    let mut place = at;
    while place < stop {
        let cut = forget_item(counts, items[place], most);
        if cut >= stop - place - 1 {
            return;
        }
        place += cut + 1;
    }
}

/// The subproof has ended: where it has read none of the facts that were added for it, the line around it is cut out, and
/// so are the subproofs of that line before this one. Whether it is so.
fn settle(walk: &mut Walk, around: Around) -> bool
    requires { AtMost (length walk.old.items.items) walk.old.counts.items }
    ensures spare { result ≡ is_spare around walk.old.counts.items }
    ensures counts { walk.new.counts.items ≡ counts_left around walk.old.counts.items walk.old.items.items }
    ensures items { walk.new.items.items ≡ items_left around walk.old.counts.items walk.old.items.items }
    ensures few { AtMost (length walk.new.items.items) walk.new.counts.items }
    ensures around { walk.new.around ≡ walk.old.around }
    ensures skip { walk.new.skip ≡ walk.old.skip }
    ensures copies { walk.new.copies ≡ walk.old.copies }
{
    let spare = is_spare(walk.counts.as_slice(), around.facts);
    walk.counts.truncate(around.facts);
    if spare {
        let most = walk.items.len();
        forget(
            &mut walk.counts,
            walk.items.as_slice(),
            around.at,
            around.begin,
            most,
        );
        cut_out(&mut walk.items, around);
    }
    spare
}

/// Whether none of the facts behind so many is read.
fn is_spare(counts: &[u64], facts: usize) -> bool
    ensures { result ≡ all_unread (drop facts counts.now) }
{
    if facts < counts.len() {
        are_unread(&counts[facts..])
    } else {
        true
    }
}

/// The line's item becomes a hole, up to the subproof that ends.
fn cut_out(items: &mut Vec<Item>, around: Around)
    ensures { items.new.items ≡ cut_items around items.old.items }
{
    if around.at < items.len() {
        let cut = around.begin.saturating_sub(around.at).saturating_sub(1);
        items[around.at] = Item::Hole(around.facts, cut);
    }
}

/// Where subproofs of the line are left: they are passed over, or the next one begins with one fact more.
fn go_on(walk: &mut Walk, around: Around, spare: bool) -> Result<(), AllocError>
    requires left { 0 < around.left }
    requires few { AtMost (length walk.old.items.items) walk.old.counts.items }
    requires copies { walk.old.copies ≡ false }
    requires skip { walk.old.skip ≡ 0 }
    ensures walk { OnOk result (cutting walk.new.counts.items walk.new.items.items walk.new.around.items walk.new.skip walk.new.copies ≡ gone_on around (reverse walk.old.around.items) spare walk.old.counts.items walk.old.items.items) }
    ensures few { OnOk result (AtMost (length walk.new.items.items) walk.new.counts.items) }
    ensures skip { OnOk result (walk.new.skip < 2 ^ 64) }
{
    if spare {
        walk.skip = around.left as u128;
        return Ok(());
    }
    walk.counts.push(0)?;
    walk.around.push(Around {
        at: around.at,
        begin: walk.items.len(),
        facts: around.facts,
        left: around.left - 1,
    })?;
    Ok(())
}

/// A subproof ends.
fn close(walk: &mut Walk) -> Result<(), AllocError>
    requires { AtMost (length walk.old.items.items) walk.old.counts.items }
    ensures walk { OnOk result (cutting walk.new.counts.items walk.new.items.items walk.new.around.items walk.new.skip walk.new.copies ≡ part_closed (reverse walk.old.around.items) walk.old.counts.items walk.old.items.items) }
    ensures few { OnOk result (AtMost (length walk.new.items.items) walk.new.counts.items) }
    ensures skip { OnOk result (walk.new.skip < 2 ^ 64) }
{
    walk.skip = 0;
    walk.copies = false;
    while let Some(around) = walk.around.pop() {
        let spare = settle(walk, around);
        if around.left != 0 {
            return go_on(walk, around, spare);
        }
    }
    Ok(())
}

/// So many more facts, none of them read.
fn push_unread(counts: &mut Vec<u64>, count: usize, most: usize) -> Result<(), AllocError>
    requires { AtMost most counts.old.items }
    ensures counts { OnOk result (counts.new.items ≡ counts.old.items ++ replicate count 0) }
    ensures few { OnOk result (AtMost most counts.new.items) }
{
    for _ in 0..count {
        counts.push(0)?;
    }
    Ok(())
}

/// A line that leaves subproofs, whose item has place `at`, begins its first one.
fn begin_parts(walk: &mut Walk, step: &Step, at: usize) -> Result<(), AllocError>
    requires left { 0 < parts step.now }
    requires few { AtMost (length walk.old.items.items) walk.old.counts.items }
    requires skip { walk.old.skip ≡ 0 }
    requires copies { walk.old.copies ≡ false }
    ensures walk { OnOk result (cutting walk.new.counts.items walk.new.items.items walk.new.around.items walk.new.skip walk.new.copies ≡ parts_opened step.now (reverse walk.old.around.items) at walk.old.counts.items walk.old.items.items) }
    ensures few { OnOk result (AtMost (length walk.new.items.items) walk.new.counts.items) }
    ensures skip { OnOk result (walk.new.skip < 2 ^ 64) }
{
    let most = walk.items.len();
    walk.around.push(Around {
        at,
        begin: most,
        facts: walk.counts.len(),
        left: step.parts() - 1,
    })?;
    push_unread(&mut walk.counts, added(step), most)
}

/// What follows a line whose item has place `at`.
fn follow(walk: &mut Walk, step: &Step, at: usize) -> Result<(), AllocError>
    requires few { AtMost (length walk.old.items.items) walk.old.counts.items }
    requires skip { walk.old.skip ≡ 0 }
    requires copies { walk.old.copies ≡ false }
    ensures walk { OnOk result (cutting walk.new.counts.items walk.new.items.items walk.new.around.items walk.new.skip walk.new.copies ≡ line_entered step.now (reverse walk.old.around.items) at walk.old.counts.items walk.old.items.items) }
    ensures few { OnOk result (AtMost (length walk.new.items.items) walk.new.counts.items) }
    ensures skip { OnOk result (walk.new.skip < 2 ^ 64) }
{
    if is_cube(step) {
        walk.skip = step.parts() as u128;
        walk.copies = true;
        return Ok(());
    }
    if step.parts() == 0 {
        return close(walk);
    }
    begin_parts(walk, step, at)
}

/// A line that is not passed over.
fn enter(walk: &mut Walk, step: &Step, line: usize) -> Result<(), AllocError>
    requires few { AtMost (length walk.old.items.items) walk.old.counts.items }
    requires skip { walk.old.skip ≡ 0 }
    ensures walk { OnOk result (cutting walk.new.counts.items walk.new.items.items walk.new.around.items walk.new.skip walk.new.copies ≡ line_entered step.now (reverse walk.old.around.items) (length walk.old.items.items) (counted (facts_read step.now) walk.old.counts.items) (walk.old.items.items ++ line_items line (length walk.old.counts.items) step.now)) }
    ensures few { OnOk result (AtMost (length walk.new.items.items) walk.new.counts.items) }
    ensures skip { OnOk result (walk.new.skip < 2 ^ 64) }
{
    let at = walk.items.len();
    let facts = walk.counts.len();
    walk.copies = false;
    push_line(&mut walk.counts, &mut walk.items, line, facts)?;
    read_line(&mut walk.counts, &mut walk.items, step)?;
    follow(walk, step, at)
}

/// A line without the facts that it reads.
fn push_line(
    counts: &mut Vec<u64>,
    items: &mut Vec<Item>,
    line: usize,
    facts: usize,
) -> Result<(), AllocError>
    requires few { AtMost (length items.old.items) counts.old.items }
    ensures items { OnOk result (items.new.items ≡ items.old.items ++ Line line facts ∷ []) }
    ensures counts { OnOk result (counts.new.items ≡ counts.old.items) }
    ensures few { OnOk result (AtMost (length items.new.items) counts.new.items) }
{
    items.push(Item::Line(line, facts))?;
    Ok(())
}

/// A line behind one that is passed over stays where they all do.
fn push_behind(
    counts: &mut Vec<u64>,
    items: &mut Vec<Item>,
    line: usize,
    copies: bool,
) -> Result<(), AllocError>
    requires few { AtMost (length items.old.items) counts.old.items }
    ensures items { OnOk result (items.new.items ≡ (if copies then items.old.items ++ Behind line ∷ [] else items.old.items)) }
    ensures counts { OnOk result (counts.new.items ≡ counts.old.items) }
    ensures few { OnOk result (AtMost (length items.new.items) counts.new.items) }
{
    if copies {
        items.push(Item::Behind(line))?;
    }
    Ok(())
}

/// A line that is passed over.
fn pass(walk: &mut Walk, step: &Step, line: usize) -> Result<(), AllocError>
    requires some { 0 < walk.old.skip }
    requires room { walk.old.skip + 2 ^ 64 < 2 ^ 128 }
    requires few { AtMost (length walk.old.items.items) walk.old.counts.items }
    ensures walk { OnOk result (cutting walk.new.counts.items walk.new.items.items walk.new.around.items walk.new.skip walk.new.copies ≡ line_passed step.now line (cutting walk.old.counts.items walk.old.items.items walk.old.around.items walk.old.skip walk.old.copies)) }
    ensures few { OnOk result (AtMost (length walk.new.items.items) walk.new.counts.items) }
    ensures skip { OnOk result (walk.new.skip < walk.old.skip + 2 ^ 64) }
{
    let copies = walk.copies;
    push_behind(&mut walk.counts, &mut walk.items, line, copies)?;
    let left = walk.skip - 1 + step.parts() as u128;
    if left == 0 {
        return close(walk);
    }
    walk.skip = left;
    Ok(())
}

/// One line.
fn step_over(walk: &mut Walk, step: &Step, line: usize) -> Result<(), AllocError>
    requires room { walk.old.skip + 2 ^ 64 < 2 ^ 128 }
    requires few { AtMost (length walk.old.items.items) walk.old.counts.items }
    ensures walk { OnOk result (cutting walk.new.counts.items walk.new.items.items walk.new.around.items walk.new.skip walk.new.copies ≡ cut_step step.now line (cutting walk.old.counts.items walk.old.items.items walk.old.around.items walk.old.skip walk.old.copies)) }
    ensures few { OnOk result (AtMost (length walk.new.items.items) walk.new.counts.items) }
    ensures skip { OnOk result (walk.new.skip < walk.old.skip + 2 ^ 64) }
{
    if walk.skip == 0 {
        enter(walk, step, line)
    } else {
        pass(walk, step, line)
    }
}

/// What stays of all lines.
pub fn what_stays(alloc: Global, proof: &[Step]) -> Result<Vec<Item>, AllocError>
    ensures { IfOk result (λ items. items.items ≡ (cut 0 proof.now uncut).items) }
{
    let mut walk = Walk {
        counts: Vec::new(alloc),
        items: Vec::new(alloc),
        around: Vec::new(alloc),
        skip: 0,
        copies: false,
    };
    for i in 0..proof.len() {
        step_over(&mut walk, &proof[i], i)?;
    }
    Ok(walk.items)
}
