//! The walk over the lines of a proof.

ghost use Rattle.std.specs.Prelude.{◌≡◌, ◌<◌, ◌^◌, ◌*◌, ◌+◌, ◌-◌, ◌++◌, ◌∷◌, [], true, false, length, reverse, replicate, take, slice_set, OnOk, IfOk};
ghost use Rattle.cube_rules.specs.Lines.{parts};
ghost use Rattle.proof_rules.specs.Idle as idle;
ghost use Rattle.proof_idle.specs.Walk.{all_marked, marked, added, idle_part, with_left, closed, opened, entered, passed, run, begin, standing};
ghost use Rattle.proof_idle.specs.Walk.{step as step_of};
ghost use Rattle.proof_idle.specs.Least as least;

use crate::open_line::OpenLine;
use cube_rules::Step;
use std::alloc::{AllocError, Global};

/// Where the walk stands: the flags of the facts, the lines that have subproofs left, the innermost last, the first idle
/// line so far, and how many subproofs are passed over.
#[derive(Drop)]
struct Walk {
    used: Vec<bool>,
    around: Vec<OpenLine>,
    least: Option<u64>,
    skip: u128,
}

/// The fact is read; one that is not there is passed over.
#[tactic(auto, using(crate::proofs::Flags::set_past))]
fn mark(used: &mut Vec<bool>, fact: u32)
    ensures { used.new.items ≡ slice_set used.old.items fact true }
{
    if (fact as usize) < used.len() {
        used[fact as usize] = true;
    }
}

/// The facts are read.
fn mark_all(used: &mut Vec<bool>, facts: &[u32])
    ensures { used.new.items ≡ all_marked facts.now used.old.items }
{
    for fact in facts {
        mark(used, *fact);
    }
}

/// The facts that the line reads are read.
fn mark_line(used: &mut Vec<bool>, step: &Step)
    ensures { used.new.items ≡ marked step.now used.old.items }
{
    match step {
        Step::Part(fact, _) => mark(used, *fact),
        Step::Cases(fact, _) => mark(used, *fact),
        Step::Sum(_, fact, _, other, _) => {
            mark(used, *fact);
            mark(used, *other);
        }
        Step::Cube(facts) => mark_all(used, facts.as_slice()),
        Step::False(fact) => mark(used, *fact),
        Step::Path(_) => {}
        Step::Def(_, _) => {}
        Step::Split(_) => {}
        Step::Least(_, _) => {}
        Step::Learn(_) => {}
    }
}

/// How many facts the first subproof of the line has besides.
fn added(step: &Step) -> usize
    ensures { result ≡ added step.now }
{
    match step {
        Step::Learn(lits) => lits.len(),
        Step::Path(_) => 1,
        Step::Def(_, _) => 1,
        Step::Part(_, _) => 1,
        Step::Cases(_, _) => 1,
        Step::Sum(_, _, _, _, _) => 1,
        Step::Split(_) => 1,
        Step::Cube(_) => 1,
        Step::Least(_, _) => 1,
        Step::False(_) => 1,
    }
}

/// Whether the line is `cube`.
fn is_cube(step: &Step) -> bool
    ensures { result ≡ idle.is_cube step.now }
{
    match step {
        Step::Cube(_) => true,
        Step::Path(_) => false,
        Step::Def(_, _) => false,
        Step::Part(_, _) => false,
        Step::Cases(_, _) => false,
        Step::Sum(_, _, _, _, _) => false,
        Step::Split(_) => false,
        Step::Least(_, _) => false,
        Step::Learn(_) => false,
        Step::False(_) => false,
    }
}

/// Whether the line is `cases`.
fn is_cases(step: &Step) -> bool
    ensures { result ≡ idle.is_cases step.now }
{
    match step {
        Step::Cases(_, _) => true,
        Step::Path(_) => false,
        Step::Def(_, _) => false,
        Step::Part(_, _) => false,
        Step::Cube(_) => false,
        Step::Sum(_, _, _, _, _) => false,
        Step::Split(_) => false,
        Step::Least(_, _) => false,
        Step::Learn(_) => false,
        Step::False(_) => false,
    }
}

/// The lesser number; none is above each.
fn lesser(a: Option<u64>, b: Option<u64>) -> Option<u64>
    ensures { result ≡ least.lesser a b }
{
    match a {
        None => b,
        Some(x) => match b {
            None => Some(x),
            Some(y) => { if x <= y { Some(x) } else { Some(y) } }
        },
    }
}

/// The line, where it is `cases` and the subproof that ends has not read its child.
fn idle_part(around: OpenLine, used: &[bool]) -> Option<u64>
    ensures { result ≡ idle_part around used.now }
{
    if !around.is_cases {
        return None;
    }
    if around.facts < used.len() {
        if used[around.facts] {
            return None;
        }
    }
    Some(around.line)
}

/// So many more facts, none of them read.
fn push_unread(used: &mut Vec<bool>, count: usize) -> Result<(), AllocError>
    ensures { OnOk result (used.new.items ≡ used.old.items ++ replicate count false) }
{
    for _ in 0..count {
        used.push(false)?;
    }
    Ok(())
}

/// The next subproof of a line begins: with the facts before the line, and one that is not read.
fn go_on(walk: &mut Walk, around: OpenLine) -> Result<(), AllocError>
    requires { 0 < around.left }
    ensures used { OnOk result (walk.new.used.items ≡ take around.facts walk.old.used.items ++ false ∷ []) }
    ensures around { OnOk result (walk.new.around.items ≡ walk.old.around.items ++ with_left around (around.left - 1) ∷ []) }
    ensures least { walk.new.least ≡ walk.old.least }
    ensures skip { walk.new.skip ≡ walk.old.skip }
{
    walk.used.truncate(around.facts);
    walk.used.push(false)?;
    walk.around.push(OpenLine {
        line: around.line,
        facts: around.facts,
        left: around.left - 1,
        is_cases: around.is_cases,
    })?;
    Ok(())
}

/// A subproof ends.
fn close(walk: &mut Walk) -> Result<(), AllocError>
    ensures walk { OnOk result (standing walk.new.used.items walk.new.around.items walk.new.least walk.new.skip ≡ closed (reverse walk.old.around.items) walk.old.used.items walk.old.least) }
    ensures skip { OnOk result (walk.new.skip ≡ 0) }
{
    walk.skip = 0;
    while let Some(around) = walk.around.pop() {
        walk.least = lesser(walk.least, idle_part(around, walk.used.as_slice()));
        if around.left != 0 {
            return go_on(walk, around);
        }
    }
    Ok(())
}

/// A line that leaves subproofs begins its first one.
fn begin_parts(walk: &mut Walk, step: &Step, line: u64) -> Result<(), AllocError>
    requires { 0 < parts step.now }
    ensures walk { OnOk result (standing walk.new.used.items walk.new.around.items walk.new.least 0 ≡ opened step.now line (reverse walk.old.around.items) walk.old.used.items walk.old.least) }
    ensures skip { walk.new.skip ≡ walk.old.skip }
{
    walk.around.push(OpenLine {
        line,
        facts: walk.used.len(),
        left: step.parts() - 1,
        is_cases: is_cases(step),
    })?;
    push_unread(&mut walk.used, added(step))
}

/// A line that is not behind a `cube`.
fn enter(walk: &mut Walk, step: &Step, line: u64) -> Result<(), AllocError>
    requires { walk.old.skip ≡ 0 }
    ensures walk { OnOk result (standing walk.new.used.items walk.new.around.items walk.new.least walk.new.skip ≡ entered step.now line (reverse walk.old.around.items) (marked step.now walk.old.used.items) walk.old.least) }
    ensures skip { OnOk result (walk.new.skip < 2 ^ 64) }
{
    mark_line(&mut walk.used, step);
    if is_cube(step) {
        walk.skip = step.parts() as u128;
        return Ok(());
    }
    if step.parts() == 0 {
        return close(walk);
    }
    begin_parts(walk, step, line)
}

/// A line behind a `cube`.
fn pass(walk: &mut Walk, step: &Step) -> Result<(), AllocError>
    requires some { 0 < walk.old.skip }
    requires room { walk.old.skip + 2 ^ 64 < 2 ^ 128 }
    ensures walk { OnOk result (standing walk.new.used.items walk.new.around.items walk.new.least walk.new.skip ≡ passed step.now (standing walk.old.used.items walk.old.around.items walk.old.least walk.old.skip)) }
    ensures skip { OnOk result (walk.new.skip < walk.old.skip + 2 ^ 64) }
{
    let left = walk.skip - 1 + step.parts() as u128;
    if left == 0 {
        return close(walk);
    }
    walk.skip = left;
    Ok(())
}

/// One line.
fn read(walk: &mut Walk, step: &Step, line: u64) -> Result<(), AllocError>
    requires { walk.old.skip + 2 ^ 64 < 2 ^ 128 }
    ensures walk { OnOk result (standing walk.new.used.items walk.new.around.items walk.new.least walk.new.skip ≡ step_of step.now line (standing walk.old.used.items walk.old.around.items walk.old.least walk.old.skip)) }
    ensures skip { OnOk result (walk.new.skip < walk.old.skip + 2 ^ 64) }
{
    if walk.skip == 0 {
        enter(walk, step, line)
    } else {
        pass(walk, step)
    }
}

/// The first idle line of the walk over all lines.
pub fn first_idle(alloc: Global, proof: &[Step]) -> Result<Option<u64>, AllocError>
    ensures { IfOk result (λ first. first ≡ (run 0 proof.now begin).least) }
{
    let mut walk = Walk {
        used: Vec::new(alloc),
        around: Vec::new(alloc),
        least: None,
        skip: 0,
    };
    for i in 0..proof.len() {
        read(&mut walk, &proof[i], i as u64)?;
    }
    Ok(walk.least)
}
