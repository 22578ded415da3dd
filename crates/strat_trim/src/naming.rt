//! The paths and the nodes that a proof names.

ghost use Rattle.std.specs.Prelude.{◌≡◌, ℕ, ◌<◌, ◌∷◌, [], length, IfOk};
ghost use Rattle.std.specs.List.{flat_map};
ghost use Rattle.strat_trim.specs.Marked.{Marks, HasMarks, IsUnmarked};
ghost use Rattle.strat_trim.specs.Trimmed.{marked, variables_of, named_paths, named_nodes, names_path, names_node};

use cube_rules::Step;
use lin_term::{Lit, Memory};
use sqlite_items::Items;
use std::alloc::Global;

/// For each path and for each node whether a proof names it.
#[derive(Drop)]
pub struct Named {
    pub paths: Items<bool>,
    pub nodes: Items<bool>,
}

/// Whether there is a mark at this place.
pub fn is_marked(marks: &[bool], at: usize) -> bool
    ensures { result ≡ marked marks.now at }
{
    match marks.get(at) {
        Some(mark) => *mark,
        None => false,
    }
}

/// So many places without a mark; refuses only for memory.
pub fn unmarked(alloc: Global, count: u64) -> Result<Items<bool>, Memory>
    ensures { IfOk result (λ marks. IsUnmarked count marks) }
{
    let mut marks = Items::new(alloc);
    for place in 0..count {
        marks.push(false)?;
    }
    Ok(marks)
}

/// Marks this place, where it is there.
#[tactic(auto, using(crate::proofs::MarkLemmas::mark_new, crate::proofs::MarkLemmas::marks_past))]
fn mark(marks: &mut Items<bool>, at: u32)
    ensures { Marks (at ∷ []) marks.old marks.new }
{
    let at = at as usize;
    if at < marks.len() {
        marks.set(at, true);
    }
}

/// Marks the variables of a literal.
fn mark_variables(marks: &mut Items<bool>, lit: &Lit)
    ensures { Marks (variables_of lit.now) marks.old marks.new }
{
    for (var, _) in lit.row().coefs() {
        mark(marks, *var);
    }
}

/// Marks the variables of several.
fn mark_all_variables(marks: &mut Items<bool>, lits: &[Lit])
    ensures { Marks (flat_map variables_of lits.now) marks.old marks.new }
{
    for lit in lits {
        mark_variables(marks, lit);
    }
}

/// Marks the nodes that a line names.
#[tactic(auto, using(crate::proofs::MarkLemmas::marks_none))]
fn mark_nodes(marks: &mut Items<bool>, step: &Step)
    ensures { Marks (named_nodes step.now) marks.old marks.new }
{
    match step {
        Step::Def(node, _) => mark(marks, *node),
        Step::Least(node, _) => mark(marks, *node),
        Step::Split(lit) => mark_variables(marks, lit),
        Step::Learn(lits) => mark_all_variables(marks, lits.as_slice()),
        Step::Path(_) | Step::Part(_, _) | Step::Cases(_, _) => {}
        Step::Sum(_, _, _, _, _) | Step::Cube(_) | Step::False(_) => {}
    }
}

/// Marks the path that a line names.
#[tactic(auto, using(crate::proofs::MarkLemmas::marks_none))]
fn mark_path(marks: &mut Items<bool>, step: &Step)
    ensures { Marks (named_paths step.now) marks.old marks.new }
{
    match step {
        Step::Path(path) => mark(marks, *path),
        _ => {}
    }
}

/// What a proof names of so many paths and nodes; refuses only for memory.
pub fn names_in(alloc: Global, paths: u64, nodes: u64, proof: &[Step]) -> Result<Named, Memory>
    ensures paths { IfOk result (λ n. HasMarks paths (names_path proof.now) n.paths) }
    ensures nodes { IfOk result (λ n. HasMarks nodes (names_node proof.now) n.nodes) }
{
    let mut path_marks = unmarked(alloc, paths)?;
    let mut node_marks = unmarked(alloc, nodes)?;
    for step in proof {
        mark_path(&mut path_marks, step);
        mark_nodes(&mut node_marks, step);
    }
    Ok(Named {
        paths: path_marks,
        nodes: node_marks,
    })
}
