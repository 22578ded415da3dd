//! What is known of a node as a constant term. What is none takes no step; a constant term takes one for each part, but for
//! a use of a definition, which is written out where it is no larger than a goal may be.

ghost use Rattle.std.specs.Prelude.{◌≡◌, ◌==◌, ◌<◌, ◌≤◌, length, map, nat_le, if◌then◌else◌, IfOk};
ghost use Rattle.lin_truth.specs.Term.{Term};
ghost use Rattle.lin_truth.specs.Size.{node_count};
ghost use Rattle.lin_truth.specs.Worked.{worked};
ghost use Rattle.term_table.specs.declared.worth.Worth.TheVariants as worths;
ghost use Rattle.term_table.specs.Placed.{top, used};
ghost use Rattle.term_table.specs.Meaning.{AreBelow, HasParts, meaning, meanings, at as tree_at};
ghost use Rattle.term_table.specs.Scale as scale;
ghost use Rattle.term_table.specs.Form.{AreSizes};
ghost use Rattle.term_table.specs.Known as spec;
ghost use Rattle.term_table.specs.Worth.{most_nodes, value_known};
ghost use Rattle.term_table.specs.Entries.{nodes_of, known_at as spec_known_at, IsKnown, AreEntries};

use crate::amount::Amount;
use crate::entry::Entry;
use crate::known::{known_leaf, known_one, known_several, known_two};
use crate::node::{Node, Variadic};
use crate::working::worked_out;
use crate::worth::Worth;
use crate::written::steps_of;
use lin_term::Fraction;
use std::alloc::{AllocError, Global};

/// The most nodes of a constant term that is worked out: those of a goal.
const MOST_NODES: u32 = 1_048_576;

/// The value of an entry.
pub fn known_at(entries: &[Entry], entry: u32) -> Option<Fraction>
    requires { entry < length entries.now }
    ensures { result ≡ spec_known_at entries.now entry }
{
    let found = &entries[entry as usize];
    found.known
}

/// The values of entries.
fn known_parts(
    alloc: Global,
    entries: &[Entry],
    parts: &[u32],
) -> Result<Vec<Option<Fraction>>, AllocError>
    requires { AreBelow (length entries.now) parts.now }
    ensures { IfOk result (λ known. known.items ≡ map (spec_known_at entries.now) parts.now) }
{
    let mut all = Vec::new(alloc);
    for part in parts {
        all.push(known_at(entries, *part))?;
    }
    Ok(all)
}

/// The value of an operator with any number of parts.
fn known_whole(
    alloc: Global,
    entries: &[Entry],
    op: Variadic,
    parts: &[u32],
) -> Result<Option<Fraction>, AllocError>
    requires { AreBelow (length entries.now) parts.now }
    ensures { IfOk result (λ known. known ≡ spec.known_several op (map (spec_known_at entries.now) parts.now)) }
{
    match op {
        Variadic::And => return Ok(None),
        Variadic::Or => return Ok(None),
        Variadic::Plus => {}
        Variadic::Times => {}
    }
    let known = known_parts(alloc, entries, parts)?;
    Ok(known_several(op, known.as_slice()))
}

/// The value of a use of a definition of this size, which is a constant term.
fn known_use(
    alloc: Global,
    entries: &[Entry],
    size: Amount,
    body: u32,
    args: &[u32],
) -> Result<Option<Fraction>, AllocError>
    requires entries { AreEntries entries.now }
    requires size { AreSizes size (λ s. scale.size s (used (tree_at (meanings (nodes_of entries.now)) body) (map (tree_at (meanings (nodes_of entries.now))) args.now) top 0)) }
    ensures { IfOk result (IsKnown (used (tree_at (meanings (nodes_of entries.now)) body) (map (tree_at (meanings (nodes_of entries.now))) args.now))) }
{
    if size.nodes > MOST_NODES {
        return Ok(None);
    }
    let steps = steps_of(alloc, entries, body, args, 0)?;
    worked_out(alloc, steps)
}

/// The value of a node of this size whose parts are in the table.
pub fn known_of(
    alloc: Global,
    entries: &[Entry],
    node: &Node,
    size: Amount,
) -> Result<Option<Fraction>, AllocError>
    requires parts { HasParts (length entries.now) node.now }
    requires entries { AreEntries entries.now }
    requires size { AreSizes size (λ s. scale.size s (meaning (meanings (nodes_of entries.now)) node.now top 0)) }
    ensures { IfOk result (IsKnown (meaning (meanings (nodes_of entries.now)) node.now)) }
{
    if size.free > 0 {
        return Ok(None);
    }
    match node {
        Node::Leaf(leaf) => Ok(known_leaf(leaf)),
        Node::Parameter(_) => Ok(None),
        Node::Binding(_) => Ok(None),
        Node::One(op, a) => Ok(known_one(*op, known_at(entries, *a))),
        Node::Two(op, a, b) => Ok(known_two(*op, known_at(entries, *a), known_at(entries, *b))),
        Node::Choice(_, _, _) => Ok(None),
        Node::Several(op, parts) => known_whole(alloc, entries, *op, parts.as_slice()),
        Node::Distinct(_) => Ok(None),
        Node::Binder { .. } => Ok(None),
        Node::Use { body, args } => known_use(alloc, entries, size, *body, args.as_slice()),
    }
}

/// What is known of a term of this size with this value.
pub fn worth_from(size: Amount, known: Option<Fraction>) -> Worth
    ensures { result ≡ (if size.free == 0 then (if nat_le size.nodes most_nodes then value_known known else worths.Large) else worths.Free) }
{
    if size.free > 0 {
        return Worth::Free;
    }
    if size.nodes > MOST_NODES {
        return Worth::Large;
    }
    match known {
        None => Worth::Wide,
        Some(value) => Worth::Value {
            num: value.num(),
            den: value.den(),
        },
    }
}
