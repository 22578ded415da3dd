//! Uses of a definition that stand for an entry that is there. One whose body is a parameter stands for the argument, and
//! one whose body is a constant term for the body: else a chain of such definitions, each used twice in the next, would take
//! 2^60 steps for a tree of one node. One whose body is a use of another definition with such parts alone is a use of that
//! one: else each node of a tree could take as many steps as there are definitions.

ghost use Rattle.std.specs.Prelude.{◌≡◌, ◌<◌, length, map, IfSome, IfOk};
ghost use Rattle.lin_truth.specs.Constant.{is_constant};
ghost use Rattle.term_table.specs.Placed.{top, used};
ghost use Rattle.term_table.specs.Meaning.{AreBelow, HasParts, IsAt, meaning, meanings, at as tree_at};
ghost use Rattle.term_table.specs.Entries.{nodes_of, AreEntries};
ghost use Rattle.term_table.specs.Forwarding.{Stand, IsSame};

use crate::entry::Entry;
use crate::node::Node;
use sqlite_items::Items;
use std::alloc::{AllocError, Global};

/// The argument that a use of this body stands for, if the body is a parameter.
fn argument_of(entries: &[Entry], body: u32, args: &[u32]) -> Option<u32>
    requires body { body < length entries.now }
    requires args { AreBelow (length entries.now) args.now }
    requires entries { AreEntries entries.now }
    ensures { IfSome result (λ i. (i < length entries.now) × (tree_at (meanings (nodes_of entries.now)) i ≡ used (tree_at (meanings (nodes_of entries.now)) body) (map (tree_at (meanings (nodes_of entries.now))) args.now))) }
{
    let found = &entries[body as usize];
    let number = match &found.node {
        Node::Parameter(number) => *number as usize,
        _ => return None,
    };
    if number < args.len() {
        return Some(args[number]);
    }
    None
}

/// Whether an entry is a constant term where nothing is given for parameters.
fn is_constant_at(entries: &[Entry], entry: u32) -> bool
    requires entry { entry < length entries.now }
    requires entries { AreEntries entries.now }
    ensures { result ≡ is_constant (tree_at (meanings (nodes_of entries.now)) entry top 0) }
{
    let found = &entries[entry as usize];
    let size = found.form.size();
    size.free == 0
}

/// The entry that a use of this body stands for: the body itself where it is a constant term, and the argument where it is
/// a parameter.
fn stand_in(entries: &[Entry], body: u32, args: &[u32]) -> Option<u32>
    requires body { body < length entries.now }
    requires args { AreBelow (length entries.now) args.now }
    requires entries { AreEntries entries.now }
    ensures { IfSome result (λ i. (i < length entries.now) × (tree_at (meanings (nodes_of entries.now)) i ≡ used (tree_at (meanings (nodes_of entries.now)) body) (map (tree_at (meanings (nodes_of entries.now))) args.now))) }
{
    if is_constant_at(entries, body) {
        return Some(body);
    }
    argument_of(entries, body, args)
}

/// The entry that this node stands for, if it is a use that stands for one.
pub fn passed_on(entries: &[Entry], node: &Node) -> Option<u32>
    requires parts { HasParts (length entries.now) node.now }
    requires entries { AreEntries entries.now }
    ensures { IfSome result (λ i. IsAt (nodes_of entries.now) i (meaning (meanings (nodes_of entries.now)) node.now)) }
{
    match node {
        Node::Use { body, args } => stand_in(entries, *body, args.as_slice()),
        _ => None,
    }
}

/// The entries that these parts of a body stand for, if each is a constant term or a parameter.
fn arguments_of(
    alloc: Global,
    entries: &[Entry],
    parts: &[u32],
    args: &[u32],
) -> Result<Option<Items<u32>>, AllocError>
    requires parts { AreBelow (length entries.now) parts.now }
    requires args { AreBelow (length entries.now) args.now }
    requires entries { AreEntries entries.now }
    ensures { IfOk result (λ found. IfSome found (λ outs. Stand entries.now parts.now args.now outs)) }
{
    let mut all = Vec::new(alloc);
    for part in parts {
        match stand_in(entries, *part, args) {
            None => return Ok(None),
            Some(argument) => all.push(argument)?,
        }
    }
    Ok(Some(Items::from_vec(all)))
}

/// The use that a use of this body is, if the body passes parameters and constant terms on.
fn forwarded(
    alloc: Global,
    entries: &[Entry],
    body: u32,
    args: &[u32],
) -> Result<Option<Node>, AllocError>
    requires body { body < length entries.now }
    requires args { AreBelow (length entries.now) args.now }
    requires entries { AreEntries entries.now }
    ensures { IfOk result (λ found. IfSome found (λ x. IsSame entries.now (used (tree_at (meanings (nodes_of entries.now)) body) (map (tree_at (meanings (nodes_of entries.now))) args.now)) x)) }
{
    let found = &entries[body as usize];
    match &found.node {
        Node::Use {
            body: inner,
            args: parts,
        } => {
            match arguments_of(alloc, entries, parts.as_slice(), args)? {
                None => Ok(None),
                Some(outs) => Ok(Some(Node::Use {
                    body: *inner,
                    args: outs,
                })),
            }
        }
        _ => Ok(None),
    }
}

/// A node that stands for the same, without a definition that only passes parameters and constant terms on.
pub fn simplified(alloc: Global, entries: &[Entry], node: Node) -> Result<Node, AllocError>
    requires parts { HasParts (length entries.now) node }
    requires entries { AreEntries entries.now }
    ensures { IfOk result (IsSame entries.now (meaning (meanings (nodes_of entries.now)) node)) }
{
    if let Node::Use { body, args } = &node {
        if let Some(other) = forwarded(alloc, entries, *body, args.as_slice())? {
            return Ok(other);
        }
    }
    Ok(node)
}
