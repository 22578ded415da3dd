//! The nodes of an application, from its arguments.

ghost use Rattle.std.specs.Prelude.{◌≡◌, ◌<◌, ◌≤◌, length, map, IfOk};
ghost use Rattle.term_table.specs.Meaning.{meanings, at, meaning, HasParts, AreBelow};
ghost use Rattle.smt_term.specs.Apply as spec;
ghost use Rattle.smt_term.specs.declared.operator.Shape.TheVariants as shapes;
ghost use Rattle.smt_term.specs.View.{all_at, AreIn, Makes, MakesAll};

use crate::operator::Shape;
use crate::seen::Seen;
use sqlite_items::Items;
use ss_names::ScriptFault;
use std::alloc::{AllocError, Global};
use term_table::{Binary, Leaf, Node, Table, Unary, Variadic};

/// Adds a node.
pub fn added(table: &mut Table, node: Node) -> Result<u32, ScriptFault>
    requires { HasParts (length table.old) node }
    ensures { Makes table.old result table.new (meaning (meanings table.old) node) }
{
    match table.add(node) {
        Ok(at) => Ok(at),
        Err(_) => Err(ScriptFault::Memory),
    }
}

/// The entries of the terms.
pub fn nodes_of(alloc: Global, args: &[Seen]) -> Result<Items<u32>, AllocError>
    ensures { IfOk result (λ parts. parts ≡ map (λ x. x.node) args.now) }
{
    let parts: Vec<u32> = args.iter().map(|x| x.node).collect(alloc)?;
    Ok(Items::from_vec(parts))
}

fn several(
    alloc: Global,
    table: &mut Table,
    op: Variadic,
    args: &[Seen],
) -> Result<u32, ScriptFault>
    requires { AreIn (length table.old) args.now }
    ensures { Makes table.old result table.new (λ frame n. spec.built (shapes.Several op) (spec.trees (all_at (meanings table.old) args.now) frame n)) }
{
    let parts = nodes_of(alloc, args)?;
    added(table, Node::Several(op, parts))
}

// From the left, two at a time.
fn from_left(table: &mut Table, op: Binary, first: u32, rest: &[Seen]) -> Result<u32, ScriptFault>
    requires first { first < length table.old }
    requires rest { AreIn (length table.old) rest.now }
    ensures { Makes table.old result table.new (λ frame n. spec.from_left op (at (meanings table.old) first frame n) (spec.trees (all_at (meanings table.old) rest.now) frame n)) }
{
    let mut made = first;
    for arg in rest {
        made = match added(table, Node::Two(op, made, arg.node)) {
            Ok(node) => node,
            Err(fault) => return Err(fault),
        };
    }
    Ok(made)
}

// From the right, two at a time.
fn from_right(table: &mut Table, op: Binary, args: &[Seen]) -> Result<u32, ScriptFault>
    requires some { 0 < length args.now }
    requires args { AreIn (length table.old) args.now }
    ensures { Makes table.old result table.new (λ frame n. spec.built (shapes.Right op) (spec.trees (all_at (meanings table.old) args.now) frame n)) }
{
    let mut first = args.len() - 1;
    let mut made = args[first].node;
    while first > 0 {
        first -= 1;
        made = match added(table, Node::Two(op, args[first].node, made)) {
            Ok(node) => node,
            Err(fault) => return Err(fault),
        };
    }
    Ok(made)
}

// Each with the next.
fn links(
    alloc: Global,
    table: &mut Table,
    op: Binary,
    args: &[Seen],
) -> Result<Vec<u32>, ScriptFault>
    requires { AreIn (length table.old) args.now }
    ensures { MakesAll table.old result table.new (λ frame n. spec.chained op (spec.trees (all_at (meanings table.old) args.now) frame n)) }
{
    let mut parts = Vec::new(alloc);
    for i in 1..args.len() {
        let node = match added(table, Node::Two(op, args[i - 1].node, args[i].node)) {
            Ok(node) => node,
            Err(fault) => return Err(fault),
        };
        parts.push(node)?;
    }
    Ok(parts)
}

// One alone, or all of them.
fn all_hold(table: &mut Table, parts: Vec<u32>) -> Result<u32, ScriptFault>
    requires { AreBelow (length table.old) parts.items }
    ensures { Makes table.old result table.new (λ frame n. spec.all_hold (map (λ i. at (meanings table.old) i frame n) parts.items)) }
{
    if parts.len() == 1 {
        return Ok(parts[0]);
    }
    added(table, Node::Several(Variadic::And, Items::from_vec(parts)))
}

fn chain(alloc: Global, table: &mut Table, op: Binary, args: &[Seen]) -> Result<u32, ScriptFault>
    requires { AreIn (length table.old) args.now }
    ensures { Makes table.old result table.new (λ frame n. spec.built (shapes.Chain op) (spec.trees (all_at (meanings table.old) args.now) frame n)) }
{
    let parts = match links(alloc, table, op, args) {
        Ok(parts) => parts,
        Err(fault) => return Err(fault),
    };
    all_hold(table, parts)
}

// No two are equal.
fn apart(alloc: Global, table: &mut Table, args: &[Seen]) -> Result<u32, ScriptFault>
    requires { AreIn (length table.old) args.now }
    ensures { Makes table.old result table.new (λ frame n. spec.all_differ (spec.trees (all_at (meanings table.old) args.now) frame n)) }
{
    if args.len() != 2 {
        let parts = nodes_of(alloc, args)?;
        return added(table, Node::Distinct(parts));
    }
    let same = match added(table, Node::Two(Binary::Equal, args[0].node, args[1].node)) {
        Ok(node) => node,
        Err(fault) => return Err(fault),
    };
    added(table, Node::One(Unary::Not, same))
}

fn truth(table: &mut Table, truth: bool) -> Result<u32, ScriptFault>
    ensures { Makes table.old result table.new (λ frame n. spec.truth_of truth) }
{
    if truth {
        added(table, Node::Leaf(Leaf::True))
    } else {
        added(table, Node::Leaf(Leaf::False))
    }
}

fn difference(table: &mut Table, args: &[Seen]) -> Result<u32, ScriptFault>
    requires some { 0 < length args.now }
    requires args { AreIn (length table.old) args.now }
    ensures { Makes table.old result table.new (λ frame n. spec.built shapes.Difference (spec.trees (all_at (meanings table.old) args.now) frame n)) }
{
    if args.len() == 1 {
        added(table, Node::One(Unary::Negative, args[0].node))
    } else {
        from_left(table, Binary::Minus, args[0].node, &args[1..])
    }
}

fn one(table: &mut Table, op: Unary, args: &[Seen]) -> Result<u32, ScriptFault>
    requires some { 0 < length args.now }
    requires args { AreIn (length table.old) args.now }
    ensures { Makes table.old result table.new (λ frame n. spec.built (shapes.One op) (spec.trees (all_at (meanings table.old) args.now) frame n)) }
{
    added(table, Node::One(op, args[0].node))
}

fn left(table: &mut Table, op: Binary, args: &[Seen]) -> Result<u32, ScriptFault>
    requires some { 0 < length args.now }
    requires args { AreIn (length table.old) args.now }
    ensures { Makes table.old result table.new (λ frame n. spec.built (shapes.Left op) (spec.trees (all_at (meanings table.old) args.now) frame n)) }
{
    from_left(table, op, args[0].node, &args[1..])
}

fn choice(table: &mut Table, args: &[Seen]) -> Result<u32, ScriptFault>
    requires some { 3 ≤ length args.now }
    requires args { AreIn (length table.old) args.now }
    ensures { Makes table.old result table.new (λ frame n. spec.built shapes.Choice (spec.trees (all_at (meanings table.old) args.now) frame n)) }
{
    added(
        table,
        Node::Choice(args[0].node, args[1].node, args[2].node),
    )
}

fn needed(shape: Shape) -> usize
    ensures { result ≡ spec.needed shape }
{
    match shape {
        Shape::Truth(_) => 0,
        Shape::One(_) => 1,
        Shape::Several(_) => 0,
        Shape::Chain(_) => 0,
        Shape::Pairwise => 0,
        Shape::Left(_) => 1,
        Shape::Right(_) => 1,
        Shape::Difference => 1,
        Shape::Choice => 3,
    }
}

/// The nodes of an application of this shape, from its arguments.
pub fn built(
    alloc: Global,
    table: &mut Table,
    shape: Shape,
    args: &[Seen],
) -> Result<u32, ScriptFault>
    requires { AreIn (length table.old) args.now }
    ensures { Makes table.old result table.new (λ frame n. spec.built shape (spec.trees (all_at (meanings table.old) args.now) frame n)) }
{
    if args.len() < needed(shape) {
        return added(table, Node::Leaf(Leaf::False));
    }
    match shape {
        Shape::Truth(is) => truth(table, is),
        Shape::One(op) => one(table, op, args),
        Shape::Several(op) => several(alloc, table, op, args),
        Shape::Chain(op) => chain(alloc, table, op, args),
        Shape::Pairwise => apart(alloc, table, args),
        Shape::Left(op) => left(table, op, args),
        Shape::Right(op) => from_right(table, op, args),
        Shape::Difference => difference(table, args),
        Shape::Choice => choice(table, args),
    }
}
