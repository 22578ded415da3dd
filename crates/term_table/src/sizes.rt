//! The size of a node, from the sizes of its parts.

ghost use Rattle.std.specs.Prelude.{◌≡◌, ◌<◌, length, map, IfOk};
ghost use Rattle.term_table.specs.Meaning.{AreBelow, HasParts};
ghost use Rattle.term_table.specs.Scale as scale;
ghost use Rattle.term_table.specs.Scale.{Scale, Near, amount, ring, sum_in, sat, others, distinct_layer, distinct_weight};
ghost use Rattle.term_table.specs.Form.{AreSizes, IsValue, value};
ghost use Rattle.term_table.specs.Entries.{form_at, part_value, row_in};

use crate::amount::{Amount, Weight};
use crate::entry::Entry;
use crate::form::{Form, layer};
use crate::node::{Binary, Leaf, Node, Unary, Variadic};
use std::alloc::{AllocError, Global};

/// How a part counts in the node above it.
pub fn down() -> Weight
    ensures { result ≡ record { times = 1; way = 2 } }
{
    Weight { times: 1, way: 2 }
}

/// How many nodes of it no constant term has.
pub fn free_leaf(leaf: &Leaf) -> u32
    ensures { result ≡ scale.free_leaf leaf.now }
{
    match leaf {
        Leaf::Number { .. } => 0,
        Leaf::True => 1,
        Leaf::False => 1,
        Leaf::Constant(_) => 1,
    }
}

/// How many nodes of it no constant term has.
pub fn free_one(op: &Unary) -> u32
    ensures { result ≡ scale.free_one op.now }
{
    match op {
        Unary::Negative => 0,
        Unary::Abs => 0,
        Unary::Not => 1,
        Unary::Divisible(_) => 1,
    }
}

/// How many nodes of it no constant term has.
pub fn free_two(op: &Binary) -> u32
    ensures { result ≡ scale.free_two op.now }
{
    match op {
        Binary::Minus => 0,
        Binary::Quotient => 0,
        Binary::Div => 0,
        Binary::Mod => 0,
        Binary::Less => 1,
        Binary::AtMost => 1,
        Binary::Greater => 1,
        Binary::AtLeast => 1,
        Binary::Equal => 1,
        Binary::Xor => 1,
        Binary::Implies => 1,
    }
}

/// How many nodes of it no constant term has.
pub fn free_several(op: &Variadic) -> u32
    ensures { result ≡ scale.free_several op.now }
{
    match op {
        Variadic::Plus => 0,
        Variadic::Times => 0,
        Variadic::And => 1,
        Variadic::Or => 1,
    }
}

/// A length as a 32-bit number, the greatest one for a longer list.
pub fn count_of(len: usize) -> u32
    ensures { result ≡ sat len }
{
    if len > 4_294_967_295 {
        return 4_294_967_295;
    }
    len as u32
}

/// One less.
fn others_of(count: u32) -> u32
    ensures { result ≡ others count }
{
    if count == 0 {
        return 0;
    }
    count - 1
}

/// How many nodes a conjunction over all pairs has besides its parts.
pub fn pairs_layer(len: usize) -> Amount
    ensures { AreSizes result (λ s. distinct_layer s len) }
{
    let count = count_of(len);
    Amount {
        nodes: count.saturating_mul(others_of(count)).saturating_add(1),
        bindings: 0,
        free: 1,
        depth: 1,
    }
}

/// How a part counts in a conjunction over all pairs.
pub fn pairs_weight(len: usize) -> Weight
    ensures { (s : Scale) → Near s (scale.weight s result) (distinct_weight s len) }
{
    let way = if len < 2 { 0 } else { 4 };
    Weight {
        times: others_of(count_of(len)),
        way,
    }
}

/// The form of a size and of parts that all count alike.
fn weighted(
    alloc: Global,
    entries: &[Entry],
    own: Amount,
    weight: Weight,
    parts: &[u32],
) -> Result<Form, AllocError>
    requires { AreBelow (length entries.now) parts.now }
    ensures { IfOk result (IsValue (λ s gs. (ring s).plus (amount s own) ((ring s).times (scale.weight s weight) (sum_in (ring s) (map (part_value s entries.now gs) parts.now))))) }
{
    let mut form = Form::of(alloc, own);
    for part in parts {
        let entry = &entries[*part as usize];
        form.add(&entry.form, weight)?;
    }
    Ok(form)
}

/// The form of a use of a definition with this body.
fn used(alloc: Global, entries: &[Entry], body: u32, args: &[u32]) -> Result<Form, AllocError>
    requires body { body < length entries.now }
    requires args { AreBelow (length entries.now) args.now }
    ensures { IfOk result (IsValue (λ s gs. value s (form_at entries.now body) (map (part_value s entries.now gs) args.now))) }
{
    let whole = &entries[body as usize];
    let mut form = Form::of(alloc, whole.form.own());
    for (i, weight) in whole.form.uses().iter().enumerate() {
        if i < args.len() {
            let entry = &entries[args[i] as usize];
            form.add(&entry.form, *weight)?;
        } else {
            form.add_amount(layer(1, 0), *weight);
        }
    }
    Ok(form)
}

/// The form of a node whose parts are in the table.
pub fn form_of(alloc: Global, entries: &[Entry], node: &Node) -> Result<Form, AllocError>
    requires { HasParts (length entries.now) node.now }
    ensures { IfOk result (IsValue (λ s gs. row_in s entries.now gs node.now)) }
{
    match node {
        Node::Leaf(leaf) => Ok(Form::of(alloc, layer(free_leaf(leaf), 0))),
        Node::Parameter(number) => Form::parameter(alloc, *number),
        Node::Binding(_) => Ok(Form::of(alloc, layer(1, 0))),
        Node::One(op, a) => weighted(alloc, entries, layer(free_one(op), 0), down(), &[*a]),
        Node::Two(op, a, b) => weighted(alloc, entries, layer(free_two(op), 0), down(), &[*a, *b]),
        Node::Choice(c, a, b) => weighted(alloc, entries, layer(1, 0), down(), &[*c, *a, *b]),
        Node::Several(op, parts) => weighted(
            alloc,
            entries,
            layer(free_several(op), 0),
            down(),
            parts.as_slice(),
        ),
        Node::Distinct(parts) => weighted(
            alloc,
            entries,
            pairs_layer(parts.len()),
            pairs_weight(parts.len()),
            parts.as_slice(),
        ),
        Node::Binder { sorts, body, .. } => weighted(
            alloc,
            entries,
            layer(1, count_of(sorts.len())),
            down(),
            &[*body],
        ),
        Node::Use { body, args } => used(alloc, entries, *body, args.as_slice()),
    }
}
