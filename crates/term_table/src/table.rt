//! The table: entries in order, each with its parts before it.

ghost use Rattle.std.specs.Prelude.{◌≡◌, ◌<◌, ℕ, [], length, min, IfOk};
ghost use Rattle.lin_truth.specs.Size.{node_count, depth, binding_count};
ghost use Rattle.lin_truth.specs.View.{tree_of};
ghost use Rattle.term_table.specs.Placed.{top};
ghost use Rattle.term_table.specs.Worth.{worth_of};
ghost use Rattle.term_table.specs.Entries.{form_at as spec_form_at};
ghost use Rattle.term_table.specs.Meaning.{HasParts, IsAt, Extends, at as tree_at, meaning, meanings};

use crate::adding::entry_of;
use crate::amount::Amount;
use crate::build::built;
use crate::constant::{known_at, worth_from};
use crate::entry::Entry;
use crate::form::Form;
use crate::node::Node;
use crate::passing::{passed_on, simplified};
use crate::worth::Worth;
use crate::written::steps_of;
use lin_truth::Term;
use std::alloc::{AllocError, Global};
use std::marker::Model;

/// Terms with shared parts. It is seen as the list of its nodes.
#[derive(Drop)]
pub struct Table {
    alloc: Global,
    entries: Vec<Entry>,
}

impl Model for Table {
    ghost use Rattle.std.specs.Prelude.{List};
    ghost use Rattle.std.specs.Coded.{codes};
    ghost use Rattle.term_table.specs.declared.node.Node.{Node};
    ghost use Rattle.term_table.specs.contracts.node.Node as n;
    ghost use Rattle.term_table.specs.Entries.{nodes_of, AreEntries};

    ghost Value = { List Node };

    ghost coded = { Prim.hlevel (codes, n.the_row.coded) };

    ghost view = { λ t. nodes_of t.entries.items };

    ghost invariant = { λ t. AreEntries t.entries.items };
}

/// The size of a term, each number exact up to the limit of a goal and else one more than that limit.
#[derive(Clone, Copy, Debug, PartialEq, Eq, Drop)]
pub struct Size {
    /// Its nodes, up to 1,048,577.
    pub nodes: u32,
    /// The nodes on its longest way down, up to 1,025.
    pub depth: u32,
    /// Its bindings, up to 1,025.
    pub bindings: u32,
}

impl Table {
    /// The empty table.
    pub fn new(alloc: Global) -> Table
        ensures { result ≡ [] }
    {
        Table {
            alloc,
            entries: Vec::new(alloc),
        }
    }

    /// How many entries there are.
    pub fn len(&self) -> usize
        ensures { result ≡ length self.now }
    {
        self.entries.len()
    }

    /// The place of an entry that stands for the node, whose parts are entries already: a new one, or one that was
    /// there. Every older entry keeps its meaning. Refuses only for memory; then too the older entries are as they
    /// were.
    pub fn add(&mut self, node: Node) -> Result<u32, AllocError>
        requires { HasParts (length self.old) node }
        ensures gives { IfOk result (λ i. IsAt self.new i (meaning (meanings self.old) node)) }
        ensures extends { Extends self.old self.new }
    {
        if let Some(passed) = passed_on(self.entries.as_slice(), &node) {
            return Ok(passed);
        }
        let at = self.entries.len();
        if at >= 4_294_967_295 {
            return Err(AllocError);
        }
        let simple = simplified(self.alloc, self.entries.as_slice(), node)?;
        let entry = entry_of(self.alloc, self.entries.as_slice(), simple)?;
        self.entries.push(entry)?;
        Ok(at as u32)
    }

    /// The size of the term of an entry outside of definitions. The entry is below `len`.
    pub fn size(&self, entry: u32) -> Size
        requires { entry < length self.now }
        ensures nodes { (n : ℕ) → result.nodes ≡ min 1048577 (node_count (tree_at (meanings self.now) entry top n)) }
        ensures depth { (n : ℕ) → result.depth ≡ min 1025 (depth (tree_at (meanings self.now) entry top n)) }
        ensures bindings { (n : ℕ) → result.bindings ≡ min 1025 (binding_count (tree_at (meanings self.now) entry top n)) }
    {
        let form = form_at(self.entries.as_slice(), entry);
        cut(form.size())
    }

    /// What is known of an entry as a constant term, where nothing is given for the parameters of definitions. The
    /// entry is below `len`.
    pub fn worth(&self, entry: u32) -> Worth
        requires { entry < length self.now }
        ensures { result ≡ worth_of (tree_at (meanings self.now) entry top 0) }
    {
        let form = form_at(self.entries.as_slice(), entry);
        let size = form.size();
        worth_from(size, known_at(self.entries.as_slice(), entry))
    }

    /// The term of an entry outside of definitions, below so many variables, with `let` and definitions put in as whole
    /// trees; a number that is not below `len` gives `false`. Refuses only for memory. Ask its size first: it takes
    /// memory for each of its nodes.
    pub fn tree(&self, entry: u32, above: u32) -> Result<Term, AllocError>
        ensures { IfOk result (λ t. tree_of t ≡ tree_at (meanings self.now) entry top above) }
    {
        let steps = steps_of(self.alloc, self.entries.as_slice(), entry, &[], above)?;
        built(self.alloc, steps)
    }
}

/// The form of an entry.
fn form_at(entries: &[Entry], entry: u32) -> &Form
    requires { entry < length entries.now }
    ensures { result.now ≡ spec_form_at entries.now entry }
{
    let found = &entries[entry as usize];
    &found.form
}

/// No number more than one past its limit.
fn cut(size: Amount) -> Size
    ensures { result ≡ record { nodes = min 1048577 size.nodes; depth = min 1025 size.depth; bindings = min 1025 size.bindings } }
{
    Size {
        nodes: size.nodes.min(1_048_577),
        depth: size.depth.min(1_025),
        bindings: size.bindings.min(1_025),
    }
}
