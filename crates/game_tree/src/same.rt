//! Equality of trees and prefixes, as they are written.

ghost use Rattle.std.specs.Prelude.{◌≡◌, ◌↔◌, IsTrue};

use crate::tree::{Branch, Tree};
use dom_core::Quant;

fn is_same_quant(a: Quant, b: Quant) -> bool
    ensures { IsTrue result ↔ (a ≡ b) }
{
    match a {
        Quant::Exists => match b {
            Quant::Exists => true,
            Quant::Forall => false,
        },
        Quant::Forall => match b {
            Quant::Exists => false,
            Quant::Forall => true,
        },
    }
}

/// Whether the prefixes are equal.
pub fn is_same_prefix(a: &[Quant], b: &[Quant]) -> bool
    ensures { IsTrue result ↔ (a.now ≡ b.now) }
{
    if a.len() != b.len() {
        return false;
    }
    for i in 0..a.len() {
        if !is_same_quant(a[i], b[i]) {
            return false;
        }
    }
    true
}

/// Whether the trees are equal: the same moves in the same order. It calls itself once a level.
#[cycle(same)]
pub fn is_same_tree(a: &Tree, b: &Tree) -> bool
    ensures { IsTrue result ↔ (a.now ≡ b.now) }
{
    match a {
        Tree::End => match b {
            Tree::End => true,
            _ => false,
        },
        Tree::Theirs(rest) => match b {
            Tree::Theirs(other) => is_same_tree(rest.get(), other.get()),
            _ => false,
        },
        Tree::Mine(branches) => match b {
            Tree::Mine(others) => are_same_branches(branches.as_slice(), others.as_slice()),
            _ => false,
        },
    }
}

/// The same of the branches of a node.
#[cycle(same)]
fn are_same_branches(a: &[Branch], b: &[Branch]) -> bool
    ensures { IsTrue result ↔ (a.now ≡ b.now) }
{
    if a.len() != b.len() {
        return false;
    }
    for i in 0..a.len() {
        let branch = &a[i];
        let other = &b[i];
        if !branch.term.is_same(&other.term) {
            return false;
        }
        if !is_same_tree(&branch.rest, &other.rest) {
            return false;
        }
    }
    true
}
