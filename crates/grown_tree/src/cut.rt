//! A tree without what was added behind a version.

ghost use Rattle.std.specs.Prelude.{◌≡◌, ◌≤◌, ℕ, List, IsTrue, nat_le, true, length};
ghost use Rattle.std.specs.List.{list_all, prefix_len};
ghost use Rattle.dom_core.specs.declared.Quant.{Quant as QuantValue};
ghost use Rattle.grown_tree.specs.Shown.{shown, all_shown, is_sound};

use crate::marks::{Mark, Marks};
use crate::node::Node;
use crate::slots::Slots;

/// How many moves have a number of at most this, up to the first that has not.
fn early(marks: &[Mark], last: u32) -> usize
    ensures { result ≡ prefix_len (λ m. nat_le m.since last) marks.now }
{
    marks.iter().take_while(|m| m.since <= last).count()
}

/// The node without the moves of a higher number; takes no memory. It calls itself once a level.
#[cycle(cut)]
pub fn cut(node: Node, last: u32) -> Node
    ensures sound { (n : ℕ) → IsTrue (is_sound n node) → IsTrue (is_sound last result) }
    ensures same { (n v : ℕ) (qs : List QuantValue) → IsTrue (is_sound n node) → v ≤ last → shown v result qs ≡ shown v node qs }
{
    match node {
        Node::End => return Node::End,
        Node::Mine(marks, below) => {
            let count = early(marks.as_slice(), last);
            let mut marks = marks;
            let mut below = below;
            marks.truncate(count);
            below.truncate(count);
            let below = cut_all(below, last);
            return Node::Mine(marks, below);
        }
    }
}

/// Each node, cut.
#[cycle(cut)]
fn cut_all(below: Slots<Node>, last: u32) -> Slots<Node>
    ensures count { length result ≡ length below }
    ensures sound { (n : ℕ) → list_all (is_sound n) below ≡ true → list_all (is_sound last) result ≡ true }
    ensures same { (n v : ℕ) (qs : List QuantValue) → list_all (is_sound n) below ≡ true → v ≤ last → all_shown v result qs ≡ all_shown v below qs }
{
    let mut below = below;
    for i in 0..below.len() {
        let node = below.replace(i, Node::End);
        let node = cut(node, last);
        below.set(i, node);
    }
    below
}
