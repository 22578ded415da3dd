//! The branches of one node meet in one cube and one tree.

ghost use Rattle.std.specs.Prelude.{◌≡◌, ◌++◌, ◌∷◌, [], List, map, IfOk};
ghost use Rattle.dom_core.specs.PutMove.{with_new};
ghost use Rattle.game_tree.specs.Skeleton.{theirs};
ghost use Rattle.game_tree.specs.View.{skeleton_of};
ghost use Rattle.term_select.specs.Unions.{union_of_all};

use crate::part::{Met, Part};
use dom_core::{Cube, add_new};
use game_tree::{Tree, merge_trees};
use lin_term::{Lit, Memory};
use sqlite_items::{Boxed, Items};
use std::alloc::Global;

/// With one branch more; refuses only for memory.
pub fn with_part(met: Met, part: Part) -> Result<Met, Memory>
    ensures lits { IfOk result (λ m. m.lits ≡ met.lits ++ part.cube) }
    ensures trees { IfOk result (λ m. m.trees.items ≡ met.trees.items ++ part.tree ∷ []) }
    ensures next { IfOk result (λ m. m.next ≡ part.next) }
{
    let Met {
        mut lits,
        mut trees,
        next: _next,
    } = met;
    let Part { cube, tree, next } = part;
    lits.append(cube.into_lits())?;
    match trees.push(tree) {
        Ok(()) => Ok(Met { lits, trees, next }),
        Err(_) => Err(Memory),
    }
}

/// The union of the trees, from the first on; refuses only for memory.
fn merged(alloc: Global, trees: Vec<Tree>) -> Result<Tree, Memory>
    ensures { IfOk result (λ t. skeleton_of t ≡ union_of_all (map skeleton_of trees.items)) }
{
    let mut more = trees;
    if more.is_empty() {
        return Ok(Tree::End);
    }
    let first = more.remove(0);
    merge_trees(alloc, first, more)
}

/// What is selected at a node of the attacked player: the literals of all branches, each once, and the union of their trees.
/// It refuses only for memory.
pub fn meet(alloc: Global, met: Met) -> Result<Part, Memory>
    ensures cube { IfOk result (λ part. part.cube ≡ with_new [] met.lits) }
    ensures tree { IfOk result (λ part. skeleton_of part.tree ≡ theirs (union_of_all (map skeleton_of met.trees.items))) }
    ensures next { IfOk result (λ part. part.next ≡ met.next) }
{
    let Met { lits, trees, next } = met;
    let lits = add_new(alloc, Items::new(alloc), lits)?;
    let tree = merged(alloc, trees)?;
    Ok(Part {
        cube: Cube::from_lits(lits),
        tree: Tree::Theirs(Boxed::new(alloc, tree)?),
        next,
    })
}
