//! Selection from the leaves up. At each moment there is one cube a level.

ghost use Rattle.std.specs.Prelude.{◌≡◌, ◌+◌, ◌<◌, ◌^◌, ◌∷◌, ◌++◌, [], suc, true, IfOk, OnOk, length};
ghost use Rattle.lin_term.specs.Fixing.{at_names};
ghost use Rattle.lin_term.specs.Linear.{extend};
ghost use Rattle.dom_core.specs.View.{matrix_of};
ghost use Rattle.game_play.specs.Course.{IsOver};
ghost use Rattle.game_tree.specs.Skeleton.{IsMoveAt, end, nodes, branch_nodes};
ghost use Rattle.game_tree.specs.View.{skeleton_of, branches_of};
ghost use Rattle.term_select.specs.Guided.{guided_from, guided_branches, implicant as implicant_of, true_at, under_theirs, value_of, with_move};
ghost use Rattle.term_select.specs.Walk.{CanSelect, CanSelectEach, Gives, GivesBelow, IsKeptCube, values_on};

use crate::implicant::implicant;
use crate::meet::{meet, with_part};
use crate::part::{LowerPart, Met, Part, Stop};
use crate::turn::{pick_move, put_move};
use crate::way::values_at;
use dom_core::{Domain, Matrix};
use game_tree::{Branch, Tree};
use lin_term::{Memory, Point, Short};
use sqlite_items::Items;
use std::alloc::Global;

/// The implicant of the matrix at a leaf, where it is true; refuses only for memory.
fn leaf(
    alloc: Global,
    matrix: &Matrix,
    point: &Point,
    next: u32,
    way: &[u32],
) -> Result<Part, Memory>
    requires over { IsOver (matrix_of matrix.now) (length way.now) }
    requires holds { true_at (matrix_of matrix.now) (at_names way.now point.now) ≡ true }
    ensures cube { IfOk result (λ part. part.cube ≡ implicant_of (matrix_of matrix.now) (at_names way.now point.now)) }
    ensures tree { IfOk result (λ part. skeleton_of part.tree ≡ end) }
    ensures next { IfOk result (λ part. part.next ≡ next) }
{
    let here = values_at(alloc, point, way)?;
    let cube = implicant(alloc, matrix, &here)?;
    Ok(Part {
        cube,
        tree: Tree::End,
        next,
    })
}

/// What is selected against a tree whose first node is `next`, below the nodes of `way`, which is afterwards as before. It
/// calls itself once a variable of the prefix.
#[cycle(walk)]
pub fn walk<D: Domain>(
    alloc: Global,
    matrix: &Matrix,
    point: &Point,
    tree: &Tree,
    next: u32,
    way: &mut Items<u32>,
) -> Result<Part, Short<Stop>>
    requires { CanSelect D.SORT (matrix_of matrix.now) point.now (skeleton_of tree.now) next way.old }
    ensures value { Gives (guided_from (skeleton_of tree.now) D.SORT (matrix_of matrix.now) point.now (length way.old) next (values_on point.now way.old)) (next + nodes (skeleton_of tree.now)) result }
    ensures kept { IfOk result (λ part. IsKeptCube D.SORT (length way.old) part.cube) }
    ensures back { OnOk result (way.new ≡ way.old) }
{
    match tree {
        Tree::End => {
            let part = leaf(alloc, matrix, point, next, way.as_slice())?;
            Ok(part)
        }
        Tree::Theirs(rest) => {
            let var = way.len() as u32;
            let below = match walk_below::<D>(alloc, matrix, point, rest.get(), next, way) {
                Ok(below) => below,
                Err(fault) => return Err(fault),
            };
            pick_move::<D>(alloc, var, below)
        }
        Tree::Mine(branches) => {
            walk_each::<D>(alloc, matrix, point, branches.as_slice(), next, way)
        }
    }
}

/// The same below this node, which is put on the way meanwhile.
#[cycle(walk)]
fn walk_below<D: Domain>(
    alloc: Global,
    matrix: &Matrix,
    point: &Point,
    tree: &Tree,
    node: u32,
    way: &mut Items<u32>,
) -> Result<LowerPart, Short<Stop>>
    requires { CanSelect D.SORT (matrix_of matrix.now) point.now (skeleton_of tree.now) (suc node) (way.old ++ node ∷ []) }
    ensures value { let e = values_on point.now way.old in GivesBelow (guided_from (skeleton_of tree.now) D.SORT (matrix_of matrix.now) point.now (suc (length way.old)) (suc node) (extend e (value_of point.now node))) (suc node + nodes (skeleton_of tree.now)) result }
    ensures here { IfOk result (λ below. below.here ≡ at_names (way.old ++ node ∷ []) point.now) }
    ensures kept { IfOk result (λ below. IsKeptCube D.SORT (suc (length way.old)) below.part.cube) }
    ensures back { OnOk result (way.new ≡ way.old) }
{
    way.push(node)?;
    let part = match walk::<D>(alloc, matrix, point, tree, node + 1, way) {
        Ok(part) => part,
        Err(fault) => return Err(fault),
    };
    let here = values_at(alloc, point, way.as_slice())?;
    let _ = way.pop();
    Ok(LowerPart { part, here })
}

/// What is selected below a move of the attacked player, with the move put in.
#[cycle(walk)]
fn walk_branch<D: Domain>(
    alloc: Global,
    matrix: &Matrix,
    point: &Point,
    branch: &Branch,
    node: u32,
    way: &mut Items<u32>,
) -> Result<Part, Short<Stop>>
    requires select { CanSelect D.SORT (matrix_of matrix.now) point.now (skeleton_of branch.now.rest) (suc node) (way.old ++ node ∷ []) }
    requires earlier { IsMoveAt D.SORT (length way.old) branch.now.term }
    ensures value { let e = values_on point.now way.old in Gives (with_move D.SORT (length way.old) branch.now.term e (guided_from (skeleton_of branch.now.rest) D.SORT (matrix_of matrix.now) point.now (suc (length way.old)) (suc node) (extend e (value_of point.now node)))) (suc node + nodes (skeleton_of branch.now.rest)) result }
    ensures kept { IfOk result (λ part. IsKeptCube D.SORT (length way.old) part.cube) }
    ensures back { OnOk result (way.new ≡ way.old) }
{
    let var = way.len() as u32;
    let below = match walk_below::<D>(alloc, matrix, point, &branch.rest, node, way) {
        Ok(below) => below,
        Err(fault) => return Err(fault),
    };
    let LowerPart { part, here } = below;
    let Part {
        cube: asked,
        tree,
        next,
    } = part;
    let cube = match put_move::<D>(alloc, var, &branch.term, &here, &asked) {
        Ok(cube) => cube,
        Err(fault) => return Err(fault),
    };
    Ok(Part { cube, tree, next })
}

/// What is selected below all moves of a node of the attacked player.
#[cycle(walk)]
fn walk_each<D: Domain>(
    alloc: Global,
    matrix: &Matrix,
    point: &Point,
    branches: &[Branch],
    next: u32,
    way: &mut Items<u32>,
) -> Result<Part, Short<Stop>>
    requires { CanSelectEach D.SORT (matrix_of matrix.now) point.now (branches_of branches.now) next way.old }
    ensures value { Gives (under_theirs (guided_branches (branches_of branches.now) D.SORT (matrix_of matrix.now) point.now (length way.old) next (values_on point.now way.old))) (next + branch_nodes (branches_of branches.now)) result }
    ensures kept { IfOk result (λ part. IsKeptCube D.SORT (length way.old) part.cube) }
    ensures back { OnOk result (way.new ≡ way.old) }
{
    let mut met = Met::none(alloc, next);
    for branch in branches {
        let part = match walk_branch::<D>(alloc, matrix, point, branch, met.next, way) {
            Ok(part) => part,
            Err(fault) => return Err(fault),
        };
        met = match with_part(met, part) {
            Ok(met) => met,
            Err(_) => return Err(Short::Memory),
        };
    }
    let part = meet(alloc, met)?;
    Ok(part)
}
