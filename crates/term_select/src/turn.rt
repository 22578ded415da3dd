//! One variable: a move is put in, or picked and put in.

ghost use Rattle.std.specs.Prelude.{◌≡◌, ◌≤◌, suc, ℕ, ℤ, List, None, IfOk, length};
ghost use Rattle.lin_term.specs.Linear.{Below};
ghost use Rattle.lin_term.specs.Wide.{Capped};
ghost use Rattle.dom_core.specs.Pick.{pick, pick_numbers};
ghost use Rattle.dom_core.specs.PutMove.{put_in, put_in_numbers};
ghost use Rattle.game_tree.specs.Skeleton.{branch, no_more, IsMoveAt};
ghost use Rattle.game_tree.specs.View.{skeleton_of, branches_of};
ghost use Rattle.term_select.specs.Guided.{with_pick, first_wide};
ghost use Rattle.term_select.specs.Walk.{CappedAt, Gives, IsKeptCube, stop_fault};

use crate::part::{LowerPart, Part, Stop};
use dom_core::{Cube, Domain};
use game_tree::{Branch, Tree};
use lin_term::{Memory, Move, Point, Short, Wide};
use sqlite_items::Items;
use std::alloc::Global;

/// The fault with the position at which it arose.
fn stop_at(var: u32, fault: Short<Wide>) -> Short<Stop>
    ensures { result ≡ stop_fault var fault }
{
    match fault {
        Short::Fault(wide) => Short::Fault(Stop {
            var,
            number: wide.number,
        }),
        Short::Memory => Short::Memory,
    }
}

/// The move in place of the variable in the cube, at a point that has the values of the positions before it.
#[tactic(auto, using(crate::proofs::Giving::stop_capped, crate::proofs::Turning::absent, crate::proofs::Turning::kept_reduced))]
pub fn put_move<D: Domain>(
    alloc: Global,
    var: u32,
    term: &Move,
    here: &Point,
    cube: &Cube,
) -> Result<Cube, Short<Stop>>
    requires kept { IsKeptCube D.SORT (suc var) cube.now }
    requires earlier { Below var term.now.numer }
    requires long { var ≤ length here.now.nums }
    ensures value { CappedAt var (put_in_numbers D.SORT var term.now here.now cube.now) (put_in D.SORT var term.now here.now cube.now) result }
    ensures kept { IfOk result (λ c. IsKeptCube D.SORT var c) }
{
    match D::put_in(alloc, cube, var, term, here) {
        Ok(cube) => Ok(cube),
        Err(fault) => Err(stop_at(var, fault)),
    }
}

/// The move that the cube asks of its highest variable, at a point that has a value for each.
#[tactic(auto, using(crate::proofs::Giving::stop_capped))]
fn picked<D: Domain>(
    alloc: Global,
    var: u32,
    cube: &Cube,
    here: &Point,
) -> Result<Move, Short<Stop>>
    requires kept { IsKeptCube D.SORT (suc var) cube.now }
    requires long { length here.now.nums ≡ suc var }
    ensures value { CappedAt var (pick_numbers D.SORT var cube.now here.now) (pick D.SORT var cube.now here.now) result }
    ensures earlier { IfOk result (λ m. Below var m.numer) }
{
    match D::pick(alloc, cube, var, here) {
        Ok(term) => Ok(term),
        Err(fault) => Err(stop_at(var, fault)),
    }
}

/// A node with one move; refuses only for memory.
fn one_move(alloc: Global, term: Move, rest: Tree) -> Result<Items<Branch>, Memory>
    ensures { IfOk result (λ bs. branches_of bs ≡ branch term (skeleton_of rest) no_more) }
{
    let mut branches = Items::new(alloc);
    branches.push(Branch { term, rest })?;
    Ok(branches)
}

/// A move is picked for the variable and put in.
pub fn pick_move<D: Domain>(alloc: Global, var: u32, below: LowerPart) -> Result<Part, Short<Stop>>
    requires kept { IsKeptCube D.SORT (suc var) below.part.cube }
    requires long { length below.here.nums ≡ suc var }
    ensures value { (numbers : List (ℕ × ℤ)) → first_wide numbers ≡ None → Gives (with_pick D.SORT var below.here below.here (record { cube = below.part.cube; tree = skeleton_of below.part.tree; numbers = numbers })) below.part.next result }
    ensures kept { IfOk result (λ part. IsKeptCube D.SORT var part.cube) }
{
    let LowerPart { part, here } = below;
    let Part {
        cube: asked,
        tree,
        next,
    } = part;
    let term = match picked::<D>(alloc, var, &asked, &here) {
        Ok(term) => term,
        Err(fault) => return Err(fault),
    };
    let cube = match put_move::<D>(alloc, var, &term, &here, &asked) {
        Ok(cube) => cube,
        Err(fault) => return Err(fault),
    };
    let branches = one_move(alloc, term, tree)?;
    Ok(Part {
        cube,
        tree: Tree::Mine(branches),
        next,
    })
}
