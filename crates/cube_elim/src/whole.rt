//! Cubes decided by elimination alone.

ghost use Rattle.std.specs.Prelude.{◌≡◌, ◌<◌, ◌^◌, IfOk, length};
ghost use Rattle.lin_term.specs.declared.Sort.TheVariants.{Rat as rationals, Int as integers};
ghost use Rattle.dom_core.specs.Cube.{IsPrimitiveCube};
ghost use Rattle.dom_core.specs.Reduced.{AreBelow};
ghost use Rattle.cube_elim.specs.Answers.{Answers};
ghost use Rattle.cube_elim.specs.Stored.{IsStore};
ghost use Rattle.cube_elim.specs.Outcomes.{Decides, IsEnd, IsOutcomeOf};

use crate::cases;
use crate::decided::Decided;
use crate::descent::{Reached, search};
use crate::found::Found;
use crate::height::height_of;
use crate::lines::{first_facts, refutation};
use crate::next::with_more;
use crate::store::Store;
use crate::wide_cube::WideCube;
use cube_rules::Step;
use dom_core::{Cube, Domain};
use lin_term::{Memory, Point, Sort, Wide};
use sqlite_items::Items;
use std::alloc::Global;

/// What is found out of a cube: a point, lines, or a number past the cap.
#[derive(Drop)]
pub(crate) enum Outcome {
    Point(Point),
    Refuted(Items<Step>),
    Wide(Wide),
}

/// Over the integers, by the cases of Cooper 1972.
fn decide_int(alloc: Global, cube: &Cube, vars: u32) -> Result<Outcome, Memory>
    requires primitive { IsPrimitiveCube integers cube.now }
    requires below { AreBelow vars cube.now }
    ensures { IfOk result (Decides integers vars cube.now) }
{
    let height = height_of(cube.lits());
    let mut steps = Items::new(alloc);
    let found = match cases::search(alloc, cube, height, &mut steps) {
        Ok(found) => found,
        Err(_) => return Err(Memory),
    };
    match found {
        Found::Point(point) => Ok(Outcome::Point(with_more(alloc, &point, vars - height)?)),
        Found::Refuted => Ok(Outcome::Refuted(steps)),
        Found::Wide(wide) => Ok(Outcome::Wide(wide)),
    }
}

/// The literals of a cube as a store without sums. More than 32 bits count are want of memory.
fn store_of(alloc: Global, cube: &Cube) -> Result<Store, Memory>
    ensures lits { IfOk result (λ s. s.lits ≡ cube.now) }
    ensures store { IfOk result (IsStore (length cube.now)) }
    ensures count { IfOk result (λ s. length cube.now < 2 ^ 32) }
{
    let lits = cube.copy(alloc)?.into_lits();
    if lits.len() > u32::MAX as usize {
        return Err(Memory);
    }
    Ok(Store {
        lits,
        pairs: Items::new(alloc),
    })
}

/// The end of a search over the rationals: its point with 0 for so many more variables, the lines that lead to a false
/// literal, or the number past the cap.
fn outcome_of(
    alloc: Global,
    store: &Store,
    given: u32,
    reached: Reached,
    more: u32,
) -> Result<Outcome, Memory>
    requires { IsEnd given store.now reached }
    ensures { IfOk result (IsOutcomeOf given store.now reached more) }
{
    match reached {
        Reached::Point(point) => Ok(Outcome::Point(with_more(alloc, &point, more)?)),
        Reached::False(id) => Ok(Outcome::Refuted(refutation(alloc, store, given, id)?)),
        Reached::Wide(wide) => Ok(Outcome::Wide(wide)),
    }
}

/// Over the rationals, after Fourier and Motzkin.
fn decide_rat(alloc: Global, cube: &Cube, vars: u32) -> Result<Outcome, Memory>
    requires primitive { IsPrimitiveCube rationals cube.now }
    requires below { AreBelow vars cube.now }
    ensures { IfOk result (Decides rationals vars cube.now) }
{
    let lits = cube.lits();
    let height = height_of(lits);
    let mut store = store_of(alloc, cube)?;
    let given = lits.len() as u32;
    let ids = first_facts(alloc, given)?;
    let reached = match search(alloc, &mut store, ids.as_slice(), height) {
        Ok(reached) => reached,
        Err(_) => return Err(Memory),
    };
    outcome_of(alloc, &store, given, reached, vars - height)
}

/// Over the sort.
fn decide(alloc: Global, sort: Sort, cube: &Cube, vars: u32) -> Result<Outcome, Memory>
    requires primitive { IsPrimitiveCube sort cube.now }
    requires below { AreBelow vars cube.now }
    ensures { IfOk result (Decides sort vars cube.now) }
{
    match sort {
        Sort::Rat => decide_rat(alloc, cube, vars),
        Sort::Int => decide_int(alloc, cube, vars),
    }
}

/// Decides a cube by the elimination of its variables, the highest first: over the rationals after Fourier and Motzkin,
/// over the integers by the cases of Cooper 1972. Its literals are primitive, each modulus is in `1..=CAP`, and its
/// variables are below `vars`. A Point has `vars` values, and the cube holds at it; the lines of Refuted close the cube's
/// bare context; Wide is the cube, of whose elimination or point a number is past the cap. It refuses only for memory.
pub fn eliminate_all<D: Domain>(alloc: Global, cube: &Cube, vars: u32) -> Result<Decided<D>, Memory>
    requires primitive { IsPrimitiveCube D.SORT cube.now }
    requires below { AreBelow vars cube.now }
    ensures { IfOk result (Answers D.SORT vars cube.now) }
{
    match decide(alloc, D::SORT, cube, vars)? {
        Outcome::Point(point) => Ok(Decided::Point(point)),
        Outcome::Refuted(steps) => Ok(Decided::Refuted(steps)),
        Outcome::Wide(wide) => Ok(Decided::Wide(WideCube::from_parts(
            cube.copy(alloc)?,
            wide.number,
        ))),
    }
}
