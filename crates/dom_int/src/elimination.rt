//! The cases of one variable, one at a time.

ghost use Rattle.std.specs.Prelude.{◌≡◌, ◌<◌, ◌≤◌, ℕ, length, None, IfOk};
ghost use Rattle.std.specs.List.{AllByRecursion};
ghost use Rattle.lin_term.specs.declared.Sort.TheVariants.{Int};
ghost use Rattle.lin_term.specs.Form.{cap};
ghost use Rattle.lin_term.specs.Wide.{Capped, CappedWide, first_past};
ghost use Rattle.dom_core.specs.Cube.{IsPrimitiveCube};
ghost use Rattle.dom_core.specs.Elimination.{cooper, cube_numbers, elimination_numbers};
ghost use Rattle.dom_core.specs.Reduced.{AreRows, AreBelow, IsReduced};
ghost use Rattle.dom_int.specs.Counts.{first_numbers};
ghost use Rattle.dom_int.specs.Case.{case_at};

use crate::case::{free_case, lower_case};
use crate::count::sum_of_counts;
use crate::period::period;
use crate::place::place_of;
use dom_core::Cube;
use lin_term::{Lit, Short, Wide};
use sqlite_items::Items;
use std::alloc::Global;
use std::marker::Model;

/// A cube and the variable that is taken out of it, with the number of its cases. No case is kept: memory is that of the
/// cube, and each case costs one pass over it.
#[derive(Debug, Drop)]
pub struct Elimination {
    cube: Cube,
    var: u32,
    period: u64,
    lower: u64,
}

impl Model for Elimination {
    ghost use Rattle.dom_int.specs.Target.{Target, IsPrepared};

    ghost Value = { Target };

    ghost view = { λ e. record { cube = e.cube; variable = e.var } };

    ghost invariant = { λ e. IsPrepared e.cube e.var e.period e.lower };
}

impl Elimination {
    /// The elimination of the variable from a cube of primitive literals of integers with moduli in `1..=CAP`. It refuses
    /// exactly where a partial period of the divisibilities or a partial sum of the counts of cases passes the cap, and
    /// names the first; the periods come before the sums. It never refuses for memory.
    pub fn prepare(cube: Cube, var: u32) -> Result<Elimination, Wide>
        requires { IsPrimitiveCube Int cube }
        ensures { CappedWide (first_numbers cube var) (record { cube = cube; variable = var }) result }
    {
        let n = match period(cube.lits(), var) {
            Ok(n) => n,
            Err(wide) => return Err(wide),
        };
        let lower = match sum_of_counts(cube.lits(), var, n) {
            Ok(lower) => lower,
            Err(wide) => return Err(wide),
        };
        Ok(Elimination {
            cube,
            var,
            period: n,
            lower,
        })
    }

    /// How many cases there are, at most 2^52.
    pub fn count(&self) -> u64
        ensures value { result ≡ length (cooper self.now.cube self.now.variable) }
        ensures kept { result ≤ cap }
        ensures fits { first_past (first_numbers self.now.cube self.now.variable) ≡ None }
    {
        if self.lower == 0 {
            self.period
        } else {
            self.lower
        }
    }

    /// The literals of the cube, primitive ones.
    fn lits(&self) -> &[Lit]
        ensures primitive { IsPrimitiveCube Int self.now.cube }
        ensures rows { AreRows self.now.cube }
    {
        self.cube.lits()
    }

    /// The case of this number, which is below `count`. Its literals are primitive, each modulus in `1..=CAP`; it does not
    /// have the variable, and its variables are below the same number as those of the cube. Wide names the first of its
    /// numbers past the cap; a case with no such number is refused only for memory.
    pub fn case(&self, alloc: Global, index: u64) -> Result<Cube, Short<Wide>>
        requires { index < length (cooper self.now.cube self.now.variable) }
        ensures value { Capped (cube_numbers (case_at self.now.cube self.now.variable index)) (case_at self.now.cube self.now.variable index) result }
        ensures reduced { IfOk result (λ c. (n : ℕ) → AreBelow n self.now.cube → IsReduced Int n self.now.variable c) }
    {
        let _lits = self.lits();
        self.built(alloc, index)
    }

    /// The case of this number.
    fn built(&self, alloc: Global, index: u64) -> Result<Cube, Short<Wide>>
        requires { index < length (cooper self.now.cube self.now.variable) }
        ensures { Capped (cube_numbers (case_at self.now.cube self.now.variable index)) (case_at self.now.cube self.now.variable index) result }
    {
        let lits = self.cube.lits();
        if self.lower == 0 {
            return free_case(alloc, lits, self.var, index);
        }
        let (place, k) = place_of(lits, self.var, self.period, index);
        lower_case(alloc, lits, self.var, place, k)
    }

    /// All cases in order, each as `case` gives it. Wide names the first number of the elimination past the cap; where
    /// there is none, it refuses only for memory.
    pub fn all(&self, alloc: Global) -> Result<Items<Cube>, Short<Wide>>
        ensures value { Capped (elimination_numbers Int self.now.cube self.now.variable) (cooper self.now.cube self.now.variable) result }
        ensures reduced { IfOk result (λ cs. (n : ℕ) → AreBelow n self.now.cube → AllByRecursion (IsReduced Int n self.now.variable) cs) }
    {
        let _lits = self.lits();
        self.all_built(alloc)
    }

    /// All cases in order.
    fn all_built(&self, alloc: Global) -> Result<Items<Cube>, Short<Wide>>
        ensures { Capped (elimination_numbers Int self.now.cube self.now.variable) (cooper self.now.cube self.now.variable) result }
    {
        let mut cubes = Items::new(alloc);
        let count = self.count();
        for index in 0..count {
            match self.built(alloc, index) {
                Ok(case) => cubes.push(case)?,
                Err(fault) => return Err(fault),
            }
        }
        Ok(cubes)
    }

    /// Ok only where no number of the elimination passes the cap. Wide names the first that does; where none does, it
    /// refuses only for memory.
    pub fn check(&self, alloc: Global) -> Result<(), Short<Wide>>
        ensures { Capped (elimination_numbers Int self.now.cube self.now.variable) tt result }
    {
        let count = self.count();
        for index in 0..count {
            match self.built(alloc, index) {
                Ok(_) => {}
                Err(fault) => return Err(fault),
            }
        }
        Ok(())
    }
}

/// All cases of the variable. Wide names the first number of the elimination past the cap; where there is none, it
/// refuses only for memory.
pub(crate) fn eliminate(alloc: Global, cube: &Cube, var: u32) -> Result<Items<Cube>, Short<Wide>>
    requires { IsPrimitiveCube Int cube.now }
    ensures value { Capped (elimination_numbers Int cube.now var) (cooper cube.now var) result }
    ensures reduced { IfOk result (λ cs. (n : ℕ) → AreBelow n cube.now → AllByRecursion (IsReduced Int n var) cs) }
{
    let _lits = cube.lits();
    eliminated(alloc, cube, var)
}

/// All cases of the variable, in order.
fn eliminated(alloc: Global, cube: &Cube, var: u32) -> Result<Items<Cube>, Short<Wide>>
    requires { IsPrimitiveCube Int cube.now }
    ensures { Capped (elimination_numbers Int cube.now var) (cooper cube.now var) result }
{
    let copy = match cube.copy(alloc) {
        Ok(copy) => copy,
        Err(_) => return Err(Short::Memory),
    };
    match Elimination::prepare(copy, var) {
        Ok(elimination) => elimination.all_built(alloc),
        Err(wide) => Err(Short::Fault(wide)),
    }
}
