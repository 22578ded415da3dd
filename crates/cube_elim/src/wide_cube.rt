//! Cubes of which a number of the elimination, or of the point that it determines, is past the cap.

ghost use Rattle.std.specs.Prelude.{◌≡◌, IfOk};
ghost use Rattle.cube_elim.specs.Determined.{WideAt};
ghost use Rattle.cube_elim.specs.WideCubes.{WideLits};

use dom_core::{Cube, Domain};
use lin_term::Memory;
use std::alloc::Global;
use std::marker::{Model, PhantomData};

/// A cube with a number past the cap: one of its elimination, or the first such of the point that it determines.
#[derive(Drop)]
pub struct WideCube<D: Domain> {
    cube: Cube,
    number: i128,
    of: PhantomData<D>,
}

impl<D: Domain> Model for WideCube<D> {
    ghost use Rattle.cube_elim.specs.Determined.{WideAt};
    ghost use Rattle.cube_elim.specs.WideCubes.{WideLits};

    ghost Value = { WideLits };

    ghost view = { λ w. record { lits = w.cube; number = w.number } };

    ghost invariant = { λ w. WideAt D.SORT w.cube w.number };
}

impl<D: Domain> WideCube<D> {
    /// The cube with a number of its elimination, or the first one of its point, that is past the cap.
    pub fn from_parts(cube: Cube, number: i128) -> WideCube<D>
        requires { WideAt D.SORT cube number }
        ensures { result ≡ record { lits = cube; number = number } }
    {
        WideCube {
            cube,
            number,
            of: PhantomData,
        }
    }

    /// The cube.
    pub fn cube(&self) -> &Cube
        ensures { result.now ≡ self.now.lits }
    {
        &self.cube
    }

    /// The number past the cap.
    pub fn number(&self) -> i128
        ensures value { result ≡ self.now.number }
        ensures wide { WideAt D.SORT self.now.lits result }
    {
        self.number
    }

    /// An equal value; refuses only for memory.
    pub fn copy(&self, alloc: Global) -> Result<WideCube<D>, Memory>
        ensures { IfOk result (λ w. w ≡ self.now) }
    {
        let cube = self.cube.copy(alloc)?;
        Ok(WideCube {
            cube,
            number: self.number,
            of: PhantomData,
        })
    }
}
