//! The cases of an elimination that are still to be closed.

ghost use Rattle.std.specs.Prelude.{◌≡◌, ◌∷◌, ◌+◌, [], None, IfOk, drop, get_or};
ghost use Rattle.lin_term.specs.declared.Sort.TheVariants.{Int};
ghost use Rattle.lin_term.specs.Wide.{first_past};
ghost use Rattle.dom_core.specs.Cube.{IsPrimitiveCube};
ghost use Rattle.dom_core.specs.Elimination.{cooper, elimination_numbers};
ghost use Rattle.proof_rules.specs.Left.{left_cases, all_left};

use dom_core::Cube;
use dom_int::Elimination;
use lin_term::{Memory, Short};
use std::alloc::Global;
use std::marker::Model;

/// An elimination without a number past the cap, and the first of its cases that is left. No case is kept: memory is
/// that of the cube, and a case is built when its turn comes.
#[derive(Drop)]
pub struct CasesLeft {
    elimination: Elimination,
    next: u64,
}

impl Model for CasesLeft {
    ghost use Rattle.proof_rules.specs.Left.{Left, IsLeft};

    ghost Value = { Left };

    ghost view = { λ l. record { cube = l.elimination.cube; variable = l.elimination.variable; next = l.next } };

    ghost invariant = { λ l. IsLeft (record { cube = l.elimination.cube; variable = l.elimination.variable; next = l.next }) };
}

impl CasesLeft {
    /// All cases; none where the elimination has no case.
    pub fn all(elimination: Elimination) -> Option<CasesLeft>
        requires primitive { IsPrimitiveCube Int elimination.cube }
        requires fits { first_past (elimination_numbers Int elimination.cube elimination.variable) ≡ None }
        ensures { all_left result ≡ cooper elimination.cube elimination.variable }
    {
        if elimination.count() == 0 {
            return None;
        }
        Some(CasesLeft {
            elimination,
            next: 0,
        })
    }

    /// The next case.
    fn case(&self, alloc: Global) -> Result<Cube, Memory>
        ensures case { IfOk result (λ c. c ≡ get_or (cooper self.now.cube self.now.variable) self.now.next []) }
        ensures primitive { IfOk result (λ c. IsPrimitiveCube Int c) }
    {
        match self.elimination.case(alloc, self.next) {
            Ok(case) => Ok(case),
            Err(Short::Memory) => Err(Memory),
            Err(Short::Fault(_)) => unreachable!(),
        }
    }

    /// The cases behind the next one.
    fn behind(self) -> Option<CasesLeft>
        ensures { all_left result ≡ drop (self.next + 1) (cooper self.cube self.variable) }
    {
        let CasesLeft { elimination, next } = self;
        let count = elimination.count();
        let next = next + 1;
        if next < count {
            Some(CasesLeft { elimination, next })
        } else {
            None
        }
    }

    /// The next case, and those behind it.
    pub fn next(self, alloc: Global) -> Result<(Cube, Option<CasesLeft>), Memory>
        ensures cases { IfOk result (λ r. r.0 ∷ all_left r.1 ≡ left_cases self) }
        ensures primitive { IfOk result (λ r. IsPrimitiveCube Int r.0) }
    {
        let case = self.case(alloc)?;
        Ok((case, self.behind()))
    }
}
