//! The connectives of formulas that were worked out: a fault stays a fault.

ghost use Rattle.std.specs.Prelude.{Bool, true, Option};
ghost use Rattle.norm_form.specs.Cap.{capped_maker, over2};
ghost use Rattle.norm_form.specs.Norm.{either_by};
ghost use Rattle.norm_form.specs.Normal.{Normal as NormalTree};
ghost use Rattle.norm_form.specs.View.{IsBuilt};

use crate::normal::{LevelForm, either};
use lin_form::FormFault;
use std::alloc::Global;

/// A formula and its negation. Each has bound variables of its own.
#[derive(Drop)]
pub(crate) struct Contraries {
    pub yes: Result<LevelForm, FormFault>,
    pub no: Result<LevelForm, FormFault>,
}

/// Both, or one of the two.
pub(crate) fn both(
    alloc: Global,
    all: bool,
    a: Result<LevelForm, FormFault>,
    b: Result<LevelForm, FormFault>,
) -> Result<LevelForm, FormFault>
    ensures { (x y : Option NormalTree) → IsBuilt x a → IsBuilt y b → IsBuilt (over2 (either_by all) x y) result }
{
    let a = match a {
        Ok(a) => a,
        Err(fault) => return Err(fault),
    };
    match b {
        Ok(b) => Ok(either(alloc, all, a, b)?),
        Err(fault) => Err(fault),
    }
}

/// `a` where the test holds, else `b`.
pub(crate) fn choice_of(
    alloc: Global,
    test: Contraries,
    a: Result<LevelForm, FormFault>,
    b: Result<LevelForm, FormFault>,
) -> Result<LevelForm, FormFault>
    ensures { (p n x y : Option NormalTree) → IsBuilt p test.yes → IsBuilt n test.no → IsBuilt x a → IsBuilt y b → IsBuilt (capped_maker.ite_form p n x y) result }
{
    let first = both(alloc, false, test.no, a);
    let second = both(alloc, false, test.yes, b);
    both(alloc, true, first, second)
}

/// Whether a and b are the same, or not.
pub(crate) fn same_of(
    alloc: Global,
    truth: bool,
    a: Contraries,
    b: Contraries,
) -> Result<LevelForm, FormFault>
    ensures { (x u y w : Option NormalTree) → IsBuilt x a.yes → IsBuilt u a.no → IsBuilt y b.yes → IsBuilt w b.no → IsBuilt (capped_maker.same_form truth x u y w) result }
{
    if truth {
        let first = both(alloc, false, a.no, b.yes);
        let second = both(alloc, false, a.yes, b.no);
        both(alloc, true, first, second)
    } else {
        let first = both(alloc, true, a.yes, b.no);
        let second = both(alloc, true, a.no, b.yes);
        both(alloc, false, first, second)
    }
}
