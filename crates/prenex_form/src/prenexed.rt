//! A normal form with its quantifiers in front.

ghost use Rattle.std.specs.Prelude.{◌≡◌, ◌≤◌, IfOk};
ghost use Rattle.dom_core.specs.View.{matrix_of};
ghost use Rattle.norm_form.specs.Load.{weigh};
ghost use Rattle.norm_form.specs.View.{shape_of};
ghost use Rattle.prenex_form.specs.Pass.{IsClosed, EachTidy};
ghost use Rattle.prenex_form.specs.Prenex.{prenex_of};
ghost use Rattle.norm_form.specs.Outcome.{binder_rate};

use crate::place::place;
use crate::prefix::{prefix_of, starts_of};
use crate::tally::count;
use dom_core::{Matrix, Quant};
use lin_term::Memory;
use norm_form::LevelForm;
use sqlite_items::Items;
use std::alloc::Global;

/// A prefix and a matrix over it.
#[derive(Drop)]
pub(crate) struct Prenex {
    pub(crate) prefix: Items<Quant>,
    pub(crate) matrix: Matrix,
}

/// The form with its quantifiers in front, in two passes over it.
pub(crate) fn prenexed(alloc: Global, form: &LevelForm) -> Result<Prenex, Memory>
    requires closed { IsClosed (shape_of form.now) }
    requires few { weigh (shape_of form.now) binder_rate ≤ 1024 }
    ensures prefix { IfOk result (λ p. p.prefix ≡ (prenex_of (shape_of form.now)).prefix) }
    ensures matrix { IfOk result (λ p. matrix_of p.matrix ≡ (prenex_of (shape_of form.now)).matrix) }
    ensures tidy { IfOk result (λ p. EachTidy (shape_of form.now)) }
{
    let mut sizes = Items::new(alloc);
    count(form, 0, &mut sizes)?;
    let prefix = prefix_of(alloc, sizes.as_slice())?;
    let mut next = starts_of(alloc, sizes.as_slice())?;
    let mut names = Items::new(alloc);
    let matrix = place(alloc, form, 0, &mut next, &mut names)?;
    Ok(Prenex { prefix, matrix })
}
