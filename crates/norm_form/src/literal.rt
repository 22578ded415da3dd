//! Literals of a normal form.

ghost use Rattle.std.specs.Prelude.{◌≡◌};
ghost use Rattle.lin_term.specs.Literal.{IsPrimitive, prim, neg};
ghost use Rattle.lin_term.specs.Primable.{IsPrimable};
ghost use Rattle.lin_term.specs.Wide.{lit_numbers};
ghost use Rattle.norm_form.specs.Literal.{IsFormedLiteral, AreSigned};
ghost use Rattle.norm_form.specs.Norm.{leaf as leaf_of};
ghost use Rattle.norm_form.specs.View.{shape_of};

use crate::normal::{LevelForm, closed};
use lin_form::FormFault;
use lin_term::{Lit, Short, Sort, closed_truth, negate, primitive};
use std::alloc::Global;

/// A literal and its negation, each true or false where it has no variables.
#[derive(Drop)]
pub(crate) struct Signs {
    pub yes: LevelForm,
    pub no: LevelForm,
}

/// A literal, or its truth where it has no variables.
fn leaf(alloc: Global, lit: Lit) -> LevelForm
    ensures { shape_of result ≡ leaf_of lit }
{
    match closed_truth(&lit) {
        Some(truth) => closed(alloc, truth),
        None => LevelForm::Lit(lit),
    }
}

/// The primitive form.
fn primed(alloc: Global, sort: Sort, lit: Lit) -> Result<Lit, FormFault>
    requires { IsPrimable sort lit }
    ensures { IsFormedLiteral (lit_numbers (prim sort lit)) (prim sort lit) result }
{
    match primitive(alloc, sort, lit) {
        Ok(lit) => Ok(lit),
        Err(Short::Fault(_)) => Err(FormFault::Number),
        Err(Short::Memory) => Err(FormFault::Memory),
    }
}

/// The negation of a primitive literal.
fn negation(alloc: Global, sort: Sort, lit: &Lit) -> Result<Lit, FormFault>
    requires { IsPrimitive sort lit.now }
    ensures { IsFormedLiteral (lit_numbers (neg sort lit.now)) (neg sort lit.now) result }
{
    match negate(alloc, sort, lit) {
        Ok(lit) => Ok(lit),
        Err(Short::Fault(_)) => Err(FormFault::Number),
        Err(Short::Memory) => Err(FormFault::Memory),
    }
}

/// A literal in primitive form and its negation; `Number` where one of the two has a number past the cap.
pub(crate) fn both_signs(alloc: Global, sort: Sort, lit: Lit) -> Result<Signs, FormFault>
    requires { IsPrimable sort lit }
    ensures { AreSigned sort lit result }
{
    let lit = match primed(alloc, sort, lit) {
        Ok(lit) => lit,
        Err(fault) => return Err(fault),
    };
    let opposite = match negation(alloc, sort, &lit) {
        Ok(lit) => lit,
        Err(fault) => return Err(fault),
    };
    Ok(Signs {
        yes: leaf(alloc, lit),
        no: leaf(alloc, opposite),
    })
}
