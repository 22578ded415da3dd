//! Normal forms, and how they are put together.

ghost use Rattle.std.specs.Prelude.{◌≡◌, ◌≢◌, IfOk, length};
ghost use Rattle.norm_form.specs.Normal.{each_of, there_is, part, no_part};
ghost use Rattle.norm_form.specs.Norm.{closed as closed_form, either_by, bind_one, ite_form, joined_by};
ghost use Rattle.norm_form.specs.View.{shape_of, shapes_of};

use lin_term::{Lit, Memory};
use sqlite_items::{Boxed, Items};
use std::alloc::Global;

/// A formula of literals with quantifiers inside, negations only in literals. `And` of nothing is true, `Or` of nothing is
/// false. A variable in a literal is the level of its binder: the number of binders outside it on the path.
#[derive(Debug, Drop)]
pub enum LevelForm {
    Lit(Lit),
    And(Items<LevelForm>),
    Or(Items<LevelForm>),
    Forall(Boxed<LevelForm>),
    Exists(Boxed<LevelForm>),
}

impl LevelForm {
    /// An equal form; refuses only for memory.
    #[cycle(copy)]
    pub fn copy(&self, alloc: Global) -> Result<LevelForm, Memory>
        ensures { IfOk result (λ n. n ≡ self.now) }
    {
        match self {
            LevelForm::Lit(lit) => Ok(LevelForm::Lit(lit.copy(alloc)?)),
            LevelForm::And(parts) => Ok(LevelForm::And(copy_all(alloc, parts.as_slice())?)),
            LevelForm::Or(parts) => Ok(LevelForm::Or(copy_all(alloc, parts.as_slice())?)),
            LevelForm::Forall(inner) => {
                let inner = inner.get().copy(alloc)?;
                Ok(LevelForm::Forall(Boxed::new(alloc, inner)?))
            }
            LevelForm::Exists(inner) => {
                let inner = inner.get().copy(alloc)?;
                Ok(LevelForm::Exists(Boxed::new(alloc, inner)?))
            }
        }
    }
}

/// Equal parts; refuses only for memory.
#[cycle(copy)]
fn copy_all(alloc: Global, parts: &[LevelForm]) -> Result<Items<LevelForm>, Memory>
    ensures { IfOk result (λ items. items ≡ parts.now) }
{
    let mut copies = Items::new(alloc);
    for part in parts {
        copies.push(part.copy(alloc)?)?;
    }
    Ok(copies)
}

/// True or false.
#[tactic(auto, using(crate::proofs::Shapes::shape_and, crate::proofs::Shapes::shape_or))]
pub(crate) fn closed(alloc: Global, truth: bool) -> LevelForm
    ensures { shape_of result ≡ closed_form truth }
{
    if truth {
        LevelForm::And(Items::new(alloc))
    } else {
        LevelForm::Or(Items::new(alloc))
    }
}

/// Both, or one of the two.
#[tactic(auto, using(crate::proofs::Shapes::shape_and, crate::proofs::Shapes::shape_or))]
pub(crate) fn either(
    alloc: Global,
    both: bool,
    a: LevelForm,
    b: LevelForm,
) -> Result<LevelForm, Memory>
    ensures { IfOk result (λ n. shape_of n ≡ either_by both (shape_of a) (shape_of b)) }
{
    let mut parts = Items::new(alloc);
    parts.push(a)?;
    parts.push(b)?;
    if both {
        Ok(LevelForm::And(parts))
    } else {
        Ok(LevelForm::Or(parts))
    }
}

/// Under one quantifier.
#[tactic(auto, using(crate::proofs::Shapes::shape_forall, crate::proofs::Shapes::shape_exists))]
pub(crate) fn quantified(alloc: Global, every: bool, inner: LevelForm) -> Result<LevelForm, Memory>
    ensures { IfOk result (λ n. shape_of n ≡ bind_one every (shape_of inner)) }
{
    let inner = Boxed::new(alloc, inner)?;
    if every {
        Ok(LevelForm::Forall(inner))
    } else {
        Ok(LevelForm::Exists(inner))
    }
}

/// `a` where the test holds, else `b`; `untest` is the negation of `test`.
pub(crate) fn choice(
    alloc: Global,
    test: LevelForm,
    untest: LevelForm,
    a: LevelForm,
    b: LevelForm,
) -> Result<LevelForm, Memory>
    ensures { IfOk result (λ n. shape_of n ≡ ite_form (shape_of test) (shape_of untest) (shape_of a) (shape_of b)) }
{
    let first = either(alloc, false, untest, a)?;
    let second = either(alloc, false, test, b)?;
    either(alloc, true, first, second)
}

/// There is a value between the bounds.
#[tactic(auto, using(crate::proofs::Shapes::shape_and, crate::proofs::Shapes::shape_exists))]
pub(crate) fn between(
    alloc: Global,
    low: LevelForm,
    high: LevelForm,
    inner: LevelForm,
) -> Result<LevelForm, Memory>
    ensures { IfOk result (λ n. shape_of n ≡ there_is (each_of (part (shape_of low) (part (shape_of high) (part (shape_of inner) no_part))))) }
{
    let mut parts = Items::new(alloc);
    parts.push(low)?;
    parts.push(high)?;
    parts.push(inner)?;
    let inner = Boxed::new(alloc, LevelForm::And(parts))?;
    Ok(LevelForm::Exists(inner))
}

/// All parts, or one of them: one part stands for the whole.
pub(crate) fn joined(all: bool, parts: Items<LevelForm>) -> LevelForm
    ensures { shape_of result ≡ joined_by all (shapes_of parts) }
{
    if parts.len() == 1 {
        only(all, parts)
    } else {
        many(all, parts)
    }
}

/// The only part.
fn only(all: bool, parts: Items<LevelForm>) -> LevelForm
    requires { length parts ≡ 1 }
    ensures { shape_of result ≡ joined_by all (shapes_of parts) }
{
    let mut parts = parts;
    match parts.pop() {
        Some(part) => part,
        None => many(all, parts),
    }
}

/// No part, or more than one.
fn many(all: bool, parts: Items<LevelForm>) -> LevelForm
    requires { length parts ≢ 1 }
    ensures { shape_of result ≡ joined_by all (shapes_of parts) }
{
    if all {
        LevelForm::And(parts)
    } else {
        LevelForm::Or(parts)
    }
}
