//! Normal forms with numbered binders.

ghost use Rattle.std.specs.Prelude.{◌≡◌, ◌+◌, [], IfOk, OnOk};
ghost use Rattle.norm_form.specs.Numbered.{binders, all_binders, numbered as numbered_tree, numbered_parts as numbered_trees, CanNumber, CanNumberAll};
ghost use Rattle.norm_form.specs.Outcome.{normal_tree, normal_trees};
ghost use Rattle.norm_form.specs.View.{shape_of, shapes_of};

use crate::normal::LevelForm;
use lin_term::{Lit, Memory, renamed};
use sqlite_items::{Boxed, Items};
use std::alloc::Global;

/// A formula of literals with quantifiers inside, negations only in literals. `And` of nothing is true, `Or` of nothing is
/// false. A quantifier binds the variable of its number; in the form of a goal the numbers are 0, 1, 2 and so on in preorder.
#[derive(Debug, Drop)]
pub enum Normal {
    Lit(Lit),
    And(Items<Normal>),
    Or(Items<Normal>),
    Forall(u32, Boxed<Normal>),
    Exists(u32, Boxed<Normal>),
}

/// The form with its binders numbered in preorder: the next one has the number `next`, and `names` are the numbers of
/// those on the path.
#[cycle(number)]
#[tactic(auto, using(crate::proofs::Preorder::tree_lit, crate::proofs::Preorder::tree_and, crate::proofs::Preorder::tree_or, crate::proofs::Preorder::tree_forall, crate::proofs::Preorder::tree_exists))]
fn numbered(
    alloc: Global,
    form: &LevelForm,
    next: &mut u32,
    names: &mut Items<u32>,
) -> Result<Normal, Memory>
    requires { CanNumber (shape_of form.now) next.old names.old }
    ensures value { IfOk result (λ n. normal_tree n ≡ numbered_tree (shape_of form.now) next.old names.old) }
    ensures next { OnOk result (next.new ≡ next.old + binders (shape_of form.now)) }
    ensures names { OnOk result (names.new ≡ names.old) }
{
    match form {
        LevelForm::Lit(lit) => Ok(Normal::Lit(renamed(alloc, lit, names.as_slice())?)),
        LevelForm::And(parts) => Ok(Normal::And(numbered_all(
            alloc,
            parts.as_slice(),
            next,
            names,
        )?)),
        LevelForm::Or(parts) => Ok(Normal::Or(numbered_all(alloc, parts.as_slice(), next, names)?)),
        LevelForm::Forall(inner) => {
            let number = *next;
            *next = number + 1;
            names.push(number)?;
            let inner = numbered(alloc, inner.get(), next, names)?;
            names.pop();
            Ok(Normal::Forall(number, Boxed::new(alloc, inner)?))
        }
        LevelForm::Exists(inner) => {
            let number = *next;
            *next = number + 1;
            names.push(number)?;
            let inner = numbered(alloc, inner.get(), next, names)?;
            names.pop();
            Ok(Normal::Exists(number, Boxed::new(alloc, inner)?))
        }
    }
}

/// The parts with their binders numbered, from left to right.
#[cycle(number)]
fn numbered_all(
    alloc: Global,
    parts: &[LevelForm],
    next: &mut u32,
    names: &mut Items<u32>,
) -> Result<Items<Normal>, Memory>
    requires { CanNumberAll (shapes_of parts.now) next.old names.old }
    ensures value { IfOk result (λ ns. normal_trees ns ≡ numbered_trees (shapes_of parts.now) next.old names.old) }
    ensures next { OnOk result (next.new ≡ next.old + all_binders (shapes_of parts.now)) }
    ensures names { OnOk result (names.new ≡ names.old) }
{
    let mut made = Items::new(alloc);
    for part in parts {
        let part = numbered(alloc, part, next, names)?;
        made.push(part)?;
    }
    Ok(made)
}

/// The form with its binders numbered 0, 1, 2 and so on in preorder.
pub(crate) fn in_preorder(alloc: Global, form: &LevelForm) -> Result<Normal, Memory>
    requires { CanNumber (shape_of form.now) 0 [] }
    ensures { IfOk result (λ n. normal_tree n ≡ numbered_tree (shape_of form.now) 0 []) }
{
    let mut next = 0;
    let mut names = Items::new(alloc);
    numbered(alloc, form, &mut next, &mut names)
}
