//! The matrix of a normal form: each variable takes the next place of its block.

ghost use Rattle.std.specs.Prelude.{◌≡◌, IfOk, OnOk};
ghost use Rattle.dom_core.specs.View.{matrix_of, matrices_of};
ghost use Rattle.norm_form.specs.View.{shape_of, shapes_of};
ghost use Rattle.prenex_form.specs.Pass.{taken, taken_parts, put, put_parts, HasRoom, HaveRoom, CanPut, CanPutAll, EachTidy, AllTidy};

use crate::rename::at_places;
use crate::tally::{bump, under_all};
use dom_core::Matrix;
use lin_term::Memory;
use norm_form::LevelForm;
use sqlite_items::Items;
use std::alloc::Global;

/// The matrix of a form whose blocks begin at `depth`. `next` has the next place of each block, `names` the places of the
/// variables on the path.
#[cycle(place)]
pub(crate) fn place(
    alloc: Global,
    form: &LevelForm,
    depth: usize,
    next: &mut Items<u32>,
    names: &mut Items<u32>,
) -> Result<Matrix, Memory>
    requires room { HasRoom (shape_of form.now) depth next.old }
    requires ready { CanPut (shape_of form.now) depth next.old names.old }
    ensures matrix { IfOk result (λ m. matrix_of m ≡ put (shape_of form.now) depth next.old names.old) }
    ensures next { OnOk result (next.new ≡ taken (shape_of form.now) depth next.old) }
    ensures names { OnOk result (names.new ≡ names.old) }
    ensures tidy { IfOk result (λ m. EachTidy (shape_of form.now)) }
{
    match form {
        LevelForm::Lit(lit) => Ok(Matrix::Lit(at_places(alloc, lit, names.as_slice())?)),
        LevelForm::And(parts) => Ok(Matrix::And(place_all(
            alloc,
            parts.as_slice(),
            depth,
            next,
            names,
        )?)),
        LevelForm::Or(parts) => Ok(Matrix::Or(place_all(
            alloc,
            parts.as_slice(),
            depth,
            next,
            names,
        )?)),
        LevelForm::Forall(inner) => {
            names.push(bump(next, depth + 1)?)?;
            let below = under_all(inner.get(), depth);
            let matrix = place(alloc, inner.get(), below, next, names)?;
            names.pop();
            Ok(matrix)
        }
        LevelForm::Exists(inner) => {
            names.push(bump(next, depth)?)?;
            let matrix = place(alloc, inner.get(), depth, next, names)?;
            names.pop();
            Ok(matrix)
        }
    }
}

/// The matrices of the parts, from left to right.
#[cycle(place)]
fn place_all(
    alloc: Global,
    parts: &[LevelForm],
    depth: usize,
    next: &mut Items<u32>,
    names: &mut Items<u32>,
) -> Result<Items<Matrix>, Memory>
    requires room { HaveRoom (shapes_of parts.now) depth next.old }
    requires ready { CanPutAll (shapes_of parts.now) depth next.old names.old }
    ensures matrices { IfOk result (λ ms. matrices_of ms ≡ put_parts (shapes_of parts.now) depth next.old names.old) }
    ensures next { OnOk result (next.new ≡ taken_parts (shapes_of parts.now) depth next.old) }
    ensures names { OnOk result (names.new ≡ names.old) }
    ensures tidy { IfOk result (λ ms. AllTidy (shapes_of parts.now)) }
{
    let mut matrices = Items::new(alloc);
    for part in parts {
        let matrix = place(alloc, part, depth, next, names)?;
        matrices.push(matrix)?;
    }
    Ok(matrices)
}
