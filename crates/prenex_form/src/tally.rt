//! The variables of each block of the prefix, counted in order. Blocks alternate from Exists on; a conjunction or a disjunction
//! takes the Exists blocks of its parts first.

ghost use Rattle.std.specs.Prelude.{◌≡◌, ◌<◌, ◌≤◌, get_or, IfOk, OnOk};
ghost use Rattle.norm_form.specs.View.{shape_of, shapes_of};
ghost use Rattle.prenex_form.specs.Pass.{leads as leads_of, any_leads as any_leads_of, under_all as under_all_of, bump as bump_of, taken, taken_parts, HasRoom, HaveRoom};

use lin_term::Memory;
use norm_form::LevelForm;
use sqlite_items::Items;

/// Whether the prefix of a form begins with an Exists block.
#[cycle(leads)]
fn leads(form: &LevelForm) -> bool
    ensures { result ≡ leads_of (shape_of form.now) }
{
    match form {
        LevelForm::Lit(_) => false,
        LevelForm::And(parts) => any_leads(parts.as_slice()),
        LevelForm::Or(parts) => any_leads(parts.as_slice()),
        LevelForm::Forall(_) => false,
        LevelForm::Exists(_) => true,
    }
}

/// Whether one of the parts does.
#[cycle(leads)]
fn any_leads(parts: &[LevelForm]) -> bool
    ensures { result ≡ any_leads_of (shapes_of parts.now) }
{
    for part in parts {
        if leads(part) {
            return true;
        }
    }
    false
}

/// Where the blocks of a form begin that stands under a universal variable of block `depth + 1`.
pub(crate) fn under_all(form: &LevelForm, depth: usize) -> usize
    requires { depth ≤ 4096 }
    ensures { result ≡ under_all_of (shape_of form.now) depth }
{
    if leads(form) { depth + 2 } else { depth }
}

/// One more at a place, behind zeros where there is none yet. Gives what stood there.
pub(crate) fn bump(counts: &mut Items<u32>, at: usize) -> Result<u32, Memory>
    requires { get_or counts.old at 0 < 4096 }
    ensures value { IfOk result (λ x. x ≡ get_or counts.old at 0) }
    ensures counts { OnOk result (counts.new ≡ bump_of counts.old at) }
{
    while counts.len() <= at {
        counts.push(0)?;
    }
    let count = counts.as_slice()[at];
    counts.set(at, count + 1);
    Ok(count)
}

/// Counts the variables of a form whose blocks begin at `depth`.
#[cycle(count)]
pub(crate) fn count(form: &LevelForm, depth: usize, sizes: &mut Items<u32>) -> Result<(), Memory>
    requires { HasRoom (shape_of form.now) depth sizes.old }
    ensures { OnOk result (sizes.new ≡ taken (shape_of form.now) depth sizes.old) }
{
    match form {
        LevelForm::Lit(_) => Ok(()),
        LevelForm::And(parts) => count_all(parts.as_slice(), depth, sizes),
        LevelForm::Or(parts) => count_all(parts.as_slice(), depth, sizes),
        LevelForm::Forall(inner) => {
            bump(sizes, depth + 1)?;
            let below = under_all(inner.get(), depth);
            count(inner.get(), below, sizes)
        }
        LevelForm::Exists(inner) => {
            bump(sizes, depth)?;
            count(inner.get(), depth, sizes)
        }
    }
}

/// Counts the variables of the parts, from left to right.
#[cycle(count)]
fn count_all(parts: &[LevelForm], depth: usize, sizes: &mut Items<u32>) -> Result<(), Memory>
    requires { HaveRoom (shapes_of parts.now) depth sizes.old }
    ensures { OnOk result (sizes.new ≡ taken_parts (shapes_of parts.now) depth sizes.old) }
{
    for part in parts {
        count(part, depth, sizes)?;
    }
    Ok(())
}
