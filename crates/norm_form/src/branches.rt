//! The cases of a term: `ite`, `abs`, `div` and `mod` taken out of it, and the linear form of each case.

ghost use Rattle.std.specs.Prelude.{◌≡◌, ◌∷◌, [], ℕ, List, Option, IfOk};
ghost use Rattle.lin_form.specs.Lin.{Lin};
ghost use Rattle.lin_form.specs.Outcome.{Formed};
ghost use Rattle.norm_form.specs.Cap.{capped_maker};
ghost use Rattle.norm_form.specs.Cases.{run, run_back, AreBack, AreCases, AreTurned, AreTurnedBack};
ghost use Rattle.norm_form.specs.declared.branches.Case.{Case as CaseTree};
ghost use Rattle.norm_form.specs.Normal.{Normal as NormalTree};
ghost use Rattle.norm_form.specs.declared.branches.Case.TheVariants as cases;

use crate::normal::LevelForm;
use lin_form::{FormFault, LinForm};
use lin_term::Memory;
use sqlite_items::Items;
use std::alloc::Global;

/// Levels stay below this number: a prefix has at most 1,024 variables.
pub(crate) const LEVELS: u32 = 1_048_576;

/// A node of the cases of a term. They stand in preorder.
#[derive(Drop)]
pub(crate) enum Case {
    /// A linear form, and the number of binders around it.
    Form(u32, LinForm),
    /// A choice between the next two: a test and its negation.
    Choice(LevelForm, LevelForm),
    /// A quotient between two bounds, around the next.
    Quotient(LevelForm, LevelForm),
}

/// The cases in reversed order.
fn flipped(alloc: Global, cases: Items<Case>) -> Result<Items<Case>, Memory>
    ensures forth { IfOk result (λ all. (k : ℕ → Lin → Option NormalTree) (rs : List (Option NormalTree)) → run all k rs ≡ run_back cases k rs) }
    ensures back { IfOk result (λ all. (k : ℕ → Lin → Option NormalTree) (rs : List (Option NormalTree)) → run_back all k rs ≡ run cases k rs) }
{
    let mut todo = cases;
    let mut all = Items::new(alloc);
    while let Some(case) = todo.pop() {
        all.push(case)?;
    }
    Ok(all)
}

/// The cases in preorder, where they were worked out in reversed order.
pub(crate) fn righted(
    alloc: Global,
    back: Result<Items<Case>, FormFault>,
) -> Result<Items<Case>, FormFault>
    ensures { (f : (ℕ → Lin → Option NormalTree) → ℕ → Lin → Option NormalTree) (cs : List CaseTree) → AreTurnedBack f cs back → AreTurned f cs result }
{
    match back {
        Ok(back) => Ok(flipped(alloc, back)?),
        Err(fault) => Err(fault),
    }
}

/// The cases in reversed order, where they were worked out in preorder.
pub(crate) fn turned_round(
    alloc: Global,
    cases: Result<Items<Case>, FormFault>,
) -> Result<Items<Case>, FormFault>
    ensures { (g : (ℕ → Lin → Option NormalTree) → Option NormalTree) → AreCases g cases → AreBack g result }
{
    match cases {
        Ok(cases) => Ok(flipped(alloc, cases)?),
        Err(fault) => Err(fault),
    }
}

/// The level of the first form; 0 where there is none. All forms of a term stand at one level.
pub(crate) fn level_in(cases: &[Case]) -> u32 {
    for case in cases {
        if let Case::Form(level, _) = case {
            return *level;
        }
    }
    0
}

/// The same of cases that were worked out; 0 where there are none.
pub(crate) fn level_of_worked(cases: &Result<Items<Case>, FormFault>) -> u32 {
    match cases {
        Ok(cases) => level_in(cases.as_slice()),
        Err(_) => 0,
    }
}

/// The cases of one form that was worked out.
pub(crate) fn leaf_cases(
    alloc: Global,
    level: u32,
    form: Result<LinForm, FormFault>,
) -> Result<Items<Case>, FormFault>
    ensures { (xs : List Lin) (v : Lin) → Formed xs v form → AreCases (λ k. capped_maker.formed xs (k level v)) result }
{
    match form {
        Ok(form) => Ok(one(alloc, level, form)?),
        Err(fault) => Err(fault),
    }
}

/// One form.
pub(crate) fn one(alloc: Global, level: u32, form: LinForm) -> Result<Items<Case>, Memory>
    ensures { IfOk result (λ all. all ≡ cases.Form level form ∷ []) }
{
    let mut all = Items::new(alloc);
    all.push(Case::Form(level, form))?;
    Ok(all)
}

/// An equal choice.
pub(crate) fn kept_choice(
    alloc: Global,
    test: &LevelForm,
    untest: &LevelForm,
) -> Result<Items<Case>, Memory>
    ensures { IfOk result (λ all. all ≡ cases.Choice test.now untest.now ∷ []) }
{
    let mut all = Items::new(alloc);
    all.push(Case::Choice(test.copy(alloc)?, untest.copy(alloc)?))?;
    Ok(all)
}

/// An equal quotient.
pub(crate) fn kept_quotient(
    alloc: Global,
    low: &LevelForm,
    high: &LevelForm,
) -> Result<Items<Case>, Memory>
    ensures { IfOk result (λ all. all ≡ cases.Quotient low.now high.now ∷ []) }
{
    let mut all = Items::new(alloc);
    all.push(Case::Quotient(low.copy(alloc)?, high.copy(alloc)?))?;
    Ok(all)
}
