//! Prefixes of few changes of player.

ghost use Rattle.std.specs.Prelude.{◌↔◌, ◌≡◌, IsTrue, Some};
ghost use Rattle.dom_core.specs.Problem.{problem_of};
ghost use Rattle.dom_core.specs.declared.Side.{Side};
ghost use Rattle.round_bounds.specs.Bounds.{AreAll, own, HasOnePlayer, HasLastVariable, OneRoundIsEnough, TermsAreEnough};

use dom_core::{Domain, Problem, Quant, Side};

/// Whether each of the variables belongs to this player.
fn are_all(prefix: &[Quant], player: Quant) -> bool
    ensures { IsTrue result ↔ AreAll player prefix.now }
{
    for quant in prefix {
        if *quant != player {
            return false;
        }
    }
    true
}

/// The quantifier of a side's variables.
fn quantifier(side: Side) -> Quant
    ensures { result ≡ own side }
{
    match side {
        Side::Exists => Quant::Exists,
        Side::Forall => Quant::Forall,
    }
}

/// Whether one block of the other player is followed by a single last variable of the side.
fn is_last(prefix: &[Quant], side: Side) -> bool
    ensures { IsTrue result ↔ HasLastVariable prefix.now side }
{
    match prefix {
        [block @ .., last] => *last == quantifier(side) && are_all(block, quantifier(side.other())),
        [] => false,
    }
}

/// Whether all variables of the problem belong to one player. No game of such a problem spends a budget of 1 round or more.
pub fn has_one_player<D: Domain>(problem: &Problem<D>) -> bool
    ensures value { IsTrue result ↔ HasOnePlayer problem.now.prefix }
    ensures bound { IsTrue result → OneRoundIsEnough D.SORT (problem_of problem.now) }
{
    are_all(problem.prefix(), Quant::Exists) || are_all(problem.prefix(), Quant::Forall)
}

/// The player of the last variable, where all variables before it belong to the other player; else none. No game of such a
/// problem spends two rounds for each move that can be selected for the last variable, and one more.
pub fn last_variable<D: Domain>(problem: &Problem<D>) -> Option<Side>
    ensures value { (x : Side) → (result ≡ Some x) ↔ HasLastVariable problem.now.prefix x }
    ensures bound { (x : Side) → result ≡ Some x → TermsAreEnough D.SORT (problem_of problem.now) x }
{
    // What is read of the matrix says that its literals are over the prefix.
    let _kept = problem.matrix();
    if is_last(problem.prefix(), Side::Exists) {
        Some(Side::Exists)
    } else if is_last(problem.prefix(), Side::Forall) {
        Some(Side::Forall)
    } else {
        None
    }
}
