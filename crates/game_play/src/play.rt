//! The play from left to right, moves in order, up to the first that decides.

ghost use Rattle.std.specs.Prelude.{◌≡◌, ◌↔◌, ◌+◌, ◌∷◌, [], suc, List, ℤ, Bool, IsTrue, IfOk, OnOk, length};
ghost use Rattle.lin_term.specs.declared.Sort.{Sort};
ghost use Rattle.lin_term.specs.Wide.{Capped, CappedWide};
ghost use Rattle.dom_core.specs.Game.{dual, flip_all};
ghost use Rattle.dom_core.specs.Problem.{problem_of};
ghost use Rattle.dom_core.specs.View.{matrix_of};
ghost use Rattle.game_tree.specs.Skeleton.{IsMoveAt, Follows, EachFollows};
ghost use Rattle.game_tree.specs.View.{skeleton_of, branches_of};
ghost use Rattle.game_play.specs.Beats.{Beats};
ghost use Rattle.game_play.specs.Worth.{move_steps};
ghost use Rattle.game_play.specs.Course.{IsOver, after};
ghost use Rattle.game_play.specs.Play.{play, first_branch, every_branch, with_move, played_out};

use crate::holding::holds;
use crate::worth::move_value;
use dom_core::{Domain, Matrix, Problem, Quant};
use game_tree::{Branch, Skeleton, Tree};
use lin_term::{Fraction, Move, Short, Sort, Wide};
use sqlite_items::Items;
use std::alloc::Global;

/// Whether `own`, a skeleton of the problem's Exists, beats `other`, one of its dual's, played with actual values: from
/// left to right, moves in order, up to the first move that decides; at the end the matrix is tested from left to right up
/// to the part that decides. The values are in lowest terms, and that of a row is worked out from the constant on, one
/// variable after the other: the product, then the sum so far; the division by a move's divisor comes last. Wide comes
/// exactly where one of these has a number past the cap, and names the first, a numerator before its denominator; where
/// there is none, it refuses only for memory. It keeps one value a variable.
pub fn beats<D: Domain>(
    alloc: Global,
    problem: &Problem<D>,
    own: &Skeleton<D>,
    other: &Skeleton<D>,
) -> Result<bool, Short<Wide>>
    requires own { own.now.prefix ≡ problem.now.prefix }
    requires other { other.now.prefix ≡ flip_all problem.now.prefix }
    ensures value { let c = played_out D.SORT (problem_of problem.now) (skeleton_of own.now.tree) (skeleton_of other.now.tree) in Capped c.numbers c.wins result }
    ensures beats { IfOk result (λ b. IsTrue b ↔ Beats D.SORT (problem_of problem.now) (skeleton_of own.now.tree) (skeleton_of other.now.tree)) }
    // Of the two exactly one beats the other, each as Exists of its own problem.
    ensures one { IfOk result (λ b. IsTrue b ↔ (¬ Beats D.SORT (dual D.SORT (problem_of problem.now)) (skeleton_of other.now.tree) (skeleton_of own.now.tree))) }
{
    let mut values = Items::new(alloc);
    wins(
        D::SORT,
        problem.prefix(),
        problem.matrix(),
        own.tree(),
        other.tree(),
        &mut values,
    )
}

/// Whether the owner of `own` wins from these values on. The values are afterwards as before.
#[cycle(wins)]
fn wins(
    sort: Sort,
    prefix: &[Quant],
    matrix: &Matrix,
    own: &Tree,
    other: &Tree,
    values: &mut Items<Fraction>,
) -> Result<bool, Short<Wide>>
    requires matrix { IsOver (matrix_of matrix.now) (length values.old + length prefix.now) }
    requires own { Follows (skeleton_of own.now) sort prefix.now (length values.old) }
    requires other { Follows (skeleton_of other.now) sort (flip_all prefix.now) (length values.old) }
    ensures value { let c = play prefix.now sort (matrix_of matrix.now) (skeleton_of own.now) (skeleton_of other.now) values.old in Capped c.numbers c.wins result }
    ensures back { OnOk result (values.new ≡ values.old) }
{
    match prefix {
        [] => without_memory(holds(matrix, values.as_slice())),
        [quant, rest @ ..] => turn(sort, *quant, rest, matrix, own, other, values),
    }
}

/// The same where this player chooses next. A tree of another form does not win.
#[cycle(wins)]
fn turn(
    sort: Sort,
    quant: Quant,
    rest: &[Quant],
    matrix: &Matrix,
    own: &Tree,
    other: &Tree,
    values: &mut Items<Fraction>,
) -> Result<bool, Short<Wide>>
    requires matrix { IsOver (matrix_of matrix.now) (length values.old + (1 + length rest.now)) }
    requires own { Follows (skeleton_of own.now) sort (quant ∷ rest.now) (length values.old) }
    requires other { Follows (skeleton_of other.now) sort (flip_all (quant ∷ rest.now)) (length values.old) }
    ensures value { let c = play (quant ∷ rest.now) sort (matrix_of matrix.now) (skeleton_of own.now) (skeleton_of other.now) values.old in Capped c.numbers c.wins result }
    ensures back { OnOk result (values.new ≡ values.old) }
{
    match quant {
        Quant::Exists => match own {
            Tree::Mine(branches) => match other {
                Tree::Theirs(below) => {
                    some_wins(sort, rest, matrix, branches.as_slice(), below.get(), values)
                }
                _ => Ok(false),
            },
            _ => Ok(false),
        },
        Quant::Forall => match own {
            Tree::Theirs(below) => match other {
                Tree::Mine(branches) => {
                    each_wins(sort, rest, matrix, below.get(), branches.as_slice(), values)
                }
                _ => Ok(false),
            },
            _ => Ok(false),
        },
    }
}

/// Whether one of the moves wins, up to the first that does.
#[cycle(wins)]
fn some_wins(
    sort: Sort,
    rest: &[Quant],
    matrix: &Matrix,
    branches: &[Branch],
    other: &Tree,
    values: &mut Items<Fraction>,
) -> Result<bool, Short<Wide>>
    requires matrix { IsOver (matrix_of matrix.now) (length values.old + (1 + length rest.now)) }
    requires own { EachFollows (branches_of branches.now) sort rest.now (length values.old) }
    requires other { Follows (skeleton_of other.now) sort (flip_all rest.now) (suc (length values.old)) }
    ensures value { let c = first_branch (branches_of branches.now) (λ m S. after (move_steps sort m values.old) (play rest.now sort (matrix_of matrix.now) S (skeleton_of other.now) (with_move sort m values.old))) in Capped c.numbers c.wins result }
    ensures back { OnOk result (values.new ≡ values.old) }
{
    for branch in branches {
        let one = match wins_with(
            sort,
            rest,
            matrix,
            &branch.term,
            &branch.rest,
            other,
            values,
        ) {
            Ok(one) => one,
            Err(fault) => return Err(fault),
        };
        if one {
            return Ok(true);
        }
    }
    Ok(false)
}

/// Whether each of the other player's moves leaves a win, up to the first that does not.
#[cycle(wins)]
fn each_wins(
    sort: Sort,
    rest: &[Quant],
    matrix: &Matrix,
    own: &Tree,
    branches: &[Branch],
    values: &mut Items<Fraction>,
) -> Result<bool, Short<Wide>>
    requires matrix { IsOver (matrix_of matrix.now) (length values.old + (1 + length rest.now)) }
    requires own { Follows (skeleton_of own.now) sort rest.now (suc (length values.old)) }
    requires other { EachFollows (branches_of branches.now) sort (flip_all rest.now) (length values.old) }
    ensures value { let c = every_branch (branches_of branches.now) (λ m U. after (move_steps sort m values.old) (play rest.now sort (matrix_of matrix.now) (skeleton_of own.now) U (with_move sort m values.old))) in Capped c.numbers c.wins result }
    ensures back { OnOk result (values.new ≡ values.old) }
{
    for branch in branches {
        let one = match wins_with(sort, rest, matrix, &branch.term, own, &branch.rest, values) {
            Ok(one) => one,
            Err(fault) => return Err(fault),
        };
        if !one {
            return Ok(false);
        }
    }
    Ok(true)
}

/// Whether the owner of `own` wins once this move is played, by either player.
#[cycle(wins)]
fn wins_with(
    sort: Sort,
    rest: &[Quant],
    matrix: &Matrix,
    term: &Move,
    own: &Tree,
    other: &Tree,
    values: &mut Items<Fraction>,
) -> Result<bool, Short<Wide>>
    requires matrix { IsOver (matrix_of matrix.now) (length values.old + (1 + length rest.now)) }
    requires earlier { IsMoveAt sort (length values.old) term.now }
    requires own { Follows (skeleton_of own.now) sort rest.now (suc (length values.old)) }
    requires other { Follows (skeleton_of other.now) sort (flip_all rest.now) (suc (length values.old)) }
    ensures value { let c = after (move_steps sort term.now values.old) (play rest.now sort (matrix_of matrix.now) (skeleton_of own.now) (skeleton_of other.now) (with_move sort term.now values.old)) in Capped c.numbers c.wins result }
    ensures back { OnOk result (values.new ≡ values.old) }
{
    let value = match move_value(sort, term, values.as_slice()) {
        Ok(value) => value,
        Err(wide) => return Err(Short::Fault(wide)),
    };
    values.push(value)?;
    let won = match wins(sort, rest, matrix, own, other, values) {
        Ok(won) => won,
        Err(fault) => return Err(fault),
    };
    let _ = values.pop();
    Ok(won)
}

/// The answer of a call that takes no memory.
fn without_memory(answer: Result<bool, Wide>) -> Result<bool, Short<Wide>>
    ensures { (numbers : List ℤ) (b : Bool) → CappedWide numbers b answer → Capped numbers b result }
{
    match answer {
        Ok(holds) => Ok(holds),
        Err(wide) => Err(Short::Fault(wide)),
    }
}
