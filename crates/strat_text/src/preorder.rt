//! Trees in preorder, along the turns.

ghost use Rattle.std.specs.Prelude.{◌≡◌, ◌≤◌, ◌+◌, [], length};
ghost use Rattle.strat_words.specs.Spot.{Gives};
ghost use Rattle.strat_words.specs.View.{spot};
ghost use Rattle.strat_text.specs.Tree as spec;

use crate::moves::move_line;
use game_tree::{Branch, Tree};
use sqlite_items::{Boxed, Items};
use std::alloc::Global;
use std::collections::BTreeSet;
use strat_words::{Cursor, FileFault, count, ends, first_is};

/// The tree along the turns from the position on.
#[cycle(preorder)]
#[tactic(auto, unfolding(crate::specs::Tree::tree))]
pub fn tree<'a>(
    alloc: Global,
    at: Cursor<'a>,
    turns: &[bool],
    pos: u32,
) -> Result<(Tree, Cursor<'a>), FileFault>
    requires { pos + length turns.now ≤ 1024 }
    ensures { Gives (λ x. (x.0, spot x.1)) result (spec.tree turns.now pos (spot at.entry)) }
{
    match turns {
        [] => Ok((Tree::End, at)),
        [true, rest @ ..] => {
            let after = first_is(at, b"o")?;
            let (n, after) = count(after, 1)?;
            let after = ends(after)?;
            let (all, after) = branches(alloc, after, rest, pos, n)?;
            Ok((Tree::Mine(all), after))
        }
        [false, rest @ ..] => {
            let after = first_is(at, b"t")?;
            let after = ends(after)?;
            let (below, after) = tree(alloc, after, rest, pos + 1)?;
            Ok((Tree::Theirs(Boxed::new(alloc, below)?), after))
        }
    }
}

#[cycle(preorder)]
fn branches<'a>(
    alloc: Global,
    at: Cursor<'a>,
    turns: &[bool],
    pos: u32,
    count: u64,
) -> Result<(Items<Branch>, Cursor<'a>), FileFault>
    requires { pos + 1 + length turns.now ≤ 1024 }
    ensures { Gives (λ x. (x.0, spot x.1)) result (spec.branches (spec.tree turns.now (pos + 1)) pos count [] (spot at.entry)) }
{
    let mut seen = BTreeSet::new(alloc);
    let mut all = Items::new(alloc);
    let mut place = at;
    for _ in 0..count {
        let (term, after) = move_line(alloc, place, pos, &mut seen)?;
        let (rest, after) = tree(alloc, after, turns, pos + 1)?;
        all.push(Branch { term, rest })?;
        place = after;
    }
    Ok((all, place))
}
