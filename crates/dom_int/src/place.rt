//! Which lower literal a case belongs to.

ghost use Rattle.std.specs.Prelude.{◌≡◌, ◌<◌, ◌≤◌, [], length};
ghost use Rattle.lin_term.specs.Form.{cap};
ghost use Rattle.dom_core.specs.Elimination.{lower_cases};
ghost use Rattle.dom_int.specs.Place.{IsPlace};

use crate::count::count_of;
use lin_term::Lit;

/// The place of the lower literal whose case this is, and the number k of the case among those of the literal.
pub(crate) fn place_of(cube: &[Lit], var: u32, n: u64, index: u64) -> (usize, u64)
    requires n_kept { n ≤ cap }
    requires within { index < length (lower_cases var n [] cube.now) }
    ensures place { IsPlace var n cube.now index result.0 result.1 }
    ensures small { result.1 ≤ index }
{
    let mut place = 0;
    let mut rest = index;
    for lit in cube {
        let count = count_of(lit, var, n);
        if u128::from(rest) < count {
            return (place, rest);
        }
        rest -= count as u64;
        place += 1;
    }
    (place, rest)
}
