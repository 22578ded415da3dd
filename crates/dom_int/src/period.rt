//! The period of a cube's divisibilities: they hold at a number exactly where they hold a period further on.

ghost use Rattle.std.specs.Prelude.{◌≡◌, ◌≤◌, ◌^◌, pos, map, IfOk};
ghost use Rattle.lin_term.specs.declared.Sort.TheVariants.{Int};
ghost use Rattle.lin_term.specs.Form.{cap};
ghost use Rattle.lin_term.specs.Primable.{IsPrimable};
ghost use Rattle.dom_core.specs.Cube.{IsPrimitiveCube};
ghost use Rattle.dom_core.specs.Elimination.{next_delta, partial_deltas, delta};
ghost use Rattle.dom_int.specs.Counts.{delta_after};
ghost use Rattle.lin_term.specs.Wide.{CappedWide};

use lin_term::{CAP, Lit, Wide, coefficient_at, gcd_of_words};

/// The least common multiple of n and d / gcd(d, b).
fn next_period(n: u64, d: u64, b: i64) -> u128
    requires n_least { 1 ≤ n }
    requires n_kept { n ≤ cap }
    requires d_least { 1 ≤ d }
    requires d_kept { d ≤ cap }
    ensures value { result ≡ next_delta n d b }
    ensures size { result ≤ 2 ^ 104 }
{
    let m = d / gcd_of_words(d, b.unsigned_abs());
    let more = m / gcd_of_words(n, m);
    u128::from(n) * u128::from(more)
}

/// The period once one more literal is met.
fn period_after(n: u64, lit: &Lit, var: u32) -> u128
    requires n_least { 1 ≤ n }
    requires n_kept { n ≤ cap }
    requires kept { IsPrimable Int lit.now }
    ensures value { result ≡ delta_after var n lit.now }
    ensures size { result ≤ 2 ^ 104 }
{
    match lit {
        Lit::AtLeast(_) | Lit::Above(_) => u128::from(n),
        Lit::Divides(d, row) => next_period(n, *d, coefficient_at(row, var)),
        Lit::NotDivides(d, row) => next_period(n, *d, coefficient_at(row, var)),
    }
}

/// The period, or the first of those of the first literals that is past the cap.
pub(crate) fn period(cube: &[Lit], var: u32) -> Result<u64, Wide>
    requires { IsPrimitiveCube Int cube.now }
    ensures value { CappedWide (map pos (partial_deltas 1 cube.now var)) (delta cube.now var) result }
    ensures size { IfOk result (λ n. n ≤ cap) }
{
    let mut n: u64 = 1;
    for lit in cube {
        let next = period_after(n, lit, var);
        if next > CAP as u128 {
            return Err(Wide {
                number: next as i128,
            });
        }
        n = next as u64;
    }
    Ok(n)
}
