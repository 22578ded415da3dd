//! The problem that is made by itself.

ghost use Rattle.std.specs.Prelude.{◌≡◌, ◌≤◌, ◌<◌, ◌++◌, IfOk, OnOk, replicate};
ghost use Rattle.std.specs.List.{range_with_len};
ghost use Rattle.dom_core.specs.declared.Quant.TheVariants.{Exists, Forall};
ghost use Rattle.dom_core.specs.View.{matrix_of, matrices_of};
ghost use Rattle.dom_core.specs.Problem.{problem_of};
ghost use Rattle.solve_texts.specs.Generated.{less_pair as less_pair_of, less_pairs as less_pairs_of, conjunction, generated as generated_of};

use dom_core::{Matrix, Problem, Quant};
use dom_rat::Rat;
use lin_term::{Lit, Memory, Row};
use sqlite_items::Items;
use std::alloc::{AllocError, Global};

/// x_i < y_i, where y_i is n variables behind x_i; refuses only for memory.
#[tactic(auto, using(crate::proofs::Making::pair_seen))]
fn less_pair(alloc: Global, n: u32, i: u32) -> Result<Matrix, Memory>
    requires few { n ≤ 512 }
    requires below { i < n }
    ensures { IfOk result (λ m. matrix_of m ≡ less_pair_of n i) }
{
    let row = Row::constant(alloc, 0).with(i, -1)?.with(i + n, 1)?;
    Ok(Matrix::Lit(Lit::Above(row)))
}

#[tactic(auto, using(crate::proofs::Making::pairs_more))]
fn less_pairs(alloc: Global, n: u32) -> Result<Items<Matrix>, Memory>
    requires { n ≤ 512 }
    ensures { IfOk result (λ ms. matrices_of ms ≡ less_pairs_of n (range_with_len 0 n)) }
{
    let mut all = Items::new(alloc);
    for i in 0..n {
        let one = less_pair(alloc, n, i)?;
        all.push(one)?;
    }
    Ok(all)
}

/// The conjunction of all; one alone stands for itself.
#[tactic(auto, using(crate::proofs::Making::one_alone, crate::proofs::Making::all_seen))]
fn conjoined(alloc: Global, n: u32) -> Result<Matrix, Memory>
    requires { n ≤ 512 }
    ensures { IfOk result (λ m. matrix_of m ≡ conjunction (less_pairs_of n (range_with_len 0 n))) }
{
    if n == 1 {
        return less_pair(alloc, 1, 0);
    }
    let all = less_pairs(alloc, n)?;
    Ok(Matrix::And(all))
}

/// The quantifier, n times more.
fn push_all(prefix: &mut Items<Quant>, quant: Quant, n: u32) -> Result<(), AllocError>
    ensures { OnOk result (prefix.new ≡ prefix.old ++ replicate n quant) }
{
    for _ in 0..n {
        prefix.push(quant)?;
    }
    Ok(())
}

/// The n variables of Forall before the n of Exists.
pub fn made_prefix(alloc: Global, n: u32) -> Result<Items<Quant>, AllocError>
    ensures { IfOk result (λ qs. qs ≡ replicate n Forall ++ replicate n Exists) }
{
    let mut prefix = Items::new(alloc);
    push_all(&mut prefix, Quant::Forall, n)?;
    push_all(&mut prefix, Quant::Exists, n)?;
    Ok(prefix)
}

/// The problem of this size, at most 512: for each x_1 to x_n there are y_1 to y_n with x_i < y_i for each i. A conjunction of
/// one is that one. It refuses only for memory.
#[tactic(auto, using(crate::proofs::Making::made_is))]
pub fn generated(alloc: Global, n: u32) -> Result<Problem<Rat>, Memory>
    requires { n ≤ 512 }
    ensures { IfOk result (λ P. problem_of P ≡ generated_of n) }
{
    let matrix = conjoined(alloc, n)?;
    let prefix = made_prefix(alloc, n)?;
    Ok(Problem::from_parts(prefix, matrix))
}
