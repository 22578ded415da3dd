//! The literals of a matrix by which it is true at a point.

ghost use Rattle.std.specs.Prelude.{◌≡◌, ◌≤◌, ◌∷◌, true, [], IfOk, length, take};
ghost use Rattle.dom_core.specs.Game.{lit as lit_of};
ghost use Rattle.dom_core.specs.View.{matrix_of, matrices_of};
ghost use Rattle.game_play.specs.Course.{IsOver, AreOver};
ghost use Rattle.term_select.specs.Guided.{true_at, all_true, some_true, implicant as implicant_of};
ghost use Rattle.term_select.specs.Gathered.{Gathers, literals, all_literals, some_literals};

use dom_core::{Cube, Matrix, add_new};
use lin_term::{Lit, Memory, Point, literal_holds};
use sqlite_items::Items;
use std::alloc::Global;

/// Takes literals off the end until so many are left.
fn cut(lits: &mut Items<Lit>, left: usize)
    requires { left ≤ length lits.old }
    ensures { lits.new ≡ take left lits.old }
{
    while lits.len() > left {
        let _ = lits.pop();
    }
}

/// Adds the literal where it holds.
fn gather_literal(
    alloc: Global,
    lit: &Lit,
    point: &Point,
    out: &mut Items<Lit>,
) -> Result<bool, Memory>
    requires { IsOver (lit_of lit.now) (length point.now.nums) }
    ensures truth { IfOk result (λ b. b ≡ true_at (lit_of lit.now) point.now) }
    ensures found { IfOk result (λ b. Gathers b out.old out.new (lit.now ∷ [])) }
{
    if !literal_holds(lit, point) {
        return Ok(false);
    }
    let copy = lit.copy(alloc)?;
    out.push(copy)?;
    Ok(true)
}

/// Whether the matrix is true at the point. Where it is, the literals by which it is are added: of an And those of all
/// children in order, of an Or those of the first child that is true. Else some literals may have been added. Each literal
/// is tested at most once. It calls itself once a level of the matrix, and refuses only for memory.
#[cycle(gather)]
fn gather(
    alloc: Global,
    matrix: &Matrix,
    point: &Point,
    out: &mut Items<Lit>,
) -> Result<bool, Memory>
    requires { IsOver (matrix_of matrix.now) (length point.now.nums) }
    ensures truth { IfOk result (λ b. b ≡ true_at (matrix_of matrix.now) point.now) }
    ensures found { IfOk result (λ b. Gathers b out.old out.new (literals (matrix_of matrix.now) point.now)) }
{
    match matrix {
        Matrix::Lit(lit) => gather_literal(alloc, lit, point, out),
        Matrix::And(parts) => gather_all(alloc, parts.as_slice(), point, out),
        Matrix::Or(parts) => gather_first(alloc, parts.as_slice(), point, out),
    }
}

/// The same of all parts.
#[cycle(gather)]
fn gather_all(
    alloc: Global,
    parts: &[Matrix],
    point: &Point,
    out: &mut Items<Lit>,
) -> Result<bool, Memory>
    requires { AreOver (matrices_of parts.now) (length point.now.nums) }
    ensures truth { IfOk result (λ b. b ≡ all_true (matrices_of parts.now) point.now) }
    ensures found { IfOk result (λ b. Gathers b out.old out.new (all_literals (matrices_of parts.now) point.now)) }
{
    for part in parts {
        let one = gather(alloc, part, point, out)?;
        if !one {
            return Ok(false);
        }
    }
    Ok(true)
}

/// The same of the first part that is true.
#[cycle(gather)]
fn gather_first(
    alloc: Global,
    parts: &[Matrix],
    point: &Point,
    out: &mut Items<Lit>,
) -> Result<bool, Memory>
    requires { AreOver (matrices_of parts.now) (length point.now.nums) }
    ensures truth { IfOk result (λ b. b ≡ some_true (matrices_of parts.now) point.now) }
    ensures found { IfOk result (λ b. Gathers b out.old out.new (some_literals (matrices_of parts.now) point.now)) }
{
    let before = out.len();
    for part in parts {
        let one = gather(alloc, part, point, out)?;
        if one {
            return Ok(true);
        }
        cut(out, before);
    }
    Ok(false)
}

/// The implicant of a matrix that is true at the point: literals of it that hold there and make it true wherever they hold,
/// each once. It refuses only for memory.
pub fn implicant(alloc: Global, matrix: &Matrix, point: &Point) -> Result<Cube, Memory>
    requires over { IsOver (matrix_of matrix.now) (length point.now.nums) }
    requires holds { true_at (matrix_of matrix.now) point.now ≡ true }
    ensures { IfOk result (λ c. c ≡ implicant_of (matrix_of matrix.now) point.now) }
{
    let mut found = Items::new(alloc);
    let _ = gather(alloc, matrix, point, &mut found)?;
    let lits = add_new(alloc, Items::new(alloc), found)?;
    Ok(Cube::from_lits(lits))
}
