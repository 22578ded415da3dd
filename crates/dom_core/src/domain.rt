//! What rationals and integers have in common.

use crate::cube::Cube;
use lin_term::{Defined, Memory, Move, Point, Short, Sort, Wide};
use sqlite_items::Items;
use std::alloc::Global;

/// The values that variables take.
pub trait Domain {
    ghost use Rattle.std.specs.Prelude.{ℕ, suc, ◌≤◌, ◌<◌, ◌≡◌, ◌↔◌, false, List, length, IfOk};
    ghost use Rattle.lin_term.specs.declared.Sort.{Sort};
    ghost use Rattle.lin_term.specs.declared.Lit.{Lit};
    ghost use Rattle.lin_term.specs.Linear.{Point as a_point, Value, IsPoint, IsValue, Below, extend};
    ghost use Rattle.lin_term.specs.Literal.{Holds};
    ghost use Rattle.lin_term.specs.Move.{Move as a_move, IsMove, move_value};
    ghost use Rattle.lin_term.specs.Definition.{rename_move, upper_literal, lower_literal, IsKeptMove};
    ghost use Rattle.lin_term.specs.PutIn.{occurs};
    ghost use Rattle.lin_term.specs.Rising.{IsDefinable};
    ghost use Rattle.lin_term.specs.Fixing.{HasValue, at_names};
    ghost use Rattle.lin_term.specs.Wide.{Capped};
    ghost use Rattle.dom_core.specs.Cube.{assign, CubeHolds, SomeHolds, IsCube, IsPrimitiveCube, HasSolution};
    ghost use Rattle.dom_core.specs.Elimination.{eliminated, elimination_numbers};
    ghost use Rattle.dom_core.specs.Pick.{pick, pick_numbers, played};
    ghost use Rattle.dom_core.specs.PutMove.{put_in, put_in_numbers};
    ghost use Rattle.dom_core.specs.Reduced.{AreBelow, IsReduced};
    ghost use Rattle.std.specs.List.{AllByRecursion};

    /// The sort of the variables.
    const SORT: Sort;

    ghost SORT: { Sort };

    /// The two literals that fix a move's value at a node, in primitive form, with `names[i]` for variable i of the move.
    /// The names ascend and are below the node, which is below 2^20; the move's variables are below their count, and the
    /// move is in lowest form and with its definition within the cap. It refuses only for memory.
    fn definition(alloc: Global, term: &Move, node: u32, names: &[u32]) -> Result<Defined, Memory>
        requires { IsDefinable SORT term.now names.now node }
        ensures upper { IfOk result (λ d. d.upper ≡ upper_literal SORT (rename_move names.now term.now) node) }
        ensures lower { IfOk result (λ d. d.lower ≡ lower_literal SORT (rename_move names.now term.now) node) };

    /// The cubes of which one has a solution exactly where the cube has one, without the variable: over the rationals one,
    /// by Fourier and Motzkin; over the integers the cases of Cooper 1972. The literals of the cube are primitive, and a
    /// modulus is in `1..=CAP`; so it is with those of each result, and their variables are below the same number. Wide
    /// names the first number of the elimination past the cap; where there is none, it refuses only for memory.
    fn eliminate(alloc: Global, cube: &Cube, var: u32) -> Result<Items<Cube>, Short<Wide>>
        requires { IsPrimitiveCube SORT cube.now }
        ensures value { Capped (elimination_numbers SORT cube.now var) (eliminated SORT cube.now var) result }
        ensures reduced { IfOk result (λ cs. (n : ℕ) → AreBelow n cube.now → AllByRecursion (IsReduced SORT n var) cs) };

    /// The move that the cube asks of the variable at a point: between its greatest lower and its least upper bound there.
    /// The literals of the cube are primitive, a modulus is in `1..=CAP`, and the point has a value for the variable and
    /// for those of the cube. The move does not have the variable. Wide names the first number past the cap: over the
    /// integers a partial period of the divisibilities, then one of the move, in the order of `Move::make`; where there
    /// is none, it refuses only for memory.
    fn pick(alloc: Global, cube: &Cube, var: u32, point: &Point) -> Result<Move, Short<Wide>>
        requires primitive { IsPrimitiveCube SORT cube.now }
        requires covers { AreBelow (length point.now.nums) cube.now }
        requires valued { var < length point.now.nums }
        ensures value { Capped (pick_numbers SORT var cube.now point.now) (pick SORT var cube.now point.now) result }
        ensures written { IfOk result IsMove }
        ensures kept { IfOk result (λ m. IsKeptMove SORT m) }
        ensures without { IfOk result (λ m. occurs m.numer.terms var ≡ false) }
        ensures earlier { IfOk result (λ m. AreBelow (suc var) cube.now → Below var m.numer) };

    /// The cube with the move in place of the variable, each literal once. Over the integers the residue of the move's
    /// numerator at the point is taken from it, and that the division comes out even is the last literal. The literals of
    /// the cube are primitive, a modulus is in `1..=CAP`, and the point has a value for each variable of the move, which
    /// does not have `var`; so it is with those of the result. Wide names the first number of the result past the cap, in
    /// the order of its literals; where there is none, it refuses only for memory.
    fn put_in(
        alloc: Global,
        cube: &Cube,
        var: u32,
        term: &Move,
        point: &Point,
    ) -> Result<Cube, Short<Wide>>
        requires primitive { IsPrimitiveCube SORT cube.now }
        requires covers { Below (length point.now.nums) term.now.numer }
        requires without { occurs term.now.numer.terms var ≡ false }
        ensures value { Capped (put_in_numbers SORT var term.now point.now cube.now) (put_in SORT var term.now point.now cube.now) result }
        ensures reduced { IfOk result (λ c. (n : ℕ) → AreBelow n cube.now → Below n term.now.numer → IsReduced SORT n var c) }
        ensures last { IfOk result (λ c. AreBelow (suc var) cube.now → Below var term.now.numer → IsReduced SORT var var c) };

    ghost fixes: { (m : a_move) (names : List ℕ) (v : ℕ) (p : a_point) → IsPoint SORT p → 1 ≤ m.div → Below (length names) m.numer → (Holds (upper_literal SORT (rename_move names m) v) p × Holds (lower_literal SORT (rename_move names m) v) p) ↔ HasValue p v (move_value SORT m (at_names names p)) };

    ghost covers: { (c : List Lit) (x : ℕ) (p : a_point) (v : Value) → IsPoint SORT p → IsValue SORT v → IsCube SORT c → CubeHolds c (assign p x v) → SomeHolds (eliminated SORT c x) p };

    ghost solves: { (c : List Lit) (x : ℕ) (p : a_point) → IsPoint SORT p → IsCube SORT c → SomeHolds (eliminated SORT c x) p → HasSolution SORT c x p };

    ghost keeps: { (c : List Lit) (x : ℕ) (p : a_point) (v : Value) → IsPoint SORT p → IsValue SORT v → length p.nums ≡ x → IsCube SORT c → CubeHolds c (extend p v) → CubeHolds c (played SORT (pick SORT x c (extend p v)) p) };

    ghost puts: { (c : List Lit) (x : ℕ) (m : a_move) (e p : a_point) → IsPoint SORT p → length p.nums ≡ x → 1 ≤ m.div → CubeHolds (put_in SORT x m e c) p → CubeHolds c (played SORT m p) };

    ghost puts_back: { (c : List Lit) (x : ℕ) (m : a_move) (p : a_point) → IsPoint SORT p → length p.nums ≡ x → 1 ≤ m.div → CubeHolds c (played SORT m p) → CubeHolds (put_in SORT x m p c) p };
}
