//! What holds of proofs without a system.

ghost use Rattle.std.specs.Prelude.{◌≡◌, ◌≤◌, ◌∷◌, ℕ, Some, List, length};
ghost use Rattle.lin_term.specs.declared.Sort.{Sort};
ghost use Rattle.lin_term.specs.declared.Lit.{Lit};
ghost use Rattle.lin_term.specs.Linear.{Point, IsPoint};
ghost use Rattle.dom_core.specs.Cube.{IsCube, CubeHolds};
ghost use Rattle.cube_rules.specs.declared.step.Step.{Step};
ghost use Rattle.cube_rules.specs.declared.step.Step.TheVariants.{Cube};
ghost use Rattle.cube_rules.specs.Bare.{bare_rules, AllowsBare, ClosesBare};
ghost use Rattle.cube_rules.specs.Closing.{Rules, ClosesBy};
ghost use Rattle.cube_rules.specs.Context.{Context};
ghost use Rattle.cube_rules.specs.Facts.{literals_at};

/// A cube whose bare context is closed by lines holds at no point.
pub fn bare_has_no_point()
    ensures { (s : Sort) (n : ℕ) (cube : List Lit) (steps : List Step) → ClosesBare s n cube steps → IsCube s cube → (p : Point) → IsPoint s p → ¬ CubeHolds cube p }
{}

/// Such lines stand behind a line `cube` that takes the cube from the facts of any context, under any rules that allow
/// each line that needs no system.
pub fn bare_stands_behind_cube()
    ensures { (rules : Rules) (s : Sort) (n : ℕ) (c : Context) (facts : List ℕ) (cube : List Lit) (steps : List Step) → AllowsBare s n rules → literals_at c facts ≡ Some cube → 1 ≤ length facts → ClosesBare s n cube steps → ClosesBy rules c (Cube facts ∷ steps) }
{}

/// A line over n variables is one over more.
pub fn bare_allows_more_variables()
    ensures { (s : Sort) (n m : ℕ) → n ≤ m → AllowsBare s n (bare_rules s m) }
{}
