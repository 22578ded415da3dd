//! That lines found for a cube alone stand in a proof.

ghost use Rattle.std.specs.Prelude.{◌≤◌, ℕ};
ghost use Rattle.lin_term.specs.declared.Sort.{Sort};
ghost use Rattle.dom_core.specs.Game.{Problem};
ghost use Rattle.game_tree.specs.Skeleton.{Skeleton, nodes};
ghost use Rattle.lose_system.specs.Losing.{system};
ghost use Rattle.cube_rules.specs.Bare.{AllowsBare};
ghost use Rattle.proof_rules.specs.Rules.{apply};

/// The rules of a proof allow each line that needs no system, over at most as many variables as there are nodes: so lines
/// that close the bare context of a cube close it in a proof too.
pub fn proof_allows_bare()
    ensures { (s : Sort) (P : Problem) (S : Skeleton) (n : ℕ) → n ≤ nodes S → AllowsBare s n (apply s (system s P S)) }
{}
