//! What holds of the spelling itself.

ghost use Rattle.std.specs.Prelude.{◌≡◌, ℕ, Bool, List};
ghost use Rattle.game_tree.specs.declared.Tree.{Tree};
ghost use Rattle.game_tree.specs.Skeleton.{Skeleton};
ghost use Rattle.game_tree.specs.View.{skeleton_of};
ghost use Rattle.strat_text.specs.Sections.{Sections};
ghost use Rattle.strat_text.specs.Spelling.{FollowsTurns, Spells, without_lines};
ghost use Rattle.strat_text.specs.TreeText.{tree_of, tree_text};
ghost use Rattle.strat_text.specs.Written as written;

/// A file spells one version and one list of sections, but for their lines.
pub fn one_value()
    ensures { (bytes : List ℕ) (xs ys : Sections) → Spells bytes xs → Spells bytes ys → without_lines xs ≡ without_lines ys }
{}

/// Sections of a version have one spelling.
pub fn one_spelling()
    ensures { (a b : List ℕ) (xs : Sections) → Spells a xs → Spells b xs → a ≡ b }
{}

/// What is written of a tree that follows the turns is what is written of its skeleton, and each skeleton is that of a
/// tree.
pub fn one_tree_text()
    ensures follows { (turns : List Bool) (position : ℕ) (t : Tree) → FollowsTurns turns position t → written.tree t ≡ tree_text (skeleton_of t) }
    ensures held { (S : Skeleton) → skeleton_of (tree_of S) ≡ S }
    ensures same { (S : Skeleton) → written.tree (tree_of S) ≡ tree_text S }
{}
