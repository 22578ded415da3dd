//! What a line of a strategy file breaks.

ghost use Rattle.std.specs.Prelude.{◌≡◌};
ghost use Rattle.cube_rules.specs.Name.{printed};

use crate::kind::Kind;

/// The rule that a line of a strategy file breaks.
#[derive(Clone, Copy, Debug, PartialEq, Eq)]
pub enum Rule {
    /// The grammar of the file.
    Form,
    /// One section for each goal.
    Goals,
    /// The turns fit the prefix.
    Turns,
    /// A move of the tree is in lowest form, and its numbers are within the cap.
    Move,
    /// The rule of a line of a proof.
    Line(Kind),
}

impl Rule {
    /// The word that stands for the rule in printed lines.
    pub fn name(self) -> &'static str
        ensures { result.now ≡ printed self }
    {
        match self {
            Rule::Form => "form",
            Rule::Goals => "goals",
            Rule::Turns => "turns",
            Rule::Move => "move",
            Rule::Line(kind) => kind.name(),
        }
    }
}
