//! The kinds of lines of a proof, each with a rule of its own, and their words.

ghost use Rattle.std.specs.Prelude.{◌≡◌, Some, IfSome};
ghost use Rattle.std.specs.Str.{bytes_eq};
ghost use Rattle.cube_rules.specs.declared.kind.Kind.{Kind};
ghost use Rattle.cube_rules.specs.Name.{word_of, kind_named};

/// A kind of line, and the rule that such a line is to meet.
#[derive(Clone, Copy, Debug, PartialEq, Eq)]
pub enum Kind {
    Path,
    Def,
    Part,
    Cases,
    Sum,
    Split,
    Cube,
    Least,
    Learn,
    False,
}

impl Kind {
    /// The word with which such a line begins, and which is printed where it breaks its rule.
    pub fn name(self) -> &'static str
        ensures { result.now ≡ word_of self }
    {
        match self {
            Kind::Path => "path",
            Kind::Def => "def",
            Kind::Part => "part",
            Kind::Cases => "cases",
            Kind::Sum => "sum",
            Kind::Split => "split",
            Kind::Cube => "cube",
            Kind::Least => "least",
            Kind::Learn => "learn",
            Kind::False => "false",
        }
    }

    /// The kind with that name, if there is one.
    pub fn named(word: &[u8]) -> Option<Kind>
        ensures value { result ≡ kind_named word.now }
        // It has the word, and is the only one that has it.
        ensures found { IfSome result (λ k. word.now ≡ word_of k) }
        ensures only { (k : Kind) → word.now ≡ word_of k → result ≡ Some k }
    {
        kind_of_word(word)
    }
}

/// Whether that is the name of the kind.
fn is_name(word: &[u8], kind: Kind) -> bool
    ensures { result ≡ bytes_eq word.now (word_of kind) }
{
    word == kind.name().as_bytes()
}

/// The kind with that name.
fn kind_of_word(word: &[u8]) -> Option<Kind>
    ensures { result ≡ kind_named word.now }
{
    if is_name(word, Kind::Path) {
        Some(Kind::Path)
    } else if is_name(word, Kind::Def) {
        Some(Kind::Def)
    } else if is_name(word, Kind::Part) {
        Some(Kind::Part)
    } else if is_name(word, Kind::Cases) {
        Some(Kind::Cases)
    } else if is_name(word, Kind::Sum) {
        Some(Kind::Sum)
    } else if is_name(word, Kind::Split) {
        Some(Kind::Split)
    } else if is_name(word, Kind::Cube) {
        Some(Kind::Cube)
    } else if is_name(word, Kind::Least) {
        Some(Kind::Least)
    } else if is_name(word, Kind::Learn) {
        Some(Kind::Learn)
    } else if is_name(word, Kind::False) {
        Some(Kind::False)
    } else {
        None
    }
}
