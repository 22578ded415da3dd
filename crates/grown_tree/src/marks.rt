//! The moves of a node, each with the number of the version in which it was added.

ghost use Rattle.std.specs.Prelude.{◌≡◌, ◌<◌, [], ◌∷◌, ◌++◌, length, take, IfSome, OnOk, OnErr};
ghost use Rattle.game_tree.specs.Gather.{place};
ghost use Rattle.grown_tree.specs.Shown.{terms_of};

use crate::slots::Slots;
use lin_term::Move;
use std::alloc::{AllocError, Global};
use std::marker::Model;

/// A move, and the number of the version in which it was added.
#[derive(Debug, Drop)]
pub struct Mark {
    pub term: Move,
    pub since: u32,
}

/// The moves of a node in the order in which they came.
#[derive(Debug, Drop)]
pub struct Marks {
    marks: Slots<Mark>,
}

impl Model for Marks {
    ghost use Rattle.std.specs.Prelude.{List};
    ghost use Rattle.std.specs.Coded.{codes};
    ghost use Rattle.grown_tree.specs.declared.marks.Mark.{Mark};
    ghost use Rattle.grown_tree.specs.contracts.marks.Mark as m;

    ghost Value = { List Mark };

    ghost coded = { Prim.hlevel (codes, m.the_row.coded) };

    ghost view = { λ s. s.marks };
}

impl Marks {
    /// No moves; takes no memory.
    pub fn new(alloc: Global) -> Marks
        ensures { result ≡ [] }
    {
        Marks {
            marks: Slots::new(alloc),
        }
    }

    pub fn as_slice(&self) -> &[Mark]
        ensures { result.now ≡ self.now }
    {
        self.marks.as_slice()
    }

    /// The place of the move, if it is there.
    pub fn find(&self, term: &Move) -> Option<usize>
        ensures value { result ≡ place term.now (terms_of self.now) }
        ensures within { IfSome result (λ i. i < length self.now) }
    {
        first_place(self.marks.as_slice(), term)
    }

    /// A new move behind the others; refuses only for memory.
    pub fn push(&mut self, mark: Mark) -> Result<(), AllocError>
        ensures ok { OnOk result (self.new ≡ self.old ++ mark ∷ []) }
        ensures err { OnErr result (self.new ≡ self.old) }
    {
        self.marks.push(mark)
    }

    /// The moves from this place on are dropped.
    pub fn truncate(&mut self, count: usize)
        ensures { self.new ≡ take count self.old }
    {
        self.marks.truncate(count);
    }
}

/// The first place of the move.
fn first_place(marks: &[Mark], term: &Move) -> Option<usize>
    ensures value { result ≡ place term.now (terms_of marks.now) }
    ensures within { IfSome result (λ i. i < length marks.now) }
{
    for i in 0..marks.len() {
        if marks[i].term.is_same(term) {
            return Some(i);
        }
    }
    None
}
