//! What a strategy file says of the goals of a script.

ghost use Rattle.std.specs.Prelude.{◌≡◌, ◌++◌, ◌∷◌, [], OnOk, OnErr};
ghost use Rattle.strat_text.specs.Sections.{IsVersion, HasLines, IsVersioned};

use cube_rules::Step;
use game_tree::{Side, Tree};
use lin_term::Memory;
use sqlite_items::Items;
use std::alloc::Global;
use std::marker::Model;

/// What a file says of one goal.
#[derive(Debug, Drop)]
pub enum Section {
    /// The goal is won: `sat` by Exists, `unsat` by Forall.
    Claimed {
        side: Side,
        /// One for each variable of the prefix, true for a variable of the winner.
        turns: Items<bool>,
        /// The winner's strategy.
        tree: Tree,
        /// That its losing system has no solution.
        proof: Items<Step>,
        /// The line of the file where the section begins, from 1; 0 in a section that was not read.
        line: u64,
    },
    /// Nothing is claimed.
    Unknown,
}

/// The sections of a file, one for each goal, and the version of the file, 1 or 2. In version 1 no proof has a `learn` line.
#[derive(Debug, Drop)]
pub struct Sections {
    version: u32,
    list: Items<Section>,
}

impl Model for Sections {
    ghost use Rattle.std.specs.Coded.{codes};
    ghost use Rattle.game_tree.specs.contracts.tree.Tree as tree;
    ghost use Rattle.strat_text.specs.Sections.{Sections, IsVersioned};

    ghost Value = { Sections };

    ghost coded = { Prim.hlevel (codes, tree.the_row.coded) };

    ghost view = { λ s. record { version = s.version; list = s.list } };

    ghost invariant = { λ s. IsVersioned (record { version = s.version; list = s.list }) };
}

impl Sections {
    /// No section, in a file of version 1 or 2.
    pub fn new(alloc: Global, version: u32) -> Sections
        requires { IsVersion version }
        ensures { result ≡ record { version = version; list = [] } }
    {
        Sections::from_parts(version, Items::new(alloc))
    }

    /// These sections, in a file of version 1 or 2; in version 1 no proof has a `learn` line.
    pub fn from_parts(version: u32, list: Items<Section>) -> Sections
        requires { IsVersioned (record { version = version; list = list }) }
        ensures { result ≡ record { version = version; list = list } }
    {
        Sections { version, list }
    }

    /// One more section at the end, in version 1 without a `learn` line; refuses only for memory, and then the sections are
    /// as before, and the new one is dropped.
    pub fn push(&mut self, section: Section) -> Result<(), Memory>
        requires { HasLines self.old.version section }
        ensures version { self.new.version ≡ self.old.version }
        ensures ok { OnOk result (self.new.list ≡ self.old.list ++ section ∷ []) }
        ensures err { OnErr result (self.new.list ≡ self.old.list) }
    {
        match self.list.push(section) {
            Ok(()) => Ok(()),
            Err(_) => Err(Memory),
        }
    }

    /// The version of the file, 1 or 2.
    pub fn version(&self) -> u32
        ensures value { result ≡ self.now.version }
        ensures known { IsVersion result }
    {
        self.version
    }

    /// The sections in order.
    pub fn as_slice(&self) -> &[Section]
        ensures list { result.now ≡ self.now.list }
        ensures versioned { IsVersioned self.now }
    {
        self.list.as_slice()
    }
}
