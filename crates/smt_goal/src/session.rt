//! What a script has said so far.

ghost use Rattle.std.specs.Prelude.{◌≡◌};
ghost use Rattle.smt_goal.specs.Command.{start};
ghost use Rattle.smt_goal.specs.Session.{state_seen, IsReady};

use lin_term::Sort;
use lin_truth::VarSort;
use smt_term::Reader;
use sqlite_items::Items;
use std::alloc::Global;
use symbol_table::Names;
use term_table::Table;

/// A check-sat: its place, the constants declared then, and the entry of the conjunction of the assertions.
#[derive(Drop)]
pub struct Question {
    pub sort: Sort,
    pub line: u64,
    pub column: u64,
    pub consts: Items<VarSort>,
    pub root: u32,
}

/// What a script has said so far.
#[derive(Drop)]
pub struct Session<'a> {
    pub reader: Reader<'a>,
    /// The sort of the logic's numbers, once a logic was set.
    pub logic: Option<Sort>,
    pub consts: Vec<VarSort>,
    /// The entries of the asserted formulas.
    pub asserted: Vec<u32>,
    pub goals: Vec<Question>,
    /// Whether `exit` came.
    pub ended: bool,
}

impl<'a> Session<'a> {
    /// Before the first command.
    pub fn new(alloc: Global) -> Session<'a>
        ensures start { state_seen result ≡ start }
        ensures ready { IsReady result }
    {
        let reader = Reader {
            alloc,
            logic: Sort::Rat,
            table: Table::new(alloc),
            names: Names::new(alloc),
            signatures: Vec::new(alloc),
            around: 0,
        };
        Session {
            reader,
            logic: None,
            consts: Vec::new(alloc),
            asserted: Vec::new(alloc),
            goals: Vec::new(alloc),
            ended: false,
        }
    }
}
