//! The games of a script, or why there are none.

use dom_core::Problem;
use dom_int::Int;
use dom_rat::Rat;
use ss_names::FaultKind;

/// The games of a script by the sort of its logic: a problem for each check-sat, in order.
#[derive(Drop)]
pub enum ScriptGames {
    Rat(Vec<Problem<Rat>>),
    Int(Vec<Problem<Int>>),
}

/// Why a script gives no games.
#[derive(Clone, Copy, Debug, PartialEq, Eq)]
pub enum GamesFault {
    /// The script has this fault at this place. Lines and columns count from 1, columns in bytes.
    Bad {
        kind: FaultKind,
        line: u64,
        column: u64,
    },
    /// The script could not be fetched.
    Unread,
    /// Want of memory.
    Memory,
}
