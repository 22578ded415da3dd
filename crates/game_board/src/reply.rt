//! Events of a board, and what it answers.

use crate::entry::Entry;
use crate::why::WideNote;
use dom_core::{Domain, Side};
use game_tree::Skeleton;
use proof_rules::Won;
use sqlite_items::Items;
use term_select::Counter;

/// What there is to do.
#[derive(Clone, Copy, Debug, PartialEq, Eq, Drop)]
pub enum Job {
    /// Attack this version of this side.
    Attack { side: Side, version: u32 },
    /// No verdict stands, and neither side has work.
    Blocked,
    /// A verdict stands.
    Over,
}

/// Where a game stands.
#[derive(Clone, Copy, Debug, PartialEq, Eq, Drop)]
pub struct Standing {
    /// The number of the newest version of Exists.
    pub exists: u32,
    /// That of Forall.
    pub forall: u32,
    /// The greatest version of Forall that Exists is known to beat.
    pub reach_exists: Option<u32>,
    /// The greatest version of Exists that Forall is known to beat.
    pub reach_forall: Option<u32>,
    /// How many entries the history has.
    pub entries: u32,
    /// Whether a verdict stands.
    pub over: bool,
}

/// The answer to a counter. Each comes where none of those before it does.
#[derive(Clone, Copy, Debug, PartialEq, Eq, Drop)]
pub enum Published {
    /// A verdict stands.
    Over,
    /// The counter is of another problem or against another skeleton than the named version, or there is no such version.
    Foreign,
    /// The side is known to beat this version of the other side, which is no lower than the named one.
    Stale { reach: u32 },
    /// Every path is in the newest version of the side.
    Held,
    /// The budget of rounds is spent.
    Spent,
    /// The union with the newest version has this number of nodes, more than 1,048,576.
    TooLarge { nodes: u64 },
    /// The union is the version of this number.
    Added(u32),
}

/// The answer to a game that is won.
#[derive(Clone, Copy, Debug, PartialEq, Eq, Drop)]
pub enum Finished {
    /// The verdict stands.
    Set,
    /// It is of another problem or another skeleton.
    Foreign,
    /// A verdict stood before.
    Over,
}

/// The answer to a note.
#[derive(Clone, Copy, Debug, PartialEq, Eq, Drop)]
pub enum Noted {
    /// The version carries a note.
    Kept,
    /// It is of another version, or does not belong to the version's losing system.
    Foreign,
    /// A verdict stands.
    Over,
}

/// One step of a game.
#[derive(Drop)]
pub enum Event<D: Domain> {
    Look(Side, u32),
    Publish(Counter<D>, u32),
    Finish(Won<D>, Side, u32),
    Found(Won<D>, Side),
    Note(WideNote<D>, u32),
}

/// What a step answers; for a look the version, copied.
#[derive(Drop)]
pub enum Reply<D: Domain> {
    Look(Option<Skeleton<D>>),
    Publish(Published),
    Finish(Finished),
    Found(Finished),
    Note(Noted),
}

/// A board that is given up: its history, and the game that is won where a verdict stands.
#[derive(Drop)]
pub struct Closed<D: Domain> {
    pub history: Items<Entry<D>>,
    pub won: Option<Won<D>>,
}
