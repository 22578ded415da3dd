//! The board of a game: the event machine behind which two sides grow their skeletons.
#![tactic(auto)]

mod belonging;
mod board;
mod counters;
mod ending;
mod entry;
mod half;
mod halves;
mod notes;
mod reading;
mod reply;
mod steps;
mod why;

pub use board::Board;
pub use entry::Entry;
pub use reply::{Closed, Event, Finished, Job, Noted, Published, Reply, Standing};
pub use steps::run_events;
pub use why::{Why, WideNote, Wideness};
