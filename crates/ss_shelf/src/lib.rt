//! Files by name, and output, with counts of what failed.
#![tactic(auto)]

mod edge;
mod failing;
mod failures;
mod memory;
mod outside;
mod turns;

pub use edge::{FileShelf, StdSink};
pub use failing::{FailingShelf, FailingSink};
pub use failures::{FailedCall, Failures};
pub use memory::{MemoryShelf, MemorySink};
pub use outside::{CallKind, Shelf, ShelfFault, Sink, SinkFault};

#[cfg(test)]
mod tests;
