//! What a run prints and stores, made before anything is printed or stored.

use crate::status::SolveStatus;
use solve_texts::Solved;

/// A file that is to be stored.
#[derive(Drop)]
pub struct NewFile {
    pub name: String,
    pub bytes: Vec<u8>,
}

/// What is printed, the outcomes of the goals, and the files that are stored, in this order.
#[derive(Drop)]
pub struct Plan {
    /// How the run ends where no call fails: Done, Usage or Refused.
    pub status: SolveStatus,
    pub text: Vec<u8>,
    pub outcomes: Vec<Solved>,
    pub stores: Vec<NewFile>,
}

/// Why there is no plan.
#[derive(Drop)]
pub enum Halt {
    /// The script could not be fetched.
    Unread,
    /// Memory was wanted once the first goals had these outcomes.
    Memory(Vec<Solved>),
}
