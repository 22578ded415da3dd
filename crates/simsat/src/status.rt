//! How a run ends.

ghost use Rattle.std.specs.Prelude.{◌≡◌};
ghost use Rattle.simsat.specs.Status.{number_of};

use solve_texts::Solved;

/// How a run of the solver ends.
#[derive(Clone, Copy, Debug, PartialEq, Eq, Drop)]
pub enum SolveStatus {
    /// All verdicts were printed.
    Done,
    /// The words are not in the grammar.
    Usage,
    /// The script or a goal has a fault.
    Refused,
    /// The script could not be read.
    ReadFault,
    /// The strategy or the journal could not be stored.
    StoreFault,
    /// The text could not be written.
    PrintFault,
    /// Want of memory.
    Memory,
}

impl SolveStatus {
    /// The exit status of the program.
    pub fn code(self) -> u8
        ensures { result ≡ number_of self }
    {
        match self {
            SolveStatus::Done => 0,
            SolveStatus::Usage => 2,
            SolveStatus::Refused => 3,
            SolveStatus::ReadFault => 4,
            SolveStatus::StoreFault => 5,
            SolveStatus::PrintFault => 6,
            SolveStatus::Memory => 7,
        }
    }
}

/// The end of a run, with the outcomes of the first goals, in order.
#[derive(Drop)]
pub struct SolveEnd {
    pub status: SolveStatus,
    pub outcomes: Vec<Solved>,
}
