//! How a run ends.

ghost use Rattle.std.specs.Prelude.{◌≡◌};
ghost use Rattle.simcheck.specs.Status.{number_of};

/// How a run of the checker ends.
#[derive(Clone, Copy, Debug, PartialEq, Eq)]
pub enum CheckStatus {
    /// No section was rejected.
    Accepted,
    /// The file has a fault, its count of goals differs, or a section is rejected.
    Rejected,
    /// The words are not SCRIPT and FILE.
    Usage,
    /// The script or a goal has a fault.
    Refused,
    /// A file could not be read.
    ReadFault,
    /// The text could not be written.
    PrintFault,
    /// Want of memory.
    Memory,
}

impl CheckStatus {
    /// The exit status of the program: 0 to 3 for an answer, 4, 6 and 7 for the faults.
    pub fn code(self) -> u8
        ensures { result ≡ number_of self }
    {
        match self {
            CheckStatus::Accepted => 0,
            CheckStatus::Rejected => 1,
            CheckStatus::Usage => 2,
            CheckStatus::Refused => 3,
            CheckStatus::ReadFault => 4,
            CheckStatus::PrintFault => 6,
            CheckStatus::Memory => 7,
        }
    }
}
