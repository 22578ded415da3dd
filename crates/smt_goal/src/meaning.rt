//! The definition of reading on small scripts.

ghost use Rattle.smt_goal.specs.Rows.{AreAsked, AreRefused};

/// Each of these scripts asks what is written beside it.
pub fn meanings_of_scripts()
    ensures { AreAsked }
{}

/// Each of these scripts is refused for the fault that is written beside it.
pub fn meanings_of_faults()
    ensures { AreRefused }
{}
