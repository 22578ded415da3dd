//! What is printed of a script's fault.

ghost use Rattle.std.specs.Prelude.{◌≡◌, IfOk, string_bytes};
ghost use Rattle.ss_names.specs.declared.ScriptFault.TheVariants.{Bad};
ghost use Rattle.script_games.specs.Refusal.{refusal_text};

use ss_names::FaultKind;
use std::alloc::{AllocError, Global};

/// The line of a script's fault: its kind's number and name, and its place. Refuses only for memory.
pub fn refusal_line(
    alloc: Global,
    kind: FaultKind,
    line: u64,
    column: u64,
) -> Result<String, AllocError>
    ensures { IfOk result (λ s. string_bytes s ≡ refusal_text (Bad kind line column)) }
{
    let number = kind.number();
    let name = kind.name();
    format!(in alloc; "refused {number} {name} {line} {column}\n")
}
