//! A plan is stored and printed.

ghost use Rattle.std.specs.Prelude.{map};
ghost use Rattle.simsat.specs.Effects.{Publishes};
ghost use Rattle.simsat.specs.Plan.{store_of, answer_of, IsReady};
ghost use Rattle.simsat.specs.Storing.{StoresEach};

use crate::plan::{NewFile, Plan};
use crate::status::SolveStatus;
use ss_shelf::{Shelf, ShelfFault, Sink, SinkFault};

/// Stores the files in order, up to the first that cannot be stored.
fn store_each<S: Shelf>(files: &[NewFile], shelf: &mut S) -> Result<(), ShelfFault>
    ensures { StoresEach (map store_of files.now) (S.files shelf.old) (S.files shelf.new) (S.faults shelf.old) (S.faults shelf.new) result }
{
    for file in files {
        match shelf.store(file.name.as_str(), file.bytes.as_slice()) {
            Ok(()) => {}
            Err(ShelfFault::Failed) => return Err(ShelfFault::Failed),
            Err(ShelfFault::Memory) => return Err(ShelfFault::Memory),
        }
    }
    Ok(())
}

/// Stores the plan's files, then prints its text, and says how that ended.
#[tactic(auto, using(crate::proofs::Published::is_whole, crate::proofs::Published::fails_to_store, crate::proofs::Published::fails_to_print, crate::proofs::Published::some_stored, crate::proofs::Published::all_stored))]
pub fn publish<S: Shelf, O: Sink>(plan: &Plan, shelf: &mut S, out: &mut O) -> SolveStatus
    requires ready { IsReady plan.now.status }
    ensures { Publishes (answer_of plan.now) (record { files = S.files shelf.old; files_after = S.files shelf.new; counts = S.faults shelf.old; counts_after = S.faults shelf.new; written = O.written out.old; written_after = O.written out.new; faults = O.faults out.old; faults_after = O.faults out.new }) result }
{
    match store_each(plan.stores.as_slice(), shelf) {
        Ok(()) => match out.write(plan.text.as_slice()) {
            Ok(()) => plan.status,
            Err(SinkFault::Failed) => SolveStatus::PrintFault,
            Err(SinkFault::Memory) => SolveStatus::Memory,
        },
        Err(ShelfFault::Failed) => SolveStatus::StoreFault,
        Err(ShelfFault::Memory) => SolveStatus::Memory,
    }
}
