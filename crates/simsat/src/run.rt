//! A run of the solver over files and output.

ghost use Rattle.std.specs.Prelude.{map, string_bytes};
ghost use Rattle.solve_words.specs.Words.{words_of};
ghost use Rattle.simsat.specs.Run.{run_of, Ends, Completes};
ghost use Rattle.simsat.specs.Headline.{SatIsTrue, UnsatIsFalse};

use crate::answering::words_plan;
use crate::plan::Halt;
use crate::publishing::publish;
use crate::status::{SolveEnd, SolveStatus};
use ss_shelf::{Shelf, Sink};
use std::alloc::Global;

/// Makes the plan, stores and prints it, and says how that ended.
#[tactic(auto, using(crate::proofs::Finished::ends_published, crate::proofs::Finished::ends_unread, crate::proofs::Finished::ends_halted))]
fn plan_and_publish<S: Shelf, O: Sink>(
    alloc: Global,
    words: &[String],
    shelf: &mut S,
    out: &mut O,
) -> SolveEnd
    ensures { Ends (run_of (words_of (map string_bytes words.now)) result.outcomes.items (S.files shelf.old) (S.files shelf.new) (S.faults shelf.old) (S.faults shelf.new) (O.written out.old) (O.written out.new) (O.faults out.old) (O.faults out.new)) result.status }
{
    match words_plan(alloc, words, shelf) {
        Ok(plan) => {
            let status = publish(&plan, shelf, out);
            SolveEnd {
                status,
                outcomes: plan.outcomes,
            }
        }
        Err(Halt::Unread) => SolveEnd {
            status: SolveStatus::ReadFault,
            outcomes: Vec::new(alloc),
        },
        Err(Halt::Memory(outcomes)) => SolveEnd {
            status: SolveStatus::Memory,
            outcomes,
        },
    }
}

/// Solves the goals of the script that the words name, each alone, or the generated problem that they ask for; stores and
/// prints, and says how it ended. All texts are made before anything is stored, and a verdict is printed only after its
/// strategy was stored. The number of workers has no effect.
#[tactic(auto, using(crate::proofs::Telling::sat_told, crate::proofs::Telling::unsat_told, crate::proofs::Finished::completes, crate::proofs::Fitting::asked_fits))]
pub fn solve_run_alone<S: Shelf, O: Sink>(
    alloc: Global,
    words: &[String],
    shelf: &mut S,
    out: &mut O,
) -> SolveEnd
    // Where verdict k of what was printed is `sat`, goal k of the script is true, and the stored strategy is accepted for
    // Exists. Goals and verdicts count from 0.
    ensures sat { SatIsTrue (run_of (words_of (map string_bytes words.now)) result.outcomes.items (S.files shelf.old) (S.files shelf.new) (S.faults shelf.old) (S.faults shelf.new) (O.written out.old) (O.written out.new) (O.faults out.old) (O.faults out.new)) }
    // Where it is `unsat`, the goal is not true, and the stored strategy is accepted for Forall.
    ensures unsat { UnsatIsFalse (run_of (words_of (map string_bytes words.now)) result.outcomes.items (S.files shelf.old) (S.files shelf.new) (S.faults shelf.old) (S.faults shelf.new) (O.written out.old) (O.written out.new) (O.faults out.old) (O.faults out.new)) }
    // What each status says of the outcomes, the files, the output and the counts.
    ensures ends { Ends (run_of (words_of (map string_bytes words.now)) result.outcomes.items (S.files shelf.old) (S.files shelf.new) (S.faults shelf.old) (S.faults shelf.new) (O.written out.old) (O.written out.new) (O.faults out.old) (O.faults out.new)) result.status }
    // Without a fault of the words, the script or the outside there is a verdict for each goal, or memory was wanted.
    ensures completes { Completes (run_of (words_of (map string_bytes words.now)) result.outcomes.items (S.files shelf.old) (S.files shelf.new) (S.faults shelf.old) (S.faults shelf.new) (O.written out.old) (O.written out.new) (O.faults out.old) (O.faults out.new)) result.status }
{
    plan_and_publish(alloc, words, shelf, out)
}
