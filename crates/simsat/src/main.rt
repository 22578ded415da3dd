//! Solves scripts: a verdict for each goal, with a stored strategy that proves it.
#![tactic(auto)]

mod answering;
mod plan;
mod playing;
mod prefixes;
mod publishing;
mod run;
mod status;

use run::solve_run_alone;
use ss_shelf::{FileShelf, StdSink};
use status::SolveStatus;
use std::alloc::Global;
use std::process::ExitCode;
use std::{env, io};

fn words_of(rt: &(impl std::rt::Env + AllocGlobal), alloc: Global) -> io::Result<Vec<String>> {
    let mut words = Vec::new(alloc);
    for word in env::args(rt)?.skip(1) {
        words.push(word)?;
    }
    Ok(words)
}

fn main(rt: HostRuntime) -> ExitCode {
    let mut out = StdSink::new(rt.stdout());
    let mut shelf = FileShelf::new(rt.alloc(), &rt);
    let status = match words_of(&rt, rt.alloc()) {
        Ok(words) => solve_run_alone(rt.alloc(), words.as_slice(), &mut shelf, &mut out).status,
        Err(fault) => match fault.kind() {
            // Words that are no text are faulty words, and read as none.
            io::ErrorKind::InvalidData => {
                solve_run_alone(rt.alloc(), &[], &mut shelf, &mut out).status
            }
            _ => SolveStatus::Memory,
        },
    };
    ExitCode::from(status.code())
}
