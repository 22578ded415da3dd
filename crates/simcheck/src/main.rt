//! Checks a strategy file against a script: is each claimed verdict proved by its section?
#![tactic(auto)]

mod report;
mod run;
mod status;
#[cfg(test)]
mod tables;
#[cfg(test)]
mod tests;

use run::check_run;
use ss_shelf::{FileShelf, StdSink};
use status::CheckStatus;
use std::alloc::Global;
use std::process::ExitCode;
use std::{env, io};

fn words_of(rt: &(impl std::rt::Env + AllocGlobal), alloc: Global) -> io::Result<Vec<String>> {
    let mut words = Vec::new(alloc);
    for word in env::args(rt)?.skip(1) {
        words.push(word)?;
    }
    Ok(words)
}

fn main(rt: HostRuntime) -> ExitCode {
    let mut out = StdSink::new(rt.stdout());
    let mut shelf = FileShelf::new(rt.alloc(), &rt);
    let status = match words_of(&rt, rt.alloc()) {
        Ok(words) => check_run(rt.alloc(), words.as_slice(), &mut shelf, &mut out),
        Err(fault) => match fault.kind() {
            // Words that are no text are faulty words, and read as none.
            io::ErrorKind::InvalidData => check_run(rt.alloc(), &[], &mut shelf, &mut out),
            _ => CheckStatus::Memory,
        },
    };
    ExitCode::from(status.code())
}
