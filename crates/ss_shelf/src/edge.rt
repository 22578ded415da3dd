//! The trusted edge: files of the system and standard output.

ghost use Rattle.std.specs.Prelude.{◌≡◌, ◌++◌, [], ℕ, List, None};
ghost use Rattle.ss_shelf.specs.Calls.{count_of};

use crate::failures::Failures;
use crate::outside::{CallKind, Shelf, ShelfFault, Sink, SinkFault};
use std::alloc::Global;
use std::fs::{self, Files};
use std::io::{Read, Write};

/// Output to a writer, as standard output. It tells nothing of what was written.
#[derive(Drop)]
pub struct StdSink<W: Write + Drop> {
    writer: W,
    faults: u64,
}

impl<W: Write + Drop> StdSink<W> {
    /// Output to this writer, with a count of 0 faults.
    pub fn new(writer: W) -> StdSink<W>
        ensures writer { result.writer ≡ writer }
        ensures faults { result.faults ≡ 0 }
    {
        StdSink { writer, faults: 0 }
    }
}

impl<W: Write + Drop> Sink for StdSink<W> {
    ghost written = { λ _. None };

    ghost faults = { λ s. s.faults };

    fn write(&mut self, bytes: &[u8]) -> Result<(), SinkFault> {
        match self.writer.write_all(bytes) {
            Ok(()) => Ok(()),
            Err(_) => {
                self.faults = self.faults.saturating_add(1);
                Err(SinkFault::Failed)
            }
        }
    }
}

/// Reads the whole file behind what is there; a read that gives nothing is the end.
fn read_whole<R: Files>(files: &R, name: &str, into: &mut Vec<u8>) -> Result<(), ShelfFault>
    ensures { (bytes : List ℕ) × (into.new.items ≡ into.old.items ++ bytes) }
{
    let Ok(mut file) = fs::open(files, name) else {
        return Err(ShelfFault::Failed);
    };
    let mut chunk = [0; 4096];
    loop {
        let Ok(count) = file.read(&mut chunk) else {
            return Err(ShelfFault::Failed);
        };
        if count == 0 {
            return Ok(());
        }
        if into.extend_from_slice(&chunk[..count]).is_err() {
            return Err(ShelfFault::Memory);
        }
    }
}

/// Makes the file hold these bytes.
fn write_whole<R: Files>(files: &R, name: &str, bytes: &[u8]) -> Result<(), ShelfFault> {
    let Ok(mut file) = fs::create(files, name) else {
        return Err(ShelfFault::Failed);
    };
    match file.write_all(bytes) {
        Ok(()) => Ok(()),
        Err(_) => Err(ShelfFault::Failed),
    }
}

/// The files of the system. It tells nothing of their content.
#[derive(Drop)]
pub struct FileShelf<'a, R: Files> {
    files: &'a R,
    alloc: Global,
    failures: Failures,
}

impl<'a, R: Files> FileShelf<'a, R> {
    /// The files of this system; no call failed yet.
    pub fn new(alloc: Global, files: &'a R) -> FileShelf<'a, R>
        ensures { result.failures.calls.items ≡ [] }
    {
        FileShelf {
            files,
            alloc,
            failures: Failures::new(alloc),
        }
    }
}

impl<'a, R: Files> Shelf for FileShelf<'a, R> {
    ghost files = { λ _. None };

    ghost faults = { λ s. count_of s.failures.calls.items };

    fn fetch(&mut self, name: &str, into: &mut Vec<u8>) -> Result<(), ShelfFault> {
        let Ok(entry) = self.failures.prepare(self.alloc, CallKind::Fetch, name) else {
            return Err(ShelfFault::Memory);
        };
        let start = into.len();
        match read_whole(self.files, name, into) {
            Ok(()) => Ok(()),
            Err(ShelfFault::Memory) => {
                into.truncate(start);
                Err(ShelfFault::Memory)
            }
            Err(ShelfFault::Failed) => {
                into.truncate(start);
                Err(self.failures.fail(entry))
            }
        }
    }

    fn store(&mut self, name: &str, bytes: &[u8]) -> Result<(), ShelfFault> {
        let Ok(entry) = self.failures.prepare(self.alloc, CallKind::Store, name) else {
            return Err(ShelfFault::Memory);
        };
        match write_whole(self.files, name, bytes) {
            Ok(()) => Ok(()),
            Err(_) => Err(self.failures.fail(entry)),
        }
    }
}
