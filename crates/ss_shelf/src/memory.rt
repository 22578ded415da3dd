//! A shelf and a sink in memory, which tell all that they hold.

ghost use Rattle.std.specs.Prelude.{◌≡◌, ◌≢◌, ℕ, List, [], None, Some, Err, OnOk, OnErr};
ghost use Rattle.ss_shelf.specs.Memory.{files_of};
ghost use Rattle.ss_shelf.specs.Outside.{Counted, Fetches, Stored, KeepsOthers};
ghost use Rattle.ss_shelf.specs.Calls.{count_of};
ghost use Rattle.ss_shelf.specs.declared.outside.CallKind.TheVariants.{Fetch, Store};

use crate::failures::Failures;
use crate::outside::{CallKind, Shelf, ShelfFault, Sink, SinkFault};
use std::alloc::{AllocError, Global};
use std::collections::BTreeMap;

/// A shelf that keeps its files in memory. Its failed calls are the fetches of a name that is not there.
#[derive(Drop)]
pub struct MemoryShelf {
    alloc: Global,
    files: BTreeMap<String, Vec<u8>>,
    failures: Failures,
}

impl MemoryShelf {
    /// A shelf without files; no call failed yet.
    pub fn new(alloc: Global) -> MemoryShelf
        ensures empty { (name : List ℕ) → files_of result name ≡ None }
        ensures calls { result.failures.calls.items ≡ [] }
    {
        MemoryShelf {
            alloc,
            files: BTreeMap::new(alloc),
            failures: Failures::new(alloc),
        }
    }

    // Makes the file hold these bytes.
    fn put(&mut self, name: &str, bytes: &[u8]) -> Result<(), AllocError>
        ensures stored { OnOk result (Stored name.now bytes.now (files_of self.old) (files_of self.new)) }
        ensures refused { OnErr result (files_of self.new ≡ files_of self.old) }
        ensures calls { self.new.failures.calls.items ≡ self.old.failures.calls.items }
    {
        let Ok(key) = String::from_str(self.alloc, name) else {
            return Err(AllocError);
        };
        let Ok(value) = bytes.to_vec(self.alloc) else {
            return Err(AllocError);
        };
        match self.files.insert(key, value) {
            Ok(_) => Ok(()),
            Err(_) => Err(AllocError),
        }
    }
}

impl Shelf for MemoryShelf {
    ghost files = { λ s. Some (files_of s) };

    ghost faults = { λ s. count_of s.failures.calls.items };

    /// Appends the file's bytes and changes no file. It answers Failed only where there is no such file, and never
    /// succeeds there; any other refusal is for memory. After a refusal `into` is as before.
    fn fetch(&mut self, name: &str, into: &mut Vec<u8>) -> Result<(), ShelfFault>
        ensures same { Some (files_of self.new) ≡ Some (files_of self.old) }
        ensures bytes { OnOk result (Fetches (Some (files_of self.old)) name.now into.old.items into.new.items) }
        ensures refused { OnErr result (into.new.items ≡ into.old.items) }
        ensures counts { Counted Fetch name.now (count_of self.old.failures.calls.items) (count_of self.new.failures.calls.items) result }
        ensures missing { result ≡ Err ShelfFault.Failed → files_of self.old name.now ≡ None }
    {
        let Ok(entry) = self.failures.prepare(self.alloc, CallKind::Fetch, name) else {
            return Err(ShelfFault::Memory);
        };
        match self.files.get(name) {
            Some(bytes) => match into.extend_from_slice(bytes.as_slice()) {
                Ok(()) => Ok(()),
                Err(_) => Err(ShelfFault::Memory),
            },
            None => Err(self.failures.fail(entry)),
        }
    }

    /// Makes the file hold exactly these bytes; every other file is as before. It refuses only for memory, and then
    /// changes no file.
    fn store(&mut self, name: &str, bytes: &[u8]) -> Result<(), ShelfFault>
        ensures stored { OnOk result (Stored name.now bytes.now (files_of self.old) (files_of self.new)) }
        ensures failed { result ≡ Err ShelfFault.Failed → KeepsOthers (Some (files_of self.old)) (Some (files_of self.new)) name.now }
        ensures memory { result ≡ Err ShelfFault.Memory → Some (files_of self.new) ≡ Some (files_of self.old) }
        ensures counts { Counted Store name.now (count_of self.old.failures.calls.items) (count_of self.new.failures.calls.items) result }
        ensures never { result ≢ Err ShelfFault.Failed }
    {
        match self.put(name, bytes) {
            Ok(()) => Ok(()),
            Err(_) => Err(ShelfFault::Memory),
        }
    }
}

/// A sink that keeps what it is given. It never fails but for memory.
#[derive(Drop)]
pub struct MemorySink {
    bytes: Vec<u8>,
}

impl MemorySink {
    /// A sink to which nothing was written.
    pub fn new(alloc: Global) -> MemorySink
        ensures { result.bytes.items ≡ [] }
    {
        MemorySink {
            bytes: Vec::new(alloc),
        }
    }

    /// What was written so far.
    pub fn bytes(&self) -> &[u8]
        ensures { result.now ≡ self.now.bytes.items }
    {
        self.bytes.as_slice()
    }
}

impl Sink for MemorySink {
    ghost written = { λ s. Some (s.bytes.items) };

    ghost faults = { λ s. 0 };

    fn write(&mut self, bytes: &[u8]) -> Result<(), SinkFault> {
        match self.bytes.extend_from_slice(bytes) {
            Ok(()) => Ok(()),
            Err(_) => Err(SinkFault::Memory),
        }
    }
}
