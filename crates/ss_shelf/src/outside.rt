//! What lies outside the program: files by name, and output.

ghost use Rattle.std.specs.Prelude.{◌≡◌, ℕ, OnOk, OnErr, List, Option, Err};
ghost use Rattle.ss_shelf.specs.declared.outside.CallKind.TheVariants.{Fetch, Store};
ghost use Rattle.ss_shelf.specs.Outside.{Files, Counts, Counted, Fetches, Stores, KeepsOthers, Appends, AppendsPart, SinkCause};

/// The kinds of call whose failures a shelf counts.
#[derive(Clone, Copy, Debug, PartialEq, Eq)]
pub enum CallKind {
    Fetch,
    Store,
}

/// Why a call of a shelf refuses.
#[derive(Clone, Copy, Debug, PartialEq, Eq)]
pub enum ShelfFault {
    /// The outside failed; the count of this kind of call and this name rose.
    Failed,
    /// Want of memory.
    Memory,
}

/// Why a write refuses.
#[derive(Clone, Copy, Debug, PartialEq, Eq)]
pub enum SinkFault {
    /// The outside failed; the sink's count rose, or stands at its greatest value.
    Failed,
    /// Want of memory.
    Memory,
}

/// Files by name. For each name it counts the failed fetches and the failed stores; a count never falls.
pub trait Shelf {
    /// The files, where the shelf tells them.
    ghost files: { Self → Option Files };

    /// How many calls failed.
    ghost faults: { Self → Counts };

    /// Appends the file's bytes and changes no file. A name that is not there is a fault. After a refusal `into` is as
    /// before; Failed raises the count of this name's fetches, and no other count changes.
    fn fetch(&mut self, name: &str, into: &mut Vec<u8>) -> Result<(), ShelfFault>
        ensures same { files self.new ≡ files self.old }
        ensures bytes { OnOk result (Fetches (files self.old) name.now into.old.items into.new.items) }
        ensures refused { OnErr result (into.new.items ≡ into.old.items) }
        ensures counts { Counted Fetch name.now (faults self.old) (faults self.new) result };

    /// Makes the file hold exactly these bytes; every other file is as before. After Failed the file may hold any bytes,
    /// after want of memory every file is as before.
    fn store(&mut self, name: &str, bytes: &[u8]) -> Result<(), ShelfFault>
        ensures stored { OnOk result (Stores (files self.old) (files self.new) name.now bytes.now) }
        ensures failed { result ≡ Err ShelfFault.Failed → KeepsOthers (files self.old) (files self.new) name.now }
        ensures memory { result ≡ Err ShelfFault.Memory → files self.new ≡ files self.old }
        ensures counts { Counted Store name.now (faults self.old) (faults self.new) result };
}

/// Output. It counts its faults, and the count never falls.
pub trait Sink {
    /// What was written, where the sink tells it.
    ghost written: { Self → Option (List ℕ) };

    /// How many writes failed, or the greatest number of 64 bits.
    ghost faults: { Self → ℕ };

    /// Appends the whole piece; after a refusal a prefix of it was appended. After Failed the count rose, or stands at
    /// its greatest value.
    fn write(&mut self, bytes: &[u8]) -> Result<(), SinkFault>
        ensures all { OnOk result (Appends (written self.old) (written self.new) bytes.now) }
        ensures part { OnErr result (AppendsPart (written self.old) (written self.new) bytes.now) }
        ensures cause { SinkCause (faults self.old) (faults self.new) result };
}
