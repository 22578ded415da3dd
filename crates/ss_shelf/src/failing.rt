//! A shelf and a sink that fail at chosen calls, for tests.

ghost use Rattle.std.specs.Prelude.{◌≡◌, ◌+◌, ◌-◌, ◌^◌, min, true, false, [], List, ℕ, OnOk, OnErr, IsErr, Err};
ghost use Rattle.ss_shelf.specs.Calls.{count_of};
ghost use Rattle.ss_shelf.specs.Failing.{is_due, OneMore};
ghost use Rattle.ss_shelf.specs.Outside.{plus_counts, Counted, Fetches, Stores, KeepsOthers, Appends, AppendsPart, SinkCause};
ghost use Rattle.ss_shelf.specs.declared.outside.CallKind.TheVariants.{Fetch, Store};
ghost use Rattle.ss_shelf.specs.declared.outside.SinkFault.TheVariants as sink;

use crate::failures::Failures;
use crate::outside::{CallKind, Shelf, ShelfFault, Sink, SinkFault};
use crate::turns::Turns;
use std::alloc::Global;

/// A shelf whose calls with given numbers, counted from 0, fail and do nothing else.
#[derive(Drop)]
pub struct FailingShelf<S: Shelf + Drop> {
    inner: S,
    alloc: Global,
    turns: Turns,
    failures: Failures,
}

impl<S: Shelf + Drop> FailingShelf<S> {
    /// The shelf `inner`, but for the calls with these numbers; no call came yet.
    pub fn new(alloc: Global, inner: S, numbers: Vec<u64>) -> FailingShelf<S>
        ensures held { result.inner ≡ inner }
        ensures numbers { result.turns.numbers.items ≡ numbers.items }
        ensures first { result.turns.calls ≡ 0 }
        ensures own { result.failures.calls.items ≡ [] }
    {
        FailingShelf {
            inner,
            alloc,
            turns: Turns::new(numbers),
            failures: Failures::new(alloc),
        }
    }

    /// The shelf that it holds.
    pub fn inner(&self) -> &S
        ensures { result.now ≡ self.now.inner }
    {
        &self.inner
    }
}

impl<S: Shelf + Drop> Shelf for FailingShelf<S> {
    ghost files = { λ s. S.files s.inner };

    ghost faults = { λ s. plus_counts (S.faults s.inner) (count_of s.failures.calls.items) };

    /// Appends the file's bytes as the shelf that it holds. Where this call's number is given it never succeeds and leaves
    /// that shelf as it was; any other call adds no failure of its own. It may also refuse for memory.
    #[tactic(auto, using(crate::proofs::Counting::plus_left, crate::proofs::Counting::plus_right))]
    fn fetch(&mut self, name: &str, into: &mut Vec<u8>) -> Result<(), ShelfFault>
        ensures same { S.files self.new.inner ≡ S.files self.old.inner }
        ensures bytes { OnOk result (Fetches (S.files self.old.inner) name.now into.old.items into.new.items) }
        ensures refused { OnErr result (into.new.items ≡ into.old.items) }
        ensures counts { Counted Fetch name.now (plus_counts (S.faults self.old.inner) (count_of self.old.failures.calls.items)) (plus_counts (S.faults self.new.inner) (count_of self.new.failures.calls.items)) result }
        ensures due { is_due self.old.turns ≡ true → IsErr result × (self.new.inner ≡ self.old.inner) }
        ensures undue { is_due self.old.turns ≡ false → self.new.failures.calls.items ≡ self.old.failures.calls.items }
        ensures turn { OneMore self.old.turns self.new.turns }
    {
        let is_due = self.turns.next_is_due();
        let Ok(entry) = self.failures.prepare(self.alloc, CallKind::Fetch, name) else {
            return Err(ShelfFault::Memory);
        };
        if is_due {
            return Err(self.failures.fail(entry));
        }
        self.inner.fetch(name, into)
    }

    /// Stores the bytes as the shelf that it holds. Where this call's number is given it never succeeds and leaves that
    /// shelf as it was; any other call adds no failure of its own. It may also refuse for memory.
    #[tactic(auto, using(crate::proofs::Counting::plus_left, crate::proofs::Counting::plus_right))]
    fn store(&mut self, name: &str, bytes: &[u8]) -> Result<(), ShelfFault>
        ensures stored { OnOk result (Stores (S.files self.old.inner) (S.files self.new.inner) name.now bytes.now) }
        ensures failed { result ≡ Err ShelfFault.Failed → KeepsOthers (S.files self.old.inner) (S.files self.new.inner) name.now }
        ensures memory { result ≡ Err ShelfFault.Memory → S.files self.new.inner ≡ S.files self.old.inner }
        ensures counts { Counted Store name.now (plus_counts (S.faults self.old.inner) (count_of self.old.failures.calls.items)) (plus_counts (S.faults self.new.inner) (count_of self.new.failures.calls.items)) result }
        ensures due { is_due self.old.turns ≡ true → IsErr result × (self.new.inner ≡ self.old.inner) }
        ensures undue { is_due self.old.turns ≡ false → self.new.failures.calls.items ≡ self.old.failures.calls.items }
        ensures turn { OneMore self.old.turns self.new.turns }
    {
        let is_due = self.turns.next_is_due();
        let Ok(entry) = self.failures.prepare(self.alloc, CallKind::Store, name) else {
            return Err(ShelfFault::Memory);
        };
        if is_due {
            return Err(self.failures.fail(entry));
        }
        self.inner.store(name, bytes)
    }
}

/// A sink whose calls with given numbers, counted from 0, fail and do nothing else.
#[derive(Drop)]
pub struct FailingSink<O: Sink + Drop> {
    inner: O,
    turns: Turns,
    faults: u64,
}

impl<O: Sink + Drop> FailingSink<O> {
    /// The sink `inner`, but for the calls with these numbers; no call came yet.
    pub fn new(inner: O, numbers: Vec<u64>) -> FailingSink<O>
        ensures held { result.inner ≡ inner }
        ensures numbers { result.turns.numbers.items ≡ numbers.items }
        ensures first { result.turns.calls ≡ 0 }
        ensures own { result.faults ≡ 0 }
    {
        FailingSink {
            inner,
            turns: Turns::new(numbers),
            faults: 0,
        }
    }
}

impl<O: Sink + Drop> Sink for FailingSink<O> {
    ghost written = { λ s. O.written s.inner };

    ghost faults = { λ s. O.faults s.inner + s.faults };

    /// Where this call's number is given it answers Failed and leaves the sink that it holds as it was. Any other call
    /// writes as that sink and adds no fault of its own.
    fn write(&mut self, bytes: &[u8]) -> Result<(), SinkFault>
        ensures all { OnOk result (Appends (O.written self.old.inner) (O.written self.new.inner) bytes.now) }
        ensures part { OnErr result (AppendsPart (O.written self.old.inner) (O.written self.new.inner) bytes.now) }
        ensures cause { SinkCause (O.faults self.old.inner + self.old.faults) (O.faults self.new.inner + self.new.faults) result }
        ensures due { is_due self.old.turns ≡ true → (result ≡ Err sink.Failed) × (self.new.inner ≡ self.old.inner) }
        ensures undue { is_due self.old.turns ≡ false → self.new.faults ≡ self.old.faults }
        ensures turn { OneMore self.old.turns self.new.turns }
    {
        if self.turns.next_is_due() {
            self.faults = self.faults.saturating_add(1);
            return Err(SinkFault::Failed);
        }
        self.inner.write(bytes)
    }
}
