//! The calls of a shelf that failed, as its counts.

ghost use Rattle.std.specs.Prelude.{◌≡◌, ◌<◌, ◌++◌, ◌∷◌, [], OnOk, IfOk, Err, string_bytes, vec_len, vec_capacity};
ghost use Rattle.ss_shelf.specs.Calls.{count_of};
ghost use Rattle.ss_shelf.specs.Outside.{Counted};
ghost use Rattle.ss_shelf.specs.declared.outside.ShelfFault.TheVariants.{Failed};

use crate::outside::{CallKind, ShelfFault};
use std::alloc::{AllocError, Global};

/// A call that failed.
#[derive(Debug, Drop)]
pub struct FailedCall {
    pub kind: CallKind,
    pub name: String,
}

/// The calls that failed, in order.
#[derive(Debug, Drop)]
pub struct Failures {
    pub calls: Vec<FailedCall>,
}

impl Failures {
    /// No call failed yet.
    pub fn new(alloc: Global) -> Failures
        ensures { result.calls.items ≡ [] }
    {
        Failures {
            calls: Vec::new(alloc),
        }
    }

    /// Takes the room for an entry and makes the entry, of this kind and name. The list is as before. Refuses only for
    /// memory.
    pub fn prepare(
        &mut self,
        alloc: Global,
        kind: CallKind,
        name: &str,
    ) -> Result<FailedCall, AllocError>
        ensures same { self.new.calls.items ≡ self.old.calls.items }
        ensures entry { IfOk result (λ call. (call.kind ≡ kind) × (string_bytes call.name ≡ name.now)) }
        ensures room { OnOk result (vec_len self.new.calls < vec_capacity self.new.calls) }
    {
        let name = String::from_str(alloc, name)?;
        self.calls.reserve(1)?;
        Ok(FailedCall { kind, name })
    }

    /// Notes the failed call behind the others and answers Failed. There must be room for one more entry: `prepare`
    /// takes it. The count of the call's kind and name rises, and no other.
    #[tactic(auto, using(crate::proofs::Counting::counted_more))]
    pub fn fail(&mut self, call: FailedCall) -> ShelfFault
        requires room { vec_len self.old.calls < vec_capacity self.old.calls }
        ensures failed { result ≡ Failed }
        ensures noted { self.new.calls.items ≡ self.old.calls.items ++ call ∷ [] }
        ensures counted { Counted call.kind (string_bytes call.name) (count_of self.old.calls.items) (count_of self.new.calls.items) (Err Failed) }
    {
        self.calls.push_reserved(call);
        ShelfFault::Failed
    }
}
