//! A whole file.

ghost use Rattle.std.specs.Prelude.{◌≡◌, IfOk, Err};
ghost use Rattle.ss_shelf.specs.Outside.{Tells};
ghost use Rattle.script_games.specs.Told.{ReadCounted};

use ss_shelf::{Shelf, ShelfFault};
use std::alloc::Global;

/// The bytes of the file of this name. Failed comes only where the count of its fetches rose.
pub fn fetch_all<S: Shelf>(alloc: Global, shelf: &mut S, name: &str) -> Result<Vec<u8>, ShelfFault>
    ensures same { S.files shelf.new ≡ S.files shelf.old }
    ensures bytes { IfOk result (λ bytes. Tells (S.files shelf.old) name.now bytes.items) }
    ensures counts { ReadCounted (λ n. n ≡ name.now) (S.faults shelf.old) (S.faults shelf.new) (result ≡ Err ShelfFault.Failed) }
{
    let mut bytes = Vec::new(alloc);
    match shelf.fetch(name, &mut bytes) {
        Ok(()) => Ok(bytes),
        Err(ShelfFault::Failed) => Err(ShelfFault::Failed),
        Err(ShelfFault::Memory) => Err(ShelfFault::Memory),
    }
}
