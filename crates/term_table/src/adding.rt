//! The entry of a node.

ghost use Rattle.std.specs.Prelude.{◌≡◌, length, IfOk};
ghost use Rattle.term_table.specs.Meaning.{HasParts, meaning, meanings};
ghost use Rattle.term_table.specs.Form.{IsValue};
ghost use Rattle.term_table.specs.Entries.{nodes_of, row_in, IsKnown, AreEntries};

use crate::constant::known_of;
use crate::entry::Entry;
use crate::node::Node;
use crate::sizes::form_of;
use std::alloc::{AllocError, Global};

/// The entry of a node whose parts are in the table.
pub fn entry_of(alloc: Global, entries: &[Entry], node: Node) -> Result<Entry, AllocError>
    requires parts { HasParts (length entries.now) node }
    requires entries { AreEntries entries.now }
    ensures { IfOk result (λ e. (e.node ≡ node) × IsValue (λ s gs. row_in s entries.now gs node) e.form × IsKnown (meaning (meanings (nodes_of entries.now)) node) e.known) }
{
    let form = form_of(alloc, entries, &node)?;
    let size = form.size();
    let known = known_of(alloc, entries, &node, size)?;
    Ok(Entry { node, form, known })
}
