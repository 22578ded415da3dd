//! The way down to a node.

ghost use Rattle.std.specs.Prelude.{◌≡◌, ◌++◌, slice_get, OnOk};
ghost use Rattle.lose_system.specs.Table.{places_of, above_at, route};

use crate::table::Node;
use lin_term::Memory;
use sqlite_items::Items;

/// The node above, 0 where there is none.
#[tactic(auto, using(crate::proofs::Seen::place_at))]
fn above_of(nodes: &[Node<'_>], node: u32) -> u32
    ensures { result ≡ above_at (slice_get (places_of nodes.now) node) }
{
    match nodes.get(node as usize) {
        Some(found) => found.above,
        None => 0,
    }
}

/// Adds the last `depth` nodes on the way down to `node`, the highest first. It calls itself once a level, at most 1,024
/// times. It refuses only for memory.
pub fn add_route(
    nodes: &[Node<'_>],
    depth: u32,
    node: u32,
    into: &mut Items<u32>,
) -> Result<(), Memory>
    ensures { OnOk result (into.new ≡ into.old ++ route depth (places_of nodes.now) node) }
{
    if depth == 0 {
        return Ok(());
    }
    let above = above_of(nodes, node);
    add_route(nodes, depth - 1, above, into)?;
    into.push(node)?;
    Ok(())
}
