//! How many versions were added.

ghost use Rattle.std.specs.Prelude.{◌≡◌, ◌≤◌};
ghost use Rattle.game_board.specs.Entries.{entry_of, entries_of};
ghost use Rattle.solve_texts.specs.Tally.{added_by, added_in};

use dom_core::Domain;
use game_board::Entry;

/// 1 for an entry that added a version, 0 for any other.
fn added<D: Domain>(entry: &Entry<D>) -> u64
    ensures value { result ≡ added_by (entry_of entry.now) }
    ensures small { result ≤ 1 }
{
    match entry {
        Entry::Added { .. } => 1,
        Entry::Held { .. } => 0,
        Entry::Spent { .. } => 0,
        Entry::TooLarge { .. } => 0,
        Entry::Noted { .. } => 0,
        Entry::Won { .. } => 0,
        Entry::Found { .. } => 0,
    }
}

/// How many of the entries added a version.
pub fn rounds_in<D: Domain>(entries: &[Entry<D>]) -> u64
    ensures { result ≡ added_in (entries_of entries.now) }
{
    let mut rounds: u64 = 0;
    for entry in entries {
        rounds += added(entry);
    }
    rounds
}
