//! Notes on versions that are not attacked further.

ghost use Rattle.std.specs.Prelude.{◌≡◌, ◌↔◌, ◌<◌, IsTrue, IfOk, OnErr, length};
ghost use Rattle.dom_core.specs.Problem.{problem_of};
ghost use Rattle.game_tree.specs.View.{skeleton_of};
ghost use Rattle.lose_system.specs.Losing.{system};
ghost use Rattle.game_board.specs.declared.entry.Entry.TheVariants as entry;
ghost use Rattle.game_board.specs.Entries.{IsWide, wideness_of};
ghost use Rattle.game_board.specs.Board.{with_entry};
ghost use Rattle.game_board.specs.Replies.{IsUndecided, BelongsTo, IsOnVersion, IsNotedAlready, Notes};

use crate::belonging::belongs;
use crate::board::Board;
use crate::entry::Entry;
use crate::reply::Noted;
use crate::why::WideNote;
use dom_core::Domain;
use lin_term::Memory;
use std::alloc::Global;

impl<D: Domain> Board<D> {
    /// Whether the note names this version, its side has the version, and what it says belongs to the version's losing system.
    /// It refuses only for memory.
    fn is_on_version(&self, alloc: Global, note: &WideNote<D>, version: u32) -> Result<bool, Memory>
        ensures { IfOk result (λ b. IsTrue b ↔ IsOnVersion D.SORT self.now note.now version) }
    {
        if note.version != version {
            return Ok(false);
        }
        let half = self.halves.of(note.side);
        match half.grown.view(version) {
            Some(view) => belongs(alloc, &half.problem, &view, &note.why),
            None => Ok(false),
        }
    }

    /// The note is an entry.
    fn add_note(&mut self, note: WideNote<D>, version: u32)
        requires playing { IsUndecided D.SORT self.old }
        requires on { IsOnVersion D.SORT self.old note version }
        requires wide { IsWide D.SORT (wideness_of note.why) }
        requires first { ¬ IsNotedAlready D.SORT self.old note.side version }
        ensures { self.new ≡ with_entry self.old (entry.Noted note.side version note.why) }
    {
        let WideNote {
            side,
            version: _version,
            why,
        } = note;
        self.halves.mark(side, version);
        let entry = Entry::Noted { side, version, why };
        self.history.push_reserved(entry);
    }

    /// A note on a version of its side. Over exactly where a verdict stands; then Foreign exactly where the note's version is
    /// not the named one, its side has no such version, or a literal of its cube, or the number of values of its point, does
    /// not belong to the version's losing system. These change nothing. Kept otherwise: the first note on a version adds one
    /// entry, a later one changes nothing. Want of memory changes nothing.
    pub fn note(&mut self, alloc: Global, note: WideNote<D>, version: u32) -> Result<Noted, Memory>
        ensures noted { IfOk result (λ r. Notes D.SORT self.old note version r self.new) }
        ensures kept { OnErr result (self.new ≡ self.old) }
    {
        if self.is_over() {
            return Ok(Noted::Over);
        }
        let on_version = self.is_on_version(alloc, &note, version)?;
        if !on_version {
            return Ok(Noted::Foreign);
        }
        if self.halves.of(note.side).is_noted(version) {
            return Ok(Noted::Kept);
        }
        let _wide = note.why.number();
        self.add_note(note, version);
        Ok(Noted::Kept)
    }
}
