//! A stack of names. Each look-up and each change takes on average the same time, however many names there are: a hash
//! table has the newest row of each name, and a row has the one that it hides.

ghost use Rattle.std.specs.Prelude.{◌≡◌, ◌∷◌, ◌-◌, [], length, drop, OnOk, OnErr, IfErr};
ghost use Rattle.ss_names.specs.declared.ScriptFault.TheVariants.{Memory};
ghost use Rattle.symbol_table.specs.Names.{looked_up};

use indexmap::IndexMap;
use lin_truth::VarSort;
use ss_names::ScriptFault;
use std::alloc::Global;
use std::marker::Model;

/// What a name stands for: a term of this sort at this place of the table of terms, and the place of the sorts of its
/// parameters among the signatures.
#[derive(Clone, Copy, Debug)]
pub struct Known {
    pub sort: VarSort,
    pub node: u32,
    pub signature: u32,
}

/// A name, and what it stands for.
#[derive(Clone, Copy, Debug)]
pub struct Row<'a> {
    name: &'a [u8],
    known: Known,
    // one more than the row that this one hides, or 0
    hidden: u32,
}

/// Names and what they stand for. Contracts see them as a list, the newest first.
#[derive(Drop)]
pub struct Names<'a> {
    rows: Vec<Row<'a>>,
    // one more than the newest row of each name, or 0
    newest: IndexMap<&'a [u8], u32>,
}

impl<'a> Model for Names<'a> {
    ghost use Rattle.std.specs.Prelude.{ℕ, List};
    ghost use Rattle.symbol_table.specs.declared.names.Known.{Known};
    ghost use Rattle.symbol_table.specs.Names.{names_of, IsIndex};

    ghost Value = { List (List ℕ × Known) };

    ghost view = { λ n. names_of n.rows.items };

    ghost invariant = { λ n. IsIndex n.rows.items n.newest.entries };
}

impl<'a> Names<'a> {
    /// No names.
    pub fn new(alloc: Global) -> Names<'a>
        ensures { result ≡ [] }
    {
        Names {
            rows: Vec::new(alloc),
            newest: IndexMap::new(alloc),
        }
    }

    /// How many names there are, the hidden ones among them.
    pub fn len(&self) -> usize
        ensures { result ≡ length self.now }
    {
        self.rows.len()
    }

    /// What the newest name that is spelled so stands for; None exactly where there is none.
    pub fn find(&self, name: &[u8]) -> Option<Known>
        ensures { result ≡ looked_up self.now name.now }
    {
        let row = match self.newest.get(&name) {
            None => return None,
            Some(row) => *row,
        };
        if row == 0 {
            return None;
        }
        Some(self.rows[row as usize - 1].known)
    }

    /// Adds a name, which hides those that are spelled alike. Refuses only for memory, and then the names are as
    /// before.
    pub fn push(&mut self, name: &'a [u8], known: Known) -> Result<(), ScriptFault>
        ensures ok { OnOk result (self.new ≡ (name.entry.now, known) ∷ self.old) }
        ensures memory { IfErr result (λ e. e ≡ Memory) }
        ensures refused { OnErr result (self.new ≡ self.old) }
    {
        let row = self.rows.len();
        if row >= 4_294_967_295 {
            return Err(ScriptFault::Memory);
        }
        let hidden = match self.newest.get(&name) {
            None => 0,
            Some(row) => *row,
        };
        self.rows.push(Row {
            name,
            known,
            hidden,
        })?;
        match self.newest.insert(name, row as u32 + 1) {
            Ok(_) => Ok(()),
            Err(_) => {
                self.rows.pop();
                Err(ScriptFault::Memory)
            }
        }
    }

    // Takes the newest name away.
    fn pop(&mut self)
        ensures { self.new ≡ drop 1 self.old }
    {
        let row = match self.rows.pop() {
            None => return,
            Some(row) => row,
        };
        match self.newest.insert(row.name, row.hidden) {
            Ok(_) => {}
            Err(_) => {}
        }
    }

    /// Takes the newest names away until this many are left; where there are fewer, none.
    pub fn truncate(&mut self, len: usize)
        ensures { self.new ≡ drop (length self.old - len) self.old }
    {
        while self.len() > len {
            self.pop();
        }
    }
}
