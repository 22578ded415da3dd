//! The disjunction that a line `learn` adds, which all facts that stand for it share.

ghost use Rattle.std.specs.Prelude.{◌≡◌, ◌<◌, ◌∷◌, [], ◌++◌, length, slice_get, option_map, IfOk, IfSome, OnOk};

use lin_term::{Lit, Memory};
use sqlite_items::Items;
use std::alloc::Global;
use std::marker::Model;
use std::rc::Rc;

/// The disjunction of its literals. Each is held once, however many facts read it.
#[derive(Drop)]
pub struct Clause {
    literals: Items<Rc<Lit>>,
}

impl Model for Clause {
    ghost use Rattle.std.specs.Prelude.{List, map};
    ghost use Rattle.lin_term.specs.declared.Lit.{Lit};

    ghost Value = { List Lit };

    ghost view = { λ c. map (λ l. l.value) c.literals };
}

impl Clause {
    /// No literal.
    pub fn new(alloc: Global) -> Clause
        ensures { result ≡ [] }
    {
        Clause {
            literals: Items::new(alloc),
        }
    }

    /// One more literal; refuses only for memory.
    pub fn push(&mut self, literal: Rc<Lit>) -> Result<(), Memory>
        ensures { OnOk result (self.new ≡ self.old ++ literal.value ∷ []) }
    {
        self.literals.push(literal)?;
        Ok(())
    }

    /// How many literals there are.
    pub fn len(&self) -> usize
        ensures { result ≡ length self.now }
    {
        self.literals.len()
    }

    /// The literal in this place, counted from 0, where there is one; it is not copied. It refuses only for memory.
    pub fn literal(&self, place: usize) -> Result<Option<Rc<Lit>>, Memory>
        ensures value { IfOk result (λ o. option_map (λ l. l.value) o ≡ slice_get self.now place) }
    {
        match self.literals.get(place) {
            Some(literal) => Ok(Some(literal.clone()?)),
            None => Ok(None),
        }
    }
}
