//! Conjunctions of literals.

ghost use Rattle.std.specs.Prelude.{◌≡◌, IfOk, OnErr};
ghost use Rattle.lin_term.specs.declared.Lit.{Lit as a_literal};
ghost use Rattle.lin_term.specs.Form.{IsRow};
ghost use Rattle.lin_term.specs.Literal.{form_of};
ghost use Rattle.lin_term.specs.Wide.{Capped, lit_numbers};
ghost use Rattle.dom_core.specs.Adding.{AddsLit};
ghost use Rattle.dom_core.specs.Reduced.{AreRows};

use lin_term::{Lit, Memory, Short, Wide};
use sqlite_items::Items;
use std::alloc::Global;
use std::marker::Model;

/// A conjunction of literals, in order, repeated ones too. The cube without literals is true. Each literal's form is a
/// row.
#[derive(Debug, Drop)]
pub struct Cube {
    lits: Items<Lit>,
}

impl Model for Cube {
    ghost use Rattle.std.specs.Prelude.{List};
    ghost use Rattle.lin_term.specs.declared.Lit.{Lit};
    ghost use Rattle.dom_core.specs.Reduced.{AreRows};

    ghost Value = { List Lit };

    ghost view = { λ c. c.lits };

    ghost invariant = { λ c. AreRows c.lits };
}

/// What is read of rows says that they are rows.
fn read_rows(lits: &[Lit])
    ensures { AreRows lits.now }
{
    for lit in lits {
        read_row(lit);
    }
}

/// What is read of a literal's row says that it is one.
fn read_row(lit: &Lit)
    ensures { IsRow (form_of lit.now) }
{
    let row = lit.row();
    let _terms = row.coefs();
    let _constant = row.constant_part();
}

impl Cube {
    /// The cube of these literals.
    pub fn from_lits(lits: Items<Lit>) -> Cube
        ensures { result ≡ lits }
    {
        read_rows(lits.as_slice());
        Cube { lits }
    }

    /// The literals in order, each one's form a row.
    pub fn lits(&self) -> &[Lit]
        ensures value { result.now ≡ self.now }
        ensures rows { AreRows result.now }
    {
        self.lits.as_slice()
    }

    /// The literals, taken out.
    pub fn into_lits(self) -> Items<Lit>
        ensures { result ≡ self }
    {
        let Cube { lits } = self;
        lits
    }

    /// An equal cube; refuses only for memory.
    pub fn copy(&self, alloc: Global) -> Result<Cube, Memory>
        ensures { IfOk result (λ c. c ≡ self.now) }
    {
        let mut lits = Items::new(alloc);
        for lit in self.lits.as_slice() {
            lits.push(lit.copy(alloc)?)?;
        }
        Ok(Cube { lits })
    }
}

/// Adds a literal to the others where it could be made, and else says why it could not. Besides it refuses only for
/// memory; a refusal leaves the others as they are.
pub fn add_made(out: &mut Items<Lit>, made: Result<Lit, Short<Wide>>) -> Result<(), Short<Wide>>
    ensures adds { (l : a_literal) → Capped (lit_numbers l) l made → AddsLit out.old out.new l result }
    ensures err { OnErr result (out.new ≡ out.old) }
{
    match made {
        Ok(lit) => match out.push(lit) {
            Ok(()) => Ok(()),
            Err(_) => Err(Short::Memory),
        },
        Err(fault) => Err(fault),
    }
}
