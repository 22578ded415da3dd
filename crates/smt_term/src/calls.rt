//! Operators and definitions at their arguments, with what is known of these as constant terms.

ghost use Rattle.std.specs.Prelude.{◌≡◌, ◌<◌, length, OnOk, IfOk};
ghost use Rattle.smt_lex.specs.Place.{place};
ghost use Rattle.term_table.specs.Meaning.{meanings};
ghost use Rattle.smt_term.specs.Apply as spec;
ghost use Rattle.smt_term.specs.View.{typed_at, all_at, worths_at, entry_at, AreAsked, AreIn, GivesOne};
ghost use Rattle.smt_term.specs.Reads.{Keeps};

use crate::apply::{application, checked, expansion};
use crate::operator::{Linear, Operator};
use crate::reader::{Reader, signature_of};
use crate::seen::Seen;
use ss_names::ScriptFault;
use std::alloc::{AllocError, Global};
use symbol_table::Known;
use term_table::{Table, Worth};

// What is known of each as a constant term.
fn worths_of(alloc: Global, table: &Table, args: &[Seen]) -> Result<Vec<Worth>, AllocError>
    requires { AreIn (length table.now) args.now }
    ensures { IfOk result (λ worths. worths.items ≡ worths_at (meanings table.now) args.now) }
{
    let mut worths = Vec::new(alloc);
    for arg in args {
        worths.push(table.worth(arg.node))?;
    }
    Ok(worths)
}

// The same, where the operator looks at it.
fn asked(
    alloc: Global,
    table: &Table,
    linear: Linear,
    args: &[Seen],
) -> Result<Vec<Worth>, AllocError>
    requires { AreIn (length table.now) args.now }
    ensures { IfOk result (λ worths. AreAsked linear worths.items (worths_at (meanings table.now) args.now)) }
{
    match linear {
        Linear::Free => Ok(Vec::new(alloc)),
        Linear::Factors => worths_of(alloc, table, args),
        Linear::Divisors => worths_of(alloc, table, args),
    }
}

// An application that was read, which is not wide.
fn kept(table: &Table, seen: Seen, line: u64, column: u64) -> Result<Seen, ScriptFault>
    requires { seen.node < length table.now }
    ensures { GivesOne table.now (spec.checked (place line column) (typed_at (meanings table.now) seen)) result table.now }
{
    checked(table, seen, table.worth(seen.node), line, column)
}

impl<'a> Reader<'a> {
    /// An operator at its arguments.
    pub fn operated(
        &mut self,
        op: Operator,
        args: &[Seen],
        line: u64,
        column: u64,
    ) -> Result<Seen, ScriptFault>
        requires { AreIn (length self.old.table) args.now }
        ensures gives { GivesOne self.old.table (spec.operated op (place line column) (all_at (meanings self.old.table) args.now)) result self.new.table }
        ensures keeps { OnOk result (Keeps self.old self.new) }
    {
        let worths = match asked(self.alloc, &self.table, op.linear, args) {
            Ok(worths) => worths,
            Err(_) => return Err(ScriptFault::Memory),
        };
        let given = application(
            self.alloc,
            &mut self.table,
            op,
            args,
            worths.as_slice(),
            line,
            column,
        );
        let seen = match given {
            Ok(seen) => seen,
            Err(fault) => return Err(fault),
        };
        kept(&self.table, seen, line, column)
    }

    /// A definition at its arguments.
    pub fn used(
        &mut self,
        known: Known,
        args: &[Seen],
        line: u64,
        column: u64,
    ) -> Result<Seen, ScriptFault>
        requires known { known.node < length self.old.table }
        requires args { AreIn (length self.old.table) args.now }
        ensures gives { GivesOne self.old.table (spec.use_of (entry_at (meanings self.old.table) self.old.signatures.items known) (place line column) (all_at (meanings self.old.table) args.now)) result self.new.table }
        ensures keeps { OnOk result (Keeps self.old self.new) }
    {
        let params = signature_of(&self.signatures, known.signature);
        let body = Seen {
            sort: known.sort,
            node: known.node,
        };
        let given = expansion(
            self.alloc,
            &mut self.table,
            params,
            body,
            args,
            line,
            column,
        );
        let seen = match given {
            Ok(seen) => seen,
            Err(fault) => return Err(fault),
        };
        kept(&self.table, seen, line, column)
    }
}
