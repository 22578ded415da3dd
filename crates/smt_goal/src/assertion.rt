//! Commands that read a term, and the goals that they ask.

ghost use Rattle.std.specs.Prelude.{◌≡◌, ◌<◌, ◌∷◌, [], length, map, OnOk, Ok};
ghost use Rattle.smt_lex.specs.Place.{place};
ghost use Rattle.term_table.specs.Meaning.{meanings};
ghost use Rattle.smt_term.specs.Terms.{term};
ghost use Rattle.smt_term.specs.View.{part, GivesOne};
ghost use Rattle.smt_goal.specs.Command as spec;
ghost use Rattle.smt_goal.specs.Session.{state_seen, IsReady, Obeys, Remains, formula_at, with_assertion};

use crate::info::fault_at;
use crate::session::{Question, Session};
use lin_truth::VarSort;
use smt_term::{Seen, bad, part_of};
use smt_tree::Expr;
use sqlite_items::Items;
use ss_names::{FaultKind, ScriptFault};
use term_table::{Node, Variadic};

impl<'a> Session<'a> {
    // A term over the constants.
    fn term(&mut self, expr: &Expr<'a>) -> Result<Seen, ScriptFault>
        requires { IsReady self.old }
        ensures gives { GivesOne self.old.reader.table (term (spec.scope_of (state_seen self.old)) (part expr.now)) result self.new.reader.table }
        ensures keeps { OnOk result (Remains self.old self.new) }
    {
        match self.reader.term(expr) {
            Ok(seen) => Ok(seen),
            Err(fault) => Err(fault),
        }
    }

    // Adds a formula to the assertions.
    fn add(&mut self, node: u32) -> Result<(), ScriptFault>
        requires ready { IsReady self.old }
        requires below { node < length self.old.reader.table }
        ensures { Obeys (Ok (with_assertion (state_seen self.old) (formula_at (meanings self.old.reader.table) node))) result self.new }
    {
        match self.asserted.push(node) {
            Ok(_) => Ok(()),
            Err(_) => Err(ScriptFault::Memory),
        }
    }

    // A formula.
    fn assert_one(&mut self, expr: &Expr<'a>) -> Result<(), ScriptFault>
        requires { IsReady self.old }
        ensures { Obeys (spec.assert_of (state_seen self.old) (place 0 0) (part expr.now ∷ [])) result self.new }
    {
        let seen = match self.term(expr) {
            Ok(seen) => seen,
            Err(fault) => return Err(fault),
        };
        match seen.sort {
            VarSort::Bool => self.add(seen.node),
            VarSort::Number => Err(fault_at(FaultKind::Sort, part_of(expr))),
        }
    }

    /// `(assert t)`, from what stands behind the head.
    pub fn assert_formula(
        &mut self,
        items: &[Expr<'a>],
        line: u64,
        column: u64,
    ) -> Result<(), ScriptFault>
        requires { IsReady self.old }
        ensures { Obeys (spec.assert_of (state_seen self.old) (place line column) (map part items.now)) result self.new }
    {
        if items.len() != 1 {
            return Err(bad(FaultKind::Arity, line, column));
        }
        self.assert_one(&items[0])
    }

    // Asks for the conjunction of the assertions.
    fn ask(&mut self, line: u64, column: u64) -> Result<(), ScriptFault>
        requires { IsReady self.old }
        ensures { Obeys (spec.check_sat (state_seen self.old) (place line column) []) result self.new }
    {
        let parts = Items::from_slice(self.reader.alloc, self.asserted.as_slice())?;
        let root = match self.reader.table.add(Node::Several(Variadic::And, parts)) {
            Ok(root) => root,
            Err(_) => return Err(ScriptFault::Memory),
        };
        let consts = Items::from_slice(self.reader.alloc, self.consts.as_slice())?;
        let question = Question {
            sort: self.reader.logic,
            line,
            column,
            consts,
            root,
        };
        match self.goals.push(question) {
            Ok(_) => {}
            Err(_) => return Err(ScriptFault::Memory),
        }
        Ok(())
    }

    /// `(check-sat)`, from what stands behind the head.
    pub fn check_sat(
        &mut self,
        items: &[Expr<'a>],
        line: u64,
        column: u64,
    ) -> Result<(), ScriptFault>
        requires { IsReady self.old }
        ensures { Obeys (spec.check_sat (state_seen self.old) (place line column) (map part items.now)) result self.new }
    {
        if !items.is_empty() {
            return Err(bad(FaultKind::Arity, line, column));
        }
        self.ask(line, column)
    }
}
