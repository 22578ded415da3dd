//! Commands, one after the other.

ghost use Rattle.std.specs.Prelude.{◌≡◌, length, map};
ghost use Rattle.smt_lex.specs.Place.{place};
ghost use Rattle.smt_lex.specs.Tokens.{tokens};
ghost use Rattle.smt_tree.specs.Expressions.{expressions};
ghost use Rattle.smt_tree.specs.Seen.{seen};
ghost use Rattle.smt_term.specs.View.{part};
ghost use Rattle.smt_goal.specs.Command as spec;
ghost use Rattle.smt_goal.specs.Script.{obeyed_all};
ghost use Rattle.smt_goal.specs.Session.{state_seen, IsReady, Obeys, Reaches};

use crate::command::{Command, command_named, is_in_order};
use crate::info::{fault_at, set_info, set_option};
use crate::session::Session;
use smt_term::{Part, bad, part_of};
use smt_tree::{Expr, expressions_of};
use ss_names::{FaultKind, ScriptFault};
use std::alloc::Global;

impl<'a> Session<'a> {
    // A command that stands in order.
    #[tactic(auto, unfolding(crate::specs::Command::obeyed))]
    fn obey(
        &mut self,
        command: Command,
        items: &[Expr<'a>],
        line: u64,
        column: u64,
    ) -> Result<(), ScriptFault>
        requires { IsReady self.old }
        ensures { Obeys (spec.obeyed command (state_seen self.old) (place line column) (map part items.now)) result self.new }
    {
        match command {
            Command::SetInfo => set_info(items, line, column),
            Command::SetOption => set_option(items, line, column),
            Command::SetLogic => self.set_logic(items, line, column),
            Command::DeclareConst => self.declare_const(items, line, column),
            Command::DeclareFun => self.declare_fun(items, line, column),
            Command::DefineFun => self.define_fun(items, line, column),
            Command::Assert => self.assert_formula(items, line, column),
            Command::CheckSat => self.check_sat(items, line, column),
            Command::Exit => self.exit(items, line, column),
        }
    }

    // A command, or None where the head names none.
    fn ordered(
        &mut self,
        command: Option<Command>,
        items: &[Expr<'a>],
        line: u64,
        column: u64,
    ) -> Result<(), ScriptFault>
        requires { IsReady self.old }
        ensures { Obeys (spec.in_order (state_seen self.old) (place line column) command (map part items.now)) result self.new }
    {
        let command = match command {
            None => {
                return Err(bad(FaultKind::Command, line, column));
            }
            Some(command) => command,
        };
        if !is_in_order(command, !self.goals.is_empty(), self.logic.is_some()) {
            return Err(bad(FaultKind::Order, line, column));
        }
        self.obey(command, items, line, column)
    }

    // What stands in the parentheses of a command.
    fn headed(&mut self, items: &[Expr<'a>], line: u64, column: u64) -> Result<(), ScriptFault>
        requires { IsReady self.old }
        ensures { Obeys (spec.headed (state_seen self.old) (place line column) (map part items.now)) result self.new }
    {
        match items {
            [] => Err(bad(FaultKind::Command, line, column)),
            [head, rest @ ..] => match part_of(head) {
                Part::Token(token) => self.ordered(command_named(&token), rest, line, column),
                Part::Group(_, _, _) => Err(bad(FaultKind::Command, line, column)),
            },
        }
    }

    /// An expression as a command. After a fault nothing is said of the session.
    pub fn command(&mut self, expr: &Expr<'a>) -> Result<(), ScriptFault>
        requires { IsReady self.old }
        ensures { Obeys (spec.command (state_seen self.old) (seen expr.now)) result self.new }
    {
        let part = part_of(expr);
        match part {
            Part::Token(_) => Err(fault_at(FaultKind::Unclosed, part)),
            Part::Group(line, column, items) => self.headed(items, line, column),
        }
    }
}

/// The commands of a script up to its end, its `exit` or its first fault.
pub fn all_commands(alloc: Global, bytes: &[u8]) -> Result<Session<'_>, ScriptFault>
    ensures { Reaches (obeyed_all spec.start (expressions (tokens bytes.now))) result }
{
    let mut session = Session::new(alloc);
    let mut left = expressions_of(alloc, bytes);
    while let Some(found) = left.next() {
        let expr = match found {
            Ok(expr) => expr,
            Err(fault) => return Err(fault),
        };
        match session.command(&expr) {
            Ok(_) => {}
            Err(fault) => return Err(fault),
        }
        if session.ended {
            return Ok(session);
        }
    }
    Ok(session)
}
