//! The commands that are read, and their order.

ghost use Rattle.std.specs.Prelude.{◌≡◌, slice_get};
ghost use Rattle.smt_lex.specs.Lexeme.{lexeme};
ghost use Rattle.smt_goal.specs.Command as spec;

use smt_lex::{Token, TokenKind};
use ss_names::commands;

/// A command of a script (SMT-LIB 2.6, section 3.9).
#[derive(Clone, Copy, Debug, PartialEq, Eq)]
pub enum Command {
    SetInfo,
    SetOption,
    SetLogic,
    DeclareConst,
    DeclareFun,
    DefineFun,
    Assert,
    CheckSat,
    Exit,
}

// The command of each row of the table of commands.
fn command_at(row: usize) -> Option<Command>
    ensures { result ≡ slice_get spec.commands row }
{
    let all = [
        Command::SetInfo,
        Command::SetOption,
        Command::SetLogic,
        Command::DeclareConst,
        Command::DeclareFun,
        Command::DefineFun,
        Command::Assert,
        Command::CheckSat,
        Command::Exit,
    ];
    match all.get(row) {
        None => None,
        Some(command) => Some(*command),
    }
}

fn command_spelled(name: &[u8]) -> Option<Command>
    ensures { result ≡ spec.command_spelled name.now }
{
    let row = match commands().find_bytes(name) {
        None => return None,
        Some(row) => row,
    };
    command_at(row)
}

/// The command that the head of a list names; None exactly where the token is no unquoted symbol, or spells none of the
/// nine commands.
pub fn command_named(token: &Token<'_>) -> Option<Command>
    ensures { result ≡ spec.command_named (lexeme token.now) }
{
    match token.kind {
        TokenKind::Symbol => command_spelled(token.text),
        _ => None,
    }
}

/// Whether a command needs a logic that is set: all but infos, options, `set-logic` and `exit`.
pub fn needs_logic(command: Command) -> bool
    ensures { result ≡ spec.needs_logic command }
{
    match command {
        Command::SetInfo => false,
        Command::SetOption => false,
        Command::SetLogic => false,
        Command::Exit => false,
        Command::DeclareConst => true,
        Command::DeclareFun => true,
        Command::DefineFun => true,
        Command::Assert => true,
        Command::CheckSat => true,
    }
}

/// Whether a command may stand behind a check-sat: infos, options and `exit`.
pub fn may_follow(command: Command) -> bool
    ensures { result ≡ spec.may_follow command }
{
    match command {
        Command::SetInfo => true,
        Command::SetOption => true,
        Command::Exit => true,
        Command::SetLogic => false,
        Command::DeclareConst => false,
        Command::DeclareFun => false,
        Command::DefineFun => false,
        Command::Assert => false,
        Command::CheckSat => false,
    }
}

fn sets_logic(command: Command) -> bool
    ensures { result ≡ spec.sets_logic command }
{
    match command {
        Command::SetLogic => true,
        Command::SetInfo => false,
        Command::SetOption => false,
        Command::Exit => false,
        Command::DeclareConst => false,
        Command::DeclareFun => false,
        Command::DefineFun => false,
        Command::Assert => false,
        Command::CheckSat => false,
    }
}

/// Whether a command may stand where it does, behind a check-sat or not, and with a logic that is set or not: behind a
/// check-sat if it may follow one, with a logic if it does not set one, and without one if it needs none.
pub fn is_in_order(command: Command, has_goal: bool, has_logic: bool) -> bool
    ensures { result ≡ spec.fits_order has_goal has_logic command }
{
    if has_goal && !may_follow(command) {
        return false;
    }
    if has_logic {
        !sets_logic(command)
    } else {
        !needs_logic(command)
    }
}
