//! Commands that change nothing: infos and options.

ghost use Rattle.std.specs.Prelude.{◌≡◌, length, map};
ghost use Rattle.ss_names.specs.declared.ScriptFault.TheVariants.{Bad};
ghost use Rattle.smt_lex.specs.Place.{place};
ghost use Rattle.smt_term.specs.Reading.{part_place};
ghost use Rattle.smt_term.specs.View.{part, part_seen};
ghost use Rattle.smt_goal.specs.Command.{State};
ghost use Rattle.smt_goal.specs.Command as spec;
ghost use Rattle.smt_goal.specs.Session.{Passes};

use crate::setting::{is_keyword, is_offered};
use smt_term::{Part, bad, part_of};
use smt_tree::Expr;
use ss_names::{FaultKind, ScriptFault};

/// A fault of this kind at an expression.
pub fn fault_at(kind: FaultKind, part: Part<'_, '_>) -> ScriptFault
    ensures { result ≡ Bad kind (part_place (part_seen part.entry)).line (part_place (part_seen part.entry)).column }
{
    match part {
        Part::Token(token) => ScriptFault::Bad {
            kind,
            line: token.line,
            column: token.column,
        },
        Part::Group(line, column, _) => ScriptFault::Bad { kind, line, column },
    }
}

fn text_of<'a>(part: Part<'_, 'a>) -> &'a [u8]
    ensures { result.now ≡ spec.part_text (part_seen part.entry) }
{
    match part {
        Part::Group(_, _, _) => &[],
        Part::Token(token) => token.text,
    }
}

/// `(set-info k)` and `(set-info k v)`, from what stands behind the head.
pub fn set_info(items: &[Expr<'_>], line: u64, column: u64) -> Result<(), ScriptFault>
    ensures { (st : State) → Passes st (spec.set_info st (place line column) (map part items.now)) result }
{
    if items.len() != 1 && items.len() != 2 {
        return Err(bad(FaultKind::Arity, line, column));
    }
    let key = part_of(&items[0]);
    if !is_keyword(key) {
        return Err(fault_at(FaultKind::Sort, key));
    }
    Ok(())
}

/// `(set-option k v)`, from what stands behind the head.
pub fn set_option(items: &[Expr<'_>], line: u64, column: u64) -> Result<(), ScriptFault>
    ensures { (st : State) → Passes st (spec.set_option st (place line column) (map part items.now)) result }
{
    if items.len() != 2 {
        return Err(bad(FaultKind::Arity, line, column));
    }
    let key = part_of(&items[0]);
    if !is_keyword(key) {
        return Err(fault_at(FaultKind::Sort, key));
    }
    if !is_offered(text_of(key), part_of(&items[1])) {
        return Err(bad(FaultKind::Setting, line, column));
    }
    Ok(())
}
