//! The tables of the words that a script and a proof are written in.

ghost use Rattle.std.specs.Prelude.{◌≡◌, map};
ghost use Rattle.ss_names.specs.Kind.{kinds, kind_number, kind_name};
ghost use Rattle.ss_names.specs.Table.{words};
ghost use Rattle.ss_names.specs.Vocabulary as spec;

use crate::table::Names;

// Rows of a word and its code.
macro_rules! table {
    ($word:literal => $code:literal $(, $more:literal => $others:literal)* $(,)?) => {
        Names::new(
            concat!($word $(, $more)*),
            [$word.len() $(, $more.len())*],
            [$code $(, $others)*],
        )
    };
}

/// The words that bind names in a term: `let`, `forall` and `exists`, with the codes 0, 1 and 2.
pub fn binders() -> Names<3>
    ensures words { words result ≡ spec.binder_words }
    ensures codes { result.codes ≡ spec.binder_codes }
{
    table! { "let" => 0, "forall" => 1, "exists" => 2 }
}

/// `true`, `false` and the operators. The code is 0 in every logic, 1 with Real alone, 2 with Int alone.
/// (SMT-LIB 2.6, theories Core, Reals and Ints.)
pub fn operators() -> Names<21>
    ensures words { words result ≡ spec.operator_words }
    ensures codes { result.codes ≡ spec.operator_codes }
{
    table! {
        "true" => 0,
        "false" => 0,
        "not" => 0,
        "and" => 0,
        "or" => 0,
        "xor" => 0,
        "=>" => 0,
        "=" => 0,
        "distinct" => 0,
        "ite" => 0,
        "<" => 0,
        "<=" => 0,
        ">" => 0,
        ">=" => 0,
        "+" => 0,
        "-" => 0,
        "*" => 0,
        "/" => 1,
        "div" => 2,
        "mod" => 2,
        "abs" => 2,
    }
}

/// The commands that are read. The code is 0 where the command may stand anywhere, 1 for the one that sets the
/// logic, and 2 where it stands behind that one. (SMT-LIB 2.6, section 3.9.)
pub fn commands() -> Names<9>
    ensures words { words result ≡ spec.command_words }
    ensures codes { result.codes ≡ spec.command_codes }
{
    table! {
        "set-info" => 0,
        "set-option" => 0,
        "set-logic" => 1,
        "declare-const" => 2,
        "declare-fun" => 2,
        "define-fun" => 2,
        "assert" => 2,
        "check-sat" => 2,
        "exit" => 0,
    }
}

/// The reserved words, which are no names unless they are quoted. The code is 0 for a word of the language and 1 for
/// the name of a command. (SMT-LIB 2.6, section 3.1.)
pub fn reserved_words() -> Names<24>
    ensures words { words result ≡ spec.reserved_words }
    ensures codes { result.codes ≡ spec.reserved_codes }
{
    table! {
        "_" => 0,
        "!" => 0,
        "as" => 0,
        "let" => 0,
        "exists" => 0,
        "forall" => 0,
        "match" => 0,
        "par" => 0,
        "BINARY" => 0,
        "DECIMAL" => 0,
        "HEXADECIMAL" => 0,
        "NUMERAL" => 0,
        "STRING" => 0,
        "set-info" => 1,
        "set-option" => 1,
        "set-logic" => 1,
        "declare-const" => 1,
        "declare-fun" => 1,
        "define-fun" => 1,
        "assert" => 1,
        "check-sat" => 1,
        "exit" => 1,
        "push" => 1,
        "pop" => 1,
    }
}

/// The logics that are read. The code is 0 where numbers are reals, and 1 where they are integers.
pub fn logics() -> Names<4>
    ensures words { words result ≡ spec.logic_words }
    ensures codes { result.codes ≡ spec.logic_codes }
{
    table! { "LRA" => 0, "QF_LRA" => 0, "LIA" => 1, "QF_LIA" => 1 }
}

/// The printed names of the kinds of faults, each with its number.
pub fn fault_kinds() -> Names<15>
    ensures words { words result ≡ map kind_name kinds }
    ensures codes { result.codes ≡ map kind_number kinds }
{
    table! {
        "Token" => 1,
        "Unclosed" => 2,
        "Command" => 3,
        "Logic" => 4,
        "Symbol" => 5,
        "Sort" => 6,
        "Arity" => 7,
        "Linear" => 8,
        "Divisor" => 9,
        "Number" => 10,
        "Size" => 11,
        "Variables" => 12,
        "Order" => 13,
        "Setting" => 14,
        "Depth" => 15,
    }
}

/// The rules that a line of a proof names. The code is 1 where the line closes its context, and 0 where the proof
/// goes on in it.
pub fn proof_rules() -> Names<9>
    ensures words { words result ≡ spec.rule_words }
    ensures codes { result.codes ≡ spec.rule_codes }
{
    table! {
        "path" => 0,
        "def" => 0,
        "part" => 0,
        "cases" => 1,
        "sum" => 0,
        "split" => 1,
        "cube" => 0,
        "least" => 1,
        "false" => 1,
    }
}
