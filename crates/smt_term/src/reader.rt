//! What is known where a term is read, and what single tokens say there.

ghost use Rattle.std.specs.Prelude.{◌≡◌, ◌<◌, length, OnOk, Bool, true, false};
ghost use Rattle.smt_lex.specs.Lexeme.{lexeme};
ghost use Rattle.smt_lex.specs.Place.{place};
ghost use Rattle.smt_term.specs.Terms as spec;
ghost use Rattle.smt_term.specs.Apply as applying;
ghost use Rattle.smt_term.specs.Scope.{signature_at};
ghost use Rattle.smt_term.specs.View.{GivesOne};
ghost use Rattle.smt_term.specs.Reads.{scope_seen, Fits, Keeps, GivesHead};

use crate::making::added;
use crate::number::{decimal, numeral};
use crate::operator::{Operator, Shape, operator_named};
use crate::part::bad;
use crate::seen::Seen;
use crate::word::{is_reserved, is_symbol, is_word};
use lin_term::Sort;
use lin_truth::VarSort;
use smt_lex::{Token, TokenKind};
use sqlite_items::Items;
use ss_names::{FaultKind, ScriptFault};
use std::alloc::Global;
use symbol_table::{Known, Names};
use term_table::{Leaf, Node, Quantifier, Table};

/// What is known where a term is read.
#[derive(Drop)]
pub struct Reader<'a> {
    pub alloc: Global,
    /// The sort of the logic's numbers.
    pub logic: Sort,
    /// The parts of all terms.
    pub table: Table,
    /// What the names stand for.
    pub names: Names<'a>,
    /// The sorts of the parameters of each definition.
    pub signatures: Vec<Items<VarSort>>,
    /// How many bindings are around.
    pub around: u32,
}

/// What the head of a list says.
#[derive(Clone, Copy, Debug)]
pub enum Head {
    Let,
    Binder(Quantifier),
    Annotation,
    Operator(Operator),
    Name(Known),
}

/// The sorts of the parameters at this place of the signatures, from 1; none at 0, and none past the last.
pub fn signature_of(signatures: &Vec<Items<VarSort>>, at: u32) -> &[VarSort]
    ensures { result.now ≡ signature_at signatures.now.items at }
{
    if at == 0 {
        return &[];
    }
    match signatures.get(at as usize - 1) {
        None => &[],
        Some(sorts) => sorts.as_slice(),
    }
}

fn truth_alone(table: &mut Table, is: bool) -> Result<Seen, ScriptFault>
    ensures { GivesOne table.old (applying.truth_alone is) result table.new }
{
    let leaf = if is { Leaf::True } else { Leaf::False };
    let node = match added(table, Node::Leaf(leaf)) {
        Ok(node) => node,
        Err(fault) => return Err(fault),
    };
    Ok(Seen {
        sort: VarSort::Bool,
        node,
    })
}

fn operator_alone(
    table: &mut Table,
    shape: Shape,
    line: u64,
    column: u64,
) -> Result<Seen, ScriptFault>
    ensures { GivesOne table.old (applying.alone shape (place line column)) result table.new }
{
    match shape {
        Shape::Truth(is) => truth_alone(table, is),
        _ => Err(bad(FaultKind::Arity, line, column)),
    }
}

impl<'a> Reader<'a> {
    // A symbol alone, which is no operator.
    fn entry_alone(&self, token: &Token<'a>) -> Result<Seen, ScriptFault>
        requires { Fits self.now }
        ensures { GivesOne self.now.table (spec.entry_found (scope_seen self.now) (lexeme token.now)) result self.now.table }
    {
        let known = match self.names.find(token.text) {
            None => {
                return Err(bad(FaultKind::Symbol, token.line, token.column));
            }
            Some(known) => known,
        };
        if !signature_of(&self.signatures, known.signature).is_empty() {
            return Err(bad(FaultKind::Arity, token.line, token.column));
        }
        Ok(Seen {
            sort: known.sort,
            node: known.node,
        })
    }

    // What a symbol says as the head of a list, which is no word of the language.
    fn symbol_head(&self, token: &Token<'a>) -> Result<Head, ScriptFault>
        requires { Fits self.now }
        ensures { GivesHead self.now (spec.symbol_head (scope_seen self.now) (lexeme token.now)) result }
    {
        match operator_named(self.logic, token.text) {
            Some(op) => return Ok(Head::Operator(op)),
            None => {}
        }
        match self.names.find(token.text) {
            None => Err(bad(FaultKind::Symbol, token.line, token.column)),
            Some(known) => Ok(Head::Name(known)),
        }
    }

    /// What a token says as the head of a list, where each name stands for an entry of the table. A fault of kind Sort
    /// where it is no symbol, and of kind Symbol where it is a reserved word but `let`, `forall`, `exists` and `!`, or
    /// a name that stands for nothing; each at the token.
    #[tactic(auto, unfolding(crate::specs::Terms::head_of))]
    pub fn head(&self, token: &Token<'a>) -> Result<Head, ScriptFault>
        requires { Fits self.now }
        ensures { GivesHead self.now (spec.head_of (scope_seen self.now) (lexeme token.now)) result }
    {
        if is_word(b"let", token) {
            return Ok(Head::Let);
        }
        if is_word(b"forall", token) {
            return Ok(Head::Binder(Quantifier::Forall));
        }
        if is_word(b"exists", token) {
            return Ok(Head::Binder(Quantifier::Exists));
        }
        if is_word(b"!", token) {
            return Ok(Head::Annotation);
        }
        if !is_symbol(token) {
            return Err(bad(FaultKind::Sort, token.line, token.column));
        }
        if is_reserved(token) {
            return Err(bad(FaultKind::Symbol, token.line, token.column));
        }
        self.symbol_head(token)
    }

    fn symbol_alone(&mut self, token: &Token<'a>) -> Result<Seen, ScriptFault>
        requires { Fits self.old }
        ensures gives { GivesOne self.old.table (spec.symbol_alone (scope_seen self.old) (lexeme token.now)) result self.new.table }
        ensures keeps { OnOk result (Keeps self.old self.new) }
    {
        if is_reserved(token) {
            return Err(bad(FaultKind::Symbol, token.line, token.column));
        }
        match operator_named(self.logic, token.text) {
            Some(op) => operator_alone(&mut self.table, op.shape, token.line, token.column),
            None => self.entry_alone(token),
        }
    }

    fn whole_number(&mut self, token: &Token<'a>) -> Result<Seen, ScriptFault>
        ensures gives { GivesOne self.old.table (spec.whole_number (lexeme token.now)) result self.new.table }
        ensures keeps { OnOk result (Keeps self.old self.new) }
    {
        let number = match numeral(token) {
            Ok(number) => number,
            Err(fault) => return Err(fault),
        };
        let leaf = Leaf::Number {
            num: number as i64,
            den: 1,
        };
        let node = match added(&mut self.table, Node::Leaf(leaf)) {
            Ok(node) => node,
            Err(fault) => return Err(fault),
        };
        Ok(Seen {
            sort: VarSort::Number,
            node,
        })
    }

    fn fraction(&mut self, token: &Token<'a>) -> Result<Seen, ScriptFault>
        ensures gives { GivesOne self.old.table (spec.decimal_term self.old.logic (lexeme token.now)) result self.new.table }
        ensures keeps { OnOk result (Keeps self.old self.new) }
    {
        match self.logic {
            Sort::Int => {
                return Err(bad(FaultKind::Sort, token.line, token.column));
            }
            Sort::Rat => {}
        }
        let (num, den) = match decimal(token) {
            Ok(value) => value,
            Err(fault) => return Err(fault),
        };
        let node = match added(&mut self.table, Node::Leaf(Leaf::Number { num, den })) {
            Ok(node) => node,
            Err(fault) => return Err(fault),
        };
        Ok(Seen {
            sort: VarSort::Number,
            node,
        })
    }

    /// A token as a term, where each name stands for an entry of the table. A fault at the token: Number as of
    /// `numeral` and `decimal`; Sort for a decimal among integers, or no number and no symbol; Symbol for a reserved
    /// word or a name that stands for nothing; Arity for an operator but `true` and `false`, or a definition with
    /// parameters. After a fault or want of memory nothing is said of the reader.
    #[tactic(auto, unfolding(crate::specs::Terms::atom))]
    pub fn atom(&mut self, token: &Token<'a>) -> Result<Seen, ScriptFault>
        requires { Fits self.old }
        ensures gives { GivesOne self.old.table (spec.atom (scope_seen self.old) (lexeme token.now)) result self.new.table }
        ensures keeps { OnOk result (Keeps self.old self.new) }
    {
        match token.kind {
            TokenKind::Numeral => self.whole_number(token),
            TokenKind::Decimal => self.fraction(token),
            TokenKind::Symbol => self.symbol_alone(token),
            TokenKind::Quoted => self.symbol_alone(token),
            _ => Err(bad(FaultKind::Sort, token.line, token.column)),
        }
    }
}
