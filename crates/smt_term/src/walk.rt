//! Expressions as terms. The functions call each other once for each open parenthesis, at most 1,024 deep.

ghost use Rattle.std.specs.Prelude.{◌≡◌, [], length, OnOk};
ghost use Rattle.smt_lex.specs.Place.{place};
ghost use Rattle.smt_tree.specs.Seen.{all_seen};
ghost use Rattle.smt_term.specs.Terms as spec;
ghost use Rattle.smt_term.specs.Walked as parts;
ghost use Rattle.smt_term.specs.View.{GivesOne, GivesAll, part};
ghost use Rattle.smt_term.specs.Reads.{scope_seen, head_seen, Fits, Keeps, HeadIn};
ghost use Rattle.smt_term.specs.Newest.{GivesBound};

use crate::apply::divided;
use crate::binders::{first_place, quantified};
use crate::bindings::{Bound, bindings_of, pair_of, sorted};
use crate::index::index_head;
use crate::part::{Part, part_of};
use crate::reader::{Head, Reader};
use crate::seen::Seen;
use smt_tree::Expr;
use ss_names::{FaultKind, ScriptFault};
use symbol_table::{Known, Names};
use term_table::Quantifier;

impl<'a> Reader<'a> {
    /// An expression as a term, where each name stands for an entry of the table; or its first fault with kind and
    /// place, or want of memory. After either of these nothing is said of the reader.
    #[cycle(walk)]
    pub fn term(&mut self, expr: &Expr<'a>) -> Result<Seen, ScriptFault>
        requires { Fits self.old }
        ensures gives { GivesOne self.old.table (spec.term (scope_seen self.old) (part expr.now)) result self.new.table }
        ensures keeps { OnOk result (Keeps self.old self.new) }
    {
        match part_of(expr) {
            Part::Token(token) => self.atom(&token),
            Part::Group(line, column, items) => self.inside(line, column, items),
        }
    }

    // What stands in parentheses.
    #[cycle(walk)]
    fn inside(&mut self, line: u64, column: u64, items: &[Expr<'a>]) -> Result<Seen, ScriptFault>
        requires { Fits self.old }
        ensures gives { GivesOne self.old.table (spec.inside (scope_seen self.old) (place line column) (all_seen items.now)) result self.new.table }
        ensures keeps { OnOk result (Keeps self.old self.new) }
    {
        let (first, args) = match items {
            [] => {
                return Err(ScriptFault::Bad {
                    kind: FaultKind::Sort,
                    line,
                    column,
                });
            }
            [first, args @ ..] => (first, args),
        };
        match part_of(first) {
            Part::Token(token) => {
                let head = match self.head(&token) {
                    Ok(head) => head,
                    Err(fault) => return Err(fault),
                };
                self.behind(head, line, column, args)
            }
            Part::Group(l, c, index) => {
                let modulus = match index_head(self.logic, l, c, index) {
                    Ok(modulus) => modulus,
                    Err(fault) => return Err(fault),
                };
                let terms = match self.terms(args) {
                    Ok(terms) => terms,
                    Err(fault) => return Err(fault),
                };
                divided(&mut self.table, modulus, terms.as_slice(), line, column)
            }
        }
    }

    // What stands behind a head.
    #[cycle(walk)]
    fn behind(
        &mut self,
        head: Head,
        line: u64,
        column: u64,
        args: &[Expr<'a>],
    ) -> Result<Seen, ScriptFault>
        requires fits { Fits self.old }
        requires head { HeadIn (length self.old.table) head }
        ensures gives { GivesOne self.old.table (parts.behind_head (scope_seen self.old) (place line column) (head_seen self.old head) (all_seen args.now)) result self.new.table }
        ensures keeps { OnOk result (Keeps self.old self.new) }
    {
        match head {
            Head::Let => self.let_term(line, column, args),
            Head::Binder(quantifier) => self.binder(quantifier, line, column, args),
            Head::Annotation => self.annotated(line, column, args),
            Head::Operator(op) => {
                let terms = match self.terms(args) {
                    Ok(terms) => terms,
                    Err(fault) => return Err(fault),
                };
                self.operated(op, terms.as_slice(), line, column)
            }
            Head::Name(known) => {
                let terms = match self.terms(args) {
                    Ok(terms) => terms,
                    Err(fault) => return Err(fault),
                };
                self.used(known, terms.as_slice(), line, column)
            }
        }
    }

    // Expressions as terms, one after the other.
    #[cycle(walk)]
    fn terms(&mut self, items: &[Expr<'a>]) -> Result<Vec<Seen>, ScriptFault>
        requires { Fits self.old }
        ensures gives { GivesAll self.old.table (spec.terms (scope_seen self.old) [] (all_seen items.now)) result self.new.table }
        ensures keeps { OnOk result (Keeps self.old self.new) }
    {
        let mut terms = Vec::new(self.alloc);
        for item in items {
            let seen = match self.term(item) {
                Ok(seen) => seen,
                Err(fault) => return Err(fault),
            };
            terms.push(seen)?;
        }
        Ok(terms)
    }

    // The one term of a list.
    #[cycle(walk)]
    fn one(&mut self, line: u64, column: u64, items: &[Expr<'a>]) -> Result<Seen, ScriptFault>
        requires { Fits self.old }
        ensures gives { GivesOne self.old.table (parts.one_term (scope_seen self.old) (place line column) (all_seen items.now)) result self.new.table }
        ensures keeps { OnOk result (Keeps self.old self.new) }
    {
        let terms = match self.terms(items) {
            Ok(terms) => terms,
            Err(fault) => return Err(fault),
        };
        if terms.len() != 1 {
            return Err(ScriptFault::Bad {
                kind: FaultKind::Arity,
                line,
                column,
            });
        }
        Ok(terms[0])
    }

    // `!`: the term without its attributes.
    #[cycle(walk)]
    fn annotated(&mut self, line: u64, column: u64, args: &[Expr<'a>]) -> Result<Seen, ScriptFault>
        requires { Fits self.old }
        ensures gives { GivesOne self.old.table (parts.annotated_term (scope_seen self.old) (place line column) (all_seen args.now)) result self.new.table }
        ensures keeps { OnOk result (Keeps self.old self.new) }
    {
        if args.is_empty() {
            return Err(ScriptFault::Bad {
                kind: FaultKind::Arity,
                line,
                column,
            });
        }
        let seen = match self.term(&args[0]) {
            Ok(seen) => seen,
            Err(fault) => return Err(fault),
        };
        if args.len() == 1 {
            return Err(ScriptFault::Bad {
                kind: FaultKind::Arity,
                line,
                column,
            });
        }
        Ok(seen)
    }

    // `let`: all terms are read before the first name is added.
    #[cycle(walk)]
    fn let_term(&mut self, line: u64, column: u64, args: &[Expr<'a>]) -> Result<Seen, ScriptFault>
        requires { Fits self.old }
        ensures gives { GivesOne self.old.table (parts.let_term (scope_seen self.old) (place line column) (all_seen args.now)) result self.new.table }
        ensures keeps { OnOk result (Keeps self.old self.new) }
    {
        let (items, body) = match bindings_of(line, column, args) {
            Ok(found) => found,
            Err(fault) => return Err(fault),
        };
        let read = {
            let mut taken = Names::new(self.alloc);
            self.bound(&mut taken, items)
        };
        let bound = match read {
            Ok(bound) => bound,
            Err(fault) => return Err(fault),
        };
        let outer = self.names.len();
        match self.add_bound(bound.as_slice()) {
            Ok(_) => {}
            Err(_) => return Err(ScriptFault::Memory),
        }
        let seen = match self.one(line, column, body) {
            Ok(seen) => seen,
            Err(fault) => return Err(fault),
        };
        self.names.truncate(outer);
        Ok(seen)
    }

    // The names of a `let` with their terms, in order.
    #[cycle(walk)]
    fn bound(
        &mut self,
        taken: &mut Names<'a>,
        items: &[Expr<'a>],
    ) -> Result<Vec<Bound<'a>>, ScriptFault>
        requires fits { Fits self.old }
        requires none { taken.old ≡ [] }
        ensures gives { GivesBound self.old.table (parts.let_names (scope_seen self.old) [] (all_seen items.now)) result self.new.table }
        ensures keeps { OnOk result (Keeps self.old self.new) }
    {
        let mut bound = Vec::new(self.alloc);
        for item in items {
            let (name, value) = match pair_of(self.logic, taken, item) {
                Ok(pair) => pair,
                Err(fault) => return Err(fault),
            };
            let seen = match self.term(value) {
                Ok(seen) => seen,
                Err(fault) => return Err(fault),
            };
            let known = Known {
                sort: seen.sort,
                node: seen.node,
                signature: 0,
            };
            match taken.push(name, known) {
                Ok(_) => {}
                Err(_) => return Err(ScriptFault::Memory),
            }
            bound.push(Bound { name, seen })?;
        }
        Ok(bound)
    }

    // `forall` and `exists`.
    #[cycle(walk)]
    fn binder(
        &mut self,
        quantifier: Quantifier,
        line: u64,
        column: u64,
        args: &[Expr<'a>],
    ) -> Result<Seen, ScriptFault>
        requires { Fits self.old }
        ensures gives { GivesOne self.old.table (parts.binder_term (scope_seen self.old) (place line column) quantifier (all_seen args.now)) result self.new.table }
        ensures keeps { OnOk result (Keeps self.old self.new) }
    {
        let (items, body) = match bindings_of(line, column, args) {
            Ok(found) => found,
            Err(fault) => return Err(fault),
        };
        let variables = match sorted(self.alloc, self.logic, items) {
            Ok(variables) => variables,
            Err(fault) => return Err(fault),
        };
        let before = self.names.len();
        let around = self.around;
        match self.add_variables(variables.as_slice()) {
            Ok(_) => {}
            Err(_) => return Err(ScriptFault::Memory),
        }
        let seen = match self.one(line, column, body) {
            Ok(seen) => seen,
            Err(fault) => return Err(fault),
        };
        self.names.truncate(before);
        self.around = around;
        let at = first_place(line, column, body);
        let list = variables.as_slice();
        quantified(
            self.alloc,
            &mut self.table,
            around,
            quantifier,
            list,
            seen,
            at.0,
            at.1,
        )
    }
}
