//! Definitions.

ghost use Rattle.std.specs.Prelude.{◌≡◌, ◌<◌, ◌∷◌, [], List, length, map, IfOk, OnOk, Ok};
ghost use Rattle.smt_lex.specs.Place.{place};
ghost use Rattle.term_table.specs.Meaning.{meanings};
ghost use Rattle.smt_term.specs.Scope.{with_parameters, sorts_in_order};
ghost use Rattle.smt_term.specs.Reads.{Fits};
ghost use Rattle.smt_term.specs.Terms.{term};
ghost use Rattle.smt_term.specs.View.{part, part_seen, typed_at, GivesOne};
ghost use Rattle.smt_term.specs.Newest.{newest_first, IsSorted};
ghost use Rattle.smt_goal.specs.Command as spec;
ghost use Rattle.smt_goal.specs.Session.{state_seen, IsReady, Obeys, Remains, IsNamed, IsBound};

use crate::info::fault_at;
use crate::session::Session;
use lin_term::Sort;
use lin_truth::VarSort;
use smt_term::{Binding, Part, Reader, Seen, bad, is_same, part_of, sort_of, sorted};
use smt_tree::Expr;
use sqlite_items::Items;
use ss_names::{FaultKind, ScriptFault};
use std::alloc::{AllocError, Global};
use symbol_table::Known;
use term_table::Node;

// The parameters of a definition, in order.
fn params_of<'a>(
    alloc: Global,
    logic: Sort,
    part: Part<'_, 'a>,
) -> Result<Vec<Binding<'a>>, ScriptFault>
    ensures { IsSorted (spec.params_of logic (part_seen part.entry)) result }
{
    match part {
        Part::Token(token) => Err(bad(FaultKind::Sort, token.line, token.column)),
        Part::Group(_, _, items) => sorted(alloc, logic, items),
    }
}

// Adds a name for the parameter with this number.
fn bind_one<'a>(
    reader: &mut Reader<'a>,
    param: &Binding<'a>,
    number: u32,
) -> Result<(), ScriptFault>
    ensures { OnOk result (IsNamed reader.old reader.new param.now number) }
{
    let node = match reader.table.add(Node::Parameter(number)) {
        Ok(node) => node,
        Err(_) => return Err(ScriptFault::Memory),
    };
    let known = Known {
        sort: param.sort,
        node,
        signature: 0,
    };
    match reader.names.push(param.name, known) {
        Ok(_) => {}
        Err(_) => return Err(ScriptFault::Memory),
    }
    Ok(())
}

// Adds names for these parameters.
fn bind<'a>(reader: &mut Reader<'a>, params: &[Binding<'a>]) -> Result<(), ScriptFault>
    requires { Fits reader.old }
    ensures { OnOk result (IsBound reader.old reader.new params.now) }
{
    for i in 0..params.len() {
        if i >= 4_294_967_295 {
            return Err(ScriptFault::Memory);
        }
        match bind_one(reader, &params[i], i as u32) {
            Ok(_) => {}
            Err(_) => return Err(ScriptFault::Memory),
        }
    }
    Ok(())
}

fn sorts_of(alloc: Global, params: &[Binding<'_>]) -> Result<Items<VarSort>, AllocError>
    ensures { IfOk result (λ ss. ss ≡ map (λ p. p.sort) params.now) }
{
    let mut sorts = Vec::new(alloc);
    for param in params {
        sorts.push(param.sort)?;
    }
    Ok(Items::from_vec(sorts))
}

impl<'a> Session<'a> {
    // The body of a definition with these parameters.
    fn body(&mut self, params: &[Binding<'a>], expr: &Expr<'a>) -> Result<Seen, ScriptFault>
        requires { IsReady self.old }
        ensures gives { GivesOne self.old.reader.table (term (with_parameters (spec.scope_of (state_seen self.old)) (newest_first [] params.now)) (part expr.now)) result self.new.reader.table }
        ensures keeps { OnOk result (Remains self.old self.new) }
    {
        let count = self.reader.names.len();
        match bind(&mut self.reader, params) {
            Ok(_) => {}
            Err(_) => return Err(ScriptFault::Memory),
        }
        let seen = match self.reader.term(expr) {
            Ok(seen) => seen,
            Err(fault) => return Err(fault),
        };
        self.reader.names.truncate(count);
        Ok(seen)
    }

    // Adds a definition of this name.
    fn define_as(
        &mut self,
        name: &'a [u8],
        params: &[Binding<'a>],
        meaning: Seen,
    ) -> Result<(), ScriptFault>
        requires ready { IsReady self.old }
        requires below { meaning.node < length self.old.reader.table }
        ensures { Obeys (Ok (spec.with_definition (state_seen self.old) name.entry.now (sorts_in_order (newest_first [] params.now)) (typed_at (meanings self.old.reader.table) meaning))) result self.new }
    {
        let at = self.reader.signatures.len();
        if at >= 4_294_967_295 {
            return Err(ScriptFault::Memory);
        }
        let sorts = sorts_of(self.reader.alloc, params)?;
        match self.reader.signatures.push(sorts) {
            Ok(_) => {}
            Err(_) => return Err(ScriptFault::Memory),
        }
        let known = Known {
            sort: meaning.sort,
            node: meaning.node,
            signature: at as u32 + 1,
        };
        match self.reader.names.push(name, known) {
            Ok(_) => {}
            Err(_) => return Err(ScriptFault::Memory),
        }
        Ok(())
    }

    // A name, its parameters, a sort and a body.
    fn define(
        &mut self,
        name: Part<'_, 'a>,
        params: Part<'_, 'a>,
        sort: Part<'_, 'a>,
        expr: &Expr<'a>,
    ) -> Result<(), ScriptFault>
        requires { IsReady self.old }
        ensures { Obeys (spec.define_fun (state_seen self.old) (place 0 0) (part_seen name.entry ∷ part_seen params.entry ∷ part_seen sort.entry ∷ part expr.now ∷ [])) result self.new }
    {
        let name = match self.new_name(name) {
            Ok(name) => name,
            Err(fault) => return Err(fault),
        };
        let params = match params_of(self.reader.alloc, self.reader.logic, params) {
            Ok(params) => params,
            Err(fault) => return Err(fault),
        };
        let sort = match sort_of(self.reader.logic, sort) {
            Ok(sort) => sort,
            Err(fault) => return Err(fault),
        };
        let meaning = match self.body(params.as_slice(), expr) {
            Ok(meaning) => meaning,
            Err(fault) => return Err(fault),
        };
        if !is_same(meaning.sort, sort) {
            return Err(fault_at(FaultKind::Sort, part_of(expr)));
        }
        self.define_as(name, params.as_slice(), meaning)
    }

    /// `(define-fun s ((p S) ..) S t)`, from what stands behind the head.
    pub fn define_fun(
        &mut self,
        items: &[Expr<'a>],
        line: u64,
        column: u64,
    ) -> Result<(), ScriptFault>
        requires { IsReady self.old }
        ensures { Obeys (spec.define_fun (state_seen self.old) (place line column) (map part items.now)) result self.new }
    {
        if items.len() != 4 {
            return Err(bad(FaultKind::Arity, line, column));
        }
        let name = part_of(&items[0]);
        let params = part_of(&items[1]);
        let sort = part_of(&items[2]);
        self.define(name, params, sort, &items[3])
    }
}
